//! Tests: pairs of vectors, collected from values of either enum whose source has a hint that tells next to nothing.

use either_or_both::EitherOrBoth::{Both, Left, Right};
use either_or_both::{Either, EitherOrBoth};
use std::alloc::AllocError;
use std::fmt::Debug;
use std::process::Abort;

type Pair = EitherOrBoth<Vec<u8>, Vec<char>>;

type Sides = EitherOrBoth<&'static [u8], &'static [char]>;

// The pair that came of these values has these sides.
fn check<S: Debug + Copy>(rt: &impl Abort, values: S, pair: Pair, want: Sides) {
    let sides = pair.as_ref().bimap(|l| l.as_slice(), |r| r.as_slice());
    assert_eq!(rt; sides, want, "{values:?}");
}

/// The items of a list, with a hint that is true and tells next to nothing: memory for as many items as it allows is never to
/// be had.
#[derive(Drop)]
pub struct Vague<'a, T>(pub &'a [T]);

impl<'a, T: Copy> Iterator for Vague<'a, T> {
    type Item = T;

    ghost use Rattle.std.specs.Prelude.{length};
    ghost use Rattle.std.specs.Iterator.{at_most};

    ghost remaining = { λ s. at_most (length s.0.now) };

    fn next(&mut self) -> Option<T> {
        let (first, rest) = self.0.split_first()?;
        self.0 = rest;
        Some(*first)
    }

    fn size_hint(&self) -> (usize, Option<usize>) {
        (0, Some(usize::MAX))
    }
}

/// No memory is taken for items that a hint allows and that do not come.
#[test]
fn no_memory_is_taken_on_a_hint(rt: HostRuntime) -> Result<(), AllocError> {
    let alloc = rt.alloc();
    let want: Sides = Both(&[1], &['c']);
    let values = [Left(1), Right('c')];
    check(&rt, &values, Vague(&values).collect(alloc)?, want);
    let values = [Either::Left(1), Either::Right('c')];
    check(&rt, &values, Vague(&values).collect(alloc)?, want);
    Ok(())
}
