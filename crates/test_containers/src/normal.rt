//! Tests of regrouping and of the normal form.

use either_or_both::EitherOrBoth::{self, Both, Left, Right};
use either_or_both::laws::{is_normal, regroup};
use std::alloc::{AllocError, Global};
use std::process::Abort;
use std::test::Fail;

type List = &'static [EitherOrBoth<u8, char>];

/// Lists, what regrouping makes of each, and whether it is normal as it stands.
#[rattlefmt::skip]
static LISTS: [(List, List, bool); 9] = [
    // list                           regrouped                     normal
    (&[],                             &[],                          true),
    (&[Left(1), Right('a'), Left(2)], &[Both(1, 'a'), Left(2)],     false),
    (&[Both(1, 'a'), Left(2)],        &[Both(1, 'a'), Left(2)],     true),
    (&[Right('a'), Right('b')],       &[Right('a'), Right('b')],    true),
    (&[Left(1), Both(2, 'a')],        &[Both(1, 'a'), Left(2)],     false),
    (&[Left(1), Right('a')],          &[Both(1, 'a')],              false),
    (&[Both(1, 'a'), Right('c')],     &[Both(1, 'a'), Right('c')],  true),
    (&[Right('a'), Both(1, 'b')],     &[Both(1, 'a'), Right('b')],  false),
    (&[Left(1), Left(2), Left(3)],    &[Left(1), Left(2), Left(3)], true),
];

// The list, regrouped, which gives what is wanted.
fn regrouped(
    rt: &impl Abort,
    alloc: Global,
    list: &[EitherOrBoth<u8, char>],
    want: List,
) -> Result<Vec<EitherOrBoth<u8, char>>, AllocError> {
    let regrouped = regroup(alloc, list.to_vec(alloc)?)?;
    assert_eq!(rt; regrouped.as_slice(), want, "{list:?}");
    Ok(regrouped)
}

/// Regrouping puts the left and the right values side by side again, gives a normal list, and leaves a normal one as it is.
#[test]
fn regrouping_gives_a_normal_list(rt: HostRuntime) -> Result<(), Fail> {
    let alloc = rt.alloc();
    for (list, want, normal) in LISTS.iter().copied() {
        assert_eq!(rt; is_normal(list), normal, "{list:?}");
        let once = regrouped(&rt, alloc, list, want)?;
        assert!(rt; is_normal(&once), "{list:?}");
        let _twice = regrouped(&rt, alloc, &once, want)?;
    }
    Ok(())
}
