//! A list of values brought into its one normal form: the values that are both first, and then those of one side.
//!
//! Here are the calls. What follows of them stands in [`laws`](crate::laws).
ghost use Rattle.std.specs.Prelude.{◌≡◌, ◌≤◌, ◌↔◌, true, length, All, IfOk, IsTrue};
ghost use Rattle.std.specs.List.{prefix_len};
ghost use Rattle.eob_both.specs.Aligned.{aligned};
ghost use Rattle.eob_both.specs.Sides.{lefts, rights};
ghost use Rattle.eob_lists.specs.Normal.{is_both, is_left, is_right, IsNormal, IsOneSided};

use crate::EitherOrBoth;
use std::alloc::{AllocError, Allocator};

/// Returns the left values and the right values of a list lined up again, first with first: what collecting it into vectors and
/// iterating over these side by side gives. Takes memory for both sides and for the list that they make.
///
/// # Errors
///
/// `AllocError` where a request for memory was refused: then the values are dropped.
///
/// # Examples
///
/// ```
/// let list = vec![in alloc; EitherOrBoth::Left(1), EitherOrBoth::Right('a'), EitherOrBoth::Left(2)]?;
/// let lined_up = vec![in alloc; EitherOrBoth::Both(1, 'a'), EitherOrBoth::Left(2)]?;
/// assert_eq!(rt; regroup(alloc, list)?, lined_up);
/// ```
pub fn regroup<L: Drop, R: Drop, A: Allocator + Copy>(
    alloc: A,
    list: Vec<EitherOrBoth<L, R>, A>,
) -> Result<Vec<EitherOrBoth<L, R>, A>, AllocError>
    ensures { IfOk result (λ made. made.items ≡ aligned (lefts list.items) (rights list.items)) }
{
    let (left, right) = split_sides(alloc, list)?;
    line_up(alloc, left, right)
}

// The left values and the right values of a list. No side is longer than the list, so neither vector grows, as those of `collect` do,
// which takes twice as long.
fn split_sides<L: Drop, R: Drop, A: Allocator + Copy>(
    alloc: A,
    list: Vec<EitherOrBoth<L, R>, A>,
) -> Result<(Vec<L, A>, Vec<R, A>), AllocError>
    ensures { IfOk result (λ sides. (sides.0.items ≡ lefts list.items)
        × (sides.1.items ≡ rights list.items)) }
{
    let mut left = Vec::with_capacity(alloc, list.len())?;
    let mut right = Vec::with_capacity(alloc, list.len())?;
    for value in list {
        match value {
            EitherOrBoth::Left(l) => left.push(l)?,
            EitherOrBoth::Both(l, r) => {
                left.push(l)?;
                right.push(r)?;
            }
            EitherOrBoth::Right(r) => right.push(r)?,
        }
    }
    Ok((left, right))
}

// The values of both vectors side by side. Pushed one by one: std's collecting may take a refused request for the end.
fn line_up<L: Drop, R: Drop, A: Allocator>(
    alloc: A,
    left: Vec<L, A>,
    right: Vec<R, A>,
) -> Result<Vec<EitherOrBoth<L, R>, A>, AllocError>
    ensures { IfOk result (λ made. made.items ≡ aligned left.items right.items) }
{
    let mut lined_up = Vec::with_capacity(alloc, left.len().max(right.len()))?;
    for value in EitherOrBoth::Both(left, right).into_iter_swap() {
        lined_up.push(value)?;
    }
    Ok(lined_up)
}

/// Returns `true` if the values before some place are `Both`, and those from it on are `Left` alone or `Right` alone: the lists that
/// [`regroup`] leaves as they are. Takes no memory.
///
/// # Examples
///
/// ```
/// assert!(rt; is_normal(&[EitherOrBoth::Both(1, 'a'), EitherOrBoth::Left(2)]));
/// assert!(rt; !is_normal(&[EitherOrBoth::Left(1), EitherOrBoth::Right('a')]));
/// ```
pub fn is_normal<L, R>(list: &[EitherOrBoth<L, R>]) -> bool
    ensures { IsTrue result ↔ IsNormal list.now }
{
    is_one_sided(&list[leading_boths(list)..])
}

// How many values at the front are both.
fn leading_boths<L, R>(list: &[EitherOrBoth<L, R>]) -> usize
    ensures count { result ≡ prefix_len is_both list.now }
    ensures within { result ≤ length list.now }
{
    list.iter().take_while(|value| value.is_both()).count()
}

// Whether each value is a left value alone, or each is a right value alone.
fn is_one_sided<L, R>(list: &[EitherOrBoth<L, R>]) -> bool
    ensures { IsTrue result ↔ IsOneSided list.now }
{
    all_left(list) || all_right(list)
}

fn all_left<L, R>(list: &[EitherOrBoth<L, R>]) -> bool
    ensures { IsTrue result ↔ All (λ x. is_left x ≡ true) list.now }
{
    list.iter().all(|value| value.is_left())
}

fn all_right<L, R>(list: &[EitherOrBoth<L, R>]) -> bool
    ensures { IsTrue result ↔ All (λ x. is_right x ≡ true) list.now }
{
    list.iter().all(|value| value.is_right())
}
