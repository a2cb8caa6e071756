//! The test of a paired walk that is taken from both ends in turn.

use either_or_both::EitherOrBoth::{self, Both, Left, Right};
use eob_known_lists::drive::take_swap_in_turn;
use std::alloc::Global;
use std::process::Abort;
use std::test::Fail;

/// Two lists of these lengths, which count up, taken in turn from both ends: the first half comes from the front, the other half
/// from the back, last first, and the odd one from the front.
fn taken_in_turn(rt: &impl Abort, alloc: Global, l: u32, r: u32) -> Result<(), Fail> {
    let pair: EitherOrBoth<Vec<u32>, Vec<u32>> = Both(
        (0..l).collect(alloc)?,
        (0..r).collect(alloc)?,
    );
    let (fronts, backs) = take_swap_in_turn(alloc, pair)?;
    let count = l.max(r);
    let half = count.div_ceil(2);
    let item = |at: u32| match (at < l, at < r) {
        (true, true) => Some(Both(at, at)),
        (true, false) => Some(Left(at)),
        (false, true) => Some(Right(at)),
        (false, false) => None,
    };
    let first: Vec<Option<EitherOrBoth<u32, u32>>> = (0..half).map(item).collect(alloc)?;
    let last: Vec<Option<EitherOrBoth<u32, u32>>> = (half..count).rev().map(item).collect(alloc)?;
    assert!(rt; fronts.iter().copied().map(Some).eq(first));
    assert!(rt; backs.iter().copied().map(Some).eq(last));
    Ok(())
}

/// Half of the items come from each end, whichever side is longer, and with some hundred items.
#[test]
fn halves_come_from_both_ends(rt: HostRuntime) -> Result<(), Fail> {
    let alloc = rt.alloc();
    for l in 0..5u32 {
        for r in 0..5u32 {
            taken_in_turn(&rt, alloc, l, r)?;
        }
    }
    taken_in_turn(&rt, alloc, 300, 171)?;
    taken_in_turn(&rt, alloc, 2, 301)
}
