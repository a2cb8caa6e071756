//! Tests: an accumulator with memory of its own.

use either_or_both::EitherOrBoth::Both;
use std::alloc::AllocError;

/// An accumulator that owns memory is a list to which each value is pushed.
#[test]
fn accumulator_may_own_memory(rt: HostRuntime) -> Result<(), AllocError> {
    let alloc = rt.alloc();
    let mut list = Vec::new(alloc);
    Both(1, 'c').biapply_with(
        &mut list,
        |list: &mut Vec<u32>, l: u32| {
            let _ = list.push(l);
        },
        |list: &mut Vec<u32>, r: char| {
            let _ = list.push(r as u32);
        },
    );
    assert_eq!(rt; list.as_slice(), [1, 99].as_slice());
    Ok(())
}
