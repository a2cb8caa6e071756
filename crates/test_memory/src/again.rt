//! Tests: collecting again, with each request for memory refused in turn.
//!
//! What is tested is its form with any allocator, with memory of the tests' own.

use crate::shapes::Given::Pair;
use crate::shapes::{Wanted, lists_and_sets, maps};
use crate::token::list;
use std::test::Fail;
use testkit::memory::{Refusing, Tokens};

/// A pair that is handed in is dropped where memory is refused, of each shape of lists and sets.
#[test]
fn lists_and_sets_are_collected_again(rt: HostRuntime) -> Result<(), Fail> {
    let alloc = rt.alloc();
    let m = &Refusing::new(alloc);
    let t = &Tokens::new(alloc)?;
    let left = &list(alloc, t, &[2, 1])?;
    let single = &list(alloc, t, &[2])?;
    let right = &list(alloc, t, &[3])?;
    let lists = "Both([2, 1], [3])";
    let sets = Wanted {
        hashed: "Both({2}, {3})",
        inserted: "Both({2, 1}, {3})",
        ordered: "Both({1, 2}, {3})",
    };
    lists_and_sets(
        alloc,
        m,
        t,
        &Pair(left, right),
        &Pair(single, right),
        lists,
        sets,
    )
}

/// The same of each shape of maps.
#[test]
fn maps_are_collected_again(rt: HostRuntime) -> Result<(), Fail> {
    let alloc = rt.alloc();
    let m = &Refusing::new(alloc);
    let t = &Tokens::new(alloc)?;
    let left = &list(alloc, t, &[(2, 1), (1, 2)])?;
    let single = &list(alloc, t, &[(2, 1)])?;
    let right = &list(alloc, t, &[(3, 3)])?;
    let want = Wanted {
        hashed: "Both({2: 1}, {3: 3})",
        inserted: "Both({2: 1, 1: 2}, {3: 3})",
        ordered: "Both({1: 2, 2: 1}, {3: 3})",
    };
    maps(alloc, m, t, &Pair(left, right), &Pair(single, right), want)
}
