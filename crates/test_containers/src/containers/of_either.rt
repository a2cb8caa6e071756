//! Tests: pairs of containers of each shape, collected from values of `Either`.

use super::{
    BTreeMaps, BTreeSets, FoldState, IndexMaps, IndexSets, VecDeques, Vecs, check, check_hash_maps,
    check_hash_sets,
};
use either_or_both::Either::{Left, Right};
use either_or_both::{Either, EitherOrBoth};
use std::collections::BTreeSet;
use std::test::Fail;

/// Values, and what they are collected into: lists, sets in the order of insertion, and sets in the order of their values.
#[rattlefmt::skip]
static VALUES: [(&[Either<u8, char>], &str, &str, &str); 1] = [
    // values
        // lists                  by insertion         by order
    (&[Left(3), Left(1), Left(3)],
        "Left([3, 1, 3])",        "Left({3, 1})",      "Left({1, 3})"),
];

/// Vectors and queues hold what came in order, and sets hold it once, in the order of first places or in that of the values.
#[test]
fn lists_and_sets_hold_what_came(rt: HostRuntime) -> Result<(), Fail> {
    let alloc = rt.alloc();
    for (values, lists, inserted, ordered) in VALUES.iter().copied() {
        check::<Vecs, _>(alloc, "Vec", values, lists)?;
        check::<VecDeques, _>(alloc, "VecDeque", values, lists)?;
        check::<IndexSets, _>(alloc, "IndexSet", values, inserted)?;
        check::<BTreeSets, _>(alloc, "BTreeSet", values, ordered)?;
        check_hash_sets::<u8, char, FoldState, _>(alloc, "HashSet", values, ordered)?;
    }
    Ok(())
}

/// Entries, and the maps that they are collected into: in the order of insertion, and in the order of their keys.
#[rattlefmt::skip]
static ENTRIES: [(&[Either<(u8, u8), (u8, char)>], &str, &str); 1] = [
    // entries
        // by insertion            by keys
    (&[Left((2, 7)), Left((1, 8)), Left((2, 9))],
        "Left({2: 9, 1: 8})",      "Left({1: 8, 2: 9})"),
];

/// A key has the value of its last place, in the order of first places or in that of the keys.
#[test]
fn keys_have_the_value_of_their_last_place(rt: HostRuntime) -> Result<(), Fail> {
    let alloc = rt.alloc();
    for (entries, inserted, ordered) in ENTRIES.iter().copied() {
        check::<IndexMaps<u8>, _>(alloc, "IndexMap", entries, inserted)?;
        check::<BTreeMaps<u8>, _>(alloc, "BTreeMap", entries, ordered)?;
        check_hash_maps::<u8, FoldState, _>(alloc, "HashMap", entries, ordered)?;
    }
    Ok(())
}

/// Ordered sets whose sides have one type keep the side of each value.
#[test]
fn values_keep_their_side_where_both_have_one_type(rt: HostRuntime) -> Result<(), Fail> {
    let alloc = rt.alloc();
    let left = [Left(3), Left(1), Left(3)];
    check::<EitherOrBoth<BTreeSet<u8>>, _>(alloc, "BTreeSet", &left, "Left({1, 3})")?;
    let right = [Right(3), Right(1), Right(3)];
    check::<EitherOrBoth<BTreeSet<u8>>, _>(alloc, "BTreeSet", &right, "Right({1, 3})")?;
    Ok(())
}
