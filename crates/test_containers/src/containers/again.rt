//! Tests: pairs of containers of each shape, walked side by side and collected again.
ghost use Rattle.std.specs.Prelude.{List};

use super::{
    BTreeMaps, BTreeSets, IndexMaps, IndexSets, VecDeques, Vecs, rising_maps, rising_sets, shows,
};
use either_or_both::EitherOrBoth;
use either_or_both::EitherOrBoth::{Both, Left, Right};
use either_or_both::laws::{
    recollect_btree_map, recollect_btree_set, recollect_hash_map, recollect_hash_set,
    recollect_index_map, recollect_index_set, recollect_vec, recollect_vec_deque,
};
use std::alloc::{AllocError, Global};
use std::collections::{HashMap, HashSet};
use std::test::Fail;

/// A pair of containers with these sides.
fn build<
    L: Copy,
    R: Copy,
    C: FromIterator<L, Alloc = Global> + Drop,
    D: FromIterator<R, Alloc = Global>,
>(alloc: Global, sides: EitherOrBoth<&[L], &[R]>) -> Result<EitherOrBoth<C, D>, AllocError>
    requires left { (xs : List L) → C.can_from_iter xs }
    requires right { (xs : List R) → D.can_from_iter xs }
{
    match sides {
        Left(l) => Ok(Left(l.iter().copied().collect(alloc)?)),
        Both(l, r) => Ok(Both(
            l.iter().copied().collect(alloc)?,
            r.iter().copied().collect(alloc)?,
        )),
        Right(r) => Ok(Right(r.iter().copied().collect(alloc)?)),
    }
}

type Lists<L, R> = EitherOrBoth<&'static [L], &'static [R]>;

/// The sides of a pair, and what it is when it was collected again: of lists, of sets in the order of insertion, and of sets in the order
/// of their values.
#[rattlefmt::skip]
static VALUES: [(Lists<u8, char>, &str, &str, &str); 7] = [
    // sides                lists                  by insertion           by order
    (Both(&[], &[]),        "Both([], [])",        "Both({}, {})",        "Both({}, {})"),
    (Left(&[]),             "Both([], [])",        "Both({}, {})",        "Both({}, {})"),
    (Right(&[]),            "Both([], [])",        "Both({}, {})",        "Both({}, {})"),
    (Both(&[1], &[]),       "Left([1])",           "Left({1})",           "Left({1})"),
    (Both(&[], &['c']),     "Right(['c'])",        "Right({'c'})",        "Right({'c'})"),
    (Right(&['c']),         "Right(['c'])",        "Right({'c'})",        "Right({'c'})"),
    (Both(&[2, 1], &['c']), "Both([2, 1], ['c'])", "Both({2, 1}, {'c'})", "Both({1, 2}, {'c'})"),
];

/// Lists and sets that are collected again keep what they hold, and an empty side is given up where the other one is not empty.
#[test]
fn lists_and_sets_are_kept(rt: HostRuntime) -> Result<(), Fail> {
    let alloc = rt.alloc();
    for (sides, lists, inserted, ordered) in VALUES.iter().copied() {
        let pair: Vecs = build(alloc, sides)?;
        let again = recollect_vec(alloc, pair);
        shows(alloc, "Vec", sides, again, lists)?;
        let pair: VecDeques = build(alloc, sides)?;
        let again = recollect_vec_deque(alloc, pair);
        shows(alloc, "VecDeque", sides, again, lists)?;
        let pair: IndexSets = build(alloc, sides)?;
        let again = recollect_index_set(alloc, pair);
        shows(alloc, "IndexSet", sides, again, inserted)?;
        let pair: BTreeSets = build(alloc, sides)?;
        let again = recollect_btree_set(alloc, pair);
        shows(alloc, "BTreeSet", sides, again, ordered)?;
        let pair: EitherOrBoth<HashSet<u8>, HashSet<char>> = build(alloc, sides)?;
        let again = rising_sets(alloc, recollect_hash_set(alloc, pair)?);
        shows(alloc, "HashSet", sides, again, ordered)?;
    }
    Ok(())
}

/// The sides of a pair of maps, and what it is when it was collected again: in the order of insertion, and in the order of the keys.
#[rattlefmt::skip]
static ENTRIES: [(Lists<(u8, u8), (u8, char)>, &str, &str); 7] = [
    // sides                               by insertion                    by keys
    (Both(&[], &[]),                       "Both({}, {})",                 "Both({}, {})"),
    (Left(&[]),                            "Both({}, {})",                 "Both({}, {})"),
    (Right(&[]),                           "Both({}, {})",                 "Both({}, {})"),
    (Both(&[(1, 7)], &[]),                 "Left({1: 7})",                 "Left({1: 7})"),
    (Both(&[], &[(1, 'a')]),               "Right({1: 'a'})",              "Right({1: 'a'})"),
    (Left(&[(1, 7)]),                      "Left({1: 7})",                 "Left({1: 7})"),
    (Both(&[(2, 7), (1, 8)], &[(1, 'a')]), "Both({2: 7, 1: 8}, {1: 'a'})", "Both({1: 8, 2: 7}, {1: 'a'})"),
];

/// Maps that are collected again keep what they hold, and an empty side is given up where the other one is not empty.
#[test]
fn maps_are_kept(rt: HostRuntime) -> Result<(), Fail> {
    let alloc = rt.alloc();
    for (sides, inserted, ordered) in ENTRIES.iter().copied() {
        let pair: IndexMaps<u8> = build(alloc, sides)?;
        let again = recollect_index_map(alloc, pair);
        shows(alloc, "IndexMap", sides, again, inserted)?;
        let pair: BTreeMaps<u8> = build(alloc, sides)?;
        let again = recollect_btree_map(alloc, pair);
        shows(alloc, "BTreeMap", sides, again, ordered)?;
        let pair: EitherOrBoth<HashMap<u8, u8>, HashMap<u8, char>> = build(alloc, sides)?;
        let again = rising_maps(alloc, recollect_hash_map(alloc, pair)?);
        shows(alloc, "HashMap", sides, again, ordered)?;
    }
    Ok(())
}
