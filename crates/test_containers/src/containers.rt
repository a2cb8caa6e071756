//! Tests: pairs of containers of each shape, collected from values of either enum.
//!
//! Every source of values here has a hint that is true and tells next to nothing. A pair of hashed containers is printed in the order
//! of its keys.
ghost use Rattle.std.specs.Prelude.{List};
ghost use Rattle.std.specs.Hash as fed;
ghost use Rattle.std.specs.Cmp.Rules.{hashing};
ghost use Rattle.std.proofs.Common.{rules};

mod again;
mod of_either;
mod orders;

use crate::collecting::Vague;
use either_or_both::EitherOrBoth;
use either_or_both::EitherOrBoth::{Both, Left, Right};
use indexmap::{IndexMap, IndexSet};
use std::alloc::{AllocError, Global};
use std::collections::{BTreeMap, BTreeSet, HashMap, HashSet, VecDeque};
use std::fmt::{self, Debug, Formatter, Write};
use std::hash::{BuildHasher, BuildHasherDefault, FoldHasher, Hash, Hasher};
use std::test::Fail;
use testkit::counts::WriteCount;
use testkit::same::same;

type ByCounting = BuildHasherDefault<WriteCount>;

type FoldState = BuildHasherDefault<FoldHasher>;

type Vecs = EitherOrBoth<Vec<u8>, Vec<char>>;

type VecDeques = EitherOrBoth<VecDeque<u8>, VecDeque<char>>;

type IndexSets<S = FoldState> = EitherOrBoth<IndexSet<u8, S>, IndexSet<char, S>>;

type BTreeSets = EitherOrBoth<BTreeSet<u8>, BTreeSet<char>>;

type IndexMaps<K, S = FoldState> = EitherOrBoth<IndexMap<K, u8, S>, IndexMap<K, char, S>>;

type BTreeMaps<K> = EitherOrBoth<BTreeMap<K, u8>, BTreeMap<K, char>>;

/// A key that feeds every hasher the same, and shows as its number.
#[derive(Clone, Copy, PartialEq, Eq, PartialOrd, Ord, Drop)]
struct Alike(u8);

impl Hash for Alike {
    ghost hash_input = { λ _. fed.u8 0 };

    ghost respects_eq = { Prim.search (hashing, rules) };

    fn hash<H: Hasher>(&self, state: &mut H) {
        state.write_u8(0);
    }
}

impl Debug for Alike {
    fn fmt<W: Write>(&self, f: &mut Formatter<W>) -> fmt::Result {
        self.0.fmt(f)
    }
}

// A hashed set, in the order of its values.
fn rising_set<T: Hash + Ord + Drop, S: BuildHasher + Drop>(
    alloc: Global,
    set: HashSet<T, S>,
) -> Result<BTreeSet<T>, AllocError> {
    set.into_iter().collect(alloc)
}

/// A pair of hashed sets, in the order of their values.
fn rising_sets<L: Hash + Ord + Drop, R: Hash + Ord + Drop, S: BuildHasher + Drop>(
    alloc: Global,
    pair: EitherOrBoth<HashSet<L, S>, HashSet<R, S>>,
) -> Result<EitherOrBoth<BTreeSet<L>, BTreeSet<R>>, AllocError> {
    match pair {
        Left(l) => Ok(Left(rising_set(alloc, l)?)),
        Both(l, r) => Ok(Both(rising_set(alloc, l)?, rising_set(alloc, r)?)),
        Right(r) => Ok(Right(rising_set(alloc, r)?)),
    }
}

// A hashed map, in the order of its keys.
fn rising_map<K: Hash + Ord + Drop, V: Drop, S: BuildHasher + Drop>(
    alloc: Global,
    map: HashMap<K, V, S>,
) -> Result<BTreeMap<K, V>, AllocError> {
    map.into_iter().collect(alloc)
}

/// A pair of hashed maps, in the order of their keys.
fn rising_maps<K: Hash + Ord + Drop, S: BuildHasher + Drop>(
    alloc: Global,
    pair: EitherOrBoth<HashMap<K, u8, S>, HashMap<K, char, S>>,
) -> Result<EitherOrBoth<BTreeMap<K, u8>, BTreeMap<K, char>>, AllocError> {
    match pair {
        Left(l) => Ok(Left(rising_map(alloc, l)?)),
        Both(l, r) => Ok(Both(rising_map(alloc, l)?, rising_map(alloc, r)?)),
        Right(r) => Ok(Right(rising_map(alloc, r)?)),
    }
}

fn shown<P: Debug>(alloc: Global, pair: &P) -> Result<String, AllocError> {
    format!(in alloc; "{pair:?}")
}

// What comes of a row's source in this shape is a pair, and shows as the row says.
fn shows<S: Debug + Copy, P: Debug + Drop>(
    alloc: Global,
    shape: &str,
    source: S,
    ended: Result<P, AllocError>,
    want: &str,
) -> Result<(), Fail> {
    let shown = shown(alloc, &ended?)?;
    same(shape, &source, &shown.as_str(), &want)
}

// The items of a row, collected into this shape, show as the row says.
fn check<P: FromIterator<I, Alloc = Global> + Debug + Drop, I: Debug + Copy>(
    alloc: Global,
    shape: &str,
    items: &[I],
    want: &str,
) -> Result<(), Fail>
    requires { (xs : List I) → P.can_from_iter xs }
{
    let ended: Result<P, AllocError> = Vague(items).collect(alloc);
    shows(alloc, shape, items, ended, want)
}

// The same of hashed sets, which show in the order of their values.
fn check_hash_sets<
    L: Hash + Ord + Debug + Drop,
    R: Hash + Ord + Debug + Drop,
    S: BuildHasher + Drop,
    I: Debug + Copy,
>(alloc: Global, shape: &str, items: &[I], want: &str) -> Result<(), Fail>
where
    EitherOrBoth<HashSet<L, S>, HashSet<R, S>>: FromIterator<I, Alloc = Global>,
    requires { (xs : List I)
        → ⟦<EitherOrBoth<HashSet<L, S>, HashSet<R, S>> as FromIterator<I>>⟧.can_from_iter xs }
{
    let pair: EitherOrBoth<HashSet<L, S>, HashSet<R, S>> = Vague(items).collect(alloc)?;
    shows(alloc, shape, items, rising_sets(alloc, pair), want)
}

// The same of hashed maps, which show in the order of their keys.
fn check_hash_maps<K: Hash + Ord + Debug + Drop, S: BuildHasher + Drop, I: Debug + Copy>(
    alloc: Global,
    shape: &str,
    items: &[I],
    want: &str,
) -> Result<(), Fail>
where
    EitherOrBoth<HashMap<K, u8, S>, HashMap<K, char, S>>: FromIterator<I, Alloc = Global>,
    requires { (xs : List I)
        → ⟦<EitherOrBoth<HashMap<K, u8, S>, HashMap<K, char, S>> as FromIterator<I>>⟧.can_from_iter xs }
{
    let pair: EitherOrBoth<HashMap<K, u8, S>, HashMap<K, char, S>> = Vague(items).collect(alloc)?;
    shows(alloc, shape, items, rising_maps(alloc, pair), want)
}

/// Values, and what they are collected into: lists, sets in the order of insertion, and sets in the order of their values.
#[rattlefmt::skip]
static VALUES: [(&[EitherOrBoth<u8, char>], &str, &str, &str); 2] = [
    // values
        // lists                  by insertion           by order
    (&[Right('m'), Right('c'), Right('m')],
        "Right(['m', 'c', 'm'])", "Right({'m', 'c'})",   "Right({'c', 'm'})"),
    (&[Both(2, 'c'), Left(1), Left(2)],
        "Both([2, 1, 2], ['c'])", "Both({2, 1}, {'c'})", "Both({1, 2}, {'c'})"),
];

/// Vectors and queues hold what came in order, and sets hold it once, in the order of first places or in that of the values.
#[test]
fn lists_and_sets_hold_what_came(rt: HostRuntime) -> Result<(), Fail> {
    let alloc = rt.alloc();
    for (values, lists, inserted, ordered) in VALUES.iter().copied() {
        check::<Vecs, _>(alloc, "Vec", values, lists)?;
        check::<VecDeques, _>(alloc, "VecDeque", values, lists)?;
        check::<IndexSets, _>(alloc, "IndexSet", values, inserted)?;
        check::<BTreeSets, _>(alloc, "BTreeSet", values, ordered)?;
        check_hash_sets::<u8, char, FoldState, _>(alloc, "HashSet", values, ordered)?;
    }
    Ok(())
}

/// Sets with a hasher of their own hold the same.
#[test]
fn sets_with_a_hasher_of_their_own_hold_the_same(rt: HostRuntime) -> Result<(), Fail> {
    let alloc = rt.alloc();
    for (values, _, inserted, ordered) in VALUES.iter().copied() {
        check::<IndexSets<ByCounting>, _>(alloc, "IndexSet", values, inserted)?;
        check_hash_sets::<u8, char, ByCounting, _>(alloc, "HashSet", values, ordered)?;
    }
    Ok(())
}

type Entries<K> = &'static [EitherOrBoth<(K, u8), (K, char)>];

/// Entries, and the maps that they are collected into: in the order of insertion, and in the order of their keys.
#[rattlefmt::skip]
static ENTRIES: [(Entries<u8>, &str, &str); 1] = [
    // entries
        // by insertion                 by keys
    (&[Left((2, 7)), Both((1, 8), (3, 'z')), Left((2, 9))],
        "Both({2: 9, 1: 8}, {3: 'z'})", "Both({1: 8, 2: 9}, {3: 'z'})"),
];

const ONE: Alike = Alike(1);

const TWO: Alike = Alike(2);

/// The same of keys that all hash alike.
#[rattlefmt::skip]
static ENTRIES_ALIKE: [(Entries<Alike>, &str, &str); 2] = [
    // entries
        // by insertion                 by keys
    (&[Left((ONE, 7)), Left((TWO, 8)), Left((ONE, 9))],
        "Left({1: 9, 2: 8})",           "Left({1: 9, 2: 8})"),
    (&[Both((TWO, 7), (TWO, 'x')), Both((ONE, 8), (TWO, 'y'))],
        "Both({2: 7, 1: 8}, {2: 'y'})", "Both({1: 8, 2: 7}, {2: 'y'})"),
];

// Collects the entries of each row into maps of each shape.
fn check_entries<K: Hash + Ord + Debug + Copy + Drop>(
    alloc: Global,
    rows: &[(Entries<K>, &str, &str)],
) -> Result<(), Fail> {
    for (entries, inserted, ordered) in rows.iter().copied() {
        check::<IndexMaps<K>, _>(alloc, "IndexMap", entries, inserted)?;
        check::<BTreeMaps<K>, _>(alloc, "BTreeMap", entries, ordered)?;
        check_hash_maps::<K, FoldState, _>(alloc, "HashMap", entries, ordered)?;
        check::<IndexMaps<K, ByCounting>, _>(alloc, "IndexMap by Counting", entries, inserted)?;
        check_hash_maps::<K, ByCounting, _>(alloc, "HashMap by Counting", entries, ordered)?;
    }
    Ok(())
}

/// A key has the value of its last place, in the order of first places or in that of the keys.
#[test]
fn keys_have_the_value_of_their_last_place(rt: HostRuntime) -> Result<(), Fail> {
    check_entries(rt.alloc(), &ENTRIES)
}

/// Keys that all hash alike are told apart, in maps and in sets.
#[test]
fn keys_that_hash_alike_are_told_apart(rt: HostRuntime) -> Result<(), Fail> {
    let alloc = rt.alloc();
    check_entries(alloc, &ENTRIES_ALIKE)?;
    let keys = [Both(TWO, TWO), Left(ONE), Left(TWO)];
    let inserted = "Both({2, 1}, {2})";
    check::<EitherOrBoth<IndexSet<Alike>>, _>(alloc, "IndexSet", &keys, inserted)?;
    let ordered = "Both({1, 2}, {2})";
    check_hash_sets::<Alike, Alike, FoldState, _>(alloc, "HashSet", &keys, ordered)?;
    Ok(())
}

/// Ordered maps and sets whose sides have one type keep the side of each item.
#[test]
fn entries_keep_their_side_where_both_have_one_type(rt: HostRuntime) -> Result<(), Fail> {
    let alloc = rt.alloc();
    let left = [Left((2, 'a')), Left((1, 'b')), Left((2, 'c'))];
    let want = "Left({1: 'b', 2: 'c'})";
    check::<EitherOrBoth<BTreeMap<u8, char>>, _>(alloc, "BTreeMap", &left, want)?;
    let right = [Right((2, 'a')), Right((1, 'b')), Right((2, 'c'))];
    let want = "Right({1: 'b', 2: 'c'})";
    check::<EitherOrBoth<BTreeMap<u8, char>>, _>(alloc, "BTreeMap", &right, want)?;
    Ok(())
}
