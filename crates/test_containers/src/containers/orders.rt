//! Tests: pairs of ordered containers whose keys have an order of their own: reversed, or by a part of the key alone.

use super::{BTreeMaps, Entries, check, shows};
use crate::collecting::Vague;
use either_or_both::EitherOrBoth;
use either_or_both::EitherOrBoth::{Both, Left, Right};
use either_or_both::laws::recollect_btree_map;
use std::alloc::Global;
use std::cmp::Reverse;
use std::collections::BTreeSet;
use std::fmt::{self, Debug, Formatter, Write};
use std::test::Fail;

/// A key that is compared and shown by its number alone, so that no row tells which of two equal keys is kept.
#[derive(Clone, Copy, Drop)]
#[derive_where(PartialEq, Eq, PartialOrd, Ord)]
struct Numbered(u8, #[derive_where(skip)] char);

impl Debug for Numbered {
    fn fmt<W: Write>(&self, f: &mut Formatter<W>) -> fmt::Result {
        self.0.fmt(f)
    }
}

const R1: Reverse<u8> = Reverse(1);

const R2: Reverse<u8> = Reverse(2);

const R3: Reverse<u8> = Reverse(3);

/// Entries, and the pair of maps that they are collected into.
#[rattlefmt::skip]
static MAPS_REVERSED: [(Entries<Reverse<u8>>, &str); 3] = [
    // entries
        // maps
    (&[Left((R1, 7)), Both((R3, 8), (R2, 'x')), Left((R1, 9))],
        "Both({Reverse(3): 8, Reverse(1): 9}, {Reverse(2): 'x'})"),
    (&[Right((R1, 'x')), Right((R2, 'y'))],
        "Right({Reverse(2): 'y', Reverse(1): 'x'})"),
    (&[Left((R1, 7)), Left((R3, 8))],
        "Left({Reverse(3): 8, Reverse(1): 7})"),
];

/// Values, and the pair of sets that they are collected into.
#[rattlefmt::skip]
static SETS_REVERSED: [(&[EitherOrBoth<Reverse<u8>>], &str); 2] = [
    // values                             sets
    (&[Left(R1), Both(R3, R2), Left(R1)], "Both({Reverse(3), Reverse(1)}, {Reverse(2)})"),
    (&[Right(R1), Right(R2)],             "Right({Reverse(2), Reverse(1)})"),
];

const A1: Numbered = Numbered(1, 'a');

const B1: Numbered = Numbered(1, 'b');

const C1: Numbered = Numbered(1, 'c');

const A2: Numbered = Numbered(2, 'a');

const B2: Numbered = Numbered(2, 'b');

const C2: Numbered = Numbered(2, 'c');

/// The same of keys that are compared by their number.
#[rattlefmt::skip]
static MAPS_BY_NUMBER: [(Entries<Numbered>, &str); 3] = [
    // entries                                                maps
    (&[Left((A2, 7)), Left((C1, 8)), Left((B2, 9))],          "Left({1: 8, 2: 9})"),
    (&[Both((A2, 7), (B1, 'x')), Right((A1, 'y'))],           "Both({2: 7}, {1: 'y'})"),
    (&[Right((A2, 'x')), Right((B1, 'y')), Right((C2, 'z'))], "Right({1: 'y', 2: 'z'})"),
];

/// The same of values that are compared so.
#[rattlefmt::skip]
static SETS_BY_NUMBER: [(&[EitherOrBoth<Numbered>], &str); 2] = [
    // values                         sets
    (&[Left(A2), Left(C1), Left(B2)], "Left({1, 2})"),
    (&[Both(A2, B1), Right(A1)],      "Both({2}, {1})"),
];

// Collects the entries of each row into maps, and these again.
fn check_maps<K: Ord + Debug + Copy + Drop>(
    alloc: Global,
    rows: &[(Entries<K>, &str)],
) -> Result<(), Fail> {
    for (entries, want) in rows.iter().copied() {
        let pair: BTreeMaps<K> = Vague(entries).collect(alloc)?;
        let again = recollect_btree_map(alloc, pair.clone()?);
        shows(alloc, "BTreeMap", entries, Ok(pair), want)?;
        shows(alloc, "BTreeMap again", entries, again, want)?;
    }
    Ok(())
}

// Collects the values of each row into sets.
fn check_sets<K: Ord + Debug + Copy + Drop>(
    alloc: Global,
    rows: &[(&[EitherOrBoth<K>], &str)],
) -> Result<(), Fail> {
    for (values, want) in rows.iter().copied() {
        check::<EitherOrBoth<BTreeSet<K>>, _>(alloc, "BTreeSet", values, want)?;
    }
    Ok(())
}

/// One item a key, in the order that the keys have, with the value of its last place.
#[test]
fn order_of_the_keys_is_kept(rt: HostRuntime) -> Result<(), Fail> {
    let alloc = rt.alloc();
    check_maps(alloc, &MAPS_REVERSED)?;
    check_maps(alloc, &MAPS_BY_NUMBER)?;
    check_sets(alloc, &SETS_REVERSED)?;
    check_sets(alloc, &SETS_BY_NUMBER)
}
