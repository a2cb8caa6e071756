//! The full outer join, at once and item by item, beside a join by definition.
ghost use Rattle.either_or_both.specs.Join.{Rising};

use either_or_both::EitherOrBoth;
use either_or_both::EitherOrBoth::{Both, Left, Right};
use either_or_both::join::{
    is_rising, outer_join, outer_join_lazily, outer_join_maps, outer_join_slices,
};
use std::alloc::{AllocError, Global};
use std::cmp::Reverse;
use std::collections::BTreeMap;
use std::fmt::Debug;
use std::process::Abort;
use std::test::Fail;
use testkit::memory::{Refusing, Source, Watch};
use testkit::random::Random;
use testkit::same::same;

type Table<K, V> = &'static [(K, V)];

type Joined<K, V> = &'static [(K, EitherOrBoth<V, V>)];

/// Two lists whose keys strictly increase, and their join.
#[rattlefmt::skip]
static JOINED: [(Table<u8, char>, Table<u8, char>, Joined<u8, char>); 6] = [
    // left, right
        // joined
    (&[], &[],
        &[]),
    (&[(1, 'a'), (3, 'b')], &[(2, 'x'), (3, 'y')],
        &[(1, Left('a')), (2, Right('x')), (3, Both('b', 'y'))]),
    (&[(1, 'a')], &[(1, 'x')],
        &[(1, Both('a', 'x'))]),
    (&[(1, 'a'), (2, 'b')], &[],
        &[(1, Left('a')), (2, Left('b'))]),
    (&[], &[(1, 'x'), (2, 'y')],
        &[(1, Right('x')), (2, Right('y'))]),
    (&[(4, 'a'), (9, 'b')], &[(1, 'x'), (2, 'y'), (4, 'z')],
        &[(1, Right('x')), (2, Right('y')), (4, Both('a', 'z')), (9, Left('b'))]),
];

// Two lists.
type Lists<'a, K, V> = (&'a [(K, V)], &'a [(K, V)]);

// The rows of a join, each a key with what is under it.
type Rows<K, V> = Vec<(K, EitherOrBoth<V, V>)>;

// The two lists, joined item by item.
fn lazily<K: Ord + Copy + Drop, V: Copy + Drop>(
    alloc: Global,
    lists: Lists<K, V>,
) -> Result<Rows<K, V>, AllocError> {
    let left = Vec::from_slice(alloc, lists.0)?;
    let right = Vec::from_slice(alloc, lists.1)?;
    outer_join_lazily(left, right).collect(alloc)
}

// The two lists, joined at once.
fn at_once<K: Ord + Copy + Drop, V: Copy + Drop>(
    alloc: Global,
    lists: Lists<K, V>,
) -> Result<Rows<K, V>, AllocError>
    requires left { Rising K.cmp lists.0.now }
    requires right { Rising K.cmp lists.1.now }
{
    let left = Vec::from_slice(alloc, lists.0)?;
    outer_join(alloc, left, Vec::from_slice(alloc, lists.1)?)
}

// The two lists, joined by reference.
fn by_reference<K: Ord + Copy + Drop, V: Copy + Drop>(
    alloc: Global,
    lists: Lists<K, V>,
) -> Result<Rows<K, V>, AllocError>
    requires left { Rising K.cmp lists.0.now }
    requires right { Rising K.cmp lists.1.now }
{
    let mut rows = Vec::new(alloc);
    for (key, value) in outer_join_slices(lists.0, lists.1) {
        rows.push((*key, value.copied()))?;
    }
    Ok(rows)
}

// Both lists strictly increase, and their join is as wanted, at once, item by item and by reference.
fn check<K: Ord + Copy + Debug + Drop, V: PartialEq + Copy + Debug + Drop>(
    rt: &impl Abort,
    alloc: Global,
    lists: Lists<K, V>,
    want: &[(K, EitherOrBoth<V, V>)],
) -> Result<(), Fail> {
    let (left, right) = lists;
    assert!(rt; is_rising(left) && is_rising(right), "{lists:?}");
    same(
        "by reference",
        &lists,
        &by_reference(alloc, lists)?.as_slice(),
        &want,
    )?;
    same("lazily", &lists, &lazily(alloc, lists)?.as_slice(), &want)?;
    same("at once", &lists, &at_once(alloc, lists)?.as_slice(), &want)
}

/// Each key of either list comes once, in order, with what the two lists have under it, at once, item by item, and by reference.
#[test]
fn small_lists_are_joined(rt: HostRuntime) -> Result<(), Fail> {
    for (left, right, want) in JOINED.iter().copied() {
        check(&rt, rt.alloc(), (left, right), want)?;
    }
    Ok(())
}

/// A list strictly increases where each key is less than the next.
#[test]
fn lists_that_rise_are_known(rt: HostRuntime) {
    assert!(rt; is_rising::<u8, char>(&[]));
    assert!(rt; is_rising(&[(1, 'a')]));
    assert!(rt; is_rising(&[(1, 'a'), (2, 'a')]));
    assert!(rt; !is_rising(&[(1, 'a'), (1, 'b')]));
    assert!(rt; !is_rising(&[(2, 'a'), (1, 'a')]));
}

// A list of so many pairs, each key one to three above the one before.
fn drawn(alloc: Global, numbers: &mut Random, len: u32) -> Result<Vec<(u32, u32)>, AllocError> {
    let mut list = Vec::new(alloc);
    let mut key = 0u32;
    for _ in 0..len {
        key = key.wrapping_add(1).wrapping_add(numbers.below(3));
        list.push((key, numbers.next()))?;
    }
    Ok(list)
}

fn look_up(list: &[(u32, u32)], key: u32) -> Option<u32> {
    for pair in list {
        if pair.0 == key {
            return Some(pair.1);
        }
    }
    None
}

// Each key that a list may have, looked up in both.
fn by_definition(
    alloc: Global,
    left: &[(u32, u32)],
    right: &[(u32, u32)],
) -> Result<Vec<(u32, EitherOrBoth<u32, u32>)>, AllocError> {
    let mut joined = Vec::new(alloc);
    for key in 0..160u32 {
        if let Ok(value) = EitherOrBoth::try_from((look_up(left, key), look_up(right, key))) {
            joined.push((key, value))?;
        }
    }
    Ok(joined)
}

/// Lists of every length up to fifty are joined as the definition says, at once, item by item, and by reference.
#[test]
fn lists_are_joined_as_defined(rt: HostRuntime) -> Result<(), Fail> {
    let mut numbers = Random::new(15);
    for left_len in 0..51u32 {
        for right_len in 0..51u32 {
            let left = drawn(rt.alloc(), &mut numbers, left_len)?;
            let right = drawn(rt.alloc(), &mut numbers, right_len)?;
            let want = by_definition(rt.alloc(), &left, &right)?;
            check(&rt, rt.alloc(), (&left, &right), &want)?;
        }
    }
    Ok(())
}

/// Rows come in the order of the keys: of texts by their bytes, of reversed numbers from the greatest down.
#[test]
fn rows_come_in_the_order_of_the_keys(rt: HostRuntime) -> Result<(), Fail> {
    let left = [("a10", 1), ("b", 2)];
    let right = [("a9", 3), ("b", 4)];
    let by_text = outer_join_lazily(left, right).collect::<Vec<_>>(rt.alloc())?;
    let want = [("a10", Left(1)), ("a9", Right(3)), ("b", Both(2, 4))];
    assert_eq!(rt; by_text.as_slice(), want.as_slice());

    let left = [(Reverse(3), 'a'), (Reverse(1), 'b')];
    let right = [(Reverse(2), 'x'), (Reverse(1), 'y')];
    let falling = outer_join_lazily(left, right).collect::<Vec<_>>(rt.alloc())?;
    let want = [
        (Reverse(3), Left('a')),
        (Reverse(2), Right('x')),
        (Reverse(1), Both('b', 'y')),
    ];
    assert_eq!(rt; falling.as_slice(), want.as_slice());
    Ok(())
}

fn map(alloc: Global, entries: &[(i32, char)]) -> Result<BTreeMap<i32, char>, AllocError> {
    entries.iter().copied().collect(alloc)
}

/// Maps that are joined by reference are there afterwards.
#[test]
fn maps_joined_by_reference_stay(rt: HostRuntime) -> Result<(), Fail> {
    let left = map(rt.alloc(), &[(3, 'b'), (1, 'a')])?;
    let right = map(rt.alloc(), &[(3, 'y')])?;
    let mut walk = outer_join_maps(&left, &right);
    assert_eq!(rt; walk.size_hint(), (2, Some(3)));
    let came = [walk.next(), walk.next(), walk.next()];
    assert_eq!(rt;
        came,
        [Some((&1, Left(&'a'))), Some((&3, Both(&'b', &'y'))), None]
    );
    assert_eq!(rt; left.len(), 2);
    Ok(())
}

/// Each side is asked for one item at once and for one more where its item is given, and a side that has ended no more.
#[test]
fn ended_side_is_asked_no_more(rt: HostRuntime) {
    let memory = Refusing::new(rt.alloc());
    let (left, right) = (Watch::new(&memory), Watch::new(&memory));
    let mut walk = outer_join_lazily(
        Source::new(&[(1, 'a')], &left),
        Source::new(&[(2, 'x'), (3, 'y')], &right),
    );
    assert_eq!(rt; (left.calls(), right.calls()), (1, 1));
    assert_eq!(rt; walk.next(), Some((1, Left('a'))));
    assert_eq!(rt; (left.calls(), right.calls()), (2, 1));
    let came = [walk.next(), walk.next(), walk.next(), walk.next()];
    assert_eq!(rt;
        came,
        [Some((2, Right('x'))), Some((3, Right('y'))), None, None]
    );
    assert_eq!(rt; (left.calls(), right.calls()), (2, 3));
}
