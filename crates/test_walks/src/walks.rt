//! Tests: the paired walk and the chain of `EitherOrBoth`, from both ends, what they ask of their sides, and the hints of these and of
//! the join as a walk.

pub mod sides;

use either_or_both::EitherOrBoth::{Both, Left, Right};
use either_or_both::iter::ChainedIterEitherOrBoth;
use either_or_both::join::outer_join_lazily;
use either_or_both::{Either, EitherOrBoth};
use sides::{Counting, ENDLESS, Hinted};
use std::iter::FusedIterator;
use std::test::Fail;
use testkit::counts::Asked;
use testkit::same::same;

type Hint = (usize, Option<usize>);

/// Two lists, and what they give side by side.
#[rattlefmt::skip]
static SIDE_BY_SIDE: [(EitherOrBoth<&[u8], &[char]>, &[EitherOrBoth<u8, char>]); 11] = [
    // lists                                 side by side
    (Both(&[1, 2, 3], &['a']),             &[Both(1, 'a'), Left(2), Left(3)]),
    (Both(&[1], &['c', 'm']),              &[Both(1, 'c'), Right('m')]),
    (Both(&[1, 2], &['a', 'b', 'c', 'd']), &[Both(1, 'a'), Both(2, 'b'), Right('c'), Right('d')]),
    (Both(&[1, 2], &['c', 'm']),           &[Both(1, 'c'), Both(2, 'm')]),
    (Both(&[], &['c']),                    &[Right('c')]),
    (Both(&[1, 2], &[]),                   &[Left(1), Left(2)]),
    (Both(&[], &[]),                       &[]),
    (Left(&[1, 2]),                        &[Left(1), Left(2)]),
    (Left(&[]),                            &[]),
    (Right(&['c', 'm']),                   &[Right('c'), Right('m')]),
    (Right(&[]),                           &[]),
];

/// Two lists, and what they give in turn.
static IN_TURN: [(EitherOrBoth<&[u8], &[u8]>, &[u8]); 8] = [
    (Both(&[1, 2], &[3]), &[1, 2, 3]),
    (Both(&[1], &[2, 3]), &[1, 2, 3]),
    (Both(&[], &[3]), &[3]),
    (Both(&[1], &[]), &[1]),
    (Both(&[], &[]), &[]),
    (Left(&[1, 2]), &[1, 2]),
    (Right(&[3]), &[3]),
    (Right(&[]), &[]),
];

/// The sides of a pair of lists, each of which counts in a number of its own how often it is asked.
fn counting<'a, T: Copy, U: Copy>(
    pair: EitherOrBoth<&'a [T], &'a [U]>,
    left: &'a Asked,
    right: &'a Asked,
) -> EitherOrBoth<Counting<'a, T>, Counting<'a, U>> {
    match pair {
        Left(l) => Left(Counting::new(l, left)),
        Both(l, r) => Both(Counting::new(l, left), Counting::new(r, right)),
        Right(r) => Right(Counting::new(r, right)),
    }
}

/// How often a side with these items is asked on the way past its end: once for each item, and once more.
fn to_the_end<T>(items: Option<&[T]>) -> usize {
    match items {
        Some(items) => items.len().saturating_add(1),
        None => 0,
    }
}

/// Takes a walk that is marked as one that stays ended, as walks over such sides are.
fn stays_ended<I: FusedIterator>(_walk: &I) {}

/// From the front the aligned list comes, its length and its hint are known at each step, and a side that has ended is asked no
/// more.
#[test]
fn aligned_list_comes_from_the_front() -> Result<(), Fail> {
    for (pair, want) in SIDE_BY_SIDE.iter().copied() {
        let (left, right) = (Asked::new(), Asked::new());
        let mut walk = counting(pair, &left, &right).into_iter_swap();
        stays_ended(&walk);
        for (taken, item) in want.iter().copied().enumerate() {
            let more = want.len().saturating_sub(taken);
            let came = (walk.len(), walk.size_hint(), walk.next());
            same(
                "next",
                &pair,
                &came,
                &(more, (more, Some(more)), Some(item)),
            )?;
        }
        for _ in 0..3 {
            let came = (walk.len(), walk.size_hint(), walk.next(), walk.next_back());
            same("the end", &pair, &came, &(0, (0, Some(0)), None, None))?;
        }
        let ends = [(to_the_end(pair.left()), 0), (to_the_end(pair.right()), 0)];
        same("calls", &pair, &[left.calls(), right.calls()], &ends)?;
    }
    Ok(())
}

/// From the back the same list comes, last first: the longer side is asked alone until the two have equally many items left.
#[test]
fn aligned_list_comes_from_the_back() -> Result<(), Fail> {
    for (pair, want) in SIDE_BY_SIDE.iter().copied() {
        let (left, right) = (Asked::new(), Asked::new());
        let mut walk = counting(pair, &left, &right).into_iter_swap();
        for item in want.iter().copied().rev() {
            same("next_back", &pair, &walk.next_back(), &Some(item))?;
        }
        for _ in 0..3 {
            let came = (walk.next_back(), walk.next(), walk.size_hint());
            same("the end", &pair, &came, &(None, None, (0, Some(0))))?;
        }
        let ends = [(0, to_the_end(pair.left())), (0, to_the_end(pair.right()))];
        same("calls", &pair, &[left.calls(), right.calls()], &ends)?;
    }
    Ok(())
}

/// One call of the back asks the side that gives the item, and the shorter one nothing.
#[test]
fn one_paired_call_of_the_back_asks_one_side(rt: HostRuntime) {
    let (left, right) = (Asked::new(), Asked::new());
    let mut walk = counting(Both(&[1, 2, 3], &['a']), &left, &right).into_iter_swap();
    let came = (walk.next_back(), left.calls(), right.calls());
    assert_eq!(rt; came, (Some(Left(3)), (0, 1), (0, 0)));
}

/// The chain gives the left list and then the right one, and asks a side that has ended no more.
#[test]
fn chain_gives_the_left_list_then_the_right() -> Result<(), Fail> {
    for (pair, want) in IN_TURN.iter().copied() {
        let (left, right) = (Asked::new(), Asked::new());
        let mut walk = counting(pair, &left, &right).into_iter_chain();
        stays_ended(&walk);
        for (taken, item) in want.iter().copied().enumerate() {
            let more = want.len().saturating_sub(taken);
            let came = (walk.size_hint(), walk.next());
            same("next", &pair, &came, &((more, Some(more)), Some(item)))?;
        }
        for _ in 0..3 {
            let came = (walk.size_hint(), walk.next(), walk.next_back());
            same("the end", &pair, &came, &((0, Some(0)), None, None))?;
        }
        let ends = [(to_the_end(pair.left()), 0), (to_the_end(pair.right()), 0)];
        same("calls", &pair, &[left.calls(), right.calls()], &ends)?;
    }
    Ok(())
}

/// From the back the right list comes first, and then the left one.
#[test]
fn chain_gives_the_right_list_first_from_the_back() -> Result<(), Fail> {
    for (pair, want) in IN_TURN.iter().copied() {
        let (left, right) = (Asked::new(), Asked::new());
        let mut walk = counting(pair, &left, &right).into_iter_chain();
        for item in want.iter().copied().rev() {
            same("next_back", &pair, &walk.next_back(), &Some(item))?;
        }
        for _ in 0..3 {
            let came = (walk.next_back(), walk.next(), walk.size_hint());
            same("the end", &pair, &came, &(None, None, (0, Some(0))))?;
        }
        let ends = [(0, to_the_end(pair.left())), (0, to_the_end(pair.right()))];
        same("calls", &pair, &[left.calls(), right.calls()], &ends)?;
    }
    Ok(())
}

/// One call of the chain's back asks the right side alone.
#[test]
fn one_call_of_the_chains_back_asks_the_right_side(rt: HostRuntime) {
    let (left, right) = (Asked::new(), Asked::new());
    let mut walk = counting(Both(&[1], &[2, 3]), &left, &right).into_iter_chain();
    let came = (walk.next_back(), left.calls(), right.calls());
    assert_eq!(rt; came, (Some(3), (0, 0), (0, 1)));
}

fn exact(left: usize) -> Hinted {
    Hinted::exact(left)
}

fn vague(left: usize) -> Hinted {
    Hinted::vague(left)
}

const MAX: usize = usize::MAX;

/// Sides, how many items are taken at most, and the hints of the paired walk and of the chain over them then. A call takes an item of
/// both sides of the paired walk, and of the first side of the chain that has one.
#[rattlefmt::skip]
fn hints() -> [(EitherOrBoth<Hinted>, usize, Hint, Hint); 29] {
    [
        // sides                           taken  paired walk             chain
        (Both(ENDLESS, exact(1)),              0, (MAX, None),            (MAX, None)),
        (Both(exact(1), ENDLESS),              0, (MAX, None),            (MAX, None)),
        (Both(vague(MAX), vague(1)),           0, (0, Some(MAX)),         (0, None)),
        (Both(vague(MAX), vague(0)),           0, (0, Some(MAX)),         (0, Some(MAX))),
        (Both(exact(MAX), exact(1)),           0, (MAX, Some(MAX)),       (MAX, None)),
        (Both(exact(2), exact(1)),             0, (2, Some(2)),           (3, Some(3))),
        (Both(exact(1), vague(3)),             0, (1, Some(3)),           (1, Some(4))),
        (Left(vague(3)),                       0, (0, Some(3)),           (0, Some(3))),
        (Left(ENDLESS),                        0, (MAX, None),            (MAX, None)),
        (Right(ENDLESS),                       0, (MAX, None),            (MAX, None)),
        (Right(exact(3)),                      0, (3, Some(3)),           (3, Some(3))),
        (Both(exact(2), exact(1)),             1, (1, Some(1)),           (2, Some(2))),
        (Both(ENDLESS, exact(1)),              1, (MAX, None),            (MAX, None)),
        (Both(exact(1), vague(3)),             1, (0, Some(2)),           (0, Some(3))),
        (Right(exact(3)),                      2, (1, Some(1)),           (1, Some(1))),
        (Left(exact(3)),                       2, (1, Some(1)),           (1, Some(1))),
        (Both(exact(2), exact(1)),             4, (0, Some(0)),           (0, Some(0))),
        (Both(vague(1), vague(1)),             4, (0, Some(0)),           (0, Some(0))),
        (Left(vague(1)),                       4, (0, Some(0)),           (0, Some(0))),
        (Right(vague(1)),                      4, (0, Some(0)),           (0, Some(0))),
        (Both(exact(1_000), exact(70_000)),    0, (70_000, Some(70_000)), (71_000, Some(71_000))),
        (Both(exact(70_000), exact(1_000)),    0, (70_000, Some(70_000)), (71_000, Some(71_000))),
        (Both(exact(1_000), vague(70_000)),    0, (1_000, Some(70_000)),  (1_000, Some(71_000))),
        (Both(vague(70_000), exact(1_000)),    0, (1_000, Some(70_000)),  (1_000, Some(71_000))),
        (Both(exact(1_000), exact(70_000)),  999, (69_001, Some(69_001)), (70_001, Some(70_001))),
        (Left(exact(70_000)),                  0, (70_000, Some(70_000)), (70_000, Some(70_000))),
        (Left(vague(70_000)),                  1, (0, Some(69_999)),      (0, Some(69_999))),
        (Right(exact(70_000)),                 0, (70_000, Some(70_000)), (70_000, Some(70_000))),
        (Right(vague(1_000)),                  1, (0, Some(999)),         (0, Some(999))),
    ]
}

/// A walk over both sides takes the greater bounds or the sums, one over a lone side takes that side's, and an ended one has none
/// left; whatever the number of items.
#[test]
fn walks_combine_the_hints_of_their_sides() -> Result<(), Fail> {
    for (sides, taken, paired_want, chain_want) in hints() {
        let mut paired = sides.into_iter_swap();
        let mut chain = sides.into_iter_chain();
        for _ in paired.by_ref().take(taken) {}
        for _ in chain.by_ref().take(taken) {}
        let came = (paired.size_hint(), chain.size_hint());
        same(
            "paired and chain",
            &(taken, sides),
            &came,
            &(paired_want, chain_want),
        )?;
    }
    Ok(())
}

/// The side that an `Either` holds, how many items are taken, and the hint then.
#[rattlefmt::skip]
fn held_hints() -> [(Either<Hinted>, usize, Hint); 14] {
    [
        (Either::Left(exact(0)),           0, (0, Some(0))),
        (Either::Left(exact(3)),           0, (3, Some(3))),
        (Either::Left(exact(3)),           1, (2, Some(2))),
        (Either::Left(vague(3)),           0, (0, Some(3))),
        (Either::Left(exact(1_000)),       0, (1_000, Some(1_000))),
        (Either::Left(vague(70_000)),      1, (0, Some(69_999))),
        (Either::Left(ENDLESS),            1, (MAX, None)),
        (Either::Right(exact(0)),          0, (0, Some(0))),
        (Either::Right(exact(3)),          0, (3, Some(3))),
        (Either::Right(exact(3)),          1, (2, Some(2))),
        (Either::Right(vague(3)),          0, (0, Some(3))),
        (Either::Right(exact(1_000)),      0, (1_000, Some(1_000))),
        (Either::Right(vague(70_000)),     1, (0, Some(69_999))),
        (Either::Right(ENDLESS),           1, (MAX, None)),
    ]
}

/// Both walks of an `Either` have the hint of the side that it holds, the left one as the right one.
#[test]
fn walks_of_either_have_the_hint_of_the_held_side() -> Result<(), Fail> {
    for (side, taken, want) in held_hints() {
        let mut inner = side.into_iter_inner();
        let mut swap = side.into_iter_swap();
        for _ in inner.by_ref().take(taken) {}
        for _ in swap.by_ref().take(taken) {}
        let came = [inner.size_hint(), swap.size_hint()];
        same("inner and swap", &(taken, side), &came, &[want; 2])?;
    }
    Ok(())
}

/// Two sides, how many rows of their join are taken, and its hint then. Items are numbered from 0, so a row takes one of each side that
/// has one. A vague side that holds an item has at least that one.
#[rattlefmt::skip]
fn joined_hints() -> [(Hinted, Hinted, usize, Hint); 16] {
    [
        // left          right          taken  hint
        (exact(2),       exact(1),          0, (2, Some(3))),
        (exact(2),       exact(1),          1, (1, Some(1))),
        (exact(2),       exact(1),          2, (0, Some(0))),
        (exact(0),       vague(3),          0, (1, Some(3))),
        (vague(3),       exact(0),          1, (1, Some(2))),
        (exact(1_000),   exact(70_000),     0, (70_000, Some(71_000))),
        (exact(70_000),  exact(1_000),      0, (70_000, Some(71_000))),
        (exact(1_000),   vague(70_000),     0, (1_000, Some(71_000))),
        (vague(70_000),  exact(1_000),      0, (1_000, Some(71_000))),
        (vague(1_000),   vague(70_000),     0, (1, Some(71_000))),
        (exact(1_000),   exact(70_000),   999, (69_001, Some(69_002))),
        (exact(70_000),  exact(1_000),  1_000, (69_000, Some(69_000))),
        (exact(MAX),     exact(0),          0, (MAX, Some(MAX))),
        (exact(MAX),     exact(1),          0, (MAX, None)),
        (exact(1_000),   ENDLESS,           0, (MAX, None)),
        (ENDLESS,        exact(1_000),      0, (MAX, None)),
    ]
}

/// A join has at least as many rows as the longer side has items at least, and at most as many as both have together at most.
#[test]
fn joins_have_room_for_both_sides() -> Result<(), Fail> {
    for (left, right, taken, want) in joined_hints() {
        let mut walk = outer_join_lazily((0u64..).zip(left), (0u64..).zip(right));
        for _ in walk.by_ref().take(taken) {}
        same("join", &(taken, left, right), &walk.size_hint(), &want)?;
    }
    Ok(())
}

/// Where one call asks both sides of a paired walk, the left one is asked before the right one, from either end.
#[test]
fn left_is_asked_before_right(rt: HostRuntime) {
    let asked = Asked::new();
    let mut forward = Both(
        Counting::named(&[1u8, 2], &asked, 1),
        Counting::named(&['a'], &asked, 2),
    )
    .into_iter_swap();
    for _ in 0..4 {
        let _item = forward.next();
    }
    assert_eq!(rt; asked.order(), 12121, "left, right: twice; then left alone");

    let asked = Asked::new();
    let mut backward = Both(
        Counting::named(&[1u8, 2], &asked, 1),
        Counting::named(&['a'], &asked, 2),
    )
    .into_iter_swap();
    for _ in 0..3 {
        let _item = backward.next_back();
    }
    assert_eq!(rt; asked.order(), 11212, "left alone; then left, right: twice");
}

/// A default chain is the walk over a lone left side, the default of the inner iterator.
#[test]
fn default_chain_is_a_lone_default_side(rt: HostRuntime) {
    let mut empty = ChainedIterEitherOrBoth::<std::iter::Empty<u8>>::default();
    assert_eq!(rt; [empty.next(), empty.next_back()], [None; 2]);
    let mut two = ChainedIterEitherOrBoth::<Hinted>::default();
    let came = (two.size_hint(), [two.next(), two.next(), two.next()]);
    assert_eq!(rt; came, ((2, Some(2)), [Some(0), Some(0), None]));
}
