//! One function for each shape of container, which tries a pair of that shape with each request refused in turn. Several tests share
//! it, so that what each shape brings is proved once.
ghost use Rattle.std.specs.Prelude.{List};
ghost use Rattle.eob_both.specs.declared.either_or_both.EitherOrBoth as enum;
ghost use Rattle.either_or_both.specs.declared.either.Either as one;

use crate::many;
use crate::shapes::Trial::{Many, Shown};
use crate::token::{Entry, Token};
use either_or_both::EitherOrBoth::Both;
use either_or_both::laws::{Walked, recollect_walked};
use either_or_both::{Either, EitherOrBoth};
use indexmap::{IndexMap, IndexSet};
use std::alloc::{AllocError, Global};
use std::collections::{BTreeMap, BTreeSet, HashMap, HashSet, VecDeque};
use std::fmt::Debug;
use std::hash::{BuildHasherDefault, FoldHasher};
use std::test::Fail;
use testkit::memory::{RUNS, Refusing, Runs, Source, Tokens, Watch};
use testkit::same::same;

pub type Memory<'a> = &'a Refusing<Global>;

type Hasher = BuildHasherDefault<FoldHasher>;

/// What a pair of containers is collected from.
#[derive(Drop)]
pub enum Given<'a, T> {
    /// Values of `EitherOrBoth`.
    Values(&'a [EitherOrBoth<T>]),
    /// Values of `Either`.
    Eithers(&'a [Either<T>]),
    /// A pair of containers with these items, which is handed in.
    Pair(&'a [T], &'a [T]),
}

/// What is tried with a shape.
pub enum Trial<'a, T> {
    /// A pair is collected from what is given, and shows as this text.
    Shown(&'a Given<'a, T>, &'a str),
    /// A pair with these many items a side is collected, cloned and collected again.
    Many(&'a [T], &'a [T]),
}

// Collects the items with each request refused in turn. A refused run asks the source no more, the run that meets no refusal
// answers `want`, and each drops what it took.
fn check_collected<'a, I: Clone + Drop, P: FromIterator<I, Alloc = Memory<'a>> + Debug + Drop>(
    alloc: Global,
    memory: Memory<'a>,
    tokens: &Tokens,
    items: &[I],
    want: &str,
) -> Result<(), Fail>
    requires { (xs : List I) → P.can_from_iter xs }
{
    let runs = Runs::new(alloc, memory, tokens);
    for number in 1..RUNS {
        let watch = Watch::new(memory);
        memory.refuse(number);
        let ended: Result<P, AllocError> = Source::new(items, &watch).collect(memory);
        same("a late call", &(want, number), &watch.is_late(), &false)?;
        if runs.is_whole(ended, want)? {
            same("refused runs", &want, &(1 < number), &true)?;
            return Ok(());
        }
    }
    Err("each run was refused")?;
    Ok(())
}

// A pair of containers with these items, made with nothing refused.
pub fn pair<'a, C: FromIterator<I, Alloc = Memory<'a>> + Drop, I: Clone>(
    memory: Memory<'a>,
    sides: (&[I], &[I]),
) -> Result<EitherOrBoth<C>, AllocError>
    requires { (xs : List I) → C.can_from_iter xs }
{
    memory.refuse(0);
    let watch = Watch::new(memory);
    let left = Source::new(sides.0, &watch).collect(memory)?;
    Ok(Both(left, Source::new(sides.1, &watch).collect(memory)?))
}

// Makes a pair of containers with nothing refused, and collects it again with each request refused in turn.
fn check_again<'a, C: Walked + FromIterator<C::Item, Alloc = Memory<'a>> + Drop>(
    alloc: Global,
    memory: Memory<'a>,
    tokens: &Tokens,
    sides: (&[C::Item], &[C::Item]),
    want: &str,
) -> Result<(), Fail>
where
    C::Item: Clone + Drop,
    EitherOrBoth<C, C>: FromIterator<EitherOrBoth<C::Item, C::Item>, Alloc = Memory<'a>> + Debug,
    requires made { (xs : List C.Item) → C.can_from_iter xs }
    requires any { (xs : List (enum.EitherOrBoth C.Item C.Item))
        → ⟦<EitherOrBoth<C, C> as FromIterator<EitherOrBoth<C::Item, C::Item>>>⟧.can_from_iter xs }
    requires whole { (v : enum.EitherOrBoth C C)
        → ⟦<EitherOrBoth<C, C> as FromIterator<EitherOrBoth<C::Item, C::Item>>>⟧.is_complete v }
{
    let runs = Runs::new(alloc, memory, tokens);
    for number in 1..RUNS {
        let pair: EitherOrBoth<C> = pair(memory, sides)?;
        memory.refuse(number);
        let ended = recollect_walked(memory, pair);
        if runs.is_whole(ended, want)? {
            return Ok(());
        }
    }
    Err("each run was refused")?;
    Ok(())
}

fn check<'a, C: Walked + FromIterator<C::Item, Alloc = Memory<'a>> + Clone + PartialEq + Drop>(
    alloc: Global,
    memory: Memory<'a>,
    tokens: &Tokens,
    trial: Trial<C::Item>,
) -> Result<(), Fail>
where
    C::Item: Clone + Drop,
    EitherOrBoth<C, C>: FromIterator<EitherOrBoth<C::Item, C::Item>, Alloc = Memory<'a>>
        + FromIterator<Either<C::Item, C::Item>, Alloc = Memory<'a>>
        + Debug,
    requires made { (xs : List C.Item) → C.can_from_iter xs }
    requires any { (xs : List (enum.EitherOrBoth C.Item C.Item))
        → ⟦<EitherOrBoth<C, C> as FromIterator<EitherOrBoth<C::Item, C::Item>>>⟧.can_from_iter xs }
    requires whole { (v : enum.EitherOrBoth C C)
        → ⟦<EitherOrBoth<C, C> as FromIterator<EitherOrBoth<C::Item, C::Item>>>⟧.is_complete v }
    requires any_one { (xs : List (one.Either C.Item C.Item))
        → ⟦<EitherOrBoth<C, C> as FromIterator<Either<C::Item, C::Item>>>⟧.can_from_iter xs }
{
    match trial {
        Shown(Given::Values(items), want) => check_collected::<_, EitherOrBoth<C, C>>(
            alloc, memory, tokens, items, want,
        ),
        Shown(Given::Eithers(items), want) => check_collected::<_, EitherOrBoth<C, C>>(
            alloc, memory, tokens, items, want,
        ),
        Shown(Given::Pair(left, right), want) => check_again::<C>(
            alloc,
            memory,
            tokens,
            (left, right),
            want,
        ),
        Many(left, right) => many::check::<C>(alloc, memory, tokens, (left, right)),
    }
}

fn vecs(alloc: Global, memory: Memory, tokens: &Tokens, trial: Trial<Token>) -> Result<(), Fail> {
    check::<Vec<Token, Memory>>(alloc, memory, tokens, trial)
}

fn vec_deques(
    alloc: Global,
    memory: Memory,
    tokens: &Tokens,
    trial: Trial<Token>,
) -> Result<(), Fail> {
    check::<VecDeque<Token, Memory>>(alloc, memory, tokens, trial)
}

fn hash_sets(
    alloc: Global,
    memory: Memory,
    tokens: &Tokens,
    trial: Trial<Token>,
) -> Result<(), Fail> {
    check::<HashSet<Token, Hasher, Memory>>(alloc, memory, tokens, trial)
}

fn index_sets(
    alloc: Global,
    memory: Memory,
    tokens: &Tokens,
    trial: Trial<Token>,
) -> Result<(), Fail> {
    check::<IndexSet<Token, Hasher, Memory>>(alloc, memory, tokens, trial)
}

fn btree_sets(
    alloc: Global,
    memory: Memory,
    tokens: &Tokens,
    trial: Trial<Token>,
) -> Result<(), Fail> {
    check::<BTreeSet<Token, Memory>>(alloc, memory, tokens, trial)
}

fn hash_maps(
    alloc: Global,
    memory: Memory,
    tokens: &Tokens,
    trial: Trial<Entry>,
) -> Result<(), Fail> {
    check::<HashMap<Token, Token, Hasher, Memory>>(alloc, memory, tokens, trial)
}

fn index_maps(
    alloc: Global,
    memory: Memory,
    tokens: &Tokens,
    trial: Trial<Entry>,
) -> Result<(), Fail> {
    check::<IndexMap<Token, Token, Hasher, Memory>>(alloc, memory, tokens, trial)
}

fn btree_maps(
    alloc: Global,
    memory: Memory,
    tokens: &Tokens,
    trial: Trial<Entry>,
) -> Result<(), Fail> {
    check::<BTreeMap<Token, Token, Memory>>(alloc, memory, tokens, trial)
}

/// How a pair of each shape of sets, or of maps, is to show.
#[derive(Drop)]
pub struct Wanted<'a> {
    /// A hashed one, collected from what is given for it.
    pub hashed: &'a str,
    /// One in the order of insertion.
    pub inserted: &'a str,
    /// One in the order of its keys.
    pub ordered: &'a str,
}

/// Each shape of lists and of sets. A hashed set is collected from `alike`, with one value a side, since its order is not told.
pub fn lists_and_sets(
    alloc: Global,
    memory: Memory,
    tokens: &Tokens,
    given: &Given<Token>,
    alike: &Given<Token>,
    lists: &str,
    sets: Wanted,
) -> Result<(), Fail> {
    vecs(alloc, memory, tokens, Shown(given, lists))?;
    vec_deques(alloc, memory, tokens, Shown(given, lists))?;
    hash_sets(alloc, memory, tokens, Shown(alike, sets.hashed))?;
    index_sets(alloc, memory, tokens, Shown(given, sets.inserted))?;
    btree_sets(alloc, memory, tokens, Shown(given, sets.ordered))
}

/// Each shape of maps. A hashed one is collected from `alike`, with one key a side.
pub fn maps(
    alloc: Global,
    memory: Memory,
    tokens: &Tokens,
    given: &Given<Entry>,
    alike: &Given<Entry>,
    want: Wanted,
) -> Result<(), Fail> {
    hash_maps(alloc, memory, tokens, Shown(alike, want.hashed))?;
    index_maps(alloc, memory, tokens, Shown(given, want.inserted))?;
    btree_maps(alloc, memory, tokens, Shown(given, want.ordered))
}

/// Each shape of lists and of sets, with many items a side.
pub fn long_lists_and_sets(
    alloc: Global,
    memory: Memory,
    tokens: &Tokens,
    left: &[Token],
    right: &[Token],
) -> Result<(), Fail> {
    vecs(alloc, memory, tokens, Many(left, right))?;
    vec_deques(alloc, memory, tokens, Many(left, right))?;
    hash_sets(alloc, memory, tokens, Many(left, right))?;
    index_sets(alloc, memory, tokens, Many(left, right))?;
    btree_sets(alloc, memory, tokens, Many(left, right))
}

/// Each shape of maps, with many items a side.
pub fn long_maps(
    alloc: Global,
    memory: Memory,
    tokens: &Tokens,
    left: &[Entry],
    right: &[Entry],
) -> Result<(), Fail> {
    hash_maps(alloc, memory, tokens, Many(left, right))?;
    index_maps(alloc, memory, tokens, Many(left, right))?;
    btree_maps(alloc, memory, tokens, Many(left, right))
}
