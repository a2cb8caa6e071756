//! Changes that are taken back: each turned about, so that what it brought goes, and what went comes.
ghost use Rattle.std.specs.Prelude.{◌≡◌, IfOk};
ghost use Rattle.eob_lists.specs.JoinLaws.{flipped};
ghost use Rattle.keyed_jobs.specs.Turned.{changes_in, turned};

use crate::job::Changes;
use either_or_both::EitherOrBoth;
use eob_joins::Change;
use keyed_requests::Direction;
use keyed_rows::{Group, Key};
use keyed_tables::Rows;
use std::alloc::{AllocError, Global};

/// The changes as they are made in a direction: backward, each turned about.
///
/// # Errors
///
/// Returns `AllocError` if a request for memory was refused.
pub fn changes_in(
    alloc: Global,
    direction: Direction,
    changes: Changes,
) -> Result<Changes, AllocError>
    ensures { IfOk result (λ made. made.pairs.items ≡ changes_in direction changes.pairs.items) }
{
    match direction {
        Direction::Forward => Ok(changes),
        Direction::Backward => turned(alloc, changes),
    }
}

/// Changes that are a list, as they are made in a direction: backward, each turned about.
///
/// # Errors
///
/// Returns `AllocError` if a request for memory was refused.
pub fn pairs_in(
    alloc: Global,
    direction: Direction,
    changes: Vec<(Key, Change<Group>)>,
) -> Result<Vec<(Key, Change<Group>)>, AllocError>
    ensures { IfOk result (λ made. made.items ≡ changes_in direction changes.items) }
{
    match direction {
        Direction::Forward => Ok(changes),
        Direction::Backward => turned_pairs(alloc, changes),
    }
}

// The changes, each turned about.
fn turned(alloc: Global, changes: Changes) -> Result<Changes, AllocError>
    ensures { IfOk result (λ made. made.pairs.items ≡ turned changes.pairs.items) }
{
    let pairs = turned_pairs(alloc, changes.pairs)?;
    Ok(Rows { pairs })
}

// The same, one after the other.
fn turned_pairs(
    alloc: Global,
    changes: Vec<(Key, Change<Group>)>,
) -> Result<Vec<(Key, Change<Group>)>, AllocError>
    ensures { IfOk result (λ made. made.items ≡ turned changes.items) }
{
    let mut made = Vec::with_capacity(alloc, changes.len())?;
    for (key, change) in changes {
        made.push((key, turned_change(change)))?;
    }
    Ok(made)
}

// What goes as what comes, and what comes as what goes.
fn turned_change(change: Change<Group>) -> Change<Group>
    ensures { result ≡ flipped change }
{
    match change {
        EitherOrBoth::Left(old) => EitherOrBoth::Right(old),
        EitherOrBoth::Both(old, new) => EitherOrBoth::Both(new, old),
        EitherOrBoth::Right(new) => EitherOrBoth::Left(new),
    }
}
