//! The options of a merge.

use crate::numbers::sameness_of;
use crate::{OneOf, ParseError, choice, flag, one_of, put};
use clap::{Arg, ArgMatches};
use keyed_requests::{Conflicts, Merging, Side, Unit};
use std::alloc::{AllocError, Global};

const CONFLICTS: OneOf = OneOf {
    name: "conflicts",
    shown: "report|marks",
    words: &["report", "marks"],
    help: "Rows in conflict alone, or the merged table with these between marks, as git writes them",
};

const PREFER: OneOf = OneOf {
    name: "prefer",
    shown: "ours|theirs",
    words: &["ours", "theirs"],
    help: "Rows in conflict as this side has them; with --by-cell its cells, where these are in conflict",
};

/// How a merge is asked for.
///
/// # Errors
///
/// Returns a `ParseError` if what is given for a tolerance is none.
pub fn merging_of<'a>(alloc: Global, matches: &ArgMatches<'a>) -> Result<Merging<'a>, ParseError> {
    Ok(Merging {
        unit: if matches.get_flag("by-cell") {
            Unit::Cell
        } else {
            Unit::Row
        },
        conflicts: conflicts_of(matches),
        sameness: sameness_of(alloc, matches)?,
    })
}

// What is written where rows are in conflict.
fn conflicts_of(matches: &ArgMatches<'_>) -> Conflicts {
    match matches.get_str("prefer") {
        Some("ours") => Conflicts::Prefer(Side::Ours),
        Some(_) => Conflicts::Prefer(Side::Theirs),
        None => match matches.get_str("conflicts") {
            Some("marks") => Conflicts::Marks,
            _ => Conflicts::Report,
        },
    }
}

/// Puts the options of a merge after others.
///
/// # Errors
///
/// Returns `AllocError` if a request for memory was refused.
pub fn put_merging(alloc: Global, args: &mut Vec<Arg<'_>>) -> Result<(), AllocError> {
    put(
        args,
        flag(
            alloc,
            "by-cell",
            "Each cell of a row is merged as a row of its own",
        ),
    )?;
    put(args, choice(alloc, CONFLICTS))?;
    put(args, one_of(alloc, PREFER).conflicts_with("conflicts")?)
}
