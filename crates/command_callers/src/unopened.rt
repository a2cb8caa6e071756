//! Callers of what is told where a file can't be opened.
ghost use Rattle.std.specs.Prelude.{◌⊎◌, IfErr, codes};
ghost use Rattle.command_callers.specs.Unopened.{IsApartIn, IsToldOf};

use crate::{CHANGES, LAYOUT, PLAIN};
use keyed_commands::{
    Answer, Fault, Finding, Finished, JoinNames, LookupKind, Merging, RowFormat, SortedChanges,
    Stream, diff, diff_sorted, lookup, merge,
};
use keyed_faults::Reason;
use std::alloc::Global;

const LEFT: Finding<'static> = Finding {
    kind: LookupKind::Left,
    names: JoinNames::PLAIN,
    format: RowFormat::Csv,
};

/// Compares a table that can't be opened with another. A fault is of that table, and says why it can't be opened.
///
/// # Errors
///
/// Returns the errors of `diff`.
pub fn unopened_old(alloc: Global, why: Reason) -> Result<Answer, Fault<'static>>
    ensures { IfErr result (IsToldOf (codes "old.csv") why) }
{
    let old = Stream {
        file: "old.csv",
        delimiter: None,
        reader: Err(why),
    };
    diff(alloc, PLAIN, CHANGES, old, file!("new.csv", b"id,a\n1,x\n"))
}

/// Compares a table with one that can't be opened, while they are read. A fault is of that one, and says why it can't be opened, or it is
/// of the other, and neither its header nor its rows are to blame.
///
/// # Errors
///
/// Returns the errors of `diff_sorted`.
pub fn unopened_new(
    alloc: Global,
    why: Reason,
    output: &mut Vec<u8>,
) -> Result<Finished, Fault<'static>>
    ensures { IfErr result (λ fault. IsToldOf (codes "new.csv") why fault
        ⊎ IsApartIn (codes "old.csv") fault) }
{
    let old = file!("old.csv", b"id,a\n1,x\n");
    let new = Stream {
        file: "new.csv",
        delimiter: None,
        reader: Err(why),
    };
    diff_sorted(alloc, LAYOUT, SortedChanges::Csv, old, new, output)
}

/// Looks rows up in a table that can't be opened. A fault is of that table, and says why it can't be opened, or it is of the table whose
/// rows are looked up, and neither its header nor its rows are to blame.
///
/// # Errors
///
/// Returns the errors of `lookup`.
pub fn unopened_right(
    alloc: Global,
    why: Reason,
    output: &mut Vec<u8>,
) -> Result<u8, Fault<'static>>
    ensures { IfErr result (λ fault. IsToldOf (codes "right.csv") why fault
        ⊎ IsApartIn (codes "left.csv") fault) }
{
    let left = file!("left.csv", b"id,a\n2,y\n1,x\n");
    let right = Stream {
        file: "right.csv",
        delimiter: None,
        reader: Err(why),
    };
    lookup(alloc, LAYOUT, LEFT, left, right, output)
}

/// Merges two versions of a table, the second of which can't be opened. A fault is of that version, and says why it can't be opened, or it
/// is of the base or of the first version, and neither its header nor its rows are to blame.
///
/// # Errors
///
/// Returns the errors of `merge`.
pub fn unopened_theirs(alloc: Global, why: Reason) -> Result<Answer, Fault<'static>>
    ensures { IfErr result (λ fault. IsToldOf (codes "theirs.csv") why fault
        ⊎ (IsApartIn (codes "base.csv") fault ⊎ IsApartIn (codes "ours.csv") fault)) }
{
    let base = file!("base.csv", b"id,a\n1,x\n");
    let ours = file!("ours.csv", b"id,a\n1,y\n");
    let theirs = Stream {
        file: "theirs.csv",
        delimiter: None,
        reader: Err(why),
    };
    merge(alloc, PLAIN, Merging::PLAIN, base, ours, theirs)
}
