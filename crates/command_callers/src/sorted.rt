//! What a program knows of tables that it knows when it is written and that are compared while they are read.
ghost use Rattle.std.specs.Prelude.{◌≡◌, IfOk, codes};

use crate::LAYOUT;
use keyed_commands::{Answer, Fault, Outcome, SortedChanges, Stream, diff_sorted};
use std::alloc::Global;

/// Returns what is written of the changes between two tables in which a row has other cells, while they are read, with status 1.
///
/// # Errors
///
/// Returns the errors of `diff_sorted`.
pub fn changed_row(alloc: Global) -> Result<Answer, Fault<'static>>
    ensures status { IfOk result (λ answer. answer.status ≡ 1) }
    ensures bytes { IfOk result (λ answer. answer.bytes.items ≡ codes "change,id,a\n-,1,x\n+,1,y\n") }
{
    let old = file!("old.csv", b"id,a\n1,x\n");
    let new = file!("new.csv", b"id,a\n1,y\n");
    let mut bytes = Vec::new(alloc);
    let finished = diff_sorted(alloc, LAYOUT, SortedChanges::Csv, old, new, &mut bytes)?;
    Ok(Answer {
        bytes,
        status: finished.status,
        outcome: Outcome::Made,
    })
}

/// The same of two tables that are the same: a header alone, with status 0.
///
/// # Errors
///
/// Returns the errors of `diff_sorted`.
pub fn same_table(alloc: Global) -> Result<Answer, Fault<'static>>
    ensures status { IfOk result (λ answer. answer.status ≡ 0) }
    ensures bytes { IfOk result (λ answer. answer.bytes.items ≡ codes "change,id,a\n") }
{
    let old = file!("old.csv", b"id,a\n1,x\n");
    let new = file!("new.csv", b"id,a\n1,x\n");
    let mut bytes = Vec::new(alloc);
    let finished = diff_sorted(alloc, LAYOUT, SortedChanges::Csv, old, new, &mut bytes)?;
    Ok(Answer {
        bytes,
        status: finished.status,
        outcome: Outcome::Made,
    })
}
