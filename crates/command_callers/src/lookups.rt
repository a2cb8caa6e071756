//! Callers of `lookup`.
ghost use Rattle.std.specs.Prelude.{◌≡◌, ◌++◌, IfOk, OnOk, codes};

use crate::LAYOUT;
use keyed_commands::{Fault, Finding, JoinNames, LookupKind, RowFormat, Stream, lookup};
use std::alloc::Global;

const LEFT: Finding<'static> = Finding {
    kind: LookupKind::Left,
    names: JoinNames::PLAIN,
    format: RowFormat::Csv,
};

const INNER: Finding<'static> = Finding {
    kind: LookupKind::Inner,
    ..LEFT
};

const ANTI: Finding<'static> = Finding {
    kind: LookupKind::Anti,
    ..LEFT
};

/// Appends the rows of a table in their order, each with what another one has under its key, and returns the status, 0.
///
/// # Errors
///
/// Returns the errors of `lookup`.
pub fn found_rows(alloc: Global, output: &mut Vec<u8>) -> Result<u8, Fault<'static>>
    ensures status { IfOk result (λ status. status ≡ 0) }
    ensures bytes { OnOk result (output.new.items ≡ output.old.items ++ codes "id,a,b\n2,y,z\n1,x,\n") }
{
    let left = file!("left.csv", b"id,a\n2,y\n1,x\n");
    let right = file!("right.csv", b"id,b\n2,z\n3,w\n");
    lookup(alloc, LAYOUT, LEFT, left, right, output)
}

/// Appends the rows of a table whose keys another one has, each with what it has there, and returns the status, 0.
///
/// # Errors
///
/// Returns the errors of `lookup`.
pub fn matched_rows(alloc: Global, output: &mut Vec<u8>) -> Result<u8, Fault<'static>>
    ensures status { IfOk result (λ status. status ≡ 0) }
    ensures bytes { OnOk result (output.new.items ≡ output.old.items ++ codes "id,a,b\n2,y,z\n") }
{
    let left = file!("left.csv", b"id,a\n2,y\n1,x\n");
    let right = file!("right.csv", b"id,b\n2,z\n3,w\n");
    lookup(alloc, LAYOUT, INNER, left, right, output)
}

/// Appends the rows of a table whose keys another one lacks, and returns the status, 0.
///
/// # Errors
///
/// Returns the errors of `lookup`.
pub fn missed_rows(alloc: Global, output: &mut Vec<u8>) -> Result<u8, Fault<'static>>
    ensures status { IfOk result (λ status. status ≡ 0) }
    ensures bytes { OnOk result (output.new.items ≡ output.old.items ++ codes "id,a\n1,x\n") }
{
    let left = file!("left.csv", b"id,a\n2,y\n1,x\n");
    let right = file!("right.csv", b"id,b\n2,z\n3,w\n");
    lookup(alloc, LAYOUT, ANTI, left, right, output)
}
