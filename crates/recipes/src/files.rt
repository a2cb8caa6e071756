//! A report of the files that are not the same in two folders.
ghost use Rattle.std.specs.Prelude.{◌≡◌};
ghost use Rattle.either_or_both.specs.Prelude.{IfOk, option_map, string_cmp};
ghost use Rattle.eob_joins.specs.Tables.{IsKeptByKey, IsKeptOfJoin};
ghost use Rattle.recipes.specs.Findings.{finding};

use either_or_both::EitherOrBoth;
use either_or_both::join::{law_sorted_rises, outer_join_lazily};
use eob_joins::law_kept_join;
use std::alloc::{AllocError, Global};
use std::collections::BTreeMap;

/// The contents of the files of a folder, by name.
pub type Folder = BTreeMap<String, Vec<u8>>;

/// What a report says of a file.
#[derive(Debug, Clone, Copy, PartialEq, Eq)]
pub enum Finding {
    /// The new folder lacks it.
    Gone,
    /// Both have it, with other contents.
    Differs,
    /// The old folder lacked it.
    Came,
}

// What the report says of a file, where it says something.
fn finding_row(file: (String, EitherOrBoth<Vec<u8>, Vec<u8>>)) -> Option<(String, Finding)>
    ensures { result ≡ option_map (λ found. (file.0, found))
        (finding ⟦<Vec<u8> as PartialEq>⟧.eq file.1) }
{
    let (name, contents) = file;
    match contents {
        EitherOrBoth::Left(_old) => Some((name, Finding::Gone)),
        EitherOrBoth::Both(old, new) => {
            if old == new {
                None
            } else {
                Some((name, Finding::Differs))
            }
        }
        EitherOrBoth::Right(_new) => Some((name, Finding::Came)),
    }
}

// The rows of the report.
fn finding_rows(
    alloc: Global,
    old: Folder,
    new: Folder,
) -> Result<Vec<(String, Finding)>, AllocError>
    ensures { IfOk result (λ rows.
        IsKeptOfJoin string_cmp (finding ⟦<Vec<u8> as PartialEq>⟧.eq) old.entries new.entries rows.items) }
{
    law_sorted_rises::<String, Vec<u8>>();
    outer_join_lazily(old, new)
        .filter_map(finding_row)
        .collect(alloc)
}

/// Each file that is not the same in both folders, in the order of names, with what became of it; and no other file.
pub fn report(alloc: Global, old: Folder, new: Folder) -> Result<Vec<(String, Finding)>, AllocError>
    ensures { IfOk result (λ rows.
        IsKeptByKey string_cmp (finding ⟦<Vec<u8> as PartialEq>⟧.eq) old.entries new.entries rows.items) }
{
    let rows = finding_rows(alloc, old, new)?;
    law_kept_join::<String, Vec<u8>, Vec<u8>, Finding>(&rows);
    Ok(rows)
}
