//! The answer to a `join` line.
ghost use Rattle.std.specs.Prelude.{◌≡◌, ◌++◌, OnOk, map};
ghost use Rattle.line_words.specs.Growth.{Extends};
ghost use Rattle.walk_lines.specs.Answers.{shown_row};
ghost use Rattle.walk_lines.specs.Texts.{row_text, rows_text};

use super::items::append_item;
use crate::line::Item;
use line_words::{append_part, append_parts};
use std::alloc::{AllocError, Allocator};

/// Appends each key with its values, parted by one space, or `-` for none.
///
/// # Errors
///
/// Returns `AllocError` if a request for memory was refused. What was appended until then stays.
#[tactic(auto, using(line_words::proofs::GrowthLemmas::extends_trans))]
pub fn append_join<A: Allocator>(
    output: &mut Vec<u8, A>,
    joined: &[(&[u8], Item)],
) -> Result<(), AllocError>
    ensures grown { Extends output.old.items output.new.items }
    ensures text { OnOk result (output.new.items
        ≡ output.old.items ++ rows_text (map shown_row joined.now)) }
{
    let [first, others @ ..] = joined else {
        return append_part(output, b"-");
    };
    append_row(output, b"", first)?;
    for row in others {
        append_row(output, b" ", row)?;
    }
    Ok(())
}

// Appends a key and its values, as `K=l:V`, `K=r:V` or `K=b:V:V`, after the bytes that stand before them.
#[tactic(auto, using(line_words::proofs::GrowthLemmas::extends_trans))]
fn append_row<A: Allocator>(
    output: &mut Vec<u8, A>,
    before: &[u8],
    row: &(&[u8], Item),
) -> Result<(), AllocError>
    ensures grown { Extends output.old.items output.new.items }
    ensures text { OnOk result (output.new.items
        ≡ output.old.items ++ (before.now ++ row_text (shown_row row.now))) }
{
    append_parts(output, &[before, row.0])?;
    append_item(output, b"=", &row.1)
}
