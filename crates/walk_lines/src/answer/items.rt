//! Items as text, and the answer to a `walk` line.
ghost use Rattle.std.specs.Prelude.{◌≡◌, ◌++◌, OnOk, map};
ghost use Rattle.line_words.specs.Growth.{Extends};
ghost use Rattle.walk_lines.specs.Answers.{shown};
ghost use Rattle.walk_lines.specs.Commands.{item_text};
ghost use Rattle.walk_lines.specs.Texts.{items_text};

use crate::line::Item;
use eob_lists::EitherOrBoth;
use line_words::{append_part, append_parts};
use std::alloc::{AllocError, Allocator};

/// Appends items, parted by one space, or `-` for none.
///
/// # Errors
///
/// Returns `AllocError` if a request for memory was refused. What was appended until then stays.
#[tactic(auto, using(line_words::proofs::GrowthLemmas::extends_trans))]
pub fn append_items<A: Allocator>(output: &mut Vec<u8, A>, items: &[Item]) -> Result<(), AllocError>
    ensures grown { Extends output.old.items output.new.items }
    ensures text { OnOk result (output.new.items
        ≡ output.old.items ++ items_text (map shown items.now)) }
{
    let [first, others @ ..] = items else {
        return append_part(output, b"-");
    };
    append_item(output, b"", first)?;
    for item in others {
        append_item(output, b" ", item)?;
    }
    Ok(())
}

/// Appends an item as a line has it, `l:W`, `r:W` or `b:W:W`, after the bytes that stand before it.
///
/// # Errors
///
/// Returns `AllocError` if a request for memory was refused. What was appended until then stays.
#[inline(always)]
pub(super) fn append_item<A: Allocator>(
    output: &mut Vec<u8, A>,
    before: &[u8],
    item: &Item,
) -> Result<(), AllocError>
    ensures grown { Extends output.old.items output.new.items }
    ensures text { OnOk result (output.new.items
        ≡ output.old.items ++ (before.now ++ item_text (shown item.now))) }
{
    match item {
        EitherOrBoth::Left(left) => append_parts(output, &[before, b"l:", left]),
        EitherOrBoth::Both(left, right) => {
            append_parts(output, &[before, b"b:", left, b":", right])
        }
        EitherOrBoth::Right(right) => append_parts(output, &[before, b"r:", right]),
    }
}
