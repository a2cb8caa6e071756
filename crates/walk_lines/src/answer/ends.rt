//! The answer to an `ends` line.
ghost use Rattle.std.specs.Prelude.{◌≡◌, ◌++◌, OnOk, codes, map};
ghost use Rattle.std.specs.Option.{option_map};
ghost use Rattle.eob_lists.specs.Answers.{MatchEnd};
ghost use Rattle.line_words.specs.Growth.{Extends};
ghost use Rattle.walk_lines.specs.Answers.{end_of, shown, shown_sides, side_by_side};
ghost use Rattle.walk_lines.specs.Texts.{driven_text, given_text};

use super::items::append_item;
use crate::line::{Calls, Item, Sides};
use line_words::{append_number, append_part};
use std::alloc::{AllocError, Allocator};

/// Appends what the paired walk over two sides gives to calls of its ends, and how many items it has left.
///
/// # Errors
///
/// Returns `AllocError` if a request for memory was refused. What was appended until then stays.
#[tactic(auto, using(line_words::proofs::GrowthLemmas::extends_trans))]
pub fn append_ends<'a, A: Allocator + Copy>(
    alloc: A,
    output: &mut Vec<u8, A>,
    sides: Sides<'a, A>,
    calls: Calls<'a>,
) -> Result<(), AllocError>
    ensures grown { Extends output.old.items output.new.items }
    ensures text { OnOk result (output.new.items ≡ output.old.items
        ++ driven_text (side_by_side (shown_sides sides.entry)) (map end_of calls.entry.letters.now)) }
{
    let mut walk = sides.into_iter_swap();
    let letters = calls.letters();
    for letter in letters {
        let given = call_end(&mut walk, *letter);
        append_given(output, &given)?;
    }
    append_part(output, b"left ")?;
    append_number(alloc, output, walk.len())?;
    Ok(())
}

// What an iterator gives at the end that a letter calls: `f` the front, another one the back.
#[inline(always)]
fn call_end<I: DoubleEndedIterator>(walk: &mut I, letter: u8) -> Option<I::Item>
    requires front { I.can_next walk.old }
    requires back { I.can_next_back walk.old }
    ensures { MatchEnd (end_of letter) (I.next_gives walk.old result walk.new)
        (I.next_back_gives walk.old result walk.new) }
{
    if letter == b'f' {
        walk.next()
    } else {
        walk.next_back()
    }
}

// Appends what a call gave, `.` for nothing, with a space after it.
#[inline(always)]
#[tactic(auto, using(line_words::proofs::GrowthLemmas::extends_trans))]
fn append_given<A: Allocator>(
    output: &mut Vec<u8, A>,
    given: &Option<Item>,
) -> Result<(), AllocError>
    ensures grown { Extends output.old.items output.new.items }
    ensures text { OnOk result (output.new.items
        ≡ output.old.items ++ (given_text (option_map shown given.now) ++ codes " ")) }
{
    match given {
        Some(item) => append_item(output, b"", item)?,
        None => append_part(output, b".")?,
    }
    append_part(output, b" ")
}
