//! From an answer, or from the number of a bad line, to its text.
ghost use Rattle.std.specs.Prelude.{◌≡◌, ◌++◌, ◌∷◌, [], ℕ, List, IfOk, OnOk, map};
ghost use Rattle.line_words.specs.Growth.{Extends};
ghost use Rattle.walk_lines.specs.Answers.{ForText, HasText, shown_sides};
ghost use Rattle.walk_lines.specs.Texts.{bad_text, LineAnswer, list_text, sides_text};

mod ends;
mod items;
mod joins;

use crate::line::{Answer, Sides, answer_line};
use ends::append_ends;
use eob_lists::EitherOrBoth;
use items::append_items;
use joins::append_join;
use line_words::{append_part, append_spaced};
use std::alloc::{AllocError, Allocator};

/// Appends the answer to a line, with the byte that ends it, and returns whether the line is bad.
///
/// # Errors
///
/// Returns `AllocError` if a request for memory was refused. What was appended until then stays.
pub fn append_line<A: Allocator + Copy>(
    alloc: A,
    output: &mut Vec<u8, A>,
    line: &[u8],
    number: u64,
) -> Result<bool, AllocError>
    ensures grown { Extends output.old.items output.new.items }
    ensures answer { IfOk result (λ bad. (text : List ℕ) × LineAnswer number line.now text bad
        × (output.new.items ≡ output.old.items ++ text ++ 10 ∷ [])) }
{
    match answer_line(alloc, line)? {
        Some(answer) => {
            append_answer(alloc, output, answer)?;
            Ok(false)
        }
        None => {
            append_bad_line(alloc, output, number)?;
            Ok(true)
        }
    }
}

// Appends an answer, and the byte that ends its line.
#[tactic(auto, using(line_words::proofs::GrowthLemmas::extends_trans))]
fn append_answer<A: Allocator + Copy>(
    alloc: A,
    output: &mut Vec<u8, A>,
    answer: Answer<A>,
) -> Result<(), AllocError>
    ensures grown { Extends output.old.items output.new.items }
    ensures text { OnOk result ((text : List ℕ) × HasText answer.entry text
        × (output.new.items ≡ output.old.items ++ text ++ 10 ∷ [])) }
{
    append_text(alloc, output, answer)?;
    append_part(output, b"\n")?;
    Ok(())
}

// Appends the answer to a bad line.
fn append_bad_line<A: Allocator + Clone>(
    alloc: A,
    output: &mut Vec<u8, A>,
    number: u64,
) -> Result<(), AllocError>
    ensures grown { Extends output.old.items output.new.items }
    ensures text { OnOk result (output.new.items ≡ output.old.items ++ bad_text number ++ 10 ∷ []) }
{
    let text = format!(in alloc; "line {number}: bad\n")?;
    append_part(output, text.as_bytes())?;
    Ok(())
}

// Appends an answer, without the byte that ends its line.
fn append_text<A: Allocator + Copy>(
    alloc: A,
    output: &mut Vec<u8, A>,
    answer: Answer<A>,
) -> Result<(), AllocError>
    ensures grown { Extends output.old.items output.new.items }
    ensures text { ForText answer.entry (λ t. OnOk result (output.new.items ≡ output.old.items ++ t)) }
{
    match answer {
        Answer::Collect(sides) => append_sides(output, &sides),
        Answer::Walk(items) => append_items(output, &items),
        Answer::Normal(true) => append_part(output, b"yes"),
        Answer::Normal(false) => append_part(output, b"no"),
        Answer::Ends(sides, calls) => append_ends(alloc, output, sides, calls),
        Answer::Join(joined) => append_join(output, &joined),
    }
}

// Appends the variant of a pair, and the words of each of its sides.
#[tactic(auto, using(line_words::proofs::GrowthLemmas::extends_trans))]
fn append_sides<A: Allocator>(output: &mut Vec<u8, A>, sides: &Sides<A>) -> Result<(), AllocError>
    ensures grown { Extends output.old.items output.new.items }
    ensures text { OnOk result (output.new.items
        ≡ output.old.items ++ sides_text (shown_sides sides.now)) }
{
    match sides {
        EitherOrBoth::Left(left) => append_words(output, b"Left ", left),
        EitherOrBoth::Both(left, right) => {
            append_words(output, b"Both ", left)?;
            append_words(output, b" ", right)
        }
        EitherOrBoth::Right(right) => append_words(output, b"Right ", right),
    }
}

// Appends what stands before a list, and its words in brackets, parted by one space.
#[tactic(auto, using(line_words::proofs::GrowthLemmas::extends_trans))]
fn append_words<A: Allocator>(
    output: &mut Vec<u8, A>,
    before: &[u8],
    words: &[&[u8]],
) -> Result<(), AllocError>
    ensures grown { Extends output.old.items output.new.items }
    ensures text { OnOk result (output.new.items ≡ (output.old.items ++ before.now)
        ++ list_text (map (λ word. word.now) words.now)) }
{
    append_part(output, before)?;
    append_part(output, b"[")?;
    append_spaced(output, words)?;
    append_part(output, b"]")?;
    Ok(())
}
