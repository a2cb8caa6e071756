//! From the bytes of a line to its answer.
//!
//! A line is words, parted by spaces. Its first word names a command, which is a call of the library, and the others are what it
//! is called with. A line that is no command is bad. A line is read once, from its front: what reads a part of it gives the part
//! and the bytes after it.
ghost use Rattle.std.specs.Prelude.{◌≡◌, ◌≢◌, IfOk, MatchOption};
ghost use Rattle.walk_lines.specs.Answers.{AnswersBehind, AnswersLine, name_text};
ghost use Rattle.walk_lines.specs.Commands.{IsBad};

mod joins;
mod walks;

use eob_lists::EitherOrBoth;
use joins::{Joined, answer_join};
use line_words::split_word;
use std::alloc::{AllocError, Allocator};
pub use walks::Calls;
use walks::{answer_collect, answer_ends, answer_normal, answer_walk};

/// An item of a line: one word or two.
pub type Item<'a> = EitherOrBoth<&'a [u8], &'a [u8]>;

/// The items of a line.
pub type Items<'a, A> = Vec<Item<'a>, A>;

/// The words of two sides, collected from the items of a line.
pub type Sides<'a, A> = EitherOrBoth<Vec<&'a [u8], A>, Vec<&'a [u8], A>>;

/// What a line is answered.
#[derive(Drop)]
pub enum Answer<'a, A: Allocator> {
    /// To `collect ITEM..`: its items, collected into vectors.
    Collect(Sides<'a, A>),
    /// To `walk ITEM..`: its items, regrouped.
    Walk(Items<'a, A>),
    /// To `normal ITEM..`: whether its items are in their normal form.
    Normal(bool),
    /// To `ends FB ITEM..`: what the paired walk over its collected items gives to these calls. The walk is driven where the answer is
    /// appended.
    Ends(Sides<'a, A>, Calls<'a>),
    /// To `join K=V.. / K=V..`: the join of its two tables.
    Join(Joined<'a, A>),
}

/// The answer to a line, or None where the line is bad.
///
/// # Errors
///
/// Returns `AllocError` if a request for memory was refused.
pub fn answer_line<'a, A: Allocator + Copy>(
    alloc: A,
    line: &'a [u8],
) -> Result<Option<Answer<'a, A>>, AllocError>
    ensures { IfOk result (λ answer. MatchOption answer (IsBad line.now) (λ a. AnswersLine line.now a)) }
{
    let (word, words) = split_word(line);
    match command_name(word) {
        Some(name) => answer_command(alloc, name, words),
        None => Ok(None),
    }
}

// The names of the commands.
#[derive(Clone, Copy)]
enum Name {
    Collect,
    Walk,
    Normal,
    Ends,
    Join,
}

// The command that a word names.
fn command_name(word: &[u8]) -> Option<Name>
    ensures { MatchOption result ((name : Name) → word.now ≢ name_text name)
        (λ name. word.now ≡ name_text name) }
{
    if word == b"collect".as_slice() {
        Some(Name::Collect)
    } else if word == b"walk".as_slice() {
        Some(Name::Walk)
    } else if word == b"normal".as_slice() {
        Some(Name::Normal)
    } else if word == b"ends".as_slice() {
        Some(Name::Ends)
    } else if word == b"join".as_slice() {
        Some(Name::Join)
    } else {
        None
    }
}

// The answer to a command with these words after its name, or None where it is not called with such words.
fn answer_command<'a, A: Allocator + Copy>(
    alloc: A,
    name: Name,
    words: &'a [u8],
) -> Result<Option<Answer<'a, A>>, AllocError>
    ensures { IfOk result (λ answer. AnswersBehind name words.now answer) }
{
    match name {
        Name::Collect => answer_collect(alloc, words),
        Name::Walk => answer_walk(alloc, words),
        Name::Normal => answer_normal(alloc, words),
        Name::Ends => answer_ends(alloc, words),
        Name::Join => answer_join(alloc, words),
    }
}
