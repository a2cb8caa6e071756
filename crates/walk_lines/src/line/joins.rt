//! From the words of a `join` line to the join of its two tables.
ghost use Rattle.std.specs.Prelude.{◌≡◌, ◌≢◌, ◌<◌, ◌↔◌, ◌∷◌, ℕ, List, IfOk, IfSome, IsTrue, MatchOption, codes, length};
ghost use Rattle.eob_lists.specs.Join.{Rising};
ghost use Rattle.line_words.specs.Words.{words, NoSpaceAhead};
ghost use Rattle.walk_lines.specs.Answers.{AnswersBehind, HasEntryAhead, NoEntryAhead, SaysTable};
ghost use Rattle.walk_lines.specs.Answers.{shown_entry, shown_table};
ghost use Rattle.walk_lines.specs.Commands.{bytes_cmp};

use super::{Answer, Item, Name};
use eob_lists::join::{is_rising, outer_join};
use line_words::{is_word_end, skip_spaces, split_byte, split_names};
use std::alloc::{AllocError, Allocator};

/// The keys of two tables, with the values that the two have under each.
pub type Joined<'a, A> = Vec<(&'a [u8], Item<'a>), A>;

// A key of a table, with its value.
type Entry<'a> = (&'a [u8], &'a [u8]);

// The keys of a table, with their values.
type Table<'a, A> = Vec<Entry<'a>, A>;

/// The answer to `join` with these words after it: the join of two tables, parted by the one word `/`, or None where a word is bad or
/// the keys of a table do not strictly increase.
///
/// # Errors
///
/// Returns `AllocError` if a request for memory was refused.
pub fn answer_join<'a, A: Allocator + Copy>(
    alloc: A,
    words: &'a [u8],
) -> Result<Option<Answer<'a, A>>, AllocError>
    ensures { IfOk result (λ answer. AnswersBehind Name.Join words.now answer) }
{
    let (left, words) = parse_table(alloc, words)?;
    match split_slash(words) {
        Some(words) => {
            let (right, words) = parse_table(alloc, words)?;
            if !words.is_empty() {
                return Ok(None);
            }
            if are_rising(&left, &right) {
                Ok(Some(Answer::Join(outer_join(alloc, left, right)?)))
            } else {
                Ok(None)
            }
        }
        None => Ok(None),
    }
}

// Whether the keys of both tables strictly increase.
fn are_rising(left: &[Entry], right: &[Entry]) -> bool
    ensures { IsTrue result ↔ (Rising bytes_cmp (shown_table left.now)
        × Rising bytes_cmp (shown_table right.now)) }
{
    rises(left) && rises(right)
}

// Whether the keys of a table strictly increase.
fn rises(table: &[Entry]) -> bool
    ensures { IsTrue result ↔ Rising bytes_cmp (shown_table table.now) }
{
    is_rising(table)
}

// The words `K=V` that the bytes begin with, and the bytes from the first other word on.
fn parse_table<'a, A: Allocator>(
    alloc: A,
    bytes: &'a [u8],
) -> Result<(Table<'a, A>, &'a [u8]), AllocError>
    ensures { IfOk result (λ parts. SaysTable (words bytes.now) (shown_table parts.0.items)
        (words parts.1.now) × NoSpaceAhead parts.1.now × NoEntryAhead parts.1.now) }
{
    // A word has three bytes at least, and all but the last have a space after them.
    let mut table = Vec::with_capacity(alloc, bytes.len() / 4 + 1)?;
    let mut rest = skip_spaces(bytes);
    while let Some((entry, after)) = split_entry_word(rest) {
        table.push(entry)?;
        rest = after;
    }
    Ok((table, rest))
}

// The entry that the first word says, and the bytes from the next word on, or None where it says none.
#[inline(always)]
fn split_entry_word(bytes: &[u8]) -> Option<(Entry<'_>, &[u8])>
    requires { NoSpaceAhead bytes.now }
    ensures entry { MatchOption result (NoEntryAhead bytes.now)
        (λ parts. HasEntryAhead bytes.now (shown_entry parts.0) parts.1.now) }
    ensures ahead { IfSome result (λ parts. NoSpaceAhead parts.1.now) }
    ensures rest { IfSome result (λ parts. length parts.1.now < length bytes.now) }
{
    let (entry, rest) = split_names(bytes, b'=')?;
    if is_word_end(rest) {
        Some((entry, skip_spaces(rest)))
    } else {
        None
    }
}

// The bytes after the first word, or None where it is not `/`.
fn split_slash(bytes: &[u8]) -> Option<&[u8]>
    requires { NoSpaceAhead bytes.now }
    ensures { MatchOption result ((others : List (List ℕ)) → words bytes.now ≢ codes "/" ∷ others)
        (λ rest. words bytes.now ≡ codes "/" ∷ words rest.now) }
{
    let rest = split_byte(bytes, b'/')?;
    if is_word_end(rest) { Some(rest) } else { None }
}
