//! From the words of a line to its items, and to the calls of the ends of a walk over them.
ghost use Rattle.std.specs.Prelude.{◌≡◌, ◌<◌, ◌++◌, ◌∷◌, ℕ, List, IfOk, IfSome, IsSome, MatchOption, length, map, ◌≢◌, ◌⊎◌, ◌↔◌, [], All, IsTrue};
ghost use Rattle.eob_both.specs.Places.{map_places};
ghost use Rattle.eob_both.specs.Sides.{collected};
ghost use Rattle.line_words.specs.Names.{NoNameAhead};
ghost use Rattle.line_words.specs.Words.{NoSpaceAhead};
ghost use Rattle.walk_lines.specs.Answers.{AnswersBehind, HasItemAhead, NoItemAhead, SaysItems};
ghost use Rattle.walk_lines.specs.Answers.{SaysNoItems, shown};
ghost use Rattle.walk_lines.specs.Commands.{end_letter, HasNames, item_text, Named};
ghost use Rattle.eob_lists.specs.declared.drive.End.{End};

use super::{Answer, Item, Items, Name, Sides};
use eob_lists::EitherOrBoth;
use eob_lists::laws::{is_normal, regroup};
use line_words::{is_word_end, skip_spaces, split_name, split_names, split_word};
use std::alloc::{AllocError, Allocator};

/// The answer to `collect` with these words after it, or None where one is no item.
///
/// # Errors
///
/// Returns `AllocError` if a request for memory was refused.
pub fn answer_collect<'a, A: Allocator + Copy>(
    alloc: A,
    words: &'a [u8],
) -> Result<Option<Answer<'a, A>>, AllocError>
    ensures { IfOk result (λ answer. AnswersBehind Name.Collect words.now answer) }
{
    match parse_items(alloc, words)? {
        Some(items) => Ok(Some(Answer::Collect(collect_items(alloc, items)?))),
        None => Ok(None),
    }
}

/// The answer to `walk` with these words after it, or None where one is no item.
///
/// # Errors
///
/// Returns `AllocError` if a request for memory was refused.
pub fn answer_walk<'a, A: Allocator + Copy>(
    alloc: A,
    words: &'a [u8],
) -> Result<Option<Answer<'a, A>>, AllocError>
    ensures { IfOk result (λ answer. AnswersBehind Name.Walk words.now answer) }
{
    match parse_items(alloc, words)? {
        Some(items) => Ok(Some(Answer::Walk(regroup(alloc, items)?))),
        None => Ok(None),
    }
}

/// The answer to `normal` with these words after it, or None where one is no item.
///
/// # Errors
///
/// Returns `AllocError` if a request for memory was refused.
pub fn answer_normal<'a, A: Allocator + Copy>(
    alloc: A,
    words: &'a [u8],
) -> Result<Option<Answer<'a, A>>, AllocError>
    ensures { IfOk result (λ answer. AnswersBehind Name.Normal words.now answer) }
{
    match parse_items(alloc, words)? {
        Some(items) => Ok(Some(Answer::Normal(is_normal(&items)))),
        None => Ok(None),
    }
}

/// The answer to `ends` with these words after it, or None where the first is no calls of ends or another is no item.
///
/// # Errors
///
/// Returns `AllocError` if a request for memory was refused.
pub fn answer_ends<'a, A: Allocator + Copy>(
    alloc: A,
    words: &'a [u8],
) -> Result<Option<Answer<'a, A>>, AllocError>
    ensures { IfOk result (λ answer. AnswersBehind Name.Ends words.now answer) }
{
    let (letters, words) = split_word(words);
    match Calls::new(letters) {
        Some(calls) => match parse_items(alloc, words)? {
            Some(items) => Ok(Some(Answer::Ends(collect_items(alloc, items)?, calls))),
            None => Ok(None),
        },
        None => Ok(None),
    }
}

// The items that the words say, or None where a word is no item.
fn parse_items<'a, A: Allocator>(
    alloc: A,
    bytes: &'a [u8],
) -> Result<Option<Items<'a, A>>, AllocError>
    ensures { IfOk result (λ said. MatchOption said (SaysNoItems bytes.now)
        (λ items. SaysItems bytes.now (map shown items.items))) }
{
    // An item has three bytes at least, and all but the last have a space after them.
    let mut items = Vec::with_capacity(alloc, bytes.len() / 4 + 1)?;
    let mut rest = skip_spaces(bytes);
    while !rest.is_empty() {
        match split_item_word(rest) {
            Some((item, after)) => {
                items.push(item)?;
                rest = after;
            }
            None => return Ok(None),
        }
    }
    Ok(Some(items))
}

// Items, collected into vectors.
fn collect_items<'a, A: Allocator + Copy>(
    alloc: A,
    items: Items<'a, A>,
) -> Result<Sides<'a, A>, AllocError>
    ensures { IfOk result (λ sides. map_places (λ l. l.items) (λ r. r.items) sides
        ≡ collected items.entry.items) }
{
    items.into_iter().collect(alloc)
}

// The item that the first word says, and the bytes from the next word on, or None where it says none.
#[inline(always)]
fn split_item_word(bytes: &[u8]) -> Option<(Item<'_>, &[u8])>
    requires { NoSpaceAhead bytes.now }
    ensures item { MatchOption result (NoItemAhead bytes.now)
        (λ parts. HasItemAhead bytes.now (shown parts.0) parts.1.now) }
    ensures ahead { IfSome result (λ parts. NoSpaceAhead parts.1.now) }
    ensures rest { IfSome result (λ parts. length parts.1.now < length bytes.now) }
{
    let (item, rest) = split_item(bytes)?;
    if is_word_end(rest) {
        Some((item, skip_spaces(rest)))
    } else {
        None
    }
}

// The item that the bytes begin with, one of `l:W`, `r:W` and `b:W:W`, and the bytes after it, or None.
#[inline(always)]
fn split_item(bytes: &[u8]) -> Option<(Item<'_>, &[u8])>
    ensures item { IfSome result (λ parts. (bytes.now ≡ item_text (shown parts.0) ++ parts.1.now)
        × HasNames (shown parts.0) × NoNameAhead parts.1.now) }
    ensures some { (item : Named) (rest : List ℕ) → HasNames item → NoNameAhead rest
        → bytes.now ≡ item_text item ++ rest → IsSome result }
    ensures rest { IfSome result (λ parts. length parts.1.now < length bytes.now) }
{
    match bytes {
        [b'l', b':', left @ ..] => {
            let (left, rest) = split_name(left)?;
            Some((EitherOrBoth::Left(left), rest))
        }
        [b'r', b':', right @ ..] => {
            let (right, rest) = split_name(right)?;
            Some((EitherOrBoth::Right(right), rest))
        }
        [b'b', b':', both @ ..] => {
            let ((left, right), rest) = split_names(both, b':')?;
            Some((EitherOrBoth::Both(left, right), rest))
        }
        _ => None,
    }
}

/// The calls of ends that a word names, a letter each: `f` calls the front and `b` the back.
#[derive(Clone, Copy)]
pub struct Calls<'a> {
    letters: &'a [u8],
}

impl<'a> Calls<'a> {
    // None where there is another letter, or none.
    fn new(letters: &'a [u8]) -> Option<Self>
        ensures { MatchOption result ((ends : List End) → ends ≢ [] → letters.now ≢ map end_letter ends)
            (λ calls. (ends : List End) × (ends ≢ []) × (letters.now ≡ map end_letter ends)
            × (calls.letters.now ≡ letters.now)) }
    {
        if letters.is_empty() {
            return None;
        }
        if are_ends(letters) {
            Some(Calls { letters })
        } else {
            None
        }
    }

    /// The letters, in the order of the calls.
    pub fn letters(self) -> &'a [u8]
        ensures { result ≡ self.entry.letters }
    {
        self.letters
    }
}

// Whether each letter calls an end.
fn are_ends(letters: &[u8]) -> bool
    ensures { IsTrue result ↔ All (λ b. (b ≡ 102) ⊎ (b ≡ 98)) letters.now }
{
    letters.iter().all(|letter| matches!(letter, b'f' | b'b'))
}
