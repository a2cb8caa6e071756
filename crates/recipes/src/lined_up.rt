//! Two lists lined up, with a filler beside the longer one's rest.
ghost use Rattle.std.specs.Prelude.{◌≡◌};
ghost use Rattle.either_or_both.specs.Prelude.{IfOk, aligned, chars, map, reverse};
ghost use Rattle.recipes.specs.Cells.{filled};

use either_or_both::EitherOrBoth;
use eob_known_lists::listed::law_rev;
use std::alloc::{AllocError, Global};

/// The first item beside the first, the second beside the second, and so on.
pub fn lined_up(
    alloc: Global,
    left: &[char],
    right: &[char],
    filler: char,
) -> Result<Vec<(char, char)>, AllocError>
    ensures { IfOk result (λ v. v.items ≡ map (filled filler) (aligned left.now right.now)) }
{
    EitherOrBoth::Both(left.iter().copied(), right.iter().copied())
        .into_iter_swap()
        .map(|item| item.or(filler, filler))
        .collect(alloc)
}

/// The same rows, the last one first.
pub fn lined_up_reversed(
    alloc: Global,
    left: Vec<char>,
    right: Vec<char>,
    filler: char,
) -> Result<Vec<(char, char)>, AllocError>
    ensures { IfOk result (λ v. v.items ≡ map (filled filler) (reverse (aligned left.items right.items))) }
{
    let walk = EitherOrBoth::Both(left, right).into_iter_swap().rev();
    law_rev(&walk);
    walk.map(|item| item.or(filler, filler)).collect(alloc)
}

/// The last item beside the last, the one before it beside the one before it, and so on, from the last on.
pub fn lined_up_at_ends(
    alloc: Global,
    left: &[char],
    right: &[char],
    filler: char,
) -> Result<Vec<(char, char)>, AllocError>
    ensures { IfOk result (λ v. v.items
        ≡ map (filled filler) (aligned (reverse left.now) (reverse right.now))) }
{
    EitherOrBoth::Both(left.iter().rev().copied(), right.iter().rev().copied())
        .into_iter_swap()
        .map(|item| item.or(filler, filler))
        .collect(alloc)
}

// The characters of a text, which a lemma of the standard library tells.
#[tactic(auto, using(std::proofs::lemmas::Str::chars_from_encodes))]
fn characters(alloc: Global, text: &str) -> Result<Vec<char>, AllocError>
    ensures { IfOk result (λ list. list.items ≡ chars text.now) }
{
    text.chars().collect(alloc)
}

/// Two texts with their ends in one line, as numbers are written one below the other, from the first character on.
pub fn lined_up_texts(
    alloc: Global,
    left: &str,
    right: &str,
    filler: char,
) -> Result<Vec<(char, char)>, AllocError>
    ensures { IfOk result (λ v. v.items
        ≡ reverse (map (filled filler) (aligned (reverse (chars left.now)) (reverse (chars right.now))))) }
{
    let left = characters(alloc, left)?;
    let right = characters(alloc, right)?;
    let mut rows = lined_up_at_ends(alloc, &left, &right, filler)?;
    rows.reverse();
    Ok(rows)
}
