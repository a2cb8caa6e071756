//! How answers grow: part by part, after what stands there.
ghost use Rattle.std.specs.Prelude.{◌≡◌, ◌++◌, OnOk, OnErr, map};
ghost use Rattle.std.specs.Fmt.{decimal};
ghost use Rattle.std.specs.List.{flat_map, join_with_byte};
ghost use Rattle.line_words.specs.Growth.{Extends};

use std::alloc::{AllocError, Allocator};

/// Appends one part, or nothing where memory is refused.
///
/// # Errors
///
/// Returns `AllocError` if a request for memory was refused.
#[inline(always)]
pub fn append_part<A: Allocator>(output: &mut Vec<u8, A>, part: &[u8]) -> Result<(), AllocError>
    ensures grown { Extends output.old.items output.new.items }
    ensures text { OnOk result (output.new.items ≡ output.old.items ++ part.now) }
{
    output.extend_from_slice(part)
}

/// Appends parts, one after another.
///
/// # Errors
///
/// Returns `AllocError` if a request for memory was refused. What was appended until then stays.
#[inline(always)]
#[tactic(auto, using(crate::proofs::GrowthLemmas::extends_trans))]
pub fn append_parts<A: Allocator>(
    output: &mut Vec<u8, A>,
    parts: &[&[u8]],
) -> Result<(), AllocError>
    ensures grown { Extends output.old.items output.new.items }
    ensures text { OnOk result (output.new.items
        ≡ output.old.items ++ flat_map (λ part. part.now) parts.now) }
{
    for part in parts {
        append_part(output, part)?;
    }
    Ok(())
}

/// Appends words, parted by one space.
///
/// # Errors
///
/// Returns `AllocError` if a request for memory was refused. What was appended until then stays.
#[tactic(auto, using(crate::proofs::GrowthLemmas::extends_trans))]
pub fn append_spaced<A: Allocator>(
    output: &mut Vec<u8, A>,
    words: &[&[u8]],
) -> Result<(), AllocError>
    ensures grown { Extends output.old.items output.new.items }
    ensures text { OnOk result (output.new.items
        ≡ output.old.items ++ join_with_byte 32 (map (λ word. word.now) words.now)) }
{
    let [first, others @ ..] = words else {
        return Ok(());
    };
    append_part(output, first)?;
    for word in others {
        append_parts(output, &[b" ", word])?;
    }
    Ok(())
}

/// Appends a number. One digit takes no memory of its own.
///
/// # Errors
///
/// Returns `AllocError` if a request for memory was refused.
pub fn append_number<A: Allocator + Clone>(
    alloc: A,
    output: &mut Vec<u8, A>,
    number: usize,
) -> Result<(), AllocError>
    ensures grown { Extends output.old.items output.new.items }
    ensures text { OnOk result (output.new.items ≡ output.old.items ++ decimal number) }
{
    if number < 10 {
        let digit = [b'0' + number as u8];
        return append_part(output, &digit);
    }
    let digits = format!(in alloc; "{number}")?;
    append_part(output, digits.as_bytes())
}
