//! Values with memory of their own.

use either_or_both::EitherOrBoth;
use std::alloc::{AllocError, Global};
use std::test::Fail;
use testkit::same::same;

/// Both values, with memory of their own.
pub fn owned(
    alloc: Global,
    text: &str,
    numbers: &[u8],
) -> Result<EitherOrBoth<String, Vec<u8>>, AllocError> {
    Ok(EitherOrBoth::Both(String::from_str(alloc, text)?, numbers.to_vec(alloc)?))
}

/// Fails unless the value holds this text and these numbers after the call.
pub fn check_owned(
    alloc: Global,
    call: &str,
    value: &EitherOrBoth<String, Vec<u8>>,
    text: &str,
    numbers: &[u8],
) -> Result<(), Fail> {
    same(
        call,
        &"a value with memory",
        value,
        &owned(alloc, text, numbers)?,
    )
}
