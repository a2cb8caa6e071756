//! Tests: what the derives of `serde` write and read of values with memory of their own, through `serde_json`.

use either_or_both::Either;
use either_or_both::EitherOrBoth::Both;
use serde::{Deserialize, Serialize};
use std::alloc::Global;
use std::fmt::Debug;
use std::test::Fail;
use testkit::same::same;

// The value is written as the text, and the text is read as the value.
fn check<'de, T: Serialize + Deserialize<'de> + PartialEq + Debug + Drop>(
    alloc: Global,
    value: &T,
    text: &'de str,
) -> Result<(), Fail> {
    let written = serde_json::to_string(alloc, value)?;
    same("to_string", value, &written.as_str(), &text)?;
    let read: T = serde_json::from_str(alloc, text)?;
    same("from_str", &text, &read, value)
}

/// Values of two types, with memory of their own.
#[test]
fn values_with_memory_are_written_and_read_back(rt: HostRuntime) -> Result<(), Fail> {
    let alloc = rt.alloc();
    let value = Both(String::from_str(alloc, "a\n")?, vec![in alloc; 1u8, 2]?);
    check(alloc, &value, "{\"Both\":[\"a\\n\",[1,2]]}")?;
    let value: Either<String, Vec<u8>> = Either::Right(vec![in alloc; 1u8, 2]?);
    check(alloc, &value, "{\"Right\":[1,2]}")
}
