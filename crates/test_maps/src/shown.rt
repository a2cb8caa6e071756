//! What a value is shown as.

use std::alloc::Global;
use std::fmt::Debug;
use std::test::Fail;

/// Fails unless the value is shown as this text.
pub fn expect_shown<T: Debug>(alloc: Global, value: &T, want: &str) -> Result<(), Fail> {
    let text = format!(in alloc; "{value:?}")?;
    if text.as_str() == want {
        Ok(())
    } else {
        Err(Fail::new(text))
    }
}
