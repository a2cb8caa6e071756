//! For tests alone: one comparison of what came of a call with what was wanted, proved once for all types.

use std::fmt::Debug;
use std::test::Fail;

/// Fails unless what came of a call is what was wanted. The message says the call, its input, what came and what was wanted.
pub fn same<T: PartialEq + Debug>(
    call: &str,
    input: &impl Debug,
    came: &T,
    want: &T,
) -> Result<(), Fail> {
    if *came == *want {
        return Ok(());
    }
    Err(Fail::new(format_args!("{call} of {input:?} gives {came:?}, not {want:?}")))
}
