//! For tests alone, a subject a module: what came of a call compared with what was wanted, in [`same`]; what counts how often it is
//! called, in [`counts`]; memory of which a chosen request is refused, in [`memory`]; readers and writers that fail where a test says,
//! over another one in [`streams`] and over bytes in memory in [`bytes`]; numbers that look random, in [`random`]; a process with its
//! files in memory, in [`process`] and [`disk`].
#![tactic(auto)]

pub mod bytes;
pub mod counts;
pub mod disk;
pub mod memory;
pub mod process;
pub mod random;
pub mod same;
pub mod streams;
