//! Two lists compared part by part, as texts are line by line: which parts stay, which go and which come.
//!
//! The parts that stay and go give the old list back, those that stay and come the new one. How they are shown stands above this crate.
#![tactic(auto)]

mod compared;
mod hunks;
mod lines;
mod script;

pub use compared::{Line, Part, compare_lines, compare_parts};
pub use hunks::{Hunk, hunks_of};
