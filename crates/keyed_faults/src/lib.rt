//! What can be wrong with a file, as one line that says so, and cells and names as a terminal shows them.
//!
//! This crate stands below all that reads and writes tables: each of them tells what is wrong by a `Fault`, or by its `Reason` alone.
#![tactic(auto)]

mod encoding;
mod fault;
mod laws;
mod look_alikes;
mod shown;

pub use encoding::Encoding;
pub use fault::{Fault, Reason, at};
pub use laws::{law_shown_apart, law_shows_no_control};
pub use shown::{Shown, ShownCell, ShownInList, ShownName, shown_cell};
