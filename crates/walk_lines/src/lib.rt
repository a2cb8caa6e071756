//! The answers of the program `eob_walk`, as a library: each line of a reader is answered on a writer.
//!
//! [`run`] goes over a reader and a writer: how lines are taken of them is the crate `line_runs`. What a line is answered stands in
//! `line`, and how an answer is written in `answer`. Who proves what a known text is answered
//! finds what is needed in [`laws`].
#![tactic(auto)]

mod answer;
pub mod laws;
mod line;
mod session;

pub use line_runs::Outcome;
pub use session::run;
