//! Lines of a reader, answered on a writer.
//!
//! [`run`] goes over a reader and a writer. What a line is answered is told by an [`Answerer`].
#![tactic(auto)]

mod answerer;
mod session;

pub use answerer::Answerer;
pub use session::{Outcome, run};
