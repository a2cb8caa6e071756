//! The words of a line, read off its front, and the parts of an answer, appended one after another.
#![tactic(auto)]

mod front;
mod parts;

pub use front::{is_word_end, skip_spaces, split_byte, split_name, split_names, split_word};
pub use parts::{append_number, append_part, append_parts, append_spaced};
