//! What follows of what the commands answer: of texts that `diff` and `apply` read and write, of changes that are taken back, and of what
//! `merge` keeps and marks.
//!
//! Each law is a function that does nothing, and whose contract says it. The commands stand below, in `keyed_commands`.
#![tactic(auto)]

mod laws;

pub use laws::{
    law_diff_apply_texts, law_diff_reads, law_diff_says, law_marks, law_one_side, law_taken_back,
    law_text_once,
};
