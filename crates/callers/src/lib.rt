//! Small callers that are proved from the contracts of the libraries alone, a module for each subject: one for each kind of clause that a
//! caller rests on, and one for each law that callers need. None has a proof of its own, but for loops: a loop has an invariant, which
//! only its author can choose, and rows of a join that are taken one by one want a short proof too (`rows`). Recipes for a user stand in
//! the crate `recipes`; what one of them shows has no caller here.
#![tactic(auto)]

pub mod collected;
pub mod conversions;
pub mod copies;
pub mod ends;
pub mod items;
pub mod joins;
pub mod maps;
pub mod missing_facts;
pub mod order_and_text;
pub mod rows;
pub mod streams;
pub mod tables_wanted;
pub mod transpositions;
pub mod values;
pub mod walks;
pub mod wanted;
pub mod writing;
