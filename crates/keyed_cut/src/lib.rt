//! Tables cut into parts by ranges of their keys, all at the same ones, so that the commands can be run on the parts, one after the other
//! or side by side, and what they print, one after the other, is what they print of the whole (`law_cut_joins` of `eob_joins`).
//!
//! `write_cut` reads each table twice, in memory that does not grow: once for a sample of keys, from which boundaries are taken, and once
//! to partition the rows. That each row goes into the part of its key, after the rows there, and into no other part, is proved of
//! `partition_rows`; that the rows of all tables are counted by the same boundaries, of `cut_tables`.
#![tactic(auto)]

mod cutting;
mod fault;
mod laws;
mod listing;
mod names;
mod request;
mod sampling;
mod sinks;
mod tables;

pub use cutting::{CutStatus, write_cut};
pub use fault::{CutFault, CutReason};
pub use laws::law_listing_reads;
pub use request::{Cut, CutTables, Divided, LEAST_PARTS, MOST_PARTS, Second};
