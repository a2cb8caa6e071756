//! Tests of whole runs of `keyed` that no case of the crate `keyed_cases` is: on tables that are read in several reads.
#![tactic(auto)]

#[cfg(test)]
mod progress;
