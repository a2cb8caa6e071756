//! Tests of the run that answers lines: what it writes for its input, and how it ends over streams and memory that fail.
#![tactic(auto)]

#[cfg(test)]
mod runs;
