//! Tests of the command line: what is asked for in plain words is what the words are read as.
#![tactic(auto)]

#[cfg(test)]
mod lines;
#[cfg(test)]
mod plain;
