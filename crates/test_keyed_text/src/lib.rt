//! Tests alone: texts whose quotes are in order pass unchanged, and others fail; the first bytes of a text tell its style; and texts are
//! compared line by line.
#![tactic(auto)]

#[cfg(test)]
mod compared;
#[cfg(test)]
mod quotes;
#[cfg(test)]
mod styles;
