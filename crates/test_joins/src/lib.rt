//! Tests of the joins of real tables, of what no line of `join_cases` can say: refused memory, how often keys are compared, tables of
//! 70,000 rows, and rows that come one by one.
//!
//! Results are compared with a definition that is computed apart from the code, or written out.
#![tactic(auto)]

#[cfg(test)]
mod counts;
#[cfg(test)]
mod large;
#[cfg(test)]
mod lookup;
#[cfg(test)]
mod refused;
#[cfg(test)]
mod settled;
