//! Tests of rows as cells in one block: rows of each size, their order beside that of vectors of vectors, keys, and groups.
#![tactic(auto)]

#[cfg(test)]
mod groups;
#[cfg(test)]
mod order;
#[cfg(test)]
mod sizes;
