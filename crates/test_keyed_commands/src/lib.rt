//! Tests of commands on tables of CSV that no case of the crate `keyed_cases` is: tables of hundreds of rows and more, every byte as a cell,
//! readers and writers that fail, and cells that never look the same.
#![tactic(auto)]

#[cfg(test)]
mod broken;
#[cfg(test)]
mod cells;
#[cfg(test)]
mod commands;
#[cfg(test)]
mod made;
#[cfg(test)]
mod many;
#[cfg(test)]
mod shown;
#[cfg(test)]
mod sizes;
