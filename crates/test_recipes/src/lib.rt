//! An answer of each recipe of `recipes`, as the recipe's user would work it out by hand.
#![tactic(auto)]

#[cfg(test)]
mod maps;
#[cfg(test)]
mod shown;
#[cfg(test)]
mod tables;
#[cfg(test)]
mod values;
#[cfg(test)]
mod versions;
