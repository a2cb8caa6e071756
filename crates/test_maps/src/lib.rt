//! Tests: the calls on ordered maps and on counts and sums at several sizes and where memory is refused, and a result of each recipe that
//! rests on them, as its user would work it out by hand.
#![tactic(auto)]

#[cfg(test)]
mod calls;
#[cfg(test)]
mod lists;
#[cfg(test)]
mod maps;
#[cfg(test)]
mod shown;
