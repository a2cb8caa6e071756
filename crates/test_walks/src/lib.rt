//! The tests of what is walked: the paired walk and the chain, walks whose ends are called in turn,
//! and where two iterators differ first.
#![tactic(auto)]

#[cfg(test)]
mod difference;
#[cfg(test)]
mod ends;
#[cfg(test)]
mod in_turn;
#[cfg(test)]
mod walks;
