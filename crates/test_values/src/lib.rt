//! The tests of the calls of `either_or_both` on values of both enums that no line of `replay` makes: with memory of their own, with
//! drops counted, with memory refused, over streams and through pointers.
//!
//! A module of tests goes with a family of calls, and covers both enums.
#![tactic(auto)]

#[cfg(test)]
mod in_place;
#[cfg(test)]
mod inspection;
#[cfg(test)]
mod owned;
#[cfg(test)]
mod references;
#[cfg(test)]
mod serialized;
#[cfg(test)]
mod streams;
#[cfg(test)]
mod text;
#[cfg(test)]
mod values;
