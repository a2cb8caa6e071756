//! Tests of refused memory: for each call that takes memory, and whose memory a caller may choose, the first request is refused,
//! then the second, and so on, until a run meets no refusal.
//!
//! Each run gives want of memory or the whole answer, what was taken is dropped, and what was borrowed is as it was. A call that takes
//! the memory of the system is tested through its form with any allocator.
#![tactic(auto)]

#[cfg(test)]
mod again;
#[cfg(test)]
mod clones;
#[cfg(test)]
mod collecting;
#[cfg(test)]
mod driving;
#[cfg(test)]
mod drops;
#[cfg(test)]
mod extending;
#[cfg(test)]
mod many;
#[cfg(test)]
mod shapes;
#[cfg(test)]
mod token;
