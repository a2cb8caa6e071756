//! The tests of what is collected: pairs of containers in each shape, lists regrouped, and the join.
#![tactic(auto)]

#[cfg(test)]
mod collecting;
#[cfg(test)]
mod containers;
#[cfg(test)]
mod joins;
#[cfg(test)]
mod normal;
#[cfg(test)]
mod rebuilt;
