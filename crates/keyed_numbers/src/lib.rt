//! Which cells are the same: as texts, or as numbers, which are written in decimals and compared by value, exactly.
//!
//! A number is what `Decimal::parse` takes. Nothing is rounded, and no memory is taken.
#![tactic(auto)]

mod aligned;
mod alike;
mod decimal;
mod near;
mod text;

pub use alike::{Alike, DecimalMark};
pub use decimal::Decimal;
pub use near::is_same_cell;
