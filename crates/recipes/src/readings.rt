//! Readings of sensors, of which some failed: what was read and what failed apart, each in order. No reading is lost, and none stands on
//! both sides.
ghost use Rattle.std.specs.Prelude.{◌≡◌};
ghost use Rattle.either_or_both.specs.Prelude.{IfOk, filter_map, map_places, pair_of, result_err, result_ok};

use either_or_both::laws::law_results;
use either_or_both::{Either, EitherOrBoth};
use std::alloc::{AllocError, Global};

/// What a sensor could not read.
#[derive(Debug, Clone, Copy, PartialEq, Eq)]
pub enum Fault {
    /// It did not respond.
    Silent,
    /// It read a value that is none, which follows.
    Wild(i64),
}

/// The faults as left place and the values as right place, each absent where there is none.
pub fn sorted_out(
    alloc: Global,
    readings: Vec<Result<u32, Fault>>,
) -> Result<EitherOrBoth<Vec<Fault>, Vec<u32>>, AllocError>
    ensures { let faults = filter_map result_err readings.items in
        let values = filter_map result_ok readings.items in
        IfOk result (λ v. map_places (λ l. l.items) (λ r. r.items) v ≡ pair_of faults values) }
{
    law_results(&readings);
    readings.into_iter().map(Either::from).collect(alloc)
}
