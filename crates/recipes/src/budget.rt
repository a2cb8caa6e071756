//! What each department was granted and what it spent, of two lists in which it stands many times: the count and the sum of either side. A
//! sum that does not fit is `None`, so the numbers may be any.
ghost use Rattle.std.specs.Prelude.{◌≡◌};
ghost use Rattle.std.specs.BTreeMap.{get};
ghost use Rattle.either_or_both.specs.Prelude.{IfOk, from_places, sum};
ghost use Rattle.eob_sums.specs.Sums.{fitting, total_under};

use either_or_both::EitherOrBoth;
use eob_sums::{Total, checked_sum, total_join};
use std::alloc::{AllocError, Global};
use std::collections::BTreeMap;

/// Each department with the totals of both sides.
pub fn by_department<K: Ord + Drop>(
    alloc: Global,
    granted: Vec<(K, u64)>,
    spent: Vec<(K, u64)>,
) -> Result<BTreeMap<K, EitherOrBoth<Total, Total>>, AllocError>
    ensures { IfOk result (λ totals. (k : _) → get K.cmp totals k
        ≡ from_places (total_under K.cmp granted.items k) (total_under K.cmp spent.items k)) }
{
    total_join(alloc, granted, spent)
}

/// Both sums of a department, each `None` where it does not fit.
pub fn both_sums(granted: &[u64], spent: &[u64]) -> (Option<u64>, Option<u64>)
    ensures granted { result.0 ≡ fitting (sum granted.now) }
    ensures spent { result.1 ≡ fitting (sum spent.now) }
{
    (checked_sum(granted), checked_sum(spent))
}
