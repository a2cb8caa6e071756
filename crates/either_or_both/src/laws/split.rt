//! Laws of a list that is split into its two sides, and of the pair that collecting makes of them.
ghost use Rattle.std.specs.Prelude.{◌≡◌, ◌+◌, List, [], length};
ghost use Rattle.std.specs.List.{filter_map};
ghost use Rattle.std.specs.Option.{unwrap_or};
ghost use Rattle.std.specs.Result.{result_err, result_ok};
ghost use Rattle.eob_both.specs.Collector.{contents_at};
ghost use Rattle.eob_both.specs.Places.{left_place, map_places, right_place};
ghost use Rattle.eob_both.specs.Sides.{pair_of};
ghost use Rattle.either_or_both.specs.Either.{lefts, rights};

use crate::recollect::Walked;
use crate::{Either, EitherOrBoth};

/// A collected pair taken apart: each side that is there holds the list that was collected on that side, and where a side is absent
/// that list is empty. The same of what stands there after [`or`](EitherOrBoth::or) with empty containers.
///
/// Called on the pair before it is taken apart, where a clause says of it `map_places .. ≡ pair_of p q`, as collecting into vectors,
/// queues and containers in the order of insertion does.
///
/// # Examples
///
/// ```
/// let values = [Either::Left("x"), Either::Right(1)];
/// let pair: EitherOrBoth<Vec<&str>, Vec<u8>> = values.into_iter().collect(alloc)?;
/// law_collected_pair(&pair);
/// let (faults, numbers) = pair.or(Vec::new(alloc), Vec::new(alloc));
/// assert_eq!(rt; faults.len() + numbers.len(), 2);
/// ```
pub fn law_collected_pair<C: Walked, D: Walked>(_pair: &EitherOrBoth<C, D>)
    ensures left { (p : List C.Item) (q : List D.Item)
        → map_places C.contents D.contents _pair.now ≡ pair_of p q
        → contents_at C.contents (left_place _pair.now) ≡ p }
    ensures right { (p : List C.Item) (q : List D.Item)
        → map_places C.contents D.contents _pair.now ≡ pair_of p q
        → contents_at D.contents (right_place _pair.now) ≡ q }
    ensures left_or { (p : List C.Item) (q : List D.Item) (empty : C)
        → map_places C.contents D.contents _pair.now ≡ pair_of p q → C.contents empty ≡ []
        → C.contents (unwrap_or (left_place _pair.now) empty) ≡ p }
    ensures right_or { (p : List C.Item) (q : List D.Item) (empty : D)
        → map_places C.contents D.contents _pair.now ≡ pair_of p q → D.contents empty ≡ []
        → D.contents (unwrap_or (right_place _pair.now) empty) ≡ q }
{}

/// The left values and the right values of a list of [`Either`] values are together as many as the values.
///
/// Called on the list before it is collected, where the counts of the two sides are to add up.
///
/// # Examples
///
/// ```
/// let values = [Either::Left("x"), Either::Right(1), Either::Right(2)];
/// law_split_counts(&values);
/// let lefts = values.iter().filter(|value| value.is_left()).count();
/// assert_eq!(rt; lefts, 1);
/// ```
pub fn law_split_counts<L, R>(_values: &[Either<L, R>])
    ensures { length (lefts _values.now) + length (rights _values.now) ≡ length _values.now }
{}

/// The successes and the errors of a list of results are together as many as the results.
///
/// Called on the list before it is collected, beside [`law_results`](super::law_results), where the counts of a batch are to add up.
///
/// # Examples
///
/// ```
/// let batch = vec![in alloc; Ok(1), Err("x"), Ok(2)]?;
/// law_results(&batch);
/// law_result_counts(&batch);
/// let pair: EitherOrBoth<Vec<&str>, Vec<u8>> = batch.into_iter().map(Either::from).collect(alloc)?;
/// assert!(rt; pair.is_both());
/// ```
pub fn law_result_counts<T, E>(_results: &[Result<T, E>])
    ensures { length (filter_map result_ok _results.now) + length (filter_map result_err _results.now)
        ≡ length _results.now }
{}
