//! The law of results that are read as `Either` values.
ghost use Rattle.std.specs.Prelude.{◌≡◌, map};
ghost use Rattle.std.specs.List.{filter_map};
ghost use Rattle.std.specs.Result.{result_ok, result_err};
ghost use Rattle.either_or_both.specs.Either.{either_of, lefts, rights};

/// Of results that were made [`Either`](crate::Either) values by `From`, the left values are exactly the errors and the right values
/// exactly the successes, each in order.
pub fn law_results<L, R>(_results: &[Result<R, L>])
    ensures errors { lefts (map either_of _results.now) ≡ filter_map result_err _results.now }
    ensures successes { rights (map either_of _results.now) ≡ filter_map result_ok _results.now }
{}
