//! What people want of a batch, of a pair that was collected, and of two lists, each proved with no proof file: counts that add up, a
//! pair taken apart, and the first difference.
ghost use Rattle.std.specs.Prelude.{◌≡◌, ◌+◌, ◌^◌, ◌<◌};
ghost use Rattle.either_or_both.specs.Either as either;
ghost use Rattle.either_or_both.specs.Prelude.{IfOk, IfSome, agrees, false, filter_map, length, map_places};
ghost use Rattle.either_or_both.specs.Prelude.{pair_of};
ghost use Rattle.either_or_both.specs.Prelude.{result_err, result_ok, unwrap_or};

use either_or_both::difference::first_difference;
use either_or_both::laws::{law_collected_pair, law_result_counts, law_results, law_split_counts};
use either_or_both::{Either, EitherOrBoth};
use std::alloc::{AllocError, Global};

/// A batch split into its faults and its successes, at any types.
pub fn split_batch<T: Drop, E: Drop>(
    alloc: Global,
    batch: Vec<Result<T, E>>,
) -> Result<EitherOrBoth<Vec<E>, Vec<T>>, AllocError>
    ensures { IfOk result (λ v. map_places (λ l. l.items) (λ r. r.items) v
        ≡ pair_of (filter_map result_err batch.items) (filter_map result_ok batch.items)) }
{
    law_results(&batch);
    batch.into_iter().map(Either::from).collect(alloc)
}

/// A text that is no number, with its index.
pub type Fault<'a> = (usize, &'a str);

/// A batch whose faults hold a text that is borrowed, by the function for any types. Such a vector stands in a clause as it came,
/// `batch.entry`.
pub fn split_faults<'a>(
    alloc: Global,
    batch: Vec<Result<u32, Fault<'a>>>,
) -> Result<EitherOrBoth<Vec<Fault<'a>>, Vec<u32>>, AllocError>
    ensures { let came = batch.entry.items in
        IfOk result (λ v. map_places (λ l. l.items) (λ r. r.items) v
        ≡ pair_of (filter_map result_err came) (filter_map result_ok came)) }
{
    let pair = split_batch(alloc, batch)?;
    Ok(pair)
}

/// The faults and the successes of a batch as two vectors: exactly those, in order, and none is lost.
pub fn part_batch<T: Drop, E: Drop>(
    alloc: Global,
    batch: Vec<Result<T, E>>,
) -> Result<(Vec<E>, Vec<T>), AllocError>
    ensures faults { IfOk result (λ p. p.0.items ≡ filter_map result_err batch.items) }
    ensures good { IfOk result (λ p. p.1.items ≡ filter_map result_ok batch.items) }
    ensures count { IfOk result (λ p. length p.0.items + length p.1.items ≡ length batch.items) }
{
    law_result_counts(&batch);
    let pair = split_batch(alloc, batch)?;
    law_collected_pair(&pair);
    Ok(pair.or(Vec::new(alloc), Vec::new(alloc)))
}

/// The same of a batch whose faults hold a text that is borrowed.
pub fn part_faults<'a>(
    alloc: Global,
    batch: Vec<Result<u32, Fault<'a>>>,
) -> Result<(Vec<Fault<'a>>, Vec<u32>), AllocError>
    ensures faults { IfOk result (λ p. p.0.items ≡ filter_map result_err batch.entry.items) }
    ensures good { IfOk result (λ p. p.1.items ≡ filter_map result_ok batch.entry.items) }
    ensures count { IfOk result (λ p. length p.0.items + length p.1.items ≡ length batch.entry.items) }
{
    let parts = part_batch(alloc, batch)?;
    Ok(parts)
}

/// How many faults a batch has.
pub fn count_faults<T: Drop, E: Drop>(
    alloc: Global,
    batch: Vec<Result<T, E>>,
) -> Result<usize, AllocError>
    ensures { IfOk result (λ n. n ≡ length (filter_map result_err batch.items)) }
{
    let pair = split_batch(alloc, batch)?;
    law_collected_pair(&pair);
    match pair {
        EitherOrBoth::Left(faults) => Ok(faults.len()),
        EitherOrBoth::Both(faults, _good) => Ok(faults.len()),
        EitherOrBoth::Right(_good) => Ok(0),
    }
}

/// The sides of a list of values, collected.
pub fn split_values<L: Drop, R: Drop>(
    alloc: Global,
    values: Vec<Either<L, R>>,
) -> Result<EitherOrBoth<Vec<L>, Vec<R>>, AllocError>
    ensures { IfOk result (λ v. map_places (λ l. l.items) (λ r. r.items) v
        ≡ pair_of (either.lefts values.items) (either.rights values.items)) }
{
    values.into_iter().collect(alloc)
}

/// The sides of a list of values as two vectors, which are together as long as the list.
pub fn part_values<L: Drop, R: Drop>(
    alloc: Global,
    values: Vec<Either<L, R>>,
) -> Result<(Vec<L>, Vec<R>), AllocError>
    ensures { IfOk result (λ p. length p.0.items + length p.1.items ≡ length values.items) }
{
    law_split_counts(&values);
    let pair = split_values(alloc, values)?;
    law_collected_pair(&pair);
    Ok(pair.or(Vec::new(alloc), Vec::new(alloc)))
}

/// The default, under two layers of one key.
pub fn layered(default: u32, site: Option<u32>, user: Option<u32>) -> u32
    ensures { result ≡ unwrap_or user (unwrap_or site default) }
{
    user.or(site).unwrap_or(default)
}

/// What stands at the first difference of two vectors is no pair of equal items.
pub fn first_change<T: Eq + Drop>(old: Vec<T>, new: Vec<T>) -> Option<(usize, EitherOrBoth<T, T>)>
    requires old { length old.items < 2 ^ 64 }
    requires new { length new.items < 2 ^ 64 }
    ensures { IfSome result (λ d. agrees T.eq d.1 ≡ false) }
{
    first_difference(old.into_iter(), new.into_iter())
}
