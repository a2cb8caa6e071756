//! A batch of texts read as numbers: the numbers, and each text that is none with its place, as many together as the texts.
ghost use Rattle.std.specs.Prelude.{◌≡◌, ◌+◌};
ghost use Rattle.std.specs.Str.Parse.{ParsesUnsigned};
ghost use Rattle.either_or_both.specs.Prelude.{IfErr, IfOk, IfSome, IsSomeAnd, filter_map, length};
ghost use Rattle.either_or_both.specs.Prelude.{map_places};
ghost use Rattle.either_or_both.specs.Prelude.{pair_of, result_err, result_ok, slice_get};

use either_or_both::laws::{law_collected_pair, law_result_counts, law_results};
use either_or_both::{Either, EitherOrBoth};
use std::alloc::{AllocError, Global};

/// A text that is no number, with its place.
pub type Fault<'a> = (usize, &'a str);

/// The numbers and the faults of a batch, each in order.
#[derive(Debug, PartialEq, Drop)]
pub struct Parsed<T, E> {
    pub numbers: Vec<T>,
    pub faults: Vec<E>,
}

// A text as the number that it says, or as a fault.
fn parse_one<'a>(place: usize, text: &'a str) -> Result<u32, Fault<'a>>
    ensures value { ParsesUnsigned 32 10 text.entry.now result }
    ensures fault { IfErr result (λ e. e ≡ (place, text.entry)) }
{
    match text.parse::<u32>() {
        Ok(number) => Ok(number),
        Err(_) => Err((place, text)),
    }
}

/// Each text as the number that it says or as a fault, in order.
pub fn parse_each<'a>(
    alloc: Global,
    texts: &[&'a str],
) -> Result<Vec<Result<u32, Fault<'a>>>, AllocError>
    ensures len { IfOk result (λ rs. length rs.items ≡ length texts.now) }
    ensures each { IfOk result (λ rs. (k : _) → IfSome (slice_get rs.items k) (λ r.
        IsSomeAnd (slice_get texts.now k) (λ t. ParsesUnsigned 32 10 t.now r × IfErr r (λ e. e ≡ (k, t))))) }
{
    texts
        .iter()
        .enumerate()
        .map(|(place, text)| parse_one(place, text))
        .collect(alloc)
}

// The faults and the numbers as a pair of vectors, of any types: of items that hold references this is found in a function of its own.
fn split<T: Drop, E: Drop>(
    alloc: Global,
    batch: Vec<Result<T, E>>,
) -> Result<EitherOrBoth<Vec<E>, Vec<T>>, AllocError>
    ensures { IfOk result (λ v. map_places (λ l. l.items) (λ r. r.items) v
        ≡ pair_of (filter_map result_err batch.items) (filter_map result_ok batch.items)) }
{
    law_results(&batch);
    batch.into_iter().map(Either::from).collect(alloc)
}

/// The numbers and the faults of a batch apart: exactly those, in order, and none is lost.
pub fn part<T: Drop, E: Drop>(
    alloc: Global,
    batch: Vec<Result<T, E>>,
) -> Result<Parsed<T, E>, AllocError>
    ensures numbers { IfOk result (λ p. p.numbers.items ≡ filter_map result_ok batch.items) }
    ensures faults { IfOk result (λ p. p.faults.items ≡ filter_map result_err batch.items) }
    ensures count { IfOk result (λ p. length p.numbers.items + length p.faults.items ≡ length batch.items) }
{
    law_result_counts(&batch);
    let pair = split(alloc, batch)?;
    law_collected_pair(&pair);
    let (faults, numbers) = pair.or(Vec::new(alloc), Vec::new(alloc));
    Ok(Parsed { numbers, faults })
}

/// The numbers that texts say, and the texts that say none: together as many as there are texts.
pub fn parse_batch<'a>(
    alloc: Global,
    texts: &[&'a str],
) -> Result<Parsed<u32, Fault<'a>>, AllocError>
    ensures { IfOk result (λ p. length p.numbers.items + length p.faults.items ≡ length texts.now) }
{
    let batch = parse_each(alloc, texts)?;
    let parsed = part(alloc, batch)?;
    Ok(parsed)
}
