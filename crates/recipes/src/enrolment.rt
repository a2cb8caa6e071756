//! Students and fees by number, joined and counted: those with no fee, fees of nobody, and students with a fee. The counts add up to each
//! list and to all rows.
ghost use Rattle.std.specs.Prelude.{◌≡◌, ◌+◌};
ghost use Rattle.either_or_both.specs.Prelude.{IfOk, Rising, length, shared_keys};
ghost use Rattle.std.specs.Prelude.{count_by, is_none, is_some};
ghost use Rattle.either_or_both.specs.Prelude.{left_place, option_zip, right_place};

use either_or_both::EitherOrBoth;
use either_or_both::join::outer_join;
use eob_sums::{law_row_counts, law_row_counts_of_join};
use std::alloc::{AllocError, Global};

/// How many students have no fee.
pub fn count_unpaid<K, A, B>(rows: &[(K, EitherOrBoth<A, B>)]) -> usize
    ensures { result ≡ count_by (λ z. is_none (right_place z.1)) rows.now }
{
    rows.iter().filter(|row| row.1.is_left()).count()
}

/// How many fees are of nobody.
pub fn count_unknown<K, A, B>(rows: &[(K, EitherOrBoth<A, B>)]) -> usize
    ensures { result ≡ count_by (λ z. is_none (left_place z.1)) rows.now }
{
    rows.iter().filter(|row| row.1.is_right()).count()
}

/// How many students have a fee.
pub fn count_paid<K, A, B>(rows: &[(K, EitherOrBoth<A, B>)]) -> usize
    ensures { result ≡ count_by (λ z. is_some (option_zip (left_place z.1) (right_place z.1))) rows.now }
{
    rows.iter().filter(|row| row.1.is_both()).count()
}

/// The three counts, which are together as many as the rows, whatever these are.
pub fn count_rows<K, A, B>(rows: &[(K, EitherOrBoth<A, B>)]) -> (usize, usize, usize)
    ensures { result.0 + result.1 + result.2 ≡ length rows.now }
{
    law_row_counts(rows);
    (count_unpaid(rows), count_unknown(rows), count_paid(rows))
}

/// How many students of two lists have no fee: those and the numbers that both lists have are all students.
pub fn unpaid_students<K: Ord + Drop, A: Drop, B: Drop>(
    alloc: Global,
    students: Vec<(K, A)>,
    fees: Vec<(K, B)>,
) -> Result<usize, AllocError>
    requires students { Rising K.cmp students.items }
    requires fees { Rising K.cmp fees.items }
    ensures { IfOk result (λ n. n + shared_keys K.cmp students.items fees.items ≡ length students.items) }
{
    law_row_counts_of_join::<K, A, B>();
    let rows = outer_join(alloc, students, fees)?;
    let unpaid = count_all_unpaid(rows);
    Ok(unpaid)
}

// The same count of rows that nothing else needs.
fn count_all_unpaid<K: Drop, A: Drop, B: Drop>(rows: Vec<(K, EitherOrBoth<A, B>)>) -> usize
    ensures { result ≡ count_by (λ z. is_none (right_place z.1)) rows.items }
{
    rows.into_iter().filter(|row| row.1.is_left()).count()
}

/// How many fees of two lists are of nobody: those and the numbers that both lists have are all fees.
pub fn unknown_fees<K: Ord + Drop, A: Drop, B: Drop>(
    alloc: Global,
    students: Vec<(K, A)>,
    fees: Vec<(K, B)>,
) -> Result<usize, AllocError>
    requires students { Rising K.cmp students.items }
    requires fees { Rising K.cmp fees.items }
    ensures { IfOk result (λ n. n + shared_keys K.cmp students.items fees.items ≡ length fees.items) }
{
    law_row_counts_of_join::<K, A, B>();
    let rows = outer_join(alloc, students, fees)?;
    let unknown = count_all_unknown(rows);
    Ok(unknown)
}

// The same count of rows that nothing else needs.
fn count_all_unknown<K: Drop, A: Drop, B: Drop>(rows: Vec<(K, EitherOrBoth<A, B>)>) -> usize
    ensures { result ≡ count_by (λ z. is_none (left_place z.1)) rows.items }
{
    rows.into_iter().filter(|row| row.1.is_right()).count()
}
