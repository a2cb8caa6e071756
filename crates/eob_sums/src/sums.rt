//! The sum of a list of numbers, where it fits.
ghost use Rattle.std.specs.Prelude.{◌≡◌, ◌+◌, sum};
ghost use Rattle.std.specs.Option.{option_and_then};
ghost use Rattle.eob_sums.specs.Sums.{fitting};

/// Returns the sum of numbers, and `None` exactly where it is 2 ^ 64 or more. The sum of no numbers is 0.
///
/// # Examples
///
/// ```
/// assert_eq!(rt; checked_sum(&[2, 3]), Some(5));
/// assert_eq!(rt; checked_sum(&[u64::MAX, 1]), None);
/// ```
pub fn checked_sum(numbers: &[u64]) -> Option<u64>
    ensures { result ≡ fitting (sum numbers.now) }
{
    let mut total = Some(0);
    for number in numbers {
        total = with_number(total, *number);
    }
    total
}

/// Returns a sum with a number more, where both fit.
pub(crate) fn with_number(total: Option<u64>, number: u64) -> Option<u64>
    ensures { result ≡ option_and_then (λ s. fitting (s + number)) total }
{
    match total {
        Some(sum) => sum.checked_add(number),
        None => None,
    }
}
