//! Numbers whose values are the same, or as near to one another as may be.
ghost use Rattle.std.specs.Prelude.{◌≡◌, ◌+◌, ◌-◌, ◌^◌, ◌<◌, ◌&&◌, nat_le, None, Some};
ghost use Rattle.keyed_numbers.specs.Digits.{positional};
ghost use Rattle.keyed_numbers.specs.Numbers.{depth, is_near, top_of};
ghost use Rattle.keyed_numbers.specs.Decimals.{are_same_by_value, number_of, same_cell};
ghost use Rattle.keyed_numbers.specs.AlignedDigits.{digit_of};

use crate::aligned::{Aligned, Sum, is_at_most};
use crate::alike::{Alike, DecimalMark};
use crate::decimal::Decimal;
use crate::text::{is_same_text, seen, trimmed};

/// Whether two cells are the same: as texts or, where a tolerance is given and both are numbers, by value, with no more than it between
/// them. White space of ASCII around a number is none of it. As texts cells are compared byte by byte, without white space around them or
/// once case is folded where that is how it is done.
///
/// ```
/// let with_comma = Alike { tolerance: Some(Decimal::ZERO), mark: DecimalMark::Comma, ..Alike::AS_THEY_STAND };
/// assert!(rt; is_same_cell(with_comma, b"1,50", b"1,5") && !is_same_cell(with_comma, b"1.50", b"1.5"));
/// let by_value = Alike { tolerance: Some(Decimal::ZERO), ..Alike::AS_THEY_STAND };
/// assert!(rt; is_same_cell(by_value, b"1.50 ", b"+1.5") && !is_same_cell(Alike::AS_THEY_STAND, b"1.50", b"1.5"));
/// let as_words = Alike { trims: true, folds_case: true, ..Alike::AS_THEY_STAND };
/// assert!(rt; is_same_cell(as_words, b" Fig", b"fig ") && !is_same_cell(as_words, b"f ig", b"fig"));
/// ```
pub fn is_same_cell(alike: Alike<'_>, cell: &[u8], other: &[u8]) -> bool
    ensures { result ≡ same_cell alike.entry cell.now other.now }
{
    is_same_text(
        alike.folds_case,
        seen(alike.trims, cell),
        seen(alike.trims, other),
    ) || are_same_by_value(alike.mark, alike.tolerance, cell, other)
}

// Whether two cells are numbers that are the same by value, where a tolerance is given.
fn are_same_by_value(
    mark: DecimalMark,
    tolerance: Option<Decimal<'_>>,
    cell: &[u8],
    other: &[u8],
) -> bool
    ensures { result ≡ are_same_by_value mark tolerance.entry cell.now other.now }
{
    let Some(tolerance) = tolerance else {
        return false;
    };
    let point = mark.byte();
    match Decimal::parse_with(point, trimmed(cell)) {
        Some(number) => match Decimal::parse_with(point, trimmed(other)) {
            Some(next) => is_near(tolerance, number, next),
            None => false,
        },
        None => false,
    }
}

// Whether no more than a tolerance is between two numbers.
fn is_near(tolerance: Decimal<'_>, number: Decimal<'_>, other: Decimal<'_>) -> bool
    ensures { result ≡ is_near (number_of tolerance.entry) (number_of number.entry) (number_of other.entry) }
{
    let top = top_of(number, other, tolerance);
    let depth = depth(top, number)
        .max(depth(top, other))
        .max(depth(top, tolerance));
    let three = Three {
        number: below(top, number),
        other: below(top, other),
        tolerance: below(top, tolerance),
    };
    if number.has_minus() == other.has_minus() {
        is_difference_within(depth, three)
    } else {
        is_sum_within(depth, three)
    }
}

// Two numbers, and a tolerance.
#[derive(Clone, Copy)]
struct Three<'a> {
    number: Aligned<'a>,
    other: Aligned<'a>,
    tolerance: Aligned<'a>,
}

// Whether no more than the tolerance is between two numbers without their signs.
fn is_difference_within(depth: u128, three: Three<'_>) -> bool
    ensures { result ≡ (nat_le (positional (digit_of three.entry.number) depth)
        (positional (digit_of three.entry.other) depth + positional (digit_of three.entry.tolerance) depth)
        && nat_le (positional (digit_of three.entry.other) depth)
        (positional (digit_of three.entry.number) depth
        + positional (digit_of three.entry.tolerance) depth)) }
{
    let Three {
        number,
        other,
        tolerance,
    } = three;
    is_at_most(depth, alone(number), both(other, tolerance))
        && is_at_most(depth, alone(other), both(number, tolerance))
}

// Whether two numbers without their signs come to no more than the tolerance.
fn is_sum_within(depth: u128, three: Three<'_>) -> bool
    ensures { result ≡ nat_le (positional (digit_of three.entry.number) depth
        + positional (digit_of three.entry.other) depth)
        (positional (digit_of three.entry.tolerance) depth) }
{
    is_at_most(
        depth,
        both(three.number, three.other),
        alone(three.tolerance),
    )
}

fn alone(first: Aligned<'_>) -> Sum<'_>
    ensures first { result.first ≡ first.entry }
    ensures next { result.next ≡ None }
{
    Sum { first, next: None }
}

fn both<'a>(first: Aligned<'a>, next: Aligned<'a>) -> Sum<'a>
    ensures first { result.first ≡ first.entry }
    ensures next { result.next ≡ Some next.entry }
{
    Sum {
        first,
        next: Some(next),
    }
}

// The place above the first digit of any of three numbers.
fn top_of(number: Decimal<'_>, other: Decimal<'_>, tolerance: Decimal<'_>) -> u128
    ensures value { result ≡ top_of (number_of number.entry) (number_of other.entry)
        (number_of tolerance.entry) }
    ensures bound { result < 2 ^ 65 }
{
    number.top().max(other.top()).max(tolerance.top())
}

// How many places below a top the last digit of a number stands.
fn depth(top: u128, number: Decimal<'_>) -> u128
    requires { top < 2 ^ 65 }
    ensures { result ≡ depth top (number_of number.entry) }
{
    top.saturating_sub(number.top()) + number.count()
}

// A number below a top.
fn below(top: u128, number: Decimal<'_>) -> Aligned<'_>
    ensures zeros { result.zeros ≡ top - (number_of number.entry).top }
    ensures number { result.number ≡ number.entry }
{
    Aligned {
        zeros: top.saturating_sub(number.top()),
        number,
    }
}
