//! Digits of numbers that stand under one another, and sums of two numbers that are compared digit by digit.
ghost use Rattle.std.specs.Prelude.{◌≡◌, ◌≤◌, nat_le};
ghost use Rattle.keyed_numbers.specs.Digits.{positional};
ghost use Rattle.keyed_numbers.specs.AlignedDigits.{digit_of, digit_of_next, digit_of_sum};

use crate::decimal::Decimal;

/// A number whose first digit stands so many places below a top.
#[derive(Clone, Copy)]
pub struct Aligned<'a> {
    pub zeros: u128,
    pub number: Decimal<'a>,
}

impl Aligned<'_> {
    // The value of the digit that stands so many places below the top.
    fn digit(self, step: u128) -> u64
        ensures value { result ≡ digit_of self.entry step }
        ensures bound { result ≤ 9 }
    {
        if step < self.zeros {
            0
        } else {
            self.number.digit(step - self.zeros)
        }
    }
}

/// A number, or the sum of two, without their signs.
#[derive(Clone, Copy)]
pub struct Sum<'a> {
    pub first: Aligned<'a>,
    pub next: Option<Aligned<'a>>,
}

impl Sum<'_> {
    // The values of the digits that stand so many places below the top.
    fn digit(self, step: u128) -> u64
        ensures value { result ≡ digit_of_sum self.entry step }
        ensures bound { result ≤ 18 }
    {
        self.first.digit(step) + next_digit(self.next, step)
    }
}

fn next_digit(next: Option<Aligned<'_>>, step: u128) -> u64
    ensures value { result ≡ digit_of_next next.entry step }
    ensures bound { result ≤ 9 }
{
    match next {
        Some(number) => number.digit(step),
        None => 0,
    }
}

/// Whether one sum is no greater than another, by so many digits of each. They are read from the first on: where what one sum has more of
/// comes to two at a digit, all digits after it come to less.
pub fn is_at_most(depth: u128, lower: Sum<'_>, upper: Sum<'_>) -> bool
    ensures { result ≡ nat_le (positional (digit_of_sum lower.entry) depth)
        (positional (digit_of_sum upper.entry) depth) }
{
    let mut below: u64 = 0;
    let mut above: u64 = 0;
    for step in 0..depth {
        let lesser = 10 * below + lower.digit(step);
        let greater = 10 * above + upper.digit(step);
        let both = lesser.min(greater);
        below = lesser - both;
        above = greater - both;
        if above > 1 {
            return true;
        }
        if below > 1 {
            return false;
        }
    }
    below <= above
}
