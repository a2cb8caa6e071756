//! A number as it is written: which bytes are one, and its digits by their places.
ghost use Rattle.std.specs.Prelude.{◌≡◌, ◌+◌, ◌*◌, ◌^◌, ◌<◌, ◌≤◌, cond, get_or, length, option_map, Some};
ghost use Rattle.std.specs.Prelude.{IfSome, None, ◌&&◌, nat_lt};
ghost use Rattle.std.specs.List.{before_first, position};
ghost use Rattle.keyed_numbers.specs.Digits.{digits_value, value_of};
ghost use Rattle.keyed_numbers.specs.Numbers.{are_digits, are_zeros, behind_first, has_minus, is_below_zero};
ghost use Rattle.keyed_numbers.specs.Numbers.{is_either, number_by, number_in, power_in, power_of};
ghost use Rattle.keyed_numbers.specs.Numbers.{unsigned};
ghost use Rattle.keyed_numbers.specs.Decimals.{number_of};

// The power of ten that stands for 10 to the power 0: powers are counted from -9,999, which is the least.
const ONES: u16 = 9999;

/// A number as it is written: a sign, digits, a point, digits after it, and a power of ten, of which all but one digit may be left out.
#[derive(Clone, Copy, Debug)]
pub struct Decimal<'a> {
    is_negative: bool,
    // The digits before the point, and those after it.
    whole: &'a [u8],
    fraction: &'a [u8],
    // The power of ten, counted from -9,999.
    power: u16,
}

impl Decimal<'static> {
    /// The number 0.
    pub const ZERO: Decimal<'static> = Decimal {
        is_negative: false,
        whole: b"0",
        fraction: b"",
        power: 9999,
    };
}

impl<'a> Decimal<'a> {
    /// The number that bytes are, if they are one: a sign or none, digits with a point or without, of which there is one at least, and then
    /// or not an `e` or `E` with a sign or none and one to four digits. No space, no comma, no word.
    ///
    /// ```
    /// assert!(rt; Decimal::parse(b"-1.50").is_some() && Decimal::parse(b"2e-3").is_some());
    /// assert!(rt; Decimal::parse(b"1,5").is_none() && Decimal::parse(b".").is_none());
    /// ```
    pub fn parse(bytes: &'a [u8]) -> Option<Self>
        ensures { option_map number_of result ≡ number_in bytes.now }
    {
        Self::parse_with(b'.', bytes)
    }

    /// The same of a number with this byte for its point.
    ///
    /// ```
    /// assert!(rt; Decimal::parse_with(b',', b"-1,50").is_some() && Decimal::parse_with(b',', b"1.5").is_none());
    /// ```
    pub fn parse_with(point: u8, bytes: &'a [u8]) -> Option<Self>
        ensures { option_map number_of result ≡ number_by point bytes.now }
    {
        let (is_negative, unsigned) = without_sign(bytes);
        let (digits, power) = parted(unsigned, b'e', b'E');
        let power = power_of(power)?;
        let (whole, fraction) = parted(digits, point, point);
        let fraction = fraction.unwrap_or(b"");
        if are_digits(whole) && are_digits(fraction) && has_any(whole, fraction) {
            Some(Decimal {
                is_negative,
                whole,
                fraction,
                power,
            })
        } else {
            None
        }
    }

    /// Returns whether the number is less than 0: `-0.5` is, and `-0.00` is not.
    pub fn is_negative(self) -> bool
        ensures { result ≡ is_below_zero (number_of self.entry) }
    {
        self.is_negative && !(are_zeros(self.whole) && are_zeros(self.fraction))
    }

    // Whether a minus stands before the digits.
    pub(crate) fn has_minus(self) -> bool
        ensures { result ≡ (number_of self.entry).is_negative }
    {
        self.is_negative
    }

    // The place above that of the first digit, counted from 9,999 places below the point.
    pub(crate) fn top(self) -> u128
        ensures value { result ≡ (number_of self.entry).top }
        ensures bound { result < 2 ^ 65 }
    {
        self.power as u128 + self.whole.len() as u128
    }

    // How many digits there are.
    pub(crate) fn count(self) -> u128
        ensures value { result ≡ length (number_of self.entry).digits }
        ensures bound { result < 2 ^ 65 }
    {
        self.whole.len() as u128 + self.fraction.len() as u128
    }

    // The value of the digit at a place after the first one, or 0 where none stands.
    pub(crate) fn digit(self, place: u128) -> u64
        ensures value { result ≡ value_of (get_or (number_of self.entry).digits place 0) }
        ensures bound { result ≤ 9 }
    {
        let count = self.whole.len() as u128;
        if place < count {
            value_at(self.whole, place)
        } else {
            value_at(self.fraction, place - count)
        }
    }
}

// Whether digits are all 0.
fn are_zeros(digits: &[u8]) -> bool
    ensures { result ≡ are_zeros digits.now }
{
    digits.iter().all(|digit| *digit == b'0')
}

// The value of the digit at a place, or 0 where there is none.
fn value_at(digits: &[u8], place: u128) -> u64
    ensures value { result ≡ value_of (get_or digits.now place 0) }
    ensures bound { result ≤ 9 }
{
    if place < digits.len() as u128 {
        value_of(digits[place as usize])
    } else {
        0
    }
}

// The value of a digit, or 0 of a byte that is none.
fn value_of(byte: u8) -> u64
    ensures value { result ≡ value_of byte }
    ensures bound { result ≤ 9 }
{
    if byte.is_ascii_digit() {
        (byte - b'0') as u64
    } else {
        0
    }
}

// Whether a minus stands before bytes, and what stands after a sign.
fn without_sign(bytes: &[u8]) -> (bool, &[u8])
    ensures minus { result.0 ≡ has_minus bytes.now }
    ensures rest { result.1.now ≡ unsigned bytes.now }
{
    match bytes {
        [b'-', rest @ ..] => (true, rest),
        [b'+', rest @ ..] => (false, rest),
        _ => (false, bytes),
    }
}

// What stands before the first byte that is one of two, and what stands after it, if there is one.
fn parted(bytes: &[u8], mark: u8, other: u8) -> (&[u8], Option<&[u8]>)
    ensures before { result.0.now ≡ before_first (is_either mark other) bytes.now }
    ensures behind { option_map (λ rest. rest.now) result.1 ≡ behind_first (is_either mark other) bytes.now }
{
    match place_of(bytes, mark, other) {
        Some(place) => (&bytes[..place], Some(&bytes[place + 1..])),
        None => (bytes, None),
    }
}

// Where the first byte stands that is one of two.
fn place_of(bytes: &[u8], mark: u8, other: u8) -> Option<usize>
    ensures { result ≡ position (is_either mark other) bytes.now }
{
    bytes
        .iter()
        .position(|byte| *byte == mark || *byte == other)
}

fn are_digits(bytes: &[u8]) -> bool
    ensures { result ≡ are_digits bytes.now }
{
    bytes.iter().all(|byte| byte.is_ascii_digit())
}

// Whether one of two lists of bytes has any.
fn has_any(bytes: &[u8], others: &[u8]) -> bool
    ensures { result ≡ nat_lt 0 (length bytes.now + length others.now) }
{
    !bytes.is_empty() || !others.is_empty()
}

// The power of ten that bytes are, if they are one, or 10 to the power 0 where there are none.
fn power_of(bytes: Option<&[u8]>) -> Option<u16>
    ensures { result ≡ power_of (option_map (λ power. power.now) bytes.entry) }
{
    match bytes {
        Some(bytes) => power_in(bytes),
        None => Some(ONES),
    }
}

// The power of ten that bytes are, if they are one: a sign or none, and one to four digits.
fn power_in(bytes: &[u8]) -> Option<u16>
    ensures { result ≡ power_in bytes.now }
{
    let (is_negative, digits) = without_sign(bytes);
    let value = value_of_few(digits)?;
    Some(if is_negative {
        ONES - value
    } else {
        ONES + value
    })
}

// The number that one to four digits are, or None where bytes are no such.
fn value_of_few(digits: &[u8]) -> Option<u16>
    ensures value { result ≡ cond (are_digits digits.now && nat_lt 0 (length digits.now)
        && nat_lt (length digits.now) 5)
        (Some (digits_value digits.now)) None }
    ensures bound { IfSome result (λ value. value ≤ 9999) }
{
    if !are_digits(digits) {
        return None;
    }
    match digits {
        [a] => Some(value_of_four(b'0', b'0', b'0', *a)),
        [a, b] => Some(value_of_four(b'0', b'0', *a, *b)),
        [a, b, c] => Some(value_of_four(b'0', *a, *b, *c)),
        [a, b, c, d] => Some(value_of_four(*a, *b, *c, *d)),
        _ => None,
    }
}

// The number that four digits are.
fn value_of_four(a: u8, b: u8, c: u8, d: u8) -> u16
    ensures value { result ≡ 1000 * value_of a + 100 * value_of b + 10 * value_of c + value_of d }
    ensures bound { result ≤ 9999 }
{
    let value = 1000 * value_of(a) + 100 * value_of(b) + 10 * value_of(c) + value_of(d);
    value as u16
}
