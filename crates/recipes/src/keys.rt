//! Values that carry both sides, sorted, and as the keys of a map.
ghost use Rattle.std.specs.Prelude.{◌≡◌};
ghost use Rattle.either_or_both.specs.Prelude.{IsSorted, OnOk, Some, nat_cmp, places_cmp, unwrap_or};
ghost use Rattle.std.specs.BTreeMap.{get};

use either_or_both::EitherOrBoth;
use std::alloc::AllocError;
use std::collections::BTreeMap;

/// Sorts values: Left before Both before Right, then by the left values, then by the right ones.
pub fn sort(values: &mut Vec<EitherOrBoth<u8, u8>>) -> Result<(), AllocError>
    ensures { OnOk result (IsSorted (places_cmp nat_cmp nat_cmp) values.new.items) }
{
    values.sort()
}

/// The number under a value, and 0 where there is none.
pub fn number_of(numbers: &BTreeMap<EitherOrBoth<u8, u8>, u32>, key: EitherOrBoth<u8, u8>) -> u32
    ensures { result ≡ unwrap_or (get (places_cmp nat_cmp nat_cmp) numbers.now key) 0 }
{
    numbers.get(&key).copied().unwrap_or(0)
}

/// Puts a number under a value, where it is found afterwards.
pub fn put_number(
    numbers: &mut BTreeMap<EitherOrBoth<u8, u8>, u32>,
    key: EitherOrBoth<u8, u8>,
    number: u32,
) -> Result<(), AllocError>
    ensures { OnOk result (get (places_cmp nat_cmp nat_cmp) numbers.new key ≡ Some number) }
{
    numbers.insert(key, number)?;
    Ok(())
}
