//! A table whose rows have two sides, each of which may be absent: one side of a row set after its key.
ghost use Rattle.std.specs.Prelude.{◌≡◌};
ghost use Rattle.either_or_both.specs.Prelude.{OnOk, Some, left_place, nat_cmp, option_and_then, right_place};
ghost use Rattle.std.specs.BTreeMap.{get};

use either_or_both::EitherOrBoth;
use std::alloc::AllocError;
use std::collections::BTreeMap;

/// Sets the right side of the row under the key, and makes the row where there is none. The left side of the row and every other
/// row are as they were.
pub fn set_right(
    table: &mut BTreeMap<u32, EitherOrBoth<u16, u8>>,
    key: u32,
    value: u8,
) -> Result<(), AllocError>
    ensures right { OnOk result (option_and_then right_place (get nat_cmp table.new key) ≡ Some value) }
    ensures left { OnOk result (option_and_then left_place (get nat_cmp table.new key)
        ≡ option_and_then left_place (get nat_cmp table.old key)) }
    ensures others { (k : _) → (k ≡ key → ⊥) → get nat_cmp table.new k ≡ get nat_cmp table.old k }
{
    match table.get_mut(&key) {
        Some(row) => {
            row.insert_right(value);
        },
        None => {
            table.insert(key, EitherOrBoth::Right(value))?;
        },
    }
    Ok(())
}
