//! Loans with their readers: each loan in its place, with the name that a map has under the reader's number. Loans with their returns, as
//! one equation of lists: the loans in order, each with the day on which it came back, where it did.
ghost use Rattle.std.specs.Prelude.{◌≡◌};
ghost use Rattle.std.specs.BTreeMap.{get};
ghost use Rattle.either_or_both.specs.Prelude.{IfOk, Rising, map, nat_cmp, value_under};
ghost use Rattle.eob_joins.specs.Lookup.{shown_lookup, with_found};
ghost use Rattle.eob_sums.specs.Sums.{with_rights};

use eob_joins::{LookupRow, left_join, lookup_join};
use eob_sums::{law_left_join_rows, law_numbers};
use std::alloc::{AllocError, Global};
use std::collections::BTreeMap;

/// Each loan, by its reader's number, with the reader's name, where there is one.
pub fn with_readers<'a>(
    alloc: Global,
    loans: Vec<(u32, String)>,
    readers: &'a BTreeMap<u32, String>,
) -> Result<Vec<LookupRow<'a, u32, String, String>>, AllocError>
    ensures { IfOk result (λ rows. map shown_lookup rows.items
        ≡ map (with_found (get nat_cmp readers.now)) loans.items) }
{
    let rows = lookup_join(alloc, loans, readers)?;
    Ok(rows)
}

/// Each loan, by its own number, with the day of its return, where there is one: the loans in order, each with a look-up.
pub fn with_returns(
    alloc: Global,
    loans: Vec<(u32, String)>,
    returns: Vec<(u32, u16)>,
) -> Result<Vec<(u32, (String, Option<u16>))>, AllocError>
    requires loans { Rising nat_cmp loans.items }
    requires returns { Rising nat_cmp returns.items }
    ensures { IfOk result (λ rows. rows.items
        ≡ map (λ loan. (loan.0, (loan.1, value_under nat_cmp returns.items loan.0))) loans.items) }
{
    let rows = joined(alloc, loans, returns)?;
    Ok(rows)
}

// The same by the word that the law has.
fn joined(
    alloc: Global,
    loans: Vec<(u32, String)>,
    returns: Vec<(u32, u16)>,
) -> Result<Vec<(u32, (String, Option<u16>))>, AllocError>
    requires loans { Rising nat_cmp loans.items }
    requires returns { Rising nat_cmp returns.items }
    ensures { IfOk result (λ rows. rows.items ≡ with_rights nat_cmp returns.items loans.items) }
{
    law_numbers();
    law_left_join_rows::<u32, String, u16>();
    let rows = left_join(alloc, loans, returns)?;
    Ok(rows)
}
