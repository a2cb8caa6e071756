//! Accounts of customers out of two tables in which a customer may stand many times: all orders and all payments of each. The tables are
//! in order as a rule, and then nothing is sorted.
ghost use Rattle.std.specs.Prelude.{◌≡◌};
ghost use Rattle.either_or_both.specs.Prelude.{IfOk, count_by, is_none, map, right_place};
ghost use Rattle.eob_joins.specs.Groups.{IsGroupJoin, shown_row};

use eob_joins::{GroupRow, group_join, group_join_unordered, is_ordered};
use std::alloc::{AllocError, Global};

/// A row for each customer of either table, in order, with its orders and its payments.
pub fn ledger<K: Ord + Drop, A: Drop, B: Drop>(
    alloc: Global,
    orders: Vec<(K, A)>,
    payments: Vec<(K, B)>,
) -> Result<Vec<GroupRow<K, A, B>>, AllocError>
    ensures { IfOk result (λ rows. IsGroupJoin K.cmp orders.items payments.items (map shown_row rows.items)) }
{
    if is_ordered(&orders) && is_ordered(&payments) {
        group_join(alloc, orders, payments)
    } else {
        group_join_unordered(alloc, orders, payments)
    }
}

/// How many customers have orders and no payment.
pub fn count_unpaid<K, A, B>(rows: &[GroupRow<K, A, B>]) -> usize
    ensures { result ≡ count_by (λ row. is_none (right_place row.1)) rows.now }
{
    rows.iter().filter(|row| row.1.is_left()).count()
}
