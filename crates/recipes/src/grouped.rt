//! Tables in which a key may stand many times, by key: as lists of its own, and read where they stand.
ghost use Rattle.std.specs.Prelude.{◌≡◌, option_map};
ghost use Rattle.either_or_both.specs.Prelude.{IfOk, IfSome, Some, left_place, map, right_place};
ghost use Rattle.eob_joins.specs.Groups.{AreGroups, Ordered, shown_group};
ghost use Rattle.eob_joins.specs.KeySlices.{slice_under};

use either_or_both::EitherOrBoth;
use eob_joins::{group_by_key, group_join_slices, groups_of};
use std::alloc::{AllocError, Global};

/// Each customer once, with all orders in order.
pub fn by_customer<K: Ord + Drop, A: Drop>(
    alloc: Global,
    orders: Vec<(K, A)>,
) -> Result<Vec<(K, Vec<A>)>, AllocError>
    requires { Ordered K.cmp orders.items }
    ensures { IfOk result (λ groups. AreGroups K.cmp orders.items (map shown_group groups.items)) }
{
    group_by_key(alloc, orders)
}

/// The customer at place `n`, where there are so many, with the part of the table that is this customer's. Takes no memory.
pub fn nth_customer<K: Ord, A>(orders: &[(K, A)], n: usize) -> Option<(&K, &[(K, A)])>
    requires { Ordered K.cmp orders.now }
    ensures { IfSome result (λ group. slice_under K.cmp orders.now group.0.now ≡ Some group.1.now) }
{
    groups_of(orders).nth(n)
}

/// The account at place `n` of two tables, where there are so many: a key with the part of each table that has it.
pub fn nth_account<'a, K: Ord, A, B>(
    orders: &'a [(K, A)],
    payments: &'a [(K, B)],
    n: usize,
) -> Option<(&'a K, EitherOrBoth<&'a [(K, A)], &'a [(K, B)]>)>
    requires orders { Ordered K.cmp orders.now }
    requires payments { Ordered K.cmp payments.now }
    ensures orders { IfSome result (λ row. option_map (λ a. a.now) (left_place row.1)
        ≡ slice_under K.cmp orders.now row.0.now) }
    ensures payments { IfSome result (λ row. option_map (λ b. b.now) (right_place row.1)
        ≡ slice_under K.cmp payments.now row.0.now) }
{
    group_join_slices(orders, payments).nth(n)
}
