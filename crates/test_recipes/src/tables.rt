//! Recipes on tables: joins of two and of three, and groups of repeated keys.

use crate::shown::expect_shown;
use either_or_both::join::is_rising;
use eob_joins::is_ordered;
use recipes::grouped::{by_customer, nth_account, nth_customer};
use recipes::ledger::{count_unpaid, ledger};
use recipes::matched::{counted, on_sale, to_order};
use recipes::own_join::still_due;
use recipes::readme::{full_outer_join, joined_if_rising, port, side_by_side, split};
use recipes::three_tables::as_one_table;
use recipes::totals::totals;
use std::alloc::{AllocError, Global};
use std::collections::BTreeMap;
use std::test::Fail;

/// A port of the user's, of the site's, and of neither.
#[test]
fn of_a_port(rt: HostRuntime) {
    assert_eq!(rt; port(None, None), 8080);
    assert_eq!(rt; port(Some(80), None), 80);
    assert_eq!(rt; port(Some(80), Some(81)), 81);
}

/// A batch of results, with a fault among the successes.
#[test]
fn of_a_batch(rt: HostRuntime) -> Result<(), Fail> {
    let alloc = rt.alloc();
    let batch = vec![in alloc; Ok(1), Err('x'), Ok(2)]?;
    expect_shown(alloc, &split(alloc, batch)?, "Both(['x'], [1, 2])")
}

/// Two lists side by side, of which one is longer.
#[test]
fn of_rows_side_by_side(rt: HostRuntime) -> Result<(), Fail> {
    let alloc = rt.alloc();
    let left = vec![in alloc; 1, 2]?;
    let rows = side_by_side(alloc, left, vec![in alloc; 'a']?)?;
    expect_shown(alloc, &rows, "[Both(1, 'a'), Left(2)]")
}

/// The full outer join of two maps.
#[test]
fn of_a_full_outer_join(rt: HostRuntime) -> Result<(), Fail> {
    let alloc = rt.alloc();
    let articles = BTreeMap::from_array(alloc, [(1, "pen"), (3, "ink")])?;
    let stock = BTreeMap::from_array(alloc, [(2, 40), (3, 7)])?;
    let rows = full_outer_join(alloc, articles, stock)?;
    let want = "[(1, Left(\"pen\")), (2, Right(40)), (3, Both(\"ink\", 7))]";
    expect_shown(alloc, &rows, want)
}

/// Two lists whose keys strictly increase, and one whose keys do not beside another.
#[test]
fn of_a_join_if_rising(rt: HostRuntime) -> Result<(), Fail> {
    let alloc = rt.alloc();
    for (first, want) in [
        (
            1,
            "Some([(1, Left('a')), (2, Right('x')), (3, Both('b', 'y'))])",
        ),
        (4, "None"),
    ] {
        let left = vec![in alloc; (first, 'a'), (3, 'b')]?;
        let right = vec![in alloc; (2, 'x'), (3, 'y')]?;
        expect_shown(alloc, &joined_if_rising(alloc, left, right)?, want)?;
    }
    Ok(())
}

// Articles with their names, and the stock of three of them and of one more.
fn shop(alloc: Global) -> Result<(Vec<(u32, &'static str)>, Vec<(u32, u32)>), AllocError> {
    let articles = vec![in alloc; (1, "pen"), (2, "ink"), (4, "pad"), (5, "nib"), (6, "wax")]?;
    let stock = vec![in alloc; (2, 40), (3, 9), (4, 7), (6, 1)]?;
    Ok((articles, stock))
}

/// Articles that have run out, of which one has a supplier; another supplier's article is in stock.
#[test]
fn of_what_to_order(rt: HostRuntime) -> Result<(), Fail> {
    let (articles, stock) = shop(rt.alloc())?;
    let suppliers = vec![in rt.alloc(); (2, "Ada"), (5, "Bob")]?;
    assert!(rt; is_rising(&articles) && is_rising(&stock) && is_rising(&suppliers));
    let rows = to_order(rt.alloc(), articles, stock, suppliers)?;
    let want = "[(1, (\"pen\", None)), (5, (\"nib\", Some(\"Bob\")))]";
    expect_shown(rt.alloc(), &rows, want)
}

/// Articles that are in stock, with what there is of them, less one that was withdrawn.
#[test]
fn of_articles_on_sale(rt: HostRuntime) -> Result<(), Fail> {
    let (articles, stock) = shop(rt.alloc())?;
    let withdrawn = vec![in rt.alloc(); (1, 'w'), (4, 'w')]?;
    assert!(rt; is_rising(&articles) && is_rising(&stock) && is_rising(&withdrawn));
    let rows = on_sale(rt.alloc(), articles, stock, withdrawn)?;
    expect_shown(rt.alloc(), &rows, "[(2, (\"ink\", 40)), (6, (\"wax\", 1))]")
}

/// What is in stock of what is asked for, with the names of those that are articles.
#[test]
fn of_what_was_counted(rt: HostRuntime) -> Result<(), Fail> {
    let (articles, stock) = shop(rt.alloc())?;
    let asked = vec![in rt.alloc(); (1, '?'), (3, '?'), (4, '?')]?;
    assert!(rt; is_rising(&articles) && is_rising(&stock) && is_rising(&asked));
    let rows = counted(rt.alloc(), articles, stock, asked)?;
    expect_shown(
        rt.alloc(),
        &rows,
        "[(3, (None, 9)), (4, (Some(\"pad\"), 7))]",
    )
}

/// Orders in which a customer stands twice.
#[test]
fn of_customers(rt: HostRuntime) -> Result<(), Fail> {
    let alloc = rt.alloc();
    let orders = vec![in alloc; ("ann", 7), ("ann", 5), ("eve", 12)]?;
    assert!(rt; is_ordered(&orders));
    let groups = by_customer(alloc, orders)?;
    expect_shown(alloc, &groups, "[(\"ann\", [7, 5]), (\"eve\", [12])]")
}

/// The same where they stand: a customer's orders, and a place past the last customer.
#[test]
fn of_one_customer(rt: HostRuntime) {
    let orders = [("ann", 7), ("ann", 5), ("eve", 12)];
    assert!(rt; is_ordered(&orders));
    let eve = nth_customer(&orders, 1);
    assert!(rt; eve.is_some_and(|group| *group.0 == "eve" && group.1.len() == 1));
    assert!(rt; nth_customer(&orders, 2).is_none());
}

/// Two tables where they stand: a customer's orders with no payment, and a place past the last customer.
#[test]
fn of_one_account(rt: HostRuntime) {
    let orders = [("ann", 7), ("ann", 5), ("eve", 12)];
    let payments = [("ann", 'p')];
    assert!(rt; is_ordered(&orders) && is_ordered(&payments));
    let eve = nth_account(&orders, &payments, 1);
    assert!(rt; eve.is_some_and(|row| *row.0 == "eve" && row.1.is_left()));
    assert!(rt; nth_account(&orders, &payments, 2).is_none());
}

/// Three tables as one.
#[test]
fn of_three_tables(rt: HostRuntime) -> Result<(), Fail> {
    let alloc = rt.alloc();
    let first = vec![in alloc; (1, 'a'), (3, 'b')]?;
    let second = vec![in alloc; (1, "x"), (2, "y")]?;
    let third = vec![in alloc; (1, 7), (2, 8), (3, 9), (4, 10)]?;
    assert!(rt; is_rising(&first) && is_rising(&second) && is_rising(&third));
    let rows = as_one_table(alloc, first, second, third)?;
    let want = "[(1, Both('a', Both(\"x\", 7))), (2, Right(Both(\"y\", 8))), \
                (3, Both('b', Right(9))), (4, Right(Right(10)))]";
    expect_shown(alloc, &rows, want)
}

/// The same accounts of tables in order and of tables in none: a customer with two orders and a payment, one with a payment alone, and
/// one that has not paid.
#[test]
fn of_a_ledger(rt: HostRuntime) -> Result<(), Fail> {
    let alloc = rt.alloc();
    let rows = [
        [("ann", 7), ("ann", 5), ("eve", 12)],
        [("eve", 12), ("ann", 7), ("ann", 5)],
    ];
    for orders in rows {
        let payments = vec![in alloc; ("ann", 9), ("bob", 1)]?;
        let rows = ledger(alloc, orders.to_vec(alloc)?, payments)?;
        expect_shown(
            alloc,
            &rows,
            "[(\"ann\", Both([7, 5], [9])), (\"bob\", Right([1])), (\"eve\", Left([12]))]",
        )?;
        assert_eq!(rt; count_unpaid(&rows), 1);
    }
    Ok(())
}

/// Orders of which a part, all and more than all was delivered, one of which nothing was, and a delivery that none ordered.
#[test]
fn of_a_join_of_ones_own(rt: HostRuntime) -> Result<(), Fail> {
    let alloc = rt.alloc();
    let ordered = vec![in alloc; ("ink", 5), ("nib", 2), ("pad", 3), ("pen", 4)]?;
    let delivered = vec![in alloc; ("ink", 2), ("nib", 2), ("pad", 9), ("wax", 1)]?;
    assert!(rt; is_rising(&ordered) && is_rising(&delivered));
    let rows = still_due(alloc, ordered, delivered)?;
    expect_shown(alloc, &rows, "[(\"ink\", 3), (\"pen\", 4)]")
}

/// Counts of two tables added: a key of each alone, and two of both.
#[test]
fn of_totals(rt: HostRuntime) -> Result<(), Fail> {
    let alloc = rt.alloc();
    let left = vec![in alloc; ("a", 4_294_967_295), ("b", 2), ("d", 0)]?;
    let right = vec![in alloc; ("a", 4_294_967_295), ("c", 7), ("d", 0)]?;
    assert!(rt; is_rising(&left) && is_rising(&right));
    let rows = totals(alloc, left, right)?;
    expect_shown(
        alloc,
        &rows,
        "[(\"a\", 8589934590), (\"b\", 2), (\"c\", 7), (\"d\", 0)]",
    )
}
