//! Recipes on maps.

use crate::shown::expect_shown;
use recipes::accounts::with_order_counts;
use recipes::budget::{both_sums, by_department};
use recipes::preferences::merged_preferences;
use recipes::profile::profile;
use recipes::tariffs::{Tariffs, changed_prices};
use std::alloc::{AllocError, Global};
use std::collections::BTreeMap;
use std::test::Fail;

/// Two customers, of whom one has two orders, and an order of nobody.
#[test]
fn of_accounts(rt: HostRuntime) -> Result<(), Fail> {
    let alloc = rt.alloc();
    let customers = BTreeMap::from_array(alloc, [(1, "Ada"), (2, "Bob")])?;
    let orders = vec![in alloc; (2, 'x'), (7, 'y'), (2, 'z')]?;
    let rows = with_order_counts(alloc, customers, orders)?;
    expect_shown(alloc, &rows, "{1: (\"Ada\", None), 2: (\"Bob\", Some(2))}")
}

/// A department on one side, and one whose sum does not fit.
#[test]
fn of_a_budget(rt: HostRuntime) -> Result<(), Fail> {
    let alloc = rt.alloc();
    let granted = vec![in alloc; (2, 5), (1, u64::MAX), (1, 1)]?;
    let spent = vec![in alloc; (2, 3), (2, 4)]?;
    let want = "{1: Left(Total { count: 2, sum: None }), \
                2: Both(Total { count: 1, sum: Some(5) }, Total { count: 2, sum: Some(7) })}";
    expect_shown(alloc, &by_department(alloc, granted, spent)?, want)?;
    assert_eq!(rt; both_sums(&[1, 2], &[u64::MAX, 1]), (Some(3), None));
    Ok(())
}

/// Preferences changed on one device, and on both.
#[test]
fn of_preferences(rt: HostRuntime) -> Result<(), Fail> {
    let alloc = rt.alloc();
    for (phone, want) in [
        ('a', "Whole({1: 'b', 2: 'c'})"),
        ('d', "Conflicts({1: Both('a', Both('b', 'd'))})"),
    ] {
        let before = BTreeMap::from_array(alloc, [(1, 'a')])?;
        let laptop = BTreeMap::from_array(alloc, [(1, 'b'), (2, 'c')])?;
        let phone = BTreeMap::from_array(alloc, [(1, phone)])?;
        expect_shown(
            alloc,
            &merged_preferences(alloc, before, laptop, phone)?,
            want,
        )?;
    }
    Ok(())
}

/// Each layer has a value that holds.
#[test]
fn of_a_profile(rt: HostRuntime) -> Result<(), Fail> {
    let alloc = rt.alloc();
    let defaults = BTreeMap::from_array(alloc, [("color", 1), ("font", 1), ("size", 1)])?;
    let team = BTreeMap::from_array(alloc, [("font", 2), ("size", 2)])?;
    let user = BTreeMap::from_array(alloc, [("size", 3)])?;
    let all = profile(alloc, defaults, team, user)?;
    expect_shown(alloc, &all, "{\"color\": 1, \"font\": 2, \"size\": 3}")
}

// Prices by name.
fn tariffs(alloc: Global, prices: &[(&str, u64)]) -> Result<Tariffs, AllocError> {
    let mut tariffs = BTreeMap::new(alloc);
    for (name, price) in prices {
        tariffs.insert(String::from_str(alloc, name)?, *price)?;
    }
    Ok(tariffs)
}

/// A price that changed, one that went and one that came.
#[test]
fn of_tariffs(rt: HostRuntime) -> Result<(), Fail> {
    let alloc = rt.alloc();
    let (before, after) = ([("day", 4), ("night", 2)], [("day", 5), ("weekend", 1)]);
    let changes = changed_prices(alloc, tariffs(alloc, &before)?, tariffs(alloc, &after)?)?;
    let want = "{\"day\": Both(4, 5), \"night\": Left(2), \"weekend\": Right(1)}";
    expect_shown(alloc, &changes, want)
}
