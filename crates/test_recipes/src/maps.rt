//! Recipes on maps.

use crate::shown::expect_shown;
use indexmap::IndexMap;
use recipes::files::{Folder, report};
use recipes::layers::settings;
use recipes::orders::{with_customers, with_customers_hashed, with_customers_in_turn};
use recipes::origins;
use recipes::stock::{stocked_hashed, supplied};
use std::alloc::{AllocError, Global};
use std::collections::{BTreeMap, HashMap};
use std::test::Fail;

/// Layers of settings: the last one that has a key decides.
#[test]
fn of_layers(rt: HostRuntime) -> Result<(), Fail> {
    let alloc = rt.alloc();
    let default = IndexMap::from_array(alloc, [("host", 1), ("port", 80)])?;
    let site = IndexMap::from_array(alloc, [("depth", 3), ("port", 81)])?;
    let user = IndexMap::from_array(alloc, [("width", 72), ("host", 2)])?;
    let all = settings(alloc, default, site, user)?;
    expect_shown(
        alloc,
        &all,
        "{\"host\": 2, \"port\": 81, \"depth\": 3, \"width\": 72}",
    )
}

/// Articles with their prices in the order in which they were entered, and what is in stock and on order beside them.
#[test]
fn of_stock(rt: HostRuntime) -> Result<(), Fail> {
    let alloc = rt.alloc();
    let articles = IndexMap::from_array(alloc, [("pen", 3), ("ink", 5), ("pad", 2)])?;
    let stock = IndexMap::from_array(alloc, [("wax", 9), ("ink", 40)])?;
    let ordered = IndexMap::from_array(alloc, [("pad", 8), ("ink", 10), ("nib", 1)])?;
    let rows = supplied(alloc, articles, stock, ordered)?;
    let want = "{\"pen\": Left(3), \"ink\": Both(5, Both(40, 10)), \"pad\": Both(2, Right(8)), \
                \"wax\": Right(Left(9)), \"nib\": Right(Right(1))}";
    expect_shown(alloc, &rows, want)
}

/// Articles and their stock, of maps that keep no order.
#[test]
fn of_hashed_stock(rt: HostRuntime) -> Result<(), Fail> {
    let alloc = rt.alloc();
    let articles = HashMap::from_array(alloc, [("ink", 5)])?;
    let stock = HashMap::from_array(alloc, [("ink", 40)])?;
    let rows = stocked_hashed(alloc, articles, stock)?;
    expect_shown(alloc, &rows, "{\"ink\": Both(5, 40)}")
}

// A text of its own.
fn text(alloc: Global, text: &str) -> Result<String, AllocError> {
    String::from_str(alloc, text)
}

// Three orders, of which two name one customer and one names none that is known.
fn orders(alloc: Global) -> Result<Vec<(u32, String)>, AllocError> {
    let mut orders = Vec::new(alloc);
    for (customer, article) in [(7, "lamp"), (2, "desk"), (7, "bulb")] {
        orders.push((customer, text(alloc, article)?))?;
    }
    Ok(orders)
}

/// Orders with their customers: a customer with two orders, and an order of none that is known.
#[test]
fn of_orders(rt: HostRuntime) -> Result<(), Fail> {
    let alloc = rt.alloc();
    let want = "[(7, \"lamp\", Some(\"Ada\")), (2, \"desk\", None), (7, \"bulb\", Some(\"Ada\"))]";
    let mut customers = BTreeMap::new(alloc);
    customers.insert(7, text(alloc, "Ada")?)?;
    let rows = with_customers(alloc, orders(alloc)?, &customers)?;
    expect_shown(alloc, &rows, want)?;
    let rows = with_customers_in_turn(alloc, orders(alloc)?, &customers)?;
    expect_shown(alloc, &rows, want)?;
    let mut customers = HashMap::new(alloc);
    customers.insert(7, text(alloc, "Ada")?)?;
    let rows = with_customers_hashed(alloc, orders(alloc)?, &customers)?;
    expect_shown(alloc, &rows, want)
}

// A layer of settings that all have this value.
fn layer(alloc: Global, names: &[&str], value: &str) -> Result<origins::Settings, AllocError> {
    let mut layer = BTreeMap::new(alloc);
    for name in names {
        layer.insert(text(alloc, name)?, text(alloc, value)?)?;
    }
    Ok(layer)
}

/// Layers of settings, each setting with the layer that it comes from.
#[test]
fn of_origins(rt: HostRuntime) -> Result<(), Fail> {
    let alloc = rt.alloc();
    let default = layer(alloc, &["host", "port", "depth"], "d")?;
    let site = layer(alloc, &["port", "width"], "s")?;
    let user = layer(alloc, &["width", "host"], "u")?;
    let all = origins::settings(alloc, default, site, user)?;
    let want =
        "[(\"depth\", Layered { layer: 0, value: \"d\" }), (\"host\", Layered { layer: 2, value: \"u\" }), \
                (\"port\", Layered { layer: 1, value: \"s\" }), (\"width\", Layered { layer: 2, value: \"u\" })]";
    expect_shown(alloc, &all, want)
}

// A folder of small files.
fn folder(alloc: Global, files: &[(&str, &[u8])]) -> Result<Folder, AllocError> {
    let mut folder = BTreeMap::new(alloc);
    for (name, contents) in files {
        folder.insert(text(alloc, name)?, contents.to_vec(alloc)?)?;
    }
    Ok(folder)
}

/// Files that went, that came, that differ in length and in a byte, and that are the same.
#[test]
fn of_files_that_differ(rt: HostRuntime) -> Result<(), Fail> {
    let alloc = rt.alloc();
    let old: [(&str, &[u8]); 4] = [("a", b"1"), ("b", b"22"), ("c", b"333"), ("d", b"")];
    let new: [(&str, &[u8]); 4] = [("b", b"2"), ("c", b"343"), ("d", b""), ("e", b"1")];
    let rows = report(alloc, folder(alloc, &old)?, folder(alloc, &new)?)?;
    let want = "[(\"a\", Gone), (\"b\", Differs), (\"c\", Differs), (\"e\", Came)]";
    expect_shown(alloc, &rows, want)
}
