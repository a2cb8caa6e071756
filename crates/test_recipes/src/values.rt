//! Recipes on values: settings in layers, keys, readers, text, and pairs that are written or lined up.

use crate::shown::expect_shown;
use either_or_both::EitherOrBoth;
use either_or_both::EitherOrBoth::{Both, Left, Right};
use recipes::batch::{parse_batch, part};
use recipes::closures::{feed_both, map_left_by};
use recipes::difference::first_change;
use recipes::keys::{number_of, put_number, sort};
use recipes::lined_up::{lined_up, lined_up_at_ends, lined_up_reversed, lined_up_texts};
use recipes::readers::{next_line, opened};
use recipes::serialized::{Row, from_json, to_json};
use recipes::settings::{Layer, Settings, resolve};
use recipes::upsert::set_right;
use recipes::writing::{count_right, raise_left};
use std::alloc::{AllocError, Global};
use std::collections::BTreeMap;
use std::test::Fail;

// A text with memory of its own, where there is one.
fn text(alloc: Global, part: Option<&str>) -> Result<Option<String>, AllocError> {
    match part {
        Some(part) => Ok(Some(part.to_string(alloc)?)),
        None => Ok(None),
    }
}

/// Settings: the host from the user, the port from the site, or both from the defaults.
#[test]
fn of_settings(rt: HostRuntime) -> Result<(), Fail> {
    let alloc = rt.alloc();
    let rows = [
        (None, None, None, None, "localhost", 80),
        (Some("site"), Some(81), None, None, "site", 81),
        (Some("site"), Some(81), Some("user"), None, "user", 81),
        (None, None, None, Some(82), "localhost", 82),
    ];
    for (site_host, site_port, user_host, user_port, host, port) in rows {
        let default = Settings {
            host: "localhost".to_string(alloc)?,
            port: 80,
        };
        let site = Layer {
            host: text(alloc, site_host)?,
            port: site_port,
        };
        let user = Layer {
            host: text(alloc, user_host)?,
            port: user_port,
        };
        let settings = resolve(default, site, user);
        assert_eq!(rt;
            settings,
            Settings {
                host: host.to_string(alloc)?,
                port
            }
        );
    }
    Ok(())
}

/// One side of a row, after a key that is there and one that is not.
#[test]
fn of_upsert(rt: HostRuntime) -> Result<(), Fail> {
    let mut table = BTreeMap::new(rt.alloc());
    table.insert(1, Left(10))?;
    set_right(&mut table, 1, 7)?;
    set_right(&mut table, 2, 8)?;
    set_right(&mut table, 2, 9)?;
    assert_eq!(rt; table.len(), 2);
    assert_eq!(rt; table.get(&1), Some(&Both(10, 7)));
    assert_eq!(rt; table.get(&2), Some(&Right(9)));
    Ok(())
}

/// Two lists of unequal lengths, from the front and from the back.
#[test]
fn of_lined_up(rt: HostRuntime) -> Result<(), Fail> {
    let alloc = rt.alloc();
    let rows = lined_up(alloc, &['a', 'b', 'c'], &['x'], '.')?;
    assert_eq!(rt; rows, vec![in alloc; ('a', 'x'), ('b', '.'), ('c', '.')]?);
    let (left, right) = (vec![in alloc; 'a', 'b', 'c']?, vec![in alloc; 'x']?);
    let rows = lined_up_reversed(alloc, left, right, '.')?;
    assert_eq!(rt; rows, vec![in alloc; ('c', '.'), ('b', '.'), ('a', 'x')]?);
    let rows = lined_up_at_ends(alloc, &['a', 'b', 'c'], &['x'], '.')?;
    assert_eq!(rt; rows, vec![in alloc; ('c', 'x'), ('b', '.'), ('a', '.')]?);
    Ok(())
}

/// Two texts with their ends in one line: the shorter one on either side, and of characters of several bytes.
#[test]
fn of_lined_up_texts(rt: HostRuntime) -> Result<(), Fail> {
    let alloc = rt.alloc();
    for (left, right, want) in [
        ("120", "7", "[('1', ' '), ('2', ' '), ('0', '7')]"),
        ("é", "aß", "[(' ', 'a'), ('é', 'ß')]"),
        ("", "", "[]"),
    ] {
        expect_shown(alloc, &lined_up_texts(alloc, left, right, ' ')?, want)?;
    }
    Ok(())
}

/// A batch of texts: numbers, and texts that are none with their places, with none of either, and with nothing.
#[test]
fn of_a_batch_of_texts(rt: HostRuntime) -> Result<(), Fail> {
    let alloc = rt.alloc();
    let rows: [(&[&str], &str); 4] = [
        (
            &["1", "x", "23", ""],
            "Parsed { numbers: [1, 23], faults: [(1, \"x\"), (3, \"\")] }",
        ),
        (
            &["4294967295", "0"],
            "Parsed { numbers: [4294967295, 0], faults: [] }",
        ),
        (
            &["4294967296"],
            "Parsed { numbers: [], faults: [(0, \"4294967296\")] }",
        ),
        (&[], "Parsed { numbers: [], faults: [] }"),
    ];
    for (texts, want) in rows {
        expect_shown(alloc, &parse_batch(alloc, texts)?, want)?;
    }
    let parted = part(alloc, vec![in alloc; Err('e'), Ok(2), Err('f')]?)?;
    expect_shown(
        alloc,
        &parted,
        "Parsed { numbers: [2], faults: ['e', 'f'] }",
    )
}

/// Two lists that differ in an item, of which one ends first on either side, and that are equal.
#[test]
fn of_a_first_change(rt: HostRuntime) -> Result<(), Fail> {
    let alloc = rt.alloc();
    let rows: [(&[u32], &[u32], &str); 5] = [
        (&[1, 2, 3], &[1, 5, 3], "Some((1, Both(2, 5)))"),
        (&[1, 2], &[1], "Some((1, Left(2)))"),
        (&[], &[4], "Some((0, Right(4)))"),
        (&[7, 8], &[7, 8], "None"),
        (&[], &[], "None"),
    ];
    for (old, new, want) in rows {
        let found = first_change(old.to_vec(alloc)?, new.to_vec(alloc)?);
        expect_shown(alloc, &found, want)?;
    }
    Ok(())
}

/// Values sorted, and found again under themselves.
#[test]
fn of_keys(rt: HostRuntime) -> Result<(), Fail> {
    let alloc = rt.alloc();
    let mut values = vec![in alloc; Right(0), Both(2, 1), Left(9), Both(1, 5)]?;
    sort(&mut values)?;
    assert_eq!(rt;
        values,
        vec![in alloc; Left(9), Both(1, 5), Both(2, 1), Right(0)]?
    );
    let mut numbers = BTreeMap::new(alloc);
    put_number(&mut numbers, Both(1, 2), 7)?;
    assert_eq!(rt; number_of(&numbers, Both(1, 2)), 7);
    assert_eq!(rt; number_of(&numbers, Left(1)), 0);
    Ok(())
}

/// The lines of either reader.
#[test]
fn of_readers(rt: HostRuntime) -> Result<(), Fail> {
    let alloc = rt.alloc();
    let stored = b"one\ntwo".to_vec(alloc)?;
    let rows = [
        (Some(stored), ["one\n", "two", ""]),
        (None, ["a\n", "\n", "b"]),
    ];
    for (stored, lines) in rows {
        let mut reader = opened(stored, b"a\n\nb");
        for want in lines {
            let mut line = Vec::new(alloc);
            assert_eq!(rt; next_line(&mut reader, &mut line)?, want.len());
            assert_eq!(rt; line.as_slice(), want.as_bytes());
        }
    }
    Ok(())
}

/// What stands in a pair after it was written through references.
#[test]
fn of_writing(rt: HostRuntime) {
    let rows = [
        (Left(1), Left(11), Both(11, 1)),
        (Both(1, 7), Both(11, 7), Both(11, 8)),
        (Right(7), Right(7), Right(8)),
    ];
    for (value, raised, counted) in rows {
        let mut pair = value;
        raise_left(&mut pair, 10);
        assert_eq!(rt; pair, raised);
        count_right(&mut pair);
        assert_eq!(rt; pair, counted);
    }
}

/// A row as text, and the row again.
#[test]
fn of_json(rt: HostRuntime) -> Result<(), Fail> {
    let alloc = rt.alloc();
    let row = Row {
        key: 1,
        cells: Both("a".to_string(alloc)?, 2),
    };
    let text = to_json(alloc, &row)?;
    assert_eq!(rt; text.as_str(), "{\"key\":1,\"cells\":{\"Both\":[\"a\",2]}}");
    assert_eq!(rt; from_json(alloc, &text)?, row);
    assert!(rt; from_json(alloc, "{\"key\":1}").is_err());
    Ok(())
}

/// Closures of the caller's.
#[test]
fn of_closures(rt: HostRuntime) {
    let pair: EitherOrBoth<u8, char> = Both(1, 'c');
    assert_eq!(rt; map_left_by(pair, |l| l == 1), Both(true, 'c'));
    let mut sum = 0u32;
    feed_both(
        Both(1u32, 2),
        Left(3),
        |n: u32| sum = sum.wrapping_mul(10).wrapping_add(n),
    );
    assert_eq!(rt; sum, 123);
}
