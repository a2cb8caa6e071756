//! The rows under a key, one and several.

use keyed_rows::{Cells, Group, Release};
use std::alloc::{AllocError, Global};

fn row(alloc: Global, cell: &[u8]) -> Result<Cells, AllocError> {
    Cells::from_slices(alloc, &[cell])
}

// A group of rows of one cell each, which are the bytes after a first one.
fn group(alloc: Global, cells: &[u8], release: Release) -> Result<Group, AllocError> {
    let mut group = Group::with_release(row(alloc, b"first")?, release);
    for byte in cells {
        group = group.with_row(alloc, row(alloc, &[*byte])?)?;
    }
    Ok(group)
}

#[test]
fn rows_stand_in_the_order_in_which_they_came(rt: HostRuntime) -> Result<(), AllocError> {
    let alloc = rt.alloc();
    for count in [0, 1, 2, 3, 4, 5, 200] {
        let bytes: Vec<u8> = (0..count).map(|number| 255 - number).collect(alloc)?;
        for release in [Release::AtDrop, Release::AtExit] {
            let group = group(alloc, &bytes, release)?;
            let rows = group.rows();
            assert!(rt; rows.len() == bytes.len().saturating_add(1));
            assert!(rt; rows[0].get(0) == Some(b"first"));
            for (row, byte) in rows.iter().skip(1).zip(bytes.iter()) {
                assert!(rt; row.len() == 1 && row.get(0) == Some(&[*byte]));
            }
        }
    }
    Ok(())
}

#[test]
fn groups_are_equal_where_their_rows_are(rt: HostRuntime) -> Result<(), AllocError> {
    let alloc = rt.alloc();
    let groups: [&[u8]; 6] = [&[], &[1], &[1, 1], &[1, 2], &[2, 1], &[1, 2, 3]];
    for (place, bytes) in groups.iter().enumerate() {
        for (other_place, other) in groups.iter().enumerate() {
            let one = group(alloc, bytes, Release::AtDrop)?;
            let two = group(alloc, other, Release::AtExit)?;
            assert!(rt; (one == two) == (place == other_place));
            assert!(rt; (two == one) == (place == other_place));
        }
    }
    assert!(rt; Group::new(row(alloc, b"")?) != Group::new(Cells::new(alloc)));
    Ok(())
}

#[test]
fn a_group_shows_as_its_rows(rt: HostRuntime) -> Result<(), AllocError> {
    let alloc = rt.alloc();
    let one = Group::new(row(alloc, b"a")?);
    assert!(rt; format!(in alloc; "{one:?}")?.as_str() == "[[[97]]]");
    let two = one.with_row(alloc, Cells::new(alloc))?;
    assert!(rt; format!(in alloc; "{two:?}")?.as_str() == "[[[97]], []]");
    Ok(())
}
