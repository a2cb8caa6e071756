//! Tests: every byte as a cell and as a key, between cells of every delimiter.

use crate::commands::{
    applied, between, compared, compared_in_parts, expect, joined, joined_in_parts, merged,
};
use keyed_commands::{Format, Kind};
use std::alloc::{AllocError, Global};
use std::test::Fail;

// Puts a cell of one byte, once or twice. It is quoted where it holds a quote, the delimiter or an end of rows, and a quote in it is
// doubled.
fn put_cell(text: &mut Vec<u8>, byte: u8, times: usize, delimiter: u8) -> Result<(), AllocError> {
    let is_quoted = byte == b'"' || byte == delimiter || byte == b'\r' || byte == b'\n';
    let copies = if byte == b'"' {
        times.saturating_add(times)
    } else {
        times
    };
    if is_quoted {
        text.push(b'"')?;
    }
    for _ in 0..copies {
        text.push(byte)?;
    }
    if is_quoted {
        text.push(b'"')?;
    }
    Ok(())
}

// The tables of a delimiter: one with the same cell in all rows, one with a byte in each cell, once or twice, and one with it in each key;
// the changes from the first to the second, and those that make the third.
#[derive(Drop)]
struct Tables {
    plain: Vec<u8>,
    cells: Vec<u8>,
    keys: Vec<u8>,
    changes: Vec<u8>,
    key_changes: Vec<u8>,
}

// A text with another delimiter in place of its commas.
fn delimited(alloc: Global, text: &str, delimiter: u8) -> Result<Vec<u8>, AllocError> {
    let mut bytes = Vec::new(alloc);
    for byte in text.bytes() {
        bytes.push(if byte == b',' { delimiter } else { byte })?;
    }
    Ok(bytes)
}

impl Tables {
    fn new(alloc: Global, delimiter: u8) -> Result<Tables, AllocError> {
        let mut tables = Tables {
            plain: delimited(alloc, "id,a\n", delimiter)?,
            cells: delimited(alloc, "id,a\n", delimiter)?,
            keys: delimited(alloc, "id,a\n", delimiter)?,
            changes: delimited(alloc, "change,id,a\n", delimiter)?,
            key_changes: delimited(alloc, "change,id,a\n", delimiter)?,
        };
        for byte in 0..=255 {
            tables.put(alloc, byte, 1, delimiter)?;
            tables.put(alloc, byte, 2, delimiter)?;
        }
        Ok(tables)
    }

    fn put(
        &mut self,
        alloc: Global,
        byte: u8,
        times: usize,
        delimiter: u8,
    ) -> Result<(), AllocError> {
        let key = format!(in alloc; "{byte:03}{times},")?;
        let row = format!(in alloc; "{key}plain\n")?;
        self.plain
            .extend_from_slice(&delimited(alloc, &row, delimiter)?)?;
        put_row(
            &mut self.cells,
            &delimited(alloc, &key, delimiter)?,
            byte,
            times,
            delimiter,
            b"\n",
        )?;
        let gone = format!(in alloc; "-,{row}+,{key}")?;
        put_row(
            &mut self.changes,
            &delimited(alloc, &gone, delimiter)?,
            byte,
            times,
            delimiter,
            b"\n",
        )?;
        let end = delimited(alloc, ",v\n", delimiter)?;
        put_row(&mut self.keys, b"", byte, times, delimiter, &end)?;
        put_row(
            &mut self.key_changes,
            &[b'+', delimiter],
            byte,
            times,
            delimiter,
            &end,
        )
    }
}

// Puts a cell between two texts.
fn put_row(
    text: &mut Vec<u8>,
    before: &[u8],
    byte: u8,
    times: usize,
    delimiter: u8,
    behind: &[u8],
) -> Result<(), AllocError> {
    text.extend_from_slice(before)?;
    put_cell(text, byte, times, delimiter)?;
    text.extend_from_slice(behind)?;
    Ok(())
}

/// A cell of any byte is read as it is written, and written by the rule: quoted where it must be, and else as it is.
#[test]
fn cells_of_every_byte_pass_unchanged(rt: HostRuntime) -> Result<(), Fail> {
    let alloc = rt.alloc();
    for delimiter in [b',', b';', b'\t', b'#', b'\\', 0] {
        let settings = between(delimiter)?;
        let tables = Tables::new(alloc, delimiter)?;
        let (old, new) = (&tables.plain, &tables.cells);
        expect(
            compared(alloc, settings, Format::Csv, old, new),
            1,
            &tables.changes,
        )?;
        expect(
            compared_in_parts(alloc, settings, old, new),
            1,
            &tables.changes,
        )?;
        expect(applied(alloc, settings, old, &tables.changes), 0, new)?;
        expect(merged(alloc, settings, old, new, old), 0, new)?;
    }
    Ok(())
}

/// So is a key of any byte, and keys strictly increase as their bytes do.
#[test]
fn keys_of_every_byte_pass_unchanged(rt: HostRuntime) -> Result<(), Fail> {
    let alloc = rt.alloc();
    for delimiter in [b',', b';', b'\t', b'#', b'\\', 0] {
        let settings = between(delimiter)?;
        let none = delimited(alloc, "id,a\n", delimiter)?;
        let tables = Tables::new(alloc, delimiter)?;
        let keys = &tables.keys;
        expect(
            compared(alloc, settings, Format::Csv, &none, keys),
            1,
            &tables.key_changes,
        )?;
        expect(
            compared_in_parts(alloc, settings, &none, keys),
            1,
            &tables.key_changes,
        )?;
        expect(
            applied(alloc, settings, &none, &tables.key_changes),
            0,
            keys,
        )?;
        expect(joined(alloc, settings, Kind::Semi, keys, keys), 0, keys)?;
        expect(
            joined_in_parts(alloc, settings, Kind::Semi, keys, keys),
            0,
            keys,
        )?;
    }
    Ok(())
}
