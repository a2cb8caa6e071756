//! How a row of a text is spelled beside what its cells say, and cells put after a text in a spelling.
ghost use Rattle.std.specs.Prelude.{◌≡◌, ◌||◌, ◌++◌, ◌∷◌, [], OnOk};
ghost use Rattle.csv.specs.Writing.{default_writer, escaped, needs_byte, needs_quotes, quoted};
ghost use Rattle.keyed_text.specs.Spelling.{cell_as};
ghost use Rattle.keyed_text.specs.Texts.{writer_by};

use crate::quotes::{Marks, ends_line};
use crate::style::LineEnd;
use std::alloc::AllocError;

/// How a row of a text is spelled beside what its cells say. In each spelling it reads back as the same cells.
#[derive(Debug, Drop, PartialEq, Eq)]
pub struct RowSpelling {
    /// How the blank lines end that stand before the row.
    pub before: Vec<LineEnd>,
    /// For each of its first cells whether it is in quotes also where it needs none. The others are not.
    pub quotes: Vec<bool>,
    pub line_end: LineEnd,
}

impl Marks {
    /// Puts a cell after a text: in quotes where it is to have them, and where it would else be read as something else.
    ///
    /// # Errors
    ///
    /// Returns `AllocError` if a request for memory was refused.
    ///
    /// ```
    /// let marks = Marks { delimiter: b',', comment: None };
    /// let mut text = Vec::new(alloc);
    /// marks.put_cell(&mut text, false, b"price, net")?;
    /// marks.put_cell(&mut text, true, b"1")?;
    /// assert!(rt; text.as_slice() == b"\"price, net\"\"1\"".as_slice());
    /// ```
    #[tactic(auto, using(crate::proofs::SpellingLemmas::quoted_cell, crate::proofs::SpellingLemmas::bare_cell))]
    pub fn put_cell(self, text: &mut Vec<u8>, quoted: bool, cell: &[u8]) -> Result<(), AllocError>
        ensures { OnOk result (text.new.items
            ≡ text.old.items ++ cell_as self.delimiter self.comment quoted cell.now) }
    {
        if self.is_in_quotes(quoted, cell) {
            put_quoted(text, cell)
        } else {
            text.extend_from_slice(cell)?;
            Ok(())
        }
    }

    // Whether a cell is written in quotes: where it is to have them, and where it needs them.
    fn is_in_quotes(self, quoted: bool, cell: &[u8]) -> bool
        ensures { result ≡ (quoted || needs_quotes (writer_by self.delimiter self.comment) cell.now) }
    {
        quoted || self.needs_quotes(cell)
    }

    /// Whether a cell would be read as something else where it has no quotes.
    pub fn needs_quotes(self, cell: &[u8]) -> bool
        ensures { result ≡ needs_quotes (writer_by self.delimiter self.comment) cell.now }
    {
        cell.iter().any(|byte| self.needs_byte(*byte))
    }

    // Whether a byte of a cell calls for quotes.
    fn needs_byte(self, byte: u8) -> bool
        ensures { result ≡ needs_byte (writer_by self.delimiter self.comment) byte }
    {
        byte == self.delimiter || byte == b'"' || ends_line(byte) || self.begins_comment(byte)
    }
}

// Puts a cell in quotes.
fn put_quoted(text: &mut Vec<u8>, cell: &[u8]) -> Result<(), AllocError>
    ensures { OnOk result (text.new.items ≡ text.old.items ++ quoted default_writer cell.now) }
{
    text.push(b'"')?;
    put_escaped(text, cell)?;
    text.push(b'"')?;
    Ok(())
}

// Puts the bytes of a cell that stand between its quotes: each quote twice.
fn put_escaped(text: &mut Vec<u8>, cell: &[u8]) -> Result<(), AllocError>
    ensures { OnOk result (text.new.items ≡ text.old.items ++ escaped default_writer cell.now) }
{
    for byte in cell {
        put_byte(text, *byte)?;
    }
    Ok(())
}

// Puts a byte that stands there: a quote twice.
#[tactic(auto, using(crate::proofs::SpellingLemmas::escaped_quote, crate::proofs::SpellingLemmas::escaped_plain))]
fn put_byte(text: &mut Vec<u8>, byte: u8) -> Result<(), AllocError>
    ensures { OnOk result (text.new.items ≡ text.old.items ++ escaped default_writer (byte ∷ [])) }
{
    if byte == b'"' {
        text.extend_from_slice(b"\"\"")?;
        Ok(())
    } else {
        text.push(byte)?;
        Ok(())
    }
}
