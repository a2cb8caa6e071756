//! How the text of a table is written beside what its cells say: a byte order mark, quotes, and how its lines end.
ghost use Rattle.std.specs.Prelude.{◌≡◌, ◌∷◌, IfOk};
ghost use Rattle.csv.specs.Writing.{end_text};
ghost use Rattle.keyed_text.specs.Texts.{ended, finished, terminator_of};

use std::alloc::{AllocError, Global};

// A byte order mark in UTF-8.
pub(crate) const MARK: &[u8] = b"\xef\xbb\xbf";

/// Which cells of a row are written in quotes.
#[derive(Clone, Copy, Debug, PartialEq, Eq)]
pub enum CellQuotes {
    /// Those that would else be read as something else.
    WhereNeeded,
    /// All.
    Everywhere,
}

/// How a row that is written ends.
#[derive(Clone, Copy, Debug, PartialEq, Eq)]
pub enum LineEnd {
    /// With LF.
    Lf,
    /// With CR LF.
    CrLf,
}

/// How the text of a table is written. In each style it reads back as the same rows.
#[derive(Clone, Copy, Debug, PartialEq, Eq)]
pub struct Style {
    /// Whether it begins with a byte order mark.
    pub has_mark: bool,
    pub quotes: CellQuotes,
    pub line_end: LineEnd,
    /// Whether the last row has an end.
    pub has_end: bool,
}

impl Style {
    /// No byte order mark, quotes where they are needed, and LF after each row.
    pub const PLAIN: Style = Style {
        has_mark: false,
        quotes: CellQuotes::WhereNeeded,
        line_end: LineEnd::Lf,
        has_end: true,
    };

    /// Returns the text of rows, each of which has an end, as a file in this style: after the byte order mark, if the style has one, and
    /// less the end of the last row, if the style has none.
    ///
    /// # Errors
    ///
    /// Returns `AllocError` if a request for memory was refused.
    ///
    /// ```
    /// let style = Style { has_mark: true, has_end: false, ..Style::PLAIN };
    /// let rows = Vec::from_slice(alloc, b"id,price\nx,1\n")?;
    /// assert!(rt; style.finish(alloc, rows)?.as_slice() == b"\xef\xbb\xbfid,price\nx,1".as_slice());
    /// ```
    pub fn finish(self, alloc: Global, rows: Vec<u8>) -> Result<Vec<u8>, AllocError>
        ensures { IfOk result (λ text. text.items ≡ finished self rows.items) }
    {
        let rows = self.ended(rows);
        if self.has_mark {
            let text = after_mark(alloc, &rows)?;
            Ok(text)
        } else {
            Ok(rows)
        }
    }

    // Rows less the end of the last one, if the style has none.
    fn ended(self, mut rows: Vec<u8>) -> Vec<u8>
        ensures { result.items ≡ ended self rows.items }
    {
        if !self.has_end {
            rows.truncate(rows.len().saturating_sub(self.line_end.bytes().len()));
        }
        rows
    }
}

impl LineEnd {
    /// Returns its bytes.
    pub fn bytes(self) -> &'static [u8]
        ensures { result.now ≡ end_text (terminator_of self) }
    {
        match self {
            LineEnd::Lf => b"\n",
            LineEnd::CrLf => b"\r\n",
        }
    }
}

// A text after a byte order mark.
fn after_mark(alloc: Global, text: &[u8]) -> Result<Vec<u8>, AllocError>
    ensures { IfOk result (λ marked. marked.items ≡ 239 ∷ 187 ∷ 191 ∷ text.now) }
{
    let mut marked = Vec::new(alloc);
    marked.extend_from_slice(MARK)?;
    marked.extend_from_slice(text)?;
    Ok(marked)
}
