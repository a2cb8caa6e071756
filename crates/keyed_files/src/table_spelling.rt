//! How the rows of a table are spelled that its text does not spell in its style, found by what they say.
use crate::source::Places;
use indexmap::IndexMap;
use keyed_rows::{Cells, Key};
use keyed_text::{LineEnd, Marks, RowSpelling, SpelledCell, SpelledCells, TextNotes};
use std::alloc::{AllocError, Global};

/// By what a row of a table is found again.
#[derive(Clone, Copy, Debug, PartialEq, Eq)]
pub enum FoundBy {
    /// By its key, which no other row has.
    Key,
    /// By all its cells.
    Cells,
}

/// The spelling of each row of a table that is not written in the style of its text.
#[derive(Drop)]
pub struct TableSpelling {
    found_by: FoundBy,
    // Each spelling, rows that stand one after the other and are spelled alike having one.
    spellings: Vec<RowSpelling>,
    heading: Option<usize>,
    rows: IndexMap<Cells, usize>,
    after: Vec<LineEnd>,
}

// A row that is read of a text of such rows, and what stands after it.
#[derive(Drop)]
struct ReadSpelling<'t> {
    spelling: RowSpelling,
    rest: &'t [u8],
}

impl TableSpelling {
    /// The spelling of a table whose text spells all rows in its style.
    pub fn even(alloc: Global) -> Self {
        TableSpelling {
            found_by: FoundBy::Key,
            spellings: Vec::new(alloc),
            heading: None,
            rows: IndexMap::new(alloc),
            after: Vec::new(alloc),
        }
    }

    /// The spelling of the rows of a text, of what was noted of it, where the cells of the columns that are wanted stand at these places. A
    /// text in which CR alone ends a row is taken for one that spells all rows in its style.
    ///
    /// # Errors
    ///
    /// Returns `AllocError` if a request for memory was refused.
    pub fn of_text(
        alloc: Global,
        notes: &TextNotes,
        has_header: bool,
        places: &Places,
        found_by: FoundBy,
    ) -> Result<Self, AllocError> {
        let mut table = TableSpelling::even(alloc);
        table.found_by = found_by;
        let mut is_heading = has_header && notes.begins_uneven();
        let mut rest = notes.uneven_rows();
        let mut row = Cells::new(alloc);
        let mut found = Cells::new(alloc);
        for _ in 0..u64::MAX {
            let (before, text) = blank_lines(alloc, rest)?;
            if text.is_empty() {
                table.after = before;
                break;
            }
            let Some(read) = read_row(alloc, notes.marks(), before, text, &mut row)? else {
                return Ok(TableSpelling::even(alloc));
            };
            rest = read.rest;
            let place = table.push(read.spelling)?;
            if is_heading {
                table.heading = Some(place);
                is_heading = false;
            } else {
                places.pick_found(found_by, &row, &mut found)?;
                table.rows.insert(found.clone()?, place)?;
            }
        }
        Ok(table)
    }

    /// Whether all rows are spelled in the style of the text, and no blank line stands after them.
    pub fn is_even(&self) -> bool {
        self.spellings.is_empty() && self.after.is_empty()
    }

    /// The spelling of the heading, where it is not that of the style.
    pub fn heading(&self) -> Option<&RowSpelling> {
        self.at(self.heading)
    }

    /// How the blank lines end that stand after the last row.
    pub fn after(&self) -> &[LineEnd] {
        &self.after
    }

    /// The spelling of the row with a key and these other cells, where it is not that of the style. The cells by which it is found are put
    /// into the room for them.
    ///
    /// # Errors
    ///
    /// Returns `AllocError` if a request for memory was refused.
    pub fn of_row(
        &self,
        key: &Key,
        rest: &Cells,
        found: &mut Cells,
    ) -> Result<Option<&RowSpelling>, AllocError> {
        found.clear();
        for cell in key.iter() {
            found.push(cell)?;
        }
        if self.found_by == FoundBy::Cells {
            for cell in rest {
                found.push(cell)?;
            }
        }
        Ok(self.at(self.rows.get(&*found).copied()))
    }

    fn at(&self, place: Option<usize>) -> Option<&RowSpelling> {
        match place {
            Some(place) => self.spellings.get(place),
            None => None,
        }
    }

    // Puts a spelling after the others, unless it is that of the row before, and returns its place.
    fn push(&mut self, spelling: RowSpelling) -> Result<usize, AllocError> {
        if self.spellings.last() != Some(&spelling) {
            self.spellings.push(spelling)?;
        }
        Ok(self.spellings.len().saturating_sub(1))
    }
}

// The blank lines at the beginning of a text, by how they end, and the text after them.
fn blank_lines(alloc: Global, text: &[u8]) -> Result<(Vec<LineEnd>, &[u8]), AllocError> {
    let mut ends = Vec::new(alloc);
    let mut rest = text;
    for _ in 0..u64::MAX {
        match after_end(rest) {
            Some((end, more)) => {
                ends.push(end)?;
                rest = more;
            }
            None => break,
        }
    }
    Ok((ends, rest))
}

// The end of a line at the beginning of a text, if there is one, and the text after it.
fn after_end(text: &[u8]) -> Option<(LineEnd, &[u8])> {
    match text.strip_prefix(b"\r\n") {
        Some(rest) => Some((LineEnd::CrLf, rest)),
        None => match text.strip_prefix(b"\n") {
            Some(rest) => Some((LineEnd::Lf, rest)),
            None => None,
        },
    }
}

// The first row of a text, whose cells are put into the room for them, after these blank lines. None where CR alone ends it.
fn read_row<'t>(
    alloc: Global,
    marks: Marks,
    before: Vec<LineEnd>,
    text: &'t [u8],
    row: &mut Cells,
) -> Result<Option<ReadSpelling<'t>>, AllocError> {
    row.clear();
    let mut cells = SpelledCells::new(marks, text);
    let mut quotes = Vec::new(alloc);
    for _ in 0..u64::MAX {
        match cells.next_cell() {
            Some(cell) => {
                quotes.push(cell.is_quoted)?;
                push_cell(alloc, row, cell)?;
            }
            None => break,
        }
    }
    let end = match cells.rest() {
        [] => Some((LineEnd::Lf, cells.rest())),
        rest => after_end(rest),
    };
    Ok(end.map(|(line_end, rest)| ReadSpelling {
        spelling: RowSpelling {
            before,
            quotes,
            line_end,
        },
        rest,
    }))
}

// Puts a cell after the others, as it reads.
fn push_cell(alloc: Global, row: &mut Cells, cell: SpelledCell<'_>) -> Result<(), AllocError> {
    if !cell.is_quoted || !cell.inner.contains(&b'"') {
        return row.push(cell.inner);
    }
    let mut text = Vec::new(alloc);
    let mut is_second = false;
    for byte in cell.inner {
        is_second = *byte == b'"' && !is_second;
        if !is_second {
            text.push(*byte)?;
        }
    }
    row.push(&text)
}
