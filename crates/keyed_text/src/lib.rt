//! What a text of CSV says: its rows, and the text that is written of rows, with any byte between cells.
//!
//! The words stand in `specs/`, and the laws here. Reading and writing files is `keyed_files`' part.
#![tactic(auto)]

mod headed;
mod laws;
mod lenient;
mod quotes;
mod row_reader;
mod row_writer;
mod spelled_cells;
mod spelling;
mod strict;
mod style;
mod style_notes;
mod text_notes;

pub use headed::Headed;
pub use laws::{law_reads_back, law_reads_once, law_rows_have_cells, law_spelled_back};
pub use lenient::Lenient;
pub use quotes::{Marks, Place};
pub use row_reader::RowReader;
pub use row_writer::RowWriter;
pub use spelled_cells::{SpelledCell, SpelledCells};
pub use spelling::RowSpelling;
pub use strict::{QuoteFault, Strict};
pub use style::{CellQuotes, LineEnd, Style};
pub use style_notes::StyleNotes;
pub use text_notes::TextNotes;
