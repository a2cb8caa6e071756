//! What follows of every text that is written or read. Calling one of these functions does nothing: its contract gives the caller's
//! proof the law.
ghost use Rattle.keyed_text.specs.Laws.{ReadsBackLaw, ReadsOnceLaw, RowsHaveCellsLaw, SpelledBackLaw};

/// What is written of a header and rows, in any style, reads back as them, and as nothing else.
///
/// Each row has a cell, the first name of the header begins with no byte order mark, and the byte between cells is no quote and no end of
/// a line. The byte that begins comments, if there is one, is another than these two. Call it where a text that your code wrote is read.
pub fn law_reads_back()
    ensures { ReadsBackLaw }
{}

/// A text reads as one list of rows. Call it where two facts say what one text reads as.
pub fn law_reads_once()
    ensures { ReadsOnceLaw }
{}

/// Each row of a text has a cell. Call it before `law_reads_back`, for rows that were read.
pub fn law_rows_have_cells()
    ensures { RowsHaveCellsLaw }
{}

/// What is written of rows reads back as them in whatever spelling each of them is: which cells are in quotes, how the row ends, and which
/// blank lines stand before it and after the last one. The text begins with no byte order mark of its own. Call it where a text that your
/// code wrote is read.
pub fn law_spelled_back()
    ensures { SpelledBackLaw }
{}
