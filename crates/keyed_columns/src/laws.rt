//! What follows of the columns of every table. Calling one of these functions does nothing: its contract gives the caller's proof the law.
ghost use Rattle.keyed_columns.specs.ColumnLaws.{KeepsNamesLaw, NamesOnceLaw, PlacesCellsLaw, PutsBackLaw};
ghost use Rattle.keyed_columns.specs.ColumnLaws.{WritesNamesLaw};

/// No name of a header is lost and none comes: the names beside a key are those of the headers that are none of the key.
pub fn law_keeps_names()
    ensures { KeepsNamesLaw }
{}

/// No name of a column stands twice, neither beside the key nor in the header that is written.
pub fn law_names_once()
    ensures { NamesOnceLaw }
{}

/// The header that is written has each name of the headers once, in their order, and a row has the cells of a record under those names.
pub fn law_places_cells()
    ensures { PlacesCellsLaw }
{}

/// What is picked of a table and written is the table: its header, in which no name stands twice, and each record.
pub fn law_puts_back()
    ensures { PutsBackLaw }
{}

/// Of the columns of a table that is made of others, the names that are to be written are the header, if none stands there twice, and a row
/// has the cells of a record under them.
pub fn law_writes_names()
    ensures { WritesNamesLaw }
{}
