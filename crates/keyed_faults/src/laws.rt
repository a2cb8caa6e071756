//! What follows of how cells are shown. Calling one of these functions does nothing: its contract gives the caller's proof the law.
ghost use Rattle.keyed_faults.specs.ShownCells.{ShownApartLaw, ShowsNoControlLaw};

/// What stands for a cell has no control character, those of Unicode beyond ASCII among them, and no mark that ends a line or turns the
/// direction of text. Call it where a cell is shown.
pub fn law_shows_no_control()
    ensures { ShowsNoControlLaw }
{}

/// Two cells that differ are never shown alike: what is shown says which cell it is. Call it where a cell is read off a terminal.
pub fn law_shown_apart()
    ensures { ShownApartLaw }
{}
