//! The sign of a row in a table of changes.
ghost use Rattle.std.specs.Prelude.{◌≡◌, ◌≢◌, ◌∷◌, [], IfSome, IsNone};
ghost use Rattle.keyed_files.specs.Rows.{shown_sign};

use keyed_rows::ReadRow;

/// What a table of changes says of a row, in its first cell.
#[derive(Clone, Copy)]
pub enum Sign {
    /// The row goes: `-`.
    Minus,
    /// The row comes: `+`.
    Plus,
}

impl Sign {
    /// The cell that says so.
    pub fn cell(self) -> &'static [u8]
        ensures { result.now ≡ shown_sign self }
    {
        match self {
            Sign::Minus => b"-",
            Sign::Plus => b"+",
        }
    }

    /// The sign that a cell is, if it is one.
    pub fn of_cell(cell: &[u8]) -> Option<Self>
        ensures sign { IfSome result (λ sign. cell.now ≡ shown_sign sign) }
        ensures none { IsNone result → (cell.now ≢ 45 ∷ []) × (cell.now ≢ 43 ∷ []) }
    {
        match cell {
            b"-" => Some(Sign::Minus),
            b"+" => Some(Sign::Plus),
            _ => None,
        }
    }
}

/// A row of a table of changes.
#[derive(Drop)]
pub struct SignedRow {
    pub sign: Sign,
    pub row: ReadRow,
}
