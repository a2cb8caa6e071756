//! Whether a file has rows, or changes, whose header says of columns what becomes of them.

/// What a file has: rows, or changes as `diff` writes them, whose first column is a sign.
#[derive(Clone, Copy)]
pub enum Content {
    Rows,
    Changes,
}
