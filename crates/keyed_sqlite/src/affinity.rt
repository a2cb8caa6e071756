//! What the name of a column's type says of its values.

/// What SQLite makes of a value that is put into a column, by the name of its type.
#[derive(Clone, Copy, Debug, PartialEq, Eq)]
pub enum Affinity {
    Integer,
    Text,
    Blob,
    Real,
    Numeric,
}

impl Affinity {
    /// That of a column with a type of this name, which may be empty.
    ///
    /// ```
    /// assert!(rt; Affinity::of(b"VARCHAR(20)") == Affinity::Text);
    /// assert!(rt; Affinity::of(b"double precision") == Affinity::Real);
    /// ```
    pub fn of(name: &[u8]) -> Self {
        if has(name, b"INT") {
            Affinity::Integer
        } else if has(name, b"CHAR") || has(name, b"CLOB") || has(name, b"TEXT") {
            Affinity::Text
        } else if name.is_empty() || has(name, b"BLOB") {
            Affinity::Blob
        } else if has(name, b"REAL") || has(name, b"FLOA") || has(name, b"DOUB") {
            Affinity::Real
        } else {
            Affinity::Numeric
        }
    }
}

// Whether a word stands in a name, in whatever case.
fn has(name: &[u8], word: &[u8]) -> bool {
    let mut rest = name;
    for _ in 0..name.len() {
        match rest.get(..word.len()) {
            Some(start) if start.eq_ignore_ascii_case(word) => return true,
            Some(_) => rest = rest.get(1..).unwrap_or(b""),
            None => return false,
        }
    }
    false
}
