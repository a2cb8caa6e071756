//! How the cells of a column are compared.
ghost use Rattle.std.specs.Prelude.{◌≡◌};
ghost use Rattle.keyed_numbers.specs.Decimals.{mark_byte};

use crate::decimal::Decimal;

/// What stands between the whole part of a number in a cell and its fraction.
#[derive(Clone, Copy, Debug, PartialEq, Eq)]
pub enum DecimalMark {
    Point,
    Comma,
}

impl DecimalMark {
    /// Its byte.
    pub(crate) fn byte(self) -> u8
        ensures { result ≡ mark_byte self }
    {
        match self {
            DecimalMark::Point => b'.',
            DecimalMark::Comma => b',',
        }
    }
}

/// How the cells of a column are compared.
#[derive(Clone, Copy, Debug)]
pub struct Alike<'a> {
    /// How far apart numbers may be that count as the same, where cells that are numbers are compared by value.
    pub tolerance: Option<Decimal<'a>>,
    /// What stands in such a number before its fraction.
    pub mark: DecimalMark,
    /// Whether white space of ASCII around a cell is not compared.
    pub trims: bool,
    /// Whether texts of UTF-8 are compared once case is folded, as Unicode has it.
    pub folds_case: bool,
}

impl Alike<'static> {
    /// Byte by byte.
    pub const AS_THEY_STAND: Alike<'static> = Alike {
        tolerance: None,
        mark: DecimalMark::Point,
        trims: false,
        folds_case: false,
    };
}
