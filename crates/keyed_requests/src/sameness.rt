//! How the cells of two tables are compared.

use keyed_numbers::DecimalMark;

/// How cells are compared, where it is not as they stand.
#[derive(Clone, Copy, Debug)]
pub struct Sameness<'a> {
    /// How far apart numbers may be that count as the same, as `Tolerances` takes it, where cells that are numbers are compared by value.
    pub tolerance: Option<&'a str>,
    /// What stands in such a number before its fraction.
    pub mark: DecimalMark,
    /// Whether white space of ASCII around a cell is not compared.
    pub trims: bool,
    /// Whether texts of UTF-8 are compared once case is folded, as Unicode has it.
    pub folds_case: bool,
}

impl Sameness<'static> {
    /// As they stand.
    pub const AS_THEY_STAND: Sameness<'static> = Sameness {
        tolerance: None,
        mark: DecimalMark::Point,
        trims: false,
        folds_case: false,
    };
}
