//! What is asked for where tables are cut.

use keyed_requests::Layout;

/// How many parts there are at least.
pub const LEAST_PARTS: usize = 1;

/// How many parts there are at most: their numbers have three digits.
pub const MOST_PARTS: usize = 999;

/// The tables that are cut, by the names of their files.
#[derive(Clone, Copy, Debug)]
pub enum CutTables<'a> {
    /// For `diff`, `join`, `lookup` and `overlay`, and for `apply` where the second has changes.
    Two {
        left: &'a str,
        right: &'a str,
        second: Second,
    },
    /// For `merge`.
    Three {
        base: &'a str,
        ours: &'a str,
        theirs: &'a str,
    },
}

/// What the second of two tables has.
#[derive(Clone, Copy, Debug)]
pub enum Second {
    /// Rows.
    Rows,
    /// Changes, as `diff --format csv` prints them.
    Changes,
}

/// Where tables are cut.
#[derive(Clone, Copy, Debug)]
pub enum Divided<'a> {
    /// Into so many parts of about the same weight.
    Parts(usize),
    /// Into as many parts as make each take no more memory than that, as far as can be told from a sample.
    Memory(u64),
    /// Where an earlier cut was, by the name of its file `cut.csv`.
    At(&'a str),
}

/// What is asked for of tables that are cut.
#[derive(Clone, Copy, Debug)]
pub struct Cut<'a> {
    pub layout: Layout<'a>,
    pub tables: CutTables<'a>,
    pub divided: Divided<'a>,
    /// The folder that the parts go into. It is made, and must not be there.
    pub into: &'a str,
}
