//! What a row has in a column that came after it, by the DEFAULT of the column.

use crate::affinity::Affinity;
use sqlite_ast::{Expr, Unary};
use sqlite_sql::numeral::real_at_front;
use sqlite_sql::spelling::{Spelled, of_float, of_integer};
use std::alloc::{AllocError, Global};
use std::num::nearest_i64_to_f64;

/// What a row has in a column that it lacks.
#[derive(Drop)]
pub enum Added {
    /// These bytes as a cell: none where it has no default.
    Cell(Vec<u8>),
    /// What is not read here.
    Unread,
}

/// What rows have that are older than a column of this affinity with this default.
///
/// # Errors
///
/// Returns `AllocError` if a request for memory was refused.
pub fn added_by(alloc: Global, affinity: Affinity, default: &Expr) -> Result<Added, AllocError> {
    match default {
        Expr::Null => Ok(Added::Cell(Vec::new(alloc))),
        Expr::Integer(digits) => number(alloc, affinity, false, digits.as_slice()),
        Expr::Float(digits) => real(alloc, affinity, false, digits.as_slice()),
        Expr::Truth(_, is_true) => integer(alloc, affinity, if *is_true { 1 } else { 0 }),
        Expr::Text(bytes) => text(alloc, affinity, bytes.as_slice()),
        Expr::Unary(Unary::Minus, inner) => match inner.get() {
            Expr::Integer(digits) => number(alloc, affinity, true, digits.as_slice()),
            Expr::Float(digits) => real(alloc, affinity, true, digits.as_slice()),
            _ => Ok(Added::Unread),
        },
        _ => Ok(Added::Unread),
    }
}

// An integer as its digits are written.
fn number(
    alloc: Global,
    affinity: Affinity,
    is_negative: bool,
    digits: &[u8],
) -> Result<Added, AllocError> {
    let size = match str::from_utf8(digits) {
        Ok(text) => text.parse::<i64>(),
        Err(_) => return Ok(Added::Unread),
    };
    match size {
        Ok(size) => integer(
            alloc,
            affinity,
            if is_negative {
                size.saturating_neg()
            } else {
                size
            },
        ),
        Err(_) => Ok(Added::Unread),
    }
}

fn integer(alloc: Global, affinity: Affinity, value: i64) -> Result<Added, AllocError> {
    if affinity == Affinity::Real {
        cell(alloc, &of_float(nearest_i64_to_f64(value)))
    } else {
        cell(alloc, &of_integer(value))
    }
}

// A number with a point or an exponent. Elsewhere than in a column of such numbers SQLite may make another value of it.
fn real(
    alloc: Global,
    affinity: Affinity,
    is_negative: bool,
    digits: &[u8],
) -> Result<Added, AllocError> {
    let size = real_at_front(digits);
    if affinity == Affinity::Real || affinity == Affinity::Blob {
        cell(alloc, &of_float(if is_negative { -size } else { size }))
    } else {
        Ok(Added::Unread)
    }
}

// A text. In a column of numbers it is one only where it can't be read as a number.
fn text(alloc: Global, affinity: Affinity, bytes: &[u8]) -> Result<Added, AllocError> {
    let is_kept = match affinity {
        Affinity::Text | Affinity::Blob => true,
        Affinity::Integer | Affinity::Real | Affinity::Numeric => match bytes.first() {
            Some(byte) => byte.is_ascii_alphabetic(),
            None => true,
        },
    };
    if is_kept {
        Ok(Added::Cell(Vec::from_slice(alloc, bytes)?))
    } else {
        Ok(Added::Unread)
    }
}

fn cell(alloc: Global, spelled: &Spelled) -> Result<Added, AllocError> {
    Ok(Added::Cell(Vec::from_slice(alloc, spelled.as_slice())?))
}
