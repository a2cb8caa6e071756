//! Recipes on lists.

use crate::shown::expect_shown;
use either_or_both::join::is_rising;
use either_or_both::laws::End;
use recipes::enrolment::{count_rows, unknown_fees, unpaid_students};
use recipes::loans::{with_readers, with_returns};
use recipes::parcels::by_street;
use recipes::partners::paired;
use recipes::readings::{Fault, sorted_out};
use recipes::revision::first_changed_line;
use recipes::signs::with_signs;
use std::alloc::{AllocError, Global};
use std::collections::BTreeMap;
use std::test::Fail;

// A text of its own.
fn text(alloc: Global, text: &str) -> Result<String, AllocError> {
    String::from_str(alloc, text)
}

// Two loans by number.
fn loans(alloc: Global) -> Result<Vec<(u32, String)>, AllocError> {
    let mut loans = Vec::new(alloc);
    loans.push((3, text(alloc, "atlas")?))?;
    loans.push((8, text(alloc, "fable")?))?;
    Ok(loans)
}

/// A loan of a known reader and one of an unknown one, and a loan that came back.
#[test]
fn of_loans(rt: HostRuntime) -> Result<(), Fail> {
    let alloc = rt.alloc();
    let mut readers = BTreeMap::new(alloc);
    readers.insert(8, text(alloc, "Ada")?)?;
    let rows = with_readers(alloc, loans(alloc)?, &readers)?;
    let want = "[(3, \"atlas\", None), (8, \"fable\", Some(\"Ada\"))]";
    expect_shown(alloc, &rows, want)?;
    let loans = loans(alloc)?;
    let returns = vec![in alloc; (3, 41)]?;
    assert!(rt; is_rising(&loans) && is_rising(&returns));
    let rows = with_returns(alloc, loans, returns)?;
    let want = "[(3, (\"atlas\", Some(41))), (8, (\"fable\", None))]";
    expect_shown(alloc, &rows, want)
}

/// Streets in any order, with parcels, complaints or both.
#[test]
fn of_parcels(rt: HostRuntime) -> Result<(), Fail> {
    let alloc = rt.alloc();
    let parcels = vec![in alloc; ("b", 1), ("a", 2), ("b", 3)]?;
    let rows = by_street(alloc, parcels, vec![in alloc; ("c", 'x'), ("a", 'y')]?)?;
    let want = "[(\"a\", Both([2], ['y'])), (\"b\", Left([1, 3])), (\"c\", Right(['x']))]";
    expect_shown(alloc, &rows, want)
}

/// Students of whom one has no fee, and a fee of nobody.
#[test]
fn of_an_enrolment(rt: HostRuntime) -> Result<(), Fail> {
    let alloc = rt.alloc();
    let students = vec![in alloc; (1, 'a'), (2, 'b'), (4, 'c')]?;
    let fees = vec![in alloc; (1, 90), (3, 90), (4, 90)]?;
    assert!(rt; is_rising(&students) && is_rising(&fees));
    assert_eq!(rt; unpaid_students(alloc, students, fees)?, 1);
    let students = vec![in alloc; (1, 'a'), (4, 'b')]?;
    let fees = vec![in alloc; (1, 90), (3, 90), (5, 90)]?;
    assert!(rt; is_rising(&students) && is_rising(&fees));
    assert_eq!(rt; unknown_fees(alloc, students, fees)?, 2);
    let shelves = vec![in alloc; (1, 'a'), (2, 'b')]?;
    let signs = vec![in alloc; (2, "Maps"), (5, "Music")]?;
    assert!(rt; is_rising(&shelves) && is_rising(&signs));
    let rows = with_signs(alloc, shelves, signs)?;
    assert_eq!(rt; count_rows(&rows), (1, 1, 1));
    let want = "[(1, Left('a')), (2, Both('b', \"Maps\")), (5, Right(\"Music\"))]";
    expect_shown(alloc, &rows, want)
}

/// Readings of which two failed, and none at all.
#[test]
fn of_readings(rt: HostRuntime) -> Result<(), Fail> {
    let alloc = rt.alloc();
    let readings = vec![in alloc; Err(Fault::Silent), Ok(7), Err(Fault::Wild(-3)), Ok(5)]?;
    let want = "Both([Silent, Wild(-3)], [7, 5])";
    expect_shown(alloc, &sorted_out(alloc, readings)?, want)?;
    expect_shown(alloc, &sorted_out(alloc, Vec::new(alloc))?, "Both([], [])")
}

/// Lines of which the second differs, and a version that ended first.
#[test]
fn of_a_revision(rt: HostRuntime) -> Result<(), Fail> {
    let alloc = rt.alloc();
    let old = vec![in alloc; text(alloc, "one")?, text(alloc, "two")?]?;
    let new = vec![in alloc; text(alloc, "one")?, text(alloc, "too")?]?;
    let want = "Some((1, Both(\"two\", \"too\")))";
    expect_shown(alloc, &first_changed_line(old, new), want)?;
    let old = vec![in alloc; text(alloc, "one")?]?;
    let found = first_changed_line(old, Vec::new(alloc));
    expect_shown(alloc, &found, "Some((0, Left(\"one\")))")
}

/// Three dancers and two, called twice from the back and once from the front.
#[test]
fn of_partners(rt: HostRuntime) -> Result<(), Fail> {
    let alloc = rt.alloc();
    let first = vec![in alloc; 1, 2, 3]?;
    let second = vec![in alloc; 'x', 'y']?;
    let called = paired(alloc, first, second, &[End::Back, End::Back, End::Front])?;
    let want = "[Some(Left(3)), Some(Both(2, 'y')), Some(Both(1, 'x'))]";
    expect_shown(alloc, &called.answers, want)
}
