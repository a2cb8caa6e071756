//! Tests: what values print, under the settings of a formatter, and into a writer that fails.

use either_or_both::EitherOrBoth::{Both, Left, Right};
use either_or_both::{Either, EitherOrBoth, TryFromOptionsError};
use std::alloc::{AllocError, Global};
use std::fmt;
use std::fmt::{Debug, Display, Write};
use std::test::Fail;
use testkit::bytes::NarrowText;
use testkit::same::same;

// What the value prints under the settings that the style writes.
fn printed(alloc: Global, style: &str, value: &impl Display) -> Result<String, AllocError> {
    match style {
        "{:>5}" => format!(in alloc; "{value:>5}"),
        "{:*^5}" => format!(in alloc; "{value:*^5}"),
        "{:+}" => format!(in alloc; "{value:+}"),
        "{:+05}" => format!(in alloc; "{value:+05}"),
        "{:.1}" => format!(in alloc; "{value:.1}"),
        "{:-<6.2}" => format!(in alloc; "{value:-<6.2}"),
        _ => format!(in alloc; "{value}"),
    }
}

/// A style, and what a left and a right value print in it alone.
type Row = (&'static str, &'static str, &'static str);

/// Of the texts "one" and "other".
#[rattlefmt::skip]
static TEXTS: [Row; 5] = [
    // style     left      right
    ("{}",       "one",    "other"),
    ("{:>5}",    "  one",  "other"),
    ("{:*^5}",   "*one*",  "other"),
    ("{:.1}",    "o",      "o"),
    ("{:-<6.2}", "on----", "ot----"),
];

/// Of 0.25 and 2.5.
#[rattlefmt::skip]
static FRACTIONS: [Row; 4] = [
    // style     left      right
    ("{}",       "0.25",   "2.5"),
    ("{:+}",     "+0.25",  "+2.5"),
    ("{:+05}",   "+0.25",  "+02.5"),
    ("{:-<6.2}", "0.25--", "2.50--"),
];

// The value prints so in this style.
fn check_style(
    alloc: Global,
    style: &str,
    value: &(impl Display + Debug),
    want: &str,
) -> Result<(), Fail> {
    same(style, value, &printed(alloc, style, value)?.as_str(), &want)
}

// A lone value prints as the row says, and both print `both` in every style.
fn check_rows<L: Display + Debug + Copy, R: Display + Debug + Copy>(
    alloc: Global,
    held: (L, R),
    both: &str,
    rows: &[Row],
) -> Result<(), Fail> {
    let (l, r) = held;
    for (style, left, right) in rows {
        check_style(alloc, style, &EitherOrBoth::<L, R>::Left(l), left)?;
        check_style(alloc, style, &Both(l, r), both)?;
        check_style(alloc, style, &EitherOrBoth::<L, R>::Right(r), right)?;
        check_style(alloc, style, &Either::<L, R>::Left(l), left)?;
        check_style(alloc, style, &Either::<L, R>::Right(r), right)?;
    }
    Ok(())
}

/// A lone value and an `Either` print as the held value does under the formatter's settings. Both print under default settings,
/// the left value, a newline and the right one, whatever the formatter's settings are.
#[test]
fn lone_values_print_under_settings_and_both_do_not(rt: HostRuntime) -> Result<(), Fail> {
    let alloc = rt.alloc();
    check_rows(alloc, ("one", "other"), "one\nother", &TEXTS)?;
    check_rows(alloc, (0.25f64, 2.5f32), "0.25\n2.5", &FRACTIONS)?;
    Ok(())
}

const REFUSAL: &str = "Either the left, right or both values must be present";

/// The refusal of two absent values prints its text alone, whatever the settings are.
#[test]
fn refusal_prints_its_text_under_all_settings(rt: HostRuntime) -> Result<(), Fail> {
    let alloc = rt.alloc();
    let refused = TryFromOptionsError;
    let printed = [
        format!(in alloc; "{refused}")?,
        format!(in alloc; "{refused:>60}")?,
        format!(in alloc; "{refused:*^70}")?,
        format!(in alloc; "{refused:<060.3}")?,
    ];
    for text in &printed {
        same("format", &refused, &text.as_str(), &REFUSAL)?;
    }
    let text = format!(in alloc; "{refused:?}")?;
    same("debug", &refused, &text.as_str(), &"TryFromOptionsError")
}

// How a text ends in a writer with so much room: where it finds room the print succeeds, and else it gives the writer's error.
fn ended(text: &str, room: usize) -> fmt::Result {
    if room == text.len() {
        Ok(())
    } else {
        Err(fmt::Error)
    }
}

// Prints the value into writers with room for no byte, for one, and so on up to the whole text.
fn check_narrow(
    value: &(impl Display + Debug),
    displayed: &str,
    debugged: &str,
) -> Result<(), Fail> {
    for room in 0..=displayed.len() {
        let came = write!(NarrowText { room }, "{value}");
        same("display", &(value, room), &came, &ended(displayed, room))?;
    }
    for room in 0..=debugged.len() {
        let came = write!(NarrowText { room }, "{value:?}");
        same("debug", &(value, room), &came, &ended(debugged, room))?;
    }
    Ok(())
}

/// A writer that fails gives its error back through the printing of a value.
#[test]
fn error_of_a_failing_writer_comes_back() -> Result<(), Fail> {
    check_narrow(&TryFromOptionsError, REFUSAL, "TryFromOptionsError")?;
    check_narrow(&EitherOrBoth::<u8>::Left(12), "12", "Left(12)")?;
    check_narrow(&Both(12, "word"), "12\nword", "Both(12, \"word\")")?;
    check_narrow(
        &EitherOrBoth::<u8, &str>::Right("word"),
        "word",
        "Right(\"word\")",
    )?;
    check_narrow(&Either::<u8>::Left(12), "12", "Left(12)")?;
    check_narrow(
        &Either::<u8, &str>::Right("word"),
        "word",
        "Right(\"word\")",
    )
}
