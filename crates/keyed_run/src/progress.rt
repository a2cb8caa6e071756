//! How far a run has come: on a terminal a line of the standard error says how many lines of its files are read. It is written over, and
//! gone before anything else is written there.
//!
//! Lines are counted in what is read of each file and of the standard input, on its way to whoever reads rows.

use keyed_arguments::Progress;
use memchr::memchr_iter;
use std::cell::Cell;
use std::io::IsTerminal;
use std::rt::Clock;
use std::time::{Duration, Instant};

// How many seconds a run takes before the line is shown.
const FIRST: u64 = 1;

// How many thousandths of a second the line stands before it is written again.
const STEP: u64 = 200;

// Writes over the longest line there is, of 2^64 - 1 lines that are read.
const BLANK: &str = "\r                                      \r";

/// The line that says how far a run has come. Without a terminal there is none, and it does nothing.
#[derive(Drop)]
pub struct ProgressLine<'r, R> {
    rt: &'r R,
    // How many lines are read.
    lines: Cell<u64>,
    // When the line is written next, if ever.
    due: Cell<Option<Instant>>,
    is_shown: Cell<bool>,
}

impl<'r, R: Clock> ProgressLine<'r, R> {
    /// A line that is shown a second from now, where the standard error is a terminal and the line is not left out.
    pub fn new<E: IsTerminal>(rt: &'r R, progress: Progress, errors: &E) -> Self {
        let due = match progress {
            Progress::Shown if errors.is_terminal() => first_due(rt),
            Progress::Shown | Progress::LeftOut => None,
        };
        ProgressLine {
            rt,
            lines: Cell::new(0),
            due: Cell::new(due),
            is_shown: Cell::new(false),
        }
    }
}

// When the line is shown first. Where the clock can't be read it is not shown.
fn first_due<R: Clock>(rt: &R) -> Option<Instant> {
    match Instant::now(rt) {
        Ok(now) => now.checked_add(Duration::from_secs(FIRST)),
        Err(_) => None,
    }
}

impl<R: Clock + Eprint> ProgressLine<'_, R> {
    /// Counts the lines that end in these bytes, which are read, and writes the line again where it is time.
    pub fn note(&self, bytes: &[u8]) {
        if let Some(due) = self.due.get() {
            let lines = memchr_iter(b'\n', bytes).count() as u64;
            self.lines.set(self.lines.get().saturating_add(lines));
            self.show_when(due);
        }
    }

    // Writes the line where it is time, and notes when it is again.
    fn show_when(&self, due: Instant) {
        match Instant::now(self.rt) {
            Ok(now) if now >= due => {
                self.due.set(now.checked_add(Duration::from_millis(STEP)));
                self.show();
            }
            _ => {}
        }
    }

    // Writes the line. A standard error that does not take it is not told so.
    fn show(&self) {
        let lines = self.lines.get();
        let _ = eprint!(self.rt; "\rkeyed: {lines} lines read");
        self.is_shown.set(true);
    }
}

impl<R: Eprint> ProgressLine<'_, R> {
    /// Takes the line off the terminal, if it is there.
    pub fn clear(&self) {
        if self.is_shown.get() {
            let _ = self.rt.eprint(BLANK);
            self.is_shown.set(false);
        }
    }

    /// Takes the line off the terminal, if it is there, for good.
    pub fn end(&self) {
        self.clear();
        self.due.set(None);
    }
}
