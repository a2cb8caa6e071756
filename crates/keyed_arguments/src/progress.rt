//! The option by which a run does not say how far it has come.

use crate::{flag, put};
use clap::{Arg, ArgMatches};
use std::alloc::{AllocError, Global};

// The name of the option.
const OPTION: &str = "no-progress";

/// Whether a run says on a terminal how far it has come.
#[derive(Clone, Copy, Debug)]
pub enum Progress {
    /// It does.
    Shown,
    /// It does not.
    LeftOut,
}

/// Puts the option after others.
///
/// # Errors
///
/// Returns `AllocError` if a request for memory was refused.
pub fn put_progress<'a>(alloc: Global, args: &mut Vec<Arg<'a>>) -> Result<(), AllocError> {
    let help = "No line on the terminal says how many lines are read";
    put(args, flag(alloc, OPTION, help))
}

/// Whether a run says how far it has come, of a command that has the option.
pub fn progress_of(matches: &ArgMatches<'_>) -> Progress {
    if matches.get_flag(OPTION) {
        Progress::LeftOut
    } else {
        Progress::Shown
    }
}
