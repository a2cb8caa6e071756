//! Answers that go into files: each is written into a file beside the one that is named, which takes its place once the answer is whole.

use crate::draft::{Draft, put_bytes};
use crate::files::{answer_overlay, answer_request, write_command, write_whole};
use crate::finished::Finished;
use keyed_faults::{Fault, at};
use keyed_jobs::{Answer, Outcome};
use keyed_requests::{Command, Wanted};
use std::io::Write;
use std::rt::Files;

// The name of the standard output in faults.
const OUTPUT: &str = "the standard output";

/// Writes the answer to a command into a file, and returns the status, and the counts that are to be said beside it. Where the answer is a
/// report of why there is none, it goes to the output, and the file stays as it was, as it does where the status alone is wanted.
///
/// The file has the whole answer or stands as it was, with the permissions that it had, and with its owner where the user may. It may be one
/// of those that are read. A link is followed, also where the file that it leads to is not there yet. One that is no regular file, as a
/// terminal or a pipe, is written as it is, and one that may not be written is not replaced.
///
/// # Errors
///
/// Returns the errors of `write_command`, and the fault of the file where it can't be made, written or put in its place: then no file is
/// left beside it.
pub fn write_into_file<'a, R: Files + Input + AllocGlobal, W: Write>(
    rt: &R,
    command: Command<'a>,
    file: &'a str,
    output: &mut W,
) -> Result<Finished, Fault<'a>> {
    let status = match command {
        Command::Whole {
            settings,
            request,
            wanted,
        } => {
            let answer = answer_request(rt, settings, request)?;
            match wanted {
                Wanted::Answer => write_answer(rt, answer, file, output)?,
                Wanted::Status => answer.status,
            }
        }
        Command::Overlay { settings, request } => {
            let answer = answer_overlay(rt, settings, request)?;
            write_answer(rt, answer, file, output)?
        }
        streamed => return stream_into_file(rt, streamed, file),
    };
    Ok(Finished::of(status))
}

// Writes the answer to a command into a file while its tables are read, and returns what it comes to.
fn stream_into_file<'a, R: Files + Input + AllocGlobal>(
    rt: &R,
    command: Command<'a>,
    file: &'a str,
) -> Result<Finished, Fault<'a>> {
    let mut draft = at(file, Draft::begin(rt, file))?;
    match write_command(rt, command, &mut draft.file) {
        Ok(finished) => {
            at(file, draft.put(rt))?;
            Ok(finished)
        }
        Err(fault) => {
            draft.remove(rt);
            Err(of_file(fault, file))
        }
    }
}

/// Writes an answer into a file, or a report on the output, and returns the status.
///
/// # Errors
///
/// Returns the fault of the file or of the output.
pub(crate) fn write_answer<'a, R: Files + AllocGlobal, W: Write>(
    rt: &R,
    answer: Answer,
    file: &'a str,
    output: &mut W,
) -> Result<u8, Fault<'a>> {
    match answer.outcome {
        Outcome::Made => at(file, put_bytes(rt, file, &answer.bytes))?,
        Outcome::Stopped => at(OUTPUT, write_whole(output, &answer.bytes))?,
    }
    Ok(answer.status)
}

// A fault, of this file where it is one of the output.
fn of_file<'a>(fault: Fault<'a>, file: &'a str) -> Fault<'a> {
    Fault {
        file: if fault.file == OUTPUT {
            file
        } else {
            fault.file
        },
        reason: fault.reason,
    }
}
