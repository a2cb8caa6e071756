//! From the files that a request names to its answer.
ghost use Rattle.std.specs.Prelude.{◌≡◌, ◌++◌, ◌∷◌, [], IfOk, OnOk};
ghost use Rattle.std.specs.Io.KnownBytes.{Appends};
ghost use Rattle.keyed_commands.specs.Requested.{AnswersRequest, AppliesNamed, AreStreamsOf, ChangesNamed, DiffsNamed};
ghost use Rattle.keyed_commands.specs.Requested.{DiffsNamedInParts, DiffsRowsNamed, JoinsNamedInParts, WritesSorted};
ghost use Rattle.keyed_commands.specs.Requested.{IsStreamOf, JoinsNamed, LooksUpNamed, MergesNamed};
ghost use Rattle.keyed_commands.specs.Requested.{OverlaysNamed, PartlyNamed, RejectsNamed, WritesAnswer, WritesCommand};
ghost use Rattle.keyed_commands.specs.Requested.{WritesWanted};

use crate::commands::apply::apply;
use crate::commands::diff::diff;
use crate::commands::join::join;
use crate::commands::lookup::lookup;
use crate::commands::merge::merge;
use crate::commands::overlay::overlay;
use crate::commands::partly::{Partly, apply_partly};
use crate::commands::row_diff::diff_rows;
use crate::draft::put_bytes;
use crate::finished::Finished;
use crate::sorted::{diff_sorted, join_sorted};
use either_or_both::Either;
use keyed_faults::{Fault, Reason, at};
use keyed_files::Stream;
use keyed_jobs::Answer;
use keyed_requests::{
    Applying, Command, Comparing, Delimiter, Direction, Joining, Layout, Lookup as LookupRequest,
    Merging, Misfits, NamedFile, Overlay as OverlayRequest, Request, RowComparing, Settings,
    SortedChanges, SortedRequest, Wanted,
};
use std::alloc::AllocError;
use std::io::Write;
use std::rt::Files;
use std::{fs, io};

/// Writes the answer to a command, unless its status alone is wanted, and returns the status, and the counts that are to be said beside it.
///
/// # Errors
///
/// Returns the errors of `write_request`, `stream_request`, `lookup` and `overlay`.
pub fn write_command<'a, R: Files + Input + AllocGlobal, W: Write>(
    rt: &R,
    command: Command<'a>,
    output: &mut W,
) -> Result<Finished, Fault<'a>>
    ensures { IfOk result (λ finished. WritesCommand R.File.remaining R.Reader.remaining
        command.entry (W.contents output.old) (W.contents output.new) finished.status) }
{
    match command {
        Command::Whole {
            settings,
            request,
            wanted,
        } => write_wanted(rt, settings, request, wanted, output),
        Command::Sorted {
            layout,
            request,
            wanted,
        } => match wanted {
            Wanted::Answer => stream_request(rt, layout, request, output),
            Wanted::Status => {
                let finished = stream_request(rt, layout, request, &mut io::sink())?;
                Ok(Finished::of(finished.status))
            }
        },
        Command::Lookup { layout, request } => {
            let status = write_lookup(rt, layout, request, output)?;
            Ok(Finished::of(status))
        }
        Command::Overlay { settings, request } => {
            let status = write_overlay(rt, settings, request, output)?;
            Ok(Finished::of(status))
        }
    }
}

// Writes the answer to a request, or finds its status alone.
fn write_wanted<'a, R: Files + Input + AllocGlobal, W: Write>(
    rt: &R,
    settings: Settings<'a>,
    request: Request<'a>,
    wanted: Wanted,
    output: &mut W,
) -> Result<Finished, Fault<'a>>
    ensures { IfOk result (λ finished. WritesWanted
        (AnswersRequest R.File.remaining R.Reader.remaining settings.entry request.entry) wanted
        (W.contents output.old) (W.contents output.new) finished.status) }
{
    match wanted {
        Wanted::Answer => {
            let status = write_request(rt, settings, request, output)?;
            Ok(Finished::of(status))
        }
        Wanted::Status => {
            let answer = answer_request(rt, settings, request)?;
            Ok(Finished::of(answer.status))
        }
    }
}

// Writes the rows of a table looked up in another while they are read.
fn write_lookup<'a, R: Files + Input + AllocGlobal, W: Write>(
    rt: &R,
    layout: Layout<'a>,
    request: LookupRequest<'a>,
    output: &mut W,
) -> Result<u8, Fault<'a>>
    ensures status { IfOk result (λ status. status ≡ 0) }
    ensures text { OnOk result (LooksUpNamed R.File.remaining R.Reader.remaining layout.entry
        request.entry (W.contents output.old) (W.contents output.new)) }
{
    request.check_stdin()?;
    let left = stream_of(rt, request.left, None);
    let right = stream_of(rt, request.right, layout.form.reading.next);
    lookup(rt.alloc(), layout, request.how, left, right, output)
}

// Writes tables laid one over the other.
fn write_overlay<'a, R: Files + Input + AllocGlobal, W: Write>(
    rt: &R,
    settings: Settings<'a>,
    request: OverlayRequest<'a>,
    output: &mut W,
) -> Result<u8, Fault<'a>>
    ensures { IfOk result (WritesAnswer
        (OverlaysNamed R.File.remaining R.Reader.remaining settings.entry request.entry)
        (W.contents output.old) (W.contents output.new)) }
{
    let answer = answer_overlay(rt, settings, request)?;
    let status = write_answer(output, &answer)?;
    Ok(status)
}

/// The table that is made of those that are laid one over the other, of the files that are named.
///
/// # Errors
///
/// Returns `TwiceStdin` if the standard input is named twice, and the fault of the first input that is bad.
pub fn answer_overlay<'a, R: Files + Input + AllocGlobal>(
    rt: &R,
    settings: Settings<'a>,
    request: OverlayRequest<'a>,
) -> Result<Answer, Fault<'a>>
    ensures { IfOk result
        (OverlaysNamed R.File.remaining R.Reader.remaining settings.entry request.entry) }
{
    let alloc = rt.alloc();
    request.check_stdin(alloc)?;
    let tables = streams_of(rt, request.files)?;
    let answer = overlay(alloc, settings, request.layer, tables)?;
    Ok(answer)
}

// The files of these names, or the standard input, each with the byte between its cells.
fn streams_of<'a, R: Files + Input + AllocGlobal>(
    rt: &R,
    files: Vec<NamedFile<'a>>,
) -> Result<Vec<Stream<'a, Reader<R>>>, Fault<'a>>
    ensures { IfOk result (λ streams. AreStreamsOf files.entry.items streams.items) }
{
    let mut streams = Vec::new(rt.alloc());
    for named in files {
        let stream = stream_of(rt, named.file, Some(named.delimiter));
        at(named.file, put(&mut streams, stream))?;
    }
    Ok(streams)
}

/// Puts an item after the others. The error of `push` holds the item, and so is none that a fault can be of.
///
/// # Errors
///
/// Returns `AllocError` if a request for memory was refused.
pub fn put<T: Drop>(items: &mut Vec<T>, item: T) -> Result<(), AllocError>
    ensures { OnOk result (items.new.items ≡ items.old.items ++ item ∷ []) }
{
    items.push(item)?;
    Ok(())
}

/// Writes the answer to a request, all of it or nothing of it where something is wrong with an input, and returns the status.
///
/// # Errors
///
/// Returns the fault of the first input that is bad, or that of the output, which may then have taken a part of the answer.
pub fn write_request<'a, R: Files + Input + AllocGlobal, W: Write>(
    rt: &R,
    settings: Settings<'a>,
    request: Request<'a>,
    output: &mut W,
) -> Result<u8, Fault<'a>>
    ensures { IfOk result (WritesAnswer
        (AnswersRequest R.File.remaining R.Reader.remaining settings.entry request.entry)
        (W.contents output.old) (W.contents output.new)) }
{
    let answer = answer_request(rt, settings, request)?;
    let status = write_answer(output, &answer)?;
    Ok(status)
}

// Writes the text of an answer, and returns its status.
fn write_answer<'a, W: Write>(output: &mut W, answer: &Answer) -> Result<u8, Fault<'a>>
    ensures text { OnOk result
        (Appends (W.contents output.old) (W.contents output.new) answer.now.bytes.items) }
    ensures status { IfOk result (λ status. status ≡ answer.now.status) }
{
    let written = write_whole(output, &answer.bytes);
    at("the standard output", written)?;
    Ok(answer.status)
}

/// Writes the answer to a request while its tables are read, and returns the status, and the counts that are to be said beside it.
///
/// # Errors
///
/// Returns the fault of the input or the output where it comes up: whole rows may be written by then. Nothing is read or written where a
/// request names the standard input twice, which is `Reason::TwiceStdin`.
pub fn stream_request<'a, R: Files + Input + AllocGlobal, W: Write>(
    rt: &R,
    layout: Layout<'a>,
    request: SortedRequest<'a>,
    output: &mut W,
) -> Result<Finished, Fault<'a>>
    ensures { IfOk result (λ finished. WritesSorted R.File.remaining R.Reader.remaining layout.entry
        request.entry (W.contents output.old) (W.contents output.new) finished.status) }
{
    request.check_stdin()?;
    match request {
        SortedRequest::Diff { old, new, how } => stream_diff(rt, layout, how, old, new, output),
        SortedRequest::Join { left, right, how } => {
            stream_join(rt, layout, how, left, right, output)
        }
    }
}

// Writes the changes between the tables of two files while they are read.
fn stream_diff<'a, R: Files + Input + AllocGlobal, W: Write>(
    rt: &R,
    layout: Layout<'a>,
    how: SortedChanges<'a>,
    old: &'a str,
    new: &'a str,
    output: &mut W,
) -> Result<Finished, Fault<'a>>
    ensures { IfOk result (λ finished. DiffsNamedInParts R.File.remaining R.Reader.remaining layout.entry
        old.entry new.entry how.entry (W.contents output.old) (W.contents output.new) finished.status) }
{
    let old = stream_of(rt, old, None);
    let new = stream_of(rt, new, layout.form.reading.next);
    diff_sorted(rt.alloc(), layout, how, old, new, output)
}

// Writes the join of the tables of two files while they are read.
fn stream_join<'a, R: Files + Input + AllocGlobal, W: Write>(
    rt: &R,
    layout: Layout<'a>,
    how: Joining<'a>,
    left: &'a str,
    right: &'a str,
    output: &mut W,
) -> Result<Finished, Fault<'a>>
    ensures { IfOk result (λ finished. JoinsNamedInParts R.File.remaining R.Reader.remaining layout.entry
        left.entry right.entry how.entry (W.contents output.old) (W.contents output.new) finished.status) }
{
    let left = stream_of(rt, left, None);
    let right = stream_of(rt, right, layout.form.reading.next);
    join_sorted(rt.alloc(), layout, how, left, right, output)
}

/// Writes all bytes, as far as the output takes them.
///
/// # Errors
///
/// Returns the error of the output, which may then have taken a part of the bytes.
pub fn write_whole<W: Write>(output: &mut W, bytes: &[u8]) -> io::Result<()>
    ensures { OnOk result (Appends (W.contents output.old) (W.contents output.new) bytes.now) }
{
    output.write_all(bytes)?;
    output.flush()?;
    Ok(())
}

/// The answer to a request, of the files that it names. Changes that are rejected are put into the place of their file before, also where
/// the status alone is wanted of the answer.
///
/// # Errors
///
/// Returns the fault of the first input that is bad: a file that can't be opened, or one of which the command can't be answered. Then, and
/// where it can't be put into its place, which is a fault of it, the file of rejected changes is as it was.
pub fn answer_request<'a, R: Files + Input + AllocGlobal>(
    rt: &R,
    settings: Settings<'a>,
    request: Request<'a>,
) -> Result<Answer, Fault<'a>>
    ensures { IfOk result
        (AnswersRequest R.File.remaining R.Reader.remaining settings.entry request.entry) }
{
    request.check_stdin()?;
    match request {
        Request::Diff { old, new, how } => answer_diff(rt, settings, how, old, new),
        Request::DiffRows { old, new, how } => answer_row_diff(rt, settings, how, old, new),
        Request::Apply { old, changes, how } => answer_changed(rt, settings, how, old, changes),
        Request::Merge {
            base,
            ours,
            theirs,
            how,
        } => answer_merge(rt, settings, how, base, ours, theirs),
        Request::Join { left, right, how } => answer_join(rt, settings, how, left, right),
    }
}

// The changes between the tables of two files.
fn answer_diff<'a, R: Files + Input + AllocGlobal>(
    rt: &R,
    settings: Settings<'a>,
    how: Comparing<'a>,
    old: &'a str,
    new: &'a str,
) -> Result<Answer, Fault<'a>>
    ensures { IfOk result (DiffsNamed R.File.remaining R.Reader.remaining settings.entry
        old.entry new.entry how.entry) }
{
    let old = stream_of(rt, old, None);
    let new = stream_of(rt, new, settings.form.reading.next);
    diff(rt.alloc(), settings, how, old, new)
}

// The rows that went and came between the tables of two files that have no key.
fn answer_row_diff<'a, R: Files + Input + AllocGlobal>(
    rt: &R,
    settings: Settings<'a>,
    how: RowComparing,
    old: &'a str,
    new: &'a str,
) -> Result<Answer, Fault<'a>>
    ensures { IfOk result (DiffsRowsNamed R.File.remaining R.Reader.remaining settings.entry
        old.entry new.entry how) }
{
    let before = stream_of(rt, old, None);
    let after = stream_of(rt, new, settings.form.reading.next);
    diff_rows(rt.alloc(), settings.form, how, before, after)
}

// The table of a file with changes of another made to it: all of them, or those that fit.
fn answer_changed<'a, R: Files + Input + AllocGlobal>(
    rt: &R,
    settings: Settings<'a>,
    how: Applying<'a>,
    old: &'a str,
    changes: &'a str,
) -> Result<Answer, Fault<'a>>
    ensures { IfOk result (ChangesNamed R.File.remaining R.Reader.remaining settings.entry
        how.entry.misfits old.entry changes.entry how.entry.direction) }
{
    match how.misfits {
        Misfits::Reported => answer_apply(rt, settings, how.direction, old, changes),
        Misfits::Rejected(file) => {
            answer_rejecting(rt, settings, how.direction, old, changes, file)
        }
    }
}

// The table of a file with those changes of another made to it that fit. The others are put into the place of a file.
fn answer_rejecting<'a, R: Files + Input + AllocGlobal>(
    rt: &R,
    settings: Settings<'a>,
    direction: Direction,
    old: &'a str,
    changes: &'a str,
    file: &'a str,
) -> Result<Answer, Fault<'a>>
    ensures { IfOk result (RejectsNamed R.File.remaining R.Reader.remaining settings.entry
        old.entry changes.entry direction) }
{
    let partly = answer_partly(rt, settings, direction, old, changes)?;
    at(file, put_bytes(rt, file, &partly.rejected))?;
    Ok(partly.answer)
}

// The table of a file with the changes of another made to it.
fn answer_apply<'a, R: Files + Input + AllocGlobal>(
    rt: &R,
    settings: Settings<'a>,
    direction: Direction,
    old: &'a str,
    changes: &'a str,
) -> Result<Answer, Fault<'a>>
    ensures { IfOk result (AppliesNamed R.File.remaining R.Reader.remaining settings.entry
        old.entry changes.entry direction) }
{
    let old = stream_of(rt, old, None);
    let changes = stream_of(rt, changes, settings.form.reading.next);
    apply(rt.alloc(), settings, direction, old, changes)
}

// The table of a file with those changes of another made to it that fit, and the others.
fn answer_partly<'a, R: Files + Input + AllocGlobal>(
    rt: &R,
    settings: Settings<'a>,
    direction: Direction,
    old: &'a str,
    changes: &'a str,
) -> Result<Partly, Fault<'a>>
    ensures { IfOk result (PartlyNamed R.File.remaining R.Reader.remaining settings.entry
        old.entry changes.entry direction) }
{
    let old = stream_of(rt, old, None);
    let changes = stream_of(rt, changes, settings.form.reading.next);
    apply_partly(rt.alloc(), settings, direction, old, changes)
}

// The tables of two files merged over that of their base.
fn answer_merge<'a, R: Files + Input + AllocGlobal>(
    rt: &R,
    settings: Settings<'a>,
    how: Merging<'a>,
    base: &'a str,
    ours: &'a str,
    theirs: &'a str,
) -> Result<Answer, Fault<'a>>
    ensures { IfOk result (MergesNamed R.File.remaining R.Reader.remaining settings.entry
        base.entry ours.entry theirs.entry how.entry) }
{
    let base = stream_of(rt, base, None);
    let ours = stream_of(rt, ours, settings.form.reading.next);
    let theirs = stream_of(rt, theirs, settings.form.reading.last);
    merge(rt.alloc(), settings, how, base, ours, theirs)
}

// The join of the tables of two files.
fn answer_join<'a, R: Files + Input + AllocGlobal>(
    rt: &R,
    settings: Settings<'a>,
    how: Joining<'a>,
    left: &'a str,
    right: &'a str,
) -> Result<Answer, Fault<'a>>
    ensures { IfOk result (JoinsNamed R.File.remaining R.Reader.remaining settings.entry
        left.entry right.entry how.entry) }
{
    let left = stream_of(rt, left, None);
    let right = stream_of(rt, right, settings.form.reading.next);
    join(rt.alloc(), settings, how, left, right)
}

// A file or the standard input.
type Reader<R> = Either<<R as Files>::File, <R as Input>::Reader>;

// The file, or the standard input where its name is `-`, with the byte between its cells where that is not the one of the first file.
fn stream_of<'a, R: Files + Input>(
    rt: &R,
    file: &'a str,
    delimiter: Option<Delimiter>,
) -> Stream<'a, Reader<R>>
    ensures { IsStreamOf file.entry delimiter result }
{
    let reader = if file == "-" {
        Ok(Either::Right(rt.reader()))
    } else {
        match fs::open(rt, file) {
            Ok(opened) => Ok(Either::Left(opened)),
            Err(error) => Err(Reason::Io(error)),
        }
    };
    Stream {
        file,
        delimiter,
        reader,
    }
}
