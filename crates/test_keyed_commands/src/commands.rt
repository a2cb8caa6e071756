//! Each command on tables that are texts, and on readers and writers. What the tests know of the calls of `keyed_commands` stands here.

use keyed_commands::{
    Answer, Applying, Colours, Command as AnyCommand, Comparing, Delimiter, Direction, Fault,
    Finding, Finished, Form, Format, JoinNames, Joining, Kind, Layer, Look, LookupKind,
    LookupRequest, Merging, NamedFile, Outcome, OverlayRequest, Partly, Reading, Reason, Request,
    RowComparing, RowFormat, Settings, SortedChanges, SortedRequest, Stream, Writing, apply,
    apply_partly, at, diff, diff_rows, diff_sorted, join, join_sorted, lookup, merge, overlay,
    stream_request, write_command, write_request, write_whole,
};
use std::alloc::{AllocError, Global};
use std::io::{Read, Write};
use std::rt::Files;
use std::test::Fail;

pub const COMMAS: Form = Form {
    delimiter: Delimiter::COMMA,
    has_header: true,
    reading: Reading::STRICT,
    writing: Writing::PLAIN,
};

pub const PLAIN: Settings<'static> = Settings {
    form: COMMAS,
    key: None,
    renames: None,
    keeps_order: false,
    groups: false,
    look: Look::PLAIN,
};

/// Tables with no header.
pub const HEADLESS: Settings<'static> = Settings {
    form: Form {
        has_header: false,
        ..COMMAS
    },
    ..PLAIN
};

/// Keys may repeat.
pub const GROUPED: Settings<'static> = Settings {
    groups: true,
    ..PLAIN
};

/// Rows come out in the order of the files.
pub const ORDERED: Settings<'static> = Settings {
    keeps_order: true,
    ..PLAIN
};

/// A table that a person reads, with no colour.
pub const TEXT: Format = Format::Report(Look::Table {
    colours: Colours::Off,
});

/// All kinds of joins.
pub const KINDS: [Kind; 6] = [
    Kind::Outer,
    Kind::Inner,
    Kind::Left,
    Kind::Right,
    Kind::Semi,
    Kind::Anti,
];

/// Columns by these names are the key.
pub fn under(key: &str) -> Settings<'_> {
    Settings {
        key: Some(key),
        ..PLAIN
    }
}

/// This byte stands between cells. Fails where it may not.
pub fn between(byte: u8) -> Result<Settings<'static>, Fail> {
    match Delimiter::new(byte) {
        Some(delimiter) => Ok(Settings {
            form: Form {
                delimiter,
                ..COMMAS
            },
            ..PLAIN
        }),
        None => Err(Fail::new("no delimiter")),
    }
}

/// A command whose answer is CSV. `join` is of the kind `outer`.
#[derive(Clone, Copy, Debug)]
pub enum Command {
    Diff,
    RowDiff,
    Apply,
    Merge,
    Join,
    SortedDiff,
    SortedJoin,
    Lookup,
    Overlay,
}

/// All of them.
pub const COMMANDS: [Command; 9] = [
    Command::Diff,
    Command::RowDiff,
    Command::Apply,
    Command::Merge,
    Command::Join,
    Command::SortedDiff,
    Command::SortedJoin,
    Command::Lookup,
    Command::Overlay,
];

/// Each row of the left table, whether it is found or not.
pub const FOUND: Finding<'static> = Finding {
    kind: LookupKind::Left,
    names: JoinNames::PLAIN,
    format: RowFormat::Csv,
};

impl Command {
    /// The names of its inputs, as faults have them.
    pub fn names(self) -> &'static [&'static str] {
        match self {
            Command::Diff | Command::RowDiff | Command::SortedDiff => &["old", "new"],
            Command::Apply => &["old", "changes"],
            Command::Merge => &["base", "ours", "theirs"],
            Command::Join | Command::SortedJoin | Command::Lookup => &["left", "right"],
            Command::Overlay => &["base", "over"],
        }
    }

    // The command of these files, whole.
    fn of<'a>(self, files: [&'a str; 3]) -> Request<'a> {
        let [first, next, last] = files;
        match self {
            Command::Diff | Command::SortedDiff => Request::Diff {
                old: first,
                new: next,
                how: Comparing::whole(Format::Csv),
            },
            Command::RowDiff => Request::DiffRows {
                old: first,
                new: next,
                how: RowComparing::whole(Format::Csv),
            },
            Command::Apply => Request::Apply {
                old: first,
                changes: next,
                how: Applying::whole(Direction::Forward),
            },
            Command::Merge => Request::Merge {
                base: first,
                ours: next,
                theirs: last,
                how: Merging::PLAIN,
            },
            Command::Join | Command::SortedJoin | Command::Lookup | Command::Overlay =>
                Request::Join {
                    left: first,
                    right: next,
                    how: Joining::of(Kind::Outer),
                },
        }
    }
}

// What a file of this name has.
fn stream<R>(file: &str, reader: R) -> Stream<'_, R> {
    Stream {
        file,
        delimiter: None,
        reader: Ok(reader),
    }
}

/// Writes the answer of a command on an output, and returns the status. Each input comes from a reader, of which the third is that of
/// `theirs`.
pub fn write_answer<'a, R: Read + Drop, W: Write>(
    alloc: Global,
    settings: Settings<'a>,
    command: Command,
    inputs: (R, R, R),
    output: &mut W,
) -> Result<u8, Fault<'a>> {
    let (first, next, last) = inputs;
    let (old, new) = (stream("old", first), stream("new", next));
    match command {
        Command::Diff => {
            let how = Comparing::whole(Format::Csv);
            write_whole_answer(diff(alloc, settings, how, old, new), output)
        }
        Command::RowDiff => {
            let how = RowComparing::whole(Format::Csv);
            write_whole_answer(diff_rows(alloc, settings.form, how, old, new), output)
        }
        Command::SortedDiff => {
            let how = SortedChanges::Csv;
            Ok(diff_sorted(alloc, settings.layout(), how, old, new, output)?.status)
        }
        Command::Apply => {
            let changes = named("changes", new);
            let answer = apply(alloc, settings, Direction::Forward, old, changes);
            write_whole_answer(answer, output)
        }
        Command::Merge => {
            let (base, ours) = (named("base", old), named("ours", new));
            let theirs = stream("theirs", last);
            let answer = merge(alloc, settings, Merging::PLAIN, base, ours, theirs);
            write_whole_answer(answer, output)
        }
        Command::Join => {
            let (left, right) = (named("left", old), named("right", new));
            write_whole_answer(
                join(alloc, settings, Joining::of(Kind::Outer), left, right),
                output,
            )
        }
        Command::SortedJoin => {
            let (left, right) = (named("left", old), named("right", new));
            let how = Joining::of(Kind::Outer);
            Ok(join_sorted(alloc, settings.layout(), how, left, right, output)?.status)
        }
        Command::Lookup => {
            let (left, right) = (named("left", old), named("right", new));
            lookup(alloc, settings.layout(), FOUND, left, right, output)
        }
        Command::Overlay => {
            let (base, over) = (named("base", old), named("over", new));
            write_whole_answer(overlaid(alloc, settings, base, over), output)
        }
    }
}

// Two tables laid one over the other.
fn overlaid<'a, R: Read + Drop>(
    alloc: Global,
    settings: Settings<'a>,
    base: Stream<'a, R>,
    over: Stream<'a, R>,
) -> Result<Answer, Fault<'a>> {
    let file = base.file;
    match two_of(alloc, base, over) {
        Ok(tables) => overlay(alloc, settings, Layer::Rows, tables),
        Err(AllocError) => Err(Fault {
            file,
            reason: Reason::NoMemory,
        }),
    }
}

// Two tables.
fn two_of<'a, R: Drop>(
    alloc: Global,
    first: Stream<'a, R>,
    next: Stream<'a, R>,
) -> Result<Vec<Stream<'a, R>>, AllocError> {
    let mut tables = Vec::new(alloc);
    tables.push(first)?;
    tables.push(next)?;
    Ok(tables)
}

// A file by another name.
fn named<'a, R>(file: &'a str, of: Stream<'a, R>) -> Stream<'a, R> {
    Stream {
        file,
        delimiter: of.delimiter,
        reader: of.reader,
    }
}

fn write_whole_answer<'a, W: Write>(
    outcome: Result<Answer, Fault<'a>>,
    output: &mut W,
) -> Result<u8, Fault<'a>> {
    let answer = outcome?;
    at("the standard output", write_whole(output, &answer.bytes))?;
    Ok(answer.status)
}

/// Writes the answer of a command on an output, and returns the status. The inputs are files by name.
pub fn write_answer_of_files<'a, R: Files + Input + AllocGlobal, W: Write>(
    rt: &R,
    settings: Settings<'a>,
    command: Command,
    files: [&'a str; 3],
    output: &mut W,
) -> Result<u8, Fault<'a>> {
    let [first, next, _] = files;
    match command {
        Command::SortedDiff => {
            let request = SortedRequest::Diff {
                old: first,
                new: next,
                how: SortedChanges::Csv,
            };
            Ok(stream_request(rt, settings.layout(), request, output)?.status)
        }
        Command::SortedJoin => {
            let request = SortedRequest::Join {
                left: first,
                right: next,
                how: Joining::of(Kind::Outer),
            };
            Ok(stream_request(rt, settings.layout(), request, output)?.status)
        }
        Command::Lookup => {
            let request = LookupRequest {
                left: first,
                right: next,
                how: FOUND,
            };
            let layout = settings.layout();
            Ok(write_command(rt, AnyCommand::Lookup { layout, request }, output)?.status)
        }
        Command::Overlay => {
            let files = at(first, two_files(rt.alloc(), first, next))?;
            let request = OverlayRequest {
                files,
                layer: Layer::Rows,
            };
            Ok(write_command(rt, AnyCommand::Overlay { settings, request }, output)?.status)
        }
        _ => write_request(rt, settings, command.of(files), output),
    }
}

// Two files with commas between their cells.
fn two_files<'a>(
    alloc: Global,
    first: &'a str,
    next: &'a str,
) -> Result<Vec<NamedFile<'a>>, AllocError> {
    let mut files = Vec::new(alloc);
    for file in [first, next] {
        files.push(NamedFile {
            file,
            delimiter: Delimiter::COMMA,
        })?;
    }
    Ok(files)
}

/// Writes the answer to `diff` of files as a person reads it, and returns the status.
pub fn write_report_of_files<'a, R: Files + Input + AllocGlobal, W: Write>(
    rt: &R,
    settings: Settings<'a>,
    files: [&'a str; 3],
    output: &mut W,
) -> Result<u8, Fault<'a>> {
    let [old, new, _] = files;
    let how = Comparing::whole(TEXT);
    write_request(rt, settings, Request::Diff { old, new, how }, output)
}

/// The answer of a command on tables that are texts.
pub fn asked<'a>(
    alloc: Global,
    settings: Settings<'a>,
    command: Command,
    inputs: [&[u8]; 3],
) -> Result<Answer, Fault<'a>> {
    let [first, next, last] = inputs;
    let mut bytes = Vec::new(alloc);
    let status = write_answer(alloc, settings, command, (first, next, last), &mut bytes)?;
    Ok(Answer {
        bytes,
        status,
        outcome: Outcome::Made,
    })
}

/// The answer to `diff`.
pub fn compared<'a>(
    alloc: Global,
    settings: Settings<'a>,
    format: Format,
    old: &[u8],
    new: &[u8],
) -> Result<Answer, Fault<'a>> {
    diff(
        alloc,
        settings,
        Comparing::whole(format),
        stream("old", old),
        stream("new", new),
    )
}

/// The answer to `diff` of sorted tables.
pub fn compared_in_parts<'a>(
    alloc: Global,
    settings: Settings<'a>,
    old: &[u8],
    new: &[u8],
) -> Result<Answer, Fault<'a>> {
    asked(alloc, settings, Command::SortedDiff, [old, new, b""])
}

/// The answer to `apply` where changes need not fit.
///
/// # Errors
///
/// Fails where an input is bad.
pub fn applied_partly(
    alloc: Global,
    direction: Direction,
    old: &[u8],
    changes: &[u8],
) -> Result<Partly, Fail> {
    let (old, changes) = (stream("old", old), stream("changes", changes));
    match apply_partly(alloc, PLAIN, direction, old, changes) {
        Ok(partly) => Ok(partly),
        Err(fault) => Err(Fail::new(fault)),
    }
}

/// The answer to `apply`.
pub fn applied<'a>(
    alloc: Global,
    settings: Settings<'a>,
    old: &[u8],
    changes: &[u8],
) -> Result<Answer, Fault<'a>> {
    asked(alloc, settings, Command::Apply, [old, changes, b""])
}

/// The answer to `merge`.
pub fn merged<'a>(
    alloc: Global,
    settings: Settings<'a>,
    base: &[u8],
    ours: &[u8],
    theirs: &[u8],
) -> Result<Answer, Fault<'a>> {
    asked(alloc, settings, Command::Merge, [base, ours, theirs])
}

/// The answer to `merge`, merged in this way.
pub fn merged_by<'a>(
    alloc: Global,
    settings: Settings<'a>,
    how: Merging<'_>,
    base: &[u8],
    ours: &[u8],
    theirs: &[u8],
) -> Result<Answer, Fault<'a>> {
    let (base, ours) = (stream("base", base), stream("ours", ours));
    merge(alloc, settings, how, base, ours, stream("theirs", theirs))
}

/// The answer to `join`.
pub fn joined<'a>(
    alloc: Global,
    settings: Settings<'a>,
    kind: Kind,
    left: &[u8],
    right: &[u8],
) -> Result<Answer, Fault<'a>> {
    let (left, right) = (stream("left", left), stream("right", right));
    join(alloc, settings, Joining::of(kind), left, right)
}

/// The answer to `join` of sorted tables.
pub fn joined_in_parts<'a>(
    alloc: Global,
    settings: Settings<'a>,
    kind: Kind,
    left: &[u8],
    right: &[u8],
) -> Result<Answer, Fault<'a>> {
    let mut bytes = Vec::new(alloc);
    let (left, right) = (stream("left", left), stream("right", right));
    let how = Joining::of(kind);
    let Finished { status, .. } = join_sorted(
        alloc,
        settings.layout(),
        how,
        left,
        right,
        &mut bytes,
    )?;
    Ok(Answer {
        bytes,
        status,
        outcome: Outcome::Made,
    })
}

/// The answer of a command whose inputs are good.
pub fn answered(outcome: Result<Answer, Fault<'_>>) -> Result<Answer, Fail> {
    match outcome {
        Ok(answer) => Ok(answer),
        Err(fault) => Err(Fail::new(fault)),
    }
}

/// Fails unless the answer has this status and these bytes.
pub fn expect(outcome: Result<Answer, Fault<'_>>, status: u8, bytes: &[u8]) -> Result<(), Fail> {
    let answer = answered(outcome)?;
    if answer.status == status && answer.bytes.as_slice() == bytes {
        Ok(())
    } else {
        let text = str::from_utf8(&answer.bytes);
        Err(Fail::new(format_args!("status {}: {text:?}", answer.status)))
    }
}

/// What is said of an input or an output that is bad.
pub fn said<T: Drop>(alloc: Global, outcome: Result<T, Fault<'_>>) -> Result<String, Fail> {
    match outcome {
        Ok(_) => Err(Fail::new("no fault")),
        Err(fault) => Ok(format!(in alloc; "{fault}")?),
    }
}

/// Fails unless the fault has this line.
pub fn expect_fault<T: Drop>(
    alloc: Global,
    outcome: Result<T, Fault<'_>>,
    wanted: &str,
) -> Result<(), Fail> {
    let line = said(alloc, outcome)?;
    if line.as_str() == wanted {
        Ok(())
    } else {
        Err(Fail::new(format_args!("{line}, not {wanted}")))
    }
}
