//! Tests: readers and writers that fail, or give or take one byte at a time, at every input and at the output of every command.

ghost use Rattle.std.specs.Prelude.{◌<◌};

use crate::commands::{
    COMMANDS, Command, HEADLESS, PLAIN, answered, asked, expect_fault, said, write_answer,
    write_answer_of_files, write_report_of_files,
};
use crate::made::{inputs, with_input};
use keyed_commands::{Answer, Fault, Outcome};
use std::alloc::{AllocError, Global};
use std::io;
use std::io::{ErrorKind, Write};
use std::test::Fail;
use testkit::streams::{
    FailingReader, FullWriter, SlowReader, SlowWriter, StalledWriter, UnflushedWriter,
};

// A command, its inputs, its status and its answer.
type Case = (Command, [&'static [u8]; 3], u8, &'static [u8]);

const TABLE: &[u8] = b"id,a\n1,\"x\ny\"\n2,z\n";

const OTHER: &[u8] = b"id,a\n1,w\n3,v\n";

const CHANGES: &[u8] = b"change,id,a\n-,1,\"x\ny\"\n+,1,w\n-,2,z\n+,3,v\n";

const ROWS: &[u8] = b"change,id,a\n-,1,\"x\ny\"\n-,2,z\n+,1,w\n+,3,v\n";

const JOINED: &[u8] = b"side,id,left.a,right.a\nboth,1,\"x\ny\",w\nleft,2,z,\nright,3,,v\n";

const FOUND: &[u8] = b"id,left.a,right.a\n1,\"x\ny\",w\n2,z,\n";

const LAID: &[u8] = b"id,a\n1,w\n2,z\n3,v\n";

const CASES: [Case; 9] = [
    (Command::Diff, [TABLE, OTHER, b""], 1, CHANGES),
    (Command::RowDiff, [TABLE, OTHER, b""], 1, ROWS),
    (Command::SortedDiff, [TABLE, OTHER, b""], 1, CHANGES),
    (Command::Apply, [TABLE, CHANGES, b""], 0, OTHER),
    (Command::Merge, [TABLE, OTHER, TABLE], 0, OTHER),
    (Command::Join, [TABLE, OTHER, b""], 0, JOINED),
    (Command::SortedJoin, [TABLE, OTHER, b""], 0, JOINED),
    (Command::Lookup, [TABLE, OTHER, b""], 0, FOUND),
    (Command::Overlay, [TABLE, OTHER, b""], 0, LAID),
];

// An input that gives one byte at a time, and may fail.
type SlowInput<'b> = FailingReader<SlowReader<&'b [u8]>>;

fn input(bytes: &[u8], fails: bool, count: usize) -> SlowInput<'_> {
    FailingReader::new(
        SlowReader::new(bytes),
        if fails { count } else { usize::MAX },
    )
}

// What a command says of inputs of which the one at this place fails after as many bytes.
fn broken_off<'a>(
    alloc: Global,
    command: Command,
    inputs: [&[u8]; 3],
    place: usize,
    count: usize,
) -> Result<Answer, Fault<'a>> {
    let [first, next, last] = inputs;
    let inputs = (
        input(first, place == 0, count),
        input(next, place == 1, count),
        input(last, place == 2, count),
    );
    let mut bytes = Vec::new(alloc);
    let status = write_answer(alloc, PLAIN, command, inputs, &mut bytes)?;
    Ok(Answer {
        bytes,
        status,
        outcome: Outcome::Made,
    })
}

// Fails unless each input is named that fails, at every so many bytes from its end on.
fn expect_named(
    alloc: Global,
    command: Command,
    inputs: [&[u8]; 3],
    step: usize,
) -> Result<(), Fail>
    requires step { 0 < step }
{
    let error = io::Error::from(ErrorKind::ConnectionReset);
    for (place, name) in command.names().iter().enumerate() {
        let wanted = format!(in alloc; "{name}: {error}")?;
        let length = inputs.get(place).map_or(0, |bytes| bytes.len());
        for back in (0..=length).step_by(step) {
            let count = length.saturating_sub(back);
            let outcome = broken_off(alloc, command, inputs, place, count);
            expect_fault(alloc, outcome, &wanted)?;
        }
    }
    Ok(())
}

/// An input that fails at any byte is the fault of its file, and gives no answer: of small tables, and of some that are read in parts.
#[test]
fn inputs_that_fail_are_named(rt: HostRuntime) -> Result<(), Fail> {
    let alloc = rt.alloc();
    for (command, small, _, _) in CASES {
        expect_named(alloc, command, small, 1)?;
        let [first, next, last] = inputs(alloc, command, 600)?;
        let large = [first.as_bytes(), next.as_bytes(), last.as_bytes()];
        expect_named(alloc, command, large, 4999)?;
    }
    Ok(())
}

const CR_LF: &[u8] = b"id,a\r\n1,\"x\r\ny\"\r\n\r\n1,z\r\n";

/// Inputs that give one byte at a time give the same answer, and the same fault.
#[test]
fn slow_inputs_are_read_to_the_end(rt: HostRuntime) -> Result<(), Fail> {
    let alloc = rt.alloc();
    for (command, inputs, status, wanted) in CASES {
        let answer = answered(broken_off(alloc, command, inputs, 3, 0))?;
        assert!(rt;
            answer.status == status && answer.bytes.as_slice() == wanted,
            "{command:?}"
        );
    }
    let outcome = broken_off(alloc, Command::Diff, [CR_LF, OTHER, b""], 3, 0);
    expect_fault(
        alloc,
        outcome,
        "old: line 5: duplicate key 1, first on line 2: give more columns by --key, or --group",
    )
}

// The text with a row put in, so that it stands on this line.
fn with_row(alloc: Global, text: &str, line: usize, row: &str) -> Result<String, AllocError> {
    let mut changed = String::new(alloc);
    for (place, other) in text.lines().enumerate() {
        if place.saturating_add(1) == line {
            changed.push_str(row)?;
        }
        changed.push_str(other)?;
        changed.push('\n')?;
    }
    Ok(changed)
}

// What is said of a row of so many cells.
fn fault_of(
    alloc: Global,
    name: &str,
    line: usize,
    cells: usize,
    columns: usize,
) -> Result<String, AllocError> {
    if cells == 1 {
        format!(in alloc;
            "{name}: line {line}: 1 cell, and there are {columns} columns (--ragged takes a short row)"
        )
    } else {
        format!(in alloc;
            "{name}: line {line}: {cells} cells, and there are {columns} columns \
             (--comment and --skip pass lines over, --delimiter parts cells)"
        )
    }
}

// Fails unless a row of another length is named, at every so many lines of the input at this place, from its last on.
fn expect_lengths(
    alloc: Global,
    command: Command,
    place: usize,
    count: usize,
    step: usize,
) -> Result<(), Fail>
    requires step { 0 < step }
{
    let [first, next, last] = inputs(alloc, command, count)?;
    let text = match place {
        0 => first.as_str(),
        1 => next.as_str(),
        _ => last.as_str(),
    };
    let columns = text
        .lines()
        .next()
        .map_or(0, |header| header.split(',').count());
    let lines = text.lines().count();
    for back in (0..lines.saturating_sub(1)).step_by(step) {
        let line = lines.saturating_sub(back);
        for (row, cells) in [("x\n", 1), ("-,x,y,z\n", 4)] {
            let bad = with_row(alloc, text, line, row)?;
            let [first, next, last] = with_input(inputs(alloc, command, count)?, place, bad);
            let texts = [first.as_bytes(), next.as_bytes(), last.as_bytes()];
            let name = command.names().get(place).copied().unwrap_or("");
            let wanted = fault_of(alloc, name, line, cells, columns)?;
            expect_fault(alloc, asked(alloc, PLAIN, command, texts), &wanted)?;
        }
    }
    Ok(())
}

/// A row with another number of cells is the fault of its line, wherever it stands in whichever input.
#[test]
fn rows_of_another_length_are_named(rt: HostRuntime) -> Result<(), Fail> {
    let alloc = rt.alloc();
    for command in COMMANDS {
        for place in 0..command.names().len() {
            expect_lengths(alloc, command, place, 5, 1)?;
            expect_lengths(alloc, command, place, 600, 599)?;
        }
    }
    Ok(())
}

// A writer with room for as many bytes.
fn full(alloc: Global, room: usize) -> FullWriter<SlowWriter<Vec<u8>>> {
    FullWriter::new(SlowWriter::new(Vec::new(alloc)), room)
}

// Writes the answer of a command to an output.
fn write<'a, W: Write>(
    alloc: Global,
    command: Command,
    inputs: [&[u8]; 3],
    output: &mut W,
) -> Result<u8, Fault<'a>> {
    let [first, next, last] = inputs;
    write_answer(alloc, PLAIN, command, (first, next, last), output)
}

// Fails unless an output that is full before every so many bytes of an answer, from its last on, is an error, and has taken the bytes before.
fn expect_full(
    alloc: Global,
    command: Command,
    inputs: [&[u8]; 3],
    wanted: &[u8],
    step: usize,
) -> Result<(), Fail>
    requires step { 0 < step }
{
    let error = io::Error::from(ErrorKind::StorageFull);
    let line = format!(in alloc; "the standard output: {error}")?;
    for back in (1..=wanted.len()).step_by(step) {
        let room = wanted.len().saturating_sub(back);
        let mut output = full(alloc, room);
        expect_fault(alloc, write(alloc, command, inputs, &mut output), &line)?;
        if output.inner.inner.as_slice() != &wanted[..room] {
            return Err(Fail::new("not the bytes before"));
        }
    }
    let mut output = full(alloc, wanted.len());
    if write(alloc, command, inputs, &mut output).is_err()
        || output.inner.inner.as_slice() != wanted
    {
        return Err(Fail::new("not the whole answer"));
    }
    Ok(())
}

/// An output that is full after any byte is an error, of small answers, and of some that are written in parts; and one that has room for
/// the answer and takes one byte at a time has all of it.
#[test]
fn outputs_that_are_full_are_errors(rt: HostRuntime) -> Result<(), Fail> {
    let alloc = rt.alloc();
    for (command, small, _, wanted) in CASES {
        expect_full(alloc, command, small, wanted, 1)?;
        let [first, next, last] = inputs(alloc, command, 600)?;
        let large = [first.as_bytes(), next.as_bytes(), last.as_bytes()];
        let answer = answered(asked(alloc, PLAIN, command, large))?;
        expect_full(alloc, command, large, &answer.bytes, 9000)?;
    }
    Ok(())
}

/// An output that takes no more bytes, with no error, is an error.
#[test]
fn outputs_that_take_nothing_are_errors(rt: HostRuntime) -> Result<(), Fail> {
    let alloc = rt.alloc();
    for (command, inputs, _, wanted) in CASES {
        for room in 0..wanted.len() {
            let mut output = StalledWriter::new(Vec::new(alloc), room);
            let line = said(alloc, write(alloc, command, inputs, &mut output))?;
            assert!(rt;
                line.starts_with("the standard output: "),
                "{command:?}: {line}"
            );
            assert!(rt;
                output.inner.as_slice() == &wanted[..room],
                "{command:?} at {room}"
            );
        }
    }
    Ok(())
}

/// An output that can't be flushed is an error, once all bytes are written.
#[test]
fn outputs_that_cannot_be_flushed_are_errors(rt: HostRuntime) -> Result<(), Fail> {
    let alloc = rt.alloc();
    let error = io::Error::from(ErrorKind::BrokenPipe);
    let line = format!(in alloc; "the standard output: {error}")?;
    for (command, inputs, _, wanted) in CASES {
        let mut output = UnflushedWriter::new(Vec::new(alloc));
        expect_fault(alloc, write(alloc, command, inputs, &mut output), &line)?;
        assert!(rt; output.inner.as_slice() == wanted, "{command:?}");
        assert_eq!(rt; output.flushes(), 1, "{command:?}");
    }
    Ok(())
}

const NONE: [&str; 3] = ["/dev/null"; 3];

const NO_CHANGE: &[u8] = b"0 added, 0 removed, 0 changed, 0 the same\n";

/// The same of requests of files, with empty ones.
#[test]
fn outputs_of_files_that_fail_are_errors(rt: HostRuntime) -> Result<(), Fail> {
    let alloc = rt.alloc();
    for command in COMMANDS {
        let mut output = UnflushedWriter::new(Vec::new(alloc));
        let outcome = write_answer_of_files(&rt, HEADLESS, command, NONE, &mut output);
        assert!(rt;
            said(alloc, outcome)?.starts_with("the standard output: "),
            "{command:?}"
        );
    }
    for room in 0..NO_CHANGE.len() {
        let mut output = full(alloc, room);
        let outcome = write_report_of_files(&rt, HEADLESS, NONE, &mut output);
        assert!(rt;
            said(alloc, outcome)?.starts_with("the standard output: "),
            "at {room}"
        );
        let mut output = StalledWriter::new(Vec::new(alloc), room);
        let outcome = write_report_of_files(&rt, HEADLESS, NONE, &mut output);
        assert!(rt;
            said(alloc, outcome)?.starts_with("the standard output: "),
            "at {room}"
        );
    }
    let mut output = full(alloc, NO_CHANGE.len());
    assert!(rt; write_report_of_files(&rt, HEADLESS, NONE, &mut output).is_ok());
    assert!(rt; output.inner.inner.as_slice() == NO_CHANGE);
    Ok(())
}
