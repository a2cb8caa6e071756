//! Tests: how far a run says that it has come, while it writes rows.

use std::alloc::{AllocError, Global};
use std::fmt::Write;
use std::io;
use std::test::Fail;
use testkit::disk::Disk;
use testkit::process::{Process, Sink, World};

// What takes the line off the terminal.
const BLANK: &str = "\r                                      \r";

// A table that is read in several reads.
fn long_table(alloc: Global) -> Result<String, AllocError> {
    let mut text = String::from_str(alloc, "id,name\n")?;
    for row in 10_000..20_000_u32 {
        writeln!(text, "{row},a name that takes some room")?;
    }
    Ok(text)
}

// The words of a command line.
fn words_of(alloc: Global, line: &str) -> Result<Vec<Vec<u8>>, AllocError> {
    let mut words = Vec::new(alloc);
    for word in line.split(' ') {
        words.push(Vec::from_slice(alloc, word.as_bytes())?)?;
    }
    Ok(words)
}

// What stands on the standard error where tables are joined as they are read, onto such an output, and each look at the clock is a second
// after the one before.
fn said_of<'a>(
    alloc: Global,
    disk: &'a Disk,
    words: &'a [Vec<u8>],
    stdout: Sink,
) -> io::Result<String> {
    let world = World {
        words,
        no_color: None,
        columns: None,
        stdin: b"",
        stdout,
        has_terminal: true,
        step: 1000,
    };
    let process = Process::new(alloc, world, disk);
    let mut output = process.output();
    let errors = process.errors();
    let _status = keyed_run::run(&process, &mut output, &errors);
    let (_printed, said) = process.into_texts();
    Ok(said)
}

/// Where rows are written before all are read, the line comes again after them, unless they go to a terminal, which may be its own.
#[test]
fn line_leaves_rows_on_a_terminal_alone(rt: HostRuntime) -> Result<(), Fail> {
    let alloc = rt.alloc();
    let disk = Disk::new(alloc);
    let table = long_table(alloc)?;
    for name in ["old", "new"] {
        disk.put(name, table.as_bytes())?;
    }
    let words = words_of(alloc, "keyed join old new --sorted")?;
    for stdout in [Sink::Terminal, Sink::Pipe] {
        let said = said_of(alloc, &disk, &words, stdout)?;
        let times = said.split(BLANK).count().saturating_sub(1);
        assert!(rt; (stdout == Sink::Terminal) == (times == 1), "{said}");
    }
    Ok(())
}
