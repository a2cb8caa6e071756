//! The cases of `keyed` as the gate runs them. A file `data/*.case` says what files there are and which commands are run; what each command
//! writes, says and makes of files, and its status, is printed below it. The wanted transcript of all files stands in the file `stdout`.
//! A case file that can't be read, and a line of one that means nothing, end the program with status 1.
#![tactic(auto)]

mod command;
mod directives;
mod escapes;
mod room;
mod script;
mod words;
mod wrong;

use script::Script;
use std::alloc::{AllocError, Global};
use std::process::ExitCode;
use std::{fs, io};
use wrong::Wrong;

// How the name of a case file ends.
const CASE: &str = ".case";

// Why the cases could not be printed.
#[derive(Debug, Drop)]
enum Stopped {
    // The name of a case file, the number of a line, and what is wrong with it.
    Line(String, usize, Wrong),
    Io(io::Error),
    NoCases,
}

impl From<io::Error> for Stopped {
    fn from(error: io::Error) -> Self {
        Stopped::Io(error)
    }
}

impl From<AllocError> for Stopped {
    fn from(error: AllocError) -> Self {
        Stopped::Io(io::Error::from(error))
    }
}

fn main(rt: HostRuntime) -> ExitCode {
    let said = match print_cases(&rt) {
        Ok(()) => return ExitCode::SUCCESS,
        Err(Stopped::Line(file, line, wrong)) => {
            eprintln!(rt; "keyed_cases: {file}: line {line}: {wrong}")
        }
        Err(Stopped::Io(error)) => eprintln!(rt; "keyed_cases: {error}"),
        Err(Stopped::NoCases) => eprintln!(rt; "keyed_cases: there is no file *.case here"),
    };
    let _ = said;
    ExitCode::FAILURE
}

// Prints the transcripts of all case files of the folder, by their names, and how many commands were run.
fn print_cases(rt: &HostRuntime) -> Result<(), Stopped> {
    let names = case_files(rt)?;
    if names.is_empty() {
        return Err(Stopped::NoCases);
    }
    let (mut commands, files) = (0_usize, names.len());
    for name in names {
        let text = fs::read_to_string(rt, name.as_str())?;
        commands = commands.saturating_add(print_file(rt, name, &text)?);
    }
    println!(rt; "{commands} commands in {files} files")?;
    Ok(())
}

// The names of the case files, in order.
fn case_files(rt: &HostRuntime) -> io::Result<Vec<String>> {
    let mut names = Vec::new(rt.alloc());
    for entry in fs::read_dir(rt, ".")? {
        let entry = entry?;
        if entry.file_name().ends_with(CASE) {
            names.push(String::from_str(rt.alloc(), entry.file_name())?)?;
        }
    }
    names.sort_unstable();
    Ok(names)
}

// Prints the transcript of a case file, and returns how many commands it has.
fn print_file(rt: &HostRuntime, name: String, text: &str) -> Result<usize, Stopped> {
    let alloc: Global = rt.alloc();
    let mut script = Script::new(alloc);
    for (place, line) in text.split('\n').enumerate() {
        if let Err(wrong) = script.take(line) {
            rt.print(script.transcript.as_str())?;
            return Err(Stopped::Line(name, place.saturating_add(1), wrong));
        }
    }
    rt.print(script.transcript.as_str())?;
    Ok(script.commands)
}
