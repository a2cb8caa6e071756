//! Answers calls of the library that are written one a line, as `Both(1, 2).map_left(next)`.
//!
//! Each line comes back with its answer, as `Both(1, 2).map_left(next) = Both(2, 2) calls next(1)`: the value, what is left in place,
//! and the functions that were called. What the original crate answers at the lines of the file `stdin` stands in the file `stdout`, so
//! that the gate compares the two crates; `tools/answers` makes both. Here a line is taken apart and its answer is printed; a module
//! answers each family of calls. A line that begins with `#` is a heading, and comes back as it is.
#![tactic(auto)]

mod ask;
mod calls;
mod collect;
mod containers;
mod conversions;
mod ends;
mod forms;
mod functions;
mod getters;
mod in_place;
mod inspection;
mod order;
mod queries;
mod read;
mod references;
mod text;
mod transpositions;
mod unwraps;
mod values;
mod walks;

use ask::{Ask, Refused, Said};
use read::{Given, Held, Value, optional};
use std::alloc::{AllocError, Global};
use std::io::{self, BufRead, BufReader, BufWriter, Write};

fn main(rt: HostRuntime) -> io::Result<()> {
    let alloc = rt.alloc();
    let mut output = BufWriter::new(alloc, rt.stdout())?;
    for line in BufReader::new(alloc, rt.stdin())?.lines(alloc) {
        let line = line?;
        let answer = answer_line(alloc, &line)?;
        writeln!(output, "{answer}")?;
    }
    output.flush()
}

// The line with its answer. A line with a call or a value that is not known has the answer `?`.
fn answer_line(alloc: Global, line: &str) -> Result<String, AllocError> {
    if line.is_empty() || line.starts_with('#') {
        return String::from_str(alloc, line);
    }
    match answer(alloc, line) {
        Ok(answer) => format!(in alloc; "{line} = {answer}"),
        Err(Refused::Line) => format!(in alloc; "{line} = ?"),
        Err(Refused::Memory) => Err(AllocError),
    }
}

fn answer(alloc: Global, line: &str) -> Result<String, Refused> {
    let ask = Ask::read(alloc, line).ok_or(Refused::Line)?;
    let answer = answer_call(&ask)?.ok_or(Refused::Line)?;
    ask.with_calls(answer)
}

// The answer of a call on values of its own, and else of one on a value that holds numbers or letters.
fn answer_call(ask: &Ask) -> Said {
    match ask.call {
        "transpose" | "transpose_left" | "transpose_right" | "transpose_err" | "transpose_ok" => {
            transpositions::answer(ask)
        }
        "into" | "try_into" | "question" | "message" => conversions::answer(ask),
        "collect" => collect::answer(ask),
        "read_json" => text::of_json(ask),
        "extend" => containers::answer(ask),
        "into_iter_swap"
        | "iter_swap"
        | "iter_swap_mut"
        | "into_iter_chain"
        | "iter_chain"
        | "iter_chain_mut"
        | "into_iter_inner"
        | "iter_inner"
        | "iter_inner_mut" => { walks::answer(ask) }
        _ => answer_value(ask),
    }
}

fn answer_value(ask: &Ask) -> Said {
    let alloc = ask.alloc();
    let Some(given) = optional(Given::<i32, i32>::read(alloc, ask.value))? else {
        return of_types(ask, Given::<u8, char>::read(alloc, ask.value)?);
    };
    match of_numbers(ask, given)? {
        Some(answer) => Ok(Some(answer)),
        None => of_types(ask, given),
    }
}

// The calls on two places of one type.
fn of_numbers(ask: &Ask, given: Given<i32, i32>) -> Said {
    if let Some(answer) = forms::of_one_type(ask, given)? {
        return Ok(Some(answer));
    }
    if let Some(answer) = inspection::of_one_type(ask, given)? {
        return Ok(Some(answer));
    }
    match given {
        Given::Both(value) => values::of_both(ask, value),
        Given::One(value) => match containers::of_pointer(ask, value)? {
            Some(answer) => Ok(Some(answer)),
            None => values::of_either(ask, value),
        },
    }
}

// The calls on places of any types.
fn of_types<L: Value, R: Value>(ask: &Ask, given: Given<L, R>) -> Said {
    if let Some(answer) = queries::answer(ask, given)? {
        return Ok(Some(answer));
    }
    if let Some(answer) = references::answer(ask, given)? {
        return Ok(Some(answer));
    }
    if let Some(answer) = unwraps::answer(ask, given)? {
        return Ok(Some(answer));
    }
    if let Some(answer) = getters::answer(ask, given)? {
        return Ok(Some(answer));
    }
    if let Some(answer) = forms::answer(ask, given)? {
        return Ok(Some(answer));
    }
    if let Some(answer) = inspection::answer(ask, given)? {
        return Ok(Some(answer));
    }
    if let Some(answer) = in_place::answer(ask, given)? {
        return Ok(Some(answer));
    }
    if let Some(answer) = order::answer(ask, given)? {
        return Ok(Some(answer));
    }
    text::answer(ask, given)
}
