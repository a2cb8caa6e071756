//! What a run writes for its input, and how it ends over streams that give little, take little or fail.

mod ends;
mod joins;

use std::alloc::{AllocError, Global};
use std::io::ErrorKind;
use std::process::Abort;
use std::test::Fail;
use testkit::bytes::{Full, LineCounter, LineReader, PieceReader, PieceWriter, Turns};
use testkit::memory::Refusing;
use testkit::random::Random;
use walk_lines::{Outcome, run};

// A line of each command, a bad one among them, and what they are answered.
const LINES: &[u8] =
    b"collect l:1\nwalk l:1 r:a\n\nnormal b:1:a\nends fb l:1 l:2\njoin a=1 / b=2\ncollect b:a:b\n";

const ANSWERS: &str =
    "Left [1]\nb:1:a\nline 3: bad\nyes\nl:1 l:2 left 0\na=l:1 b=r:2\nBoth [a] [b]\n";

// Compares what was written for the input, cut into pieces by a length or a seed, and the status, with what was wanted.
fn check_answer(rt: &impl Abort, input: &[u8], cut: usize, came: (&[u8], u8), wanted: (&str, u8)) {
    let shown = input.escape_ascii();
    let (written, status) = came;
    let (output, wanted_status) = wanted;
    assert_eq!(rt;
        written,
        output.as_bytes(),
        "{shown} cut by {cut}, wanted {output}"
    );
    assert_eq!(rt; status, wanted_status, "{shown} cut by {cut}");
}

// Runs over the input, given and taken some bytes at a time.
fn check_run(rt: &impl Abort, alloc: Global, input: &[u8], output: &str, status: u8, step: usize) {
    let mut reader = PieceReader::new(input, step);
    let mut writer = PieceWriter::new(alloc, step);
    let outcome = run(alloc, &mut reader, &mut writer);
    let came = (writer.taken.as_slice(), outcome.status());
    check_answer(rt, input, step, came, (output, status));
    assert_eq!(rt; writer.flushes, 1, "{output}");
}

#[rattlefmt::skip]
static ANSWERED: [(&[u8], &str, u8); 21] = [
    // input                                            output                                      status
    (b"",                                               "",                                         0),
    (b"collect b:1:c l:2\n",                            "Both [1 2] [c]\n",                         0),
    (b"collect l:1\ncollect r:2\n",                     "Left [1]\nRight [2]\n",                    0),
    (b"collect\n",                                      "Both [] []\n",                             0),
    (b"  collect   r:az09  l:z \n",                     "Both [z] [az09]\n",                        0),
    (b"collect x\n",                                    "line 1: bad\n",                            2),
    (b"\ncollect  l:1 ",                                "line 1: bad\nLeft [1]\n",                  2),
    (b"collect l:1\n  ",                                "Left [1]\nline 2: bad\n",                  2),
    (b"collect l:1 x\ncollect l:1",                     "line 1: bad\nLeft [1]\n",                  2),
    (b"collect l:\ncollect b:1\ncollect r:A\n",         "line 1: bad\nline 2: bad\nline 3: bad\n",  2),
    (b"collect\tl:1\ncollect l:1\r\n \n",               "line 1: bad\nline 2: bad\nline 3: bad\n",  2),
    (b"collect b:1:2:3\ncollect b::1\nCOLLECT\n",       "line 1: bad\nline 2: bad\nline 3: bad\n",  2),
    (b"collect b:1:\ncollect b:\n",                     "line 1: bad\nline 2: bad\n",               2),
    (b"collectl:1\nl:1 collect\n",                      "line 1: bad\nline 2: bad\n",               2),
    (b"collect l:\xff\nends fx l:1\n",                  "line 1: bad\nline 2: bad\n",               2),
    (b"walk l:1 r:a l:2\nwalk\n",                       "b:1:a l:2\n-\n",                           0),
    (b"normal l:1 r:a l:2\nnormal b:1:a r:c\nnormal\n", "no\nyes\nyes\n",                           0),
    (b"walk l:\nnormal b:1\nwalks\n",                   "line 1: bad\nline 2: bad\nline 3: bad\n",  2),
    (b"ends bfbf l:1 r:a l:2 l:3\n",                    "l:3 b:1:a l:2 . left 0\n",                 0),
    (b"ends f\nends b l:1 r:a r:c\nends l:1\n",         ". left 0\nr:c left 1\nline 3: bad\n",      2),
    (b"ends\nends fx l:1\nends b x\n",                  "line 1: bad\nline 2: bad\nline 3: bad\n",  2),
];

/// Each line of input is answered as the command says, or as a bad line, and the status tells which came.
#[test]
fn answers_lines(rt: HostRuntime) {
    for (input, output, status) in ANSWERED {
        for step in [1, 5, usize::MAX] {
            check_run(&rt, rt.alloc(), input, output, status, step);
        }
    }
}

/// A writer that fails, is interrupted or takes nothing after any number of bytes ends the run, with these bytes written and no more.
#[test]
fn stops_where_writer_does(rt: HostRuntime) -> Result<(), Fail> {
    let output = ANSWERS.as_bytes();
    for room in 0..output.len() {
        for full in [Full::Fails, Full::IsInterrupted, Full::TakesNone] {
            for step in [1, usize::MAX] {
                let mut reader = PieceReader::new(LINES, step);
                let mut writer = PieceWriter::new(rt.alloc(), step);
                writer.room = room;
                writer.full = full;
                let outcome = run(rt.alloc(), &mut reader, &mut writer);
                assert_eq!(rt; outcome, Outcome::Io, "room {room}");
                assert_eq!(rt; writer.taken.as_slice(), &output[..room], "room {room}");
                assert_eq!(rt; writer.flushes, 0, "room {room}");
            }
        }
    }
    Ok(())
}

// How many bytes the first lines of a text have.
fn lines_len(text: &[u8], lines: usize) -> usize {
    let mut left = lines;
    for (place, byte) in text.iter().enumerate() {
        if left == 0 {
            return place;
        }
        if *byte == b'\n' {
            left = left.saturating_sub(1);
        }
    }
    text.len()
}

// A run over a beginning of the lines, after which a read fails.
fn fails_after(rt: &impl Abort, alloc: Global, input: &[u8], kind: ErrorKind, step: usize) {
    let lines = input.iter().filter(|byte| **byte == b'\n').count();
    let whole = lines_len(ANSWERS.as_bytes(), lines);
    let mut reader = PieceReader::failing(input, step, kind);
    let mut writer = PieceWriter::new(alloc, usize::MAX);
    let outcome = run(alloc, &mut reader, &mut writer);
    let shown = input.escape_ascii();
    let wanted = ANSWERS.as_bytes().get(..whole);
    assert_eq!(rt; outcome, Outcome::Io, "{shown} by {step}");
    assert_eq!(rt; Some(writer.taken.as_slice()), wanted, "{shown} by {step}");
    assert_eq!(rt; writer.flushes, 0, "{shown} by {step}");
}

/// After a failed read, which an interrupted one is too, the lines that were complete are answered, and no more.
#[test]
fn stops_where_read_fails(rt: HostRuntime) {
    for cut in 0..LINES.len() {
        let input = LINES.get(..cut).unwrap_or(b"");
        for kind in [ErrorKind::Interrupted, ErrorKind::Other] {
            fails_after(&rt, rt.alloc(), input, kind, 1);
            fails_after(&rt, rt.alloc(), input, kind, usize::MAX);
        }
    }
}

/// A flush that fails at the end of the input is an error of the output, also after a bad line.
#[test]
fn stops_where_last_flush_fails(rt: HostRuntime) -> Result<(), Fail> {
    let rows: [(&[u8], &str); 3] = [
        (b"", ""),
        (b"collect l:1\n", "Left [1]\n"),
        (b"x\n", "line 1: bad\n"),
    ];
    for (input, output) in rows {
        let mut reader = PieceReader::new(input, usize::MAX);
        let mut writer = PieceWriter::new(rt.alloc(), usize::MAX);
        writer.flush_failure = Some(ErrorKind::Interrupted);
        let outcome = run(rt.alloc(), &mut reader, &mut writer);
        let shown = input.escape_ascii();
        assert_eq!(rt; outcome, Outcome::Io, "{shown}");
        assert_eq!(rt;
            writer.taken.as_slice(),
            output.as_bytes(),
            "{shown}, wanted {output}"
        );
        assert_eq!(rt; writer.flushes, 1, "{shown}");
    }
    Ok(())
}

/// Whole lines that have come are answered before more input is asked for.
#[test]
fn answers_lines_before_next_read(rt: HostRuntime) {
    let turns = Turns::new();
    let mut reader = LineReader::new(b"collect l:1\n", 3, &turns);
    let mut writer = LineCounter::new(&turns);
    let outcome = run(rt.alloc(), &mut reader, &mut writer);
    let came = (outcome, turns.taken(), turns.is_early());
    assert_eq!(rt;
        came,
        (Outcome::Done, 3, false),
        "three lines, each answered before the next is read"
    );
}

// A line with one long word, and its answer, by what stands before and after the word in either.
#[derive(Clone, Copy)]
struct Frame {
    line: (&'static [u8], &'static [u8]),
    answer: (&'static [u8], &'static [u8]),
}

#[rattlefmt::skip]
static LONG: [Frame; 4] = [
    Frame { line: (b"collect r:", b""),   answer: (b"Right [", b"]") },
    Frame { line: (b"walk l:",    b""),   answer: (b"l:",      b"") },
    Frame { line: (b"ends f r:",  b""),   answer: (b"r:",      b" left 0") },
    Frame { line: (b"join a=",    b" /"), answer: (b"a=l:",    b"") },
];

// Appends what stands before the word, so many bytes, what stands after it, and the end of the line.
fn append_long(text: &mut Vec<u8>, frame: (&[u8], &[u8]), length: usize) -> Result<(), AllocError> {
    text.extend_from_slice(frame.0)?;
    text.resize(text.len().saturating_add(length), b'w')?;
    text.extend_from_slice(frame.1)?;
    text.extend_from_slice(b"\n")
}

// A line of each of these kinds with a word of so many bytes, and what the lines are answered.
fn long_lines(
    alloc: Global,
    kinds: &[Frame],
    length: usize,
) -> Result<(Vec<u8>, Vec<u8>), AllocError> {
    let mut lines = Vec::new(alloc);
    let mut answers = Vec::new(alloc);
    for frame in kinds {
        append_long(&mut lines, frame.line, length)?;
        append_long(&mut answers, frame.answer, length)?;
    }
    Ok((lines, answers))
}

// Whether a run over the input writes this and ends well.
fn is_answered(alloc: Global, input: &[u8], output: &[u8]) -> bool {
    let mut reader = PieceReader::new(input, usize::MAX);
    let mut writer = PieceWriter::new(alloc, usize::MAX);
    let outcome = run(alloc, &mut reader, &mut writer);
    outcome == Outcome::Done && writer.taken.as_slice() == output
}

/// A line is answered whole where it fills the buffer to the last byte, passes it by one, or is many times as long, also where it is the
/// last one and has no end.
#[test]
fn answers_line_longer_than_buffer(rt: HostRuntime) -> Result<(), Fail> {
    let rows = [
        (65525, LONG.len()),
        (65526, LONG.len()),
        (65527, LONG.len()),
        (200_000, LONG.len()),
        (3_000_000, 1),
    ];
    for (length, kinds) in rows {
        let (input, output) = long_lines(rt.alloc(), &LONG[..kinds], length)?;
        assert!(rt;
            is_answered(rt.alloc(), &input, &output),
            "a word of {length} bytes"
        );
        if let Some((_end, unended)) = input.split_last() {
            assert!(rt;
                is_answered(rt.alloc(), unended, &output),
                "a word of {length} bytes, and no end of the last line"
            );
        }
    }
    Ok(())
}

/// So is a line of 3 MB in 100,000 words, and one that stands before or after it.
#[test]
fn answers_line_of_many_words(rt: HostRuntime) -> Result<(), Fail> {
    let mut input = Vec::new(rt.alloc());
    let mut output = Vec::new(rt.alloc());
    input.extend_from_slice(b"collect l:1\nwalk")?;
    output.extend_from_slice(b"Left [1]\n")?;
    for place in 0..100_000 {
        input.extend_from_slice(b" l:abcdefghijklmnopqrstuvwxyz0")?;
        if 0 < place {
            output.push(b' ')?;
        }
        output.extend_from_slice(b"l:abcdefghijklmnopqrstuvwxyz0")?;
    }
    input.extend_from_slice(b"\ncollect r:2\n")?;
    output.extend_from_slice(b"\nRight [2]\n")?;
    assert!(rt; is_answered(rt.alloc(), &input, &output));
    Ok(())
}

// How a run ended: its status, how often it asked for memory, whether its output was right, and how often that was flushed.
type End = (u8, u64, bool, u8);

// Compares how a run over the input ended, in which the request of this number was to be refused, with what was wanted.
fn check_end(rt: &impl Abort, input: &[u8], number: u64, came: End, wanted: End) {
    let shown = input.escape_ascii();
    assert_eq!(rt; came, wanted, "{shown}, request {number} refused");
}

// Runs over the input with each request for memory refused in turn. A refused run asks for no more memory, ends with want of it and
// has written whole answers alone, from the first on. The run that meets no refusal has written them all.
fn refuse_each(
    rt: &impl Abort,
    alloc: Global,
    input: &[u8],
    output: &str,
    status: u8,
    step: usize,
) -> Result<(), Fail> {
    let memory = Refusing::new(alloc);
    for number in 1..999 {
        let mut reader = PieceReader::new(input, step);
        let mut writer = PieceWriter::new(alloc, step);
        memory.refuse(number);
        let outcome = run(&memory, &mut reader, &mut writer);
        let written = writer.taken.as_slice();
        let asked = memory.asked();
        if !memory.has_refused() {
            check_answer(
                rt,
                input,
                step,
                (written, outcome.status()),
                (output, status),
            );
            let came = (outcome.status(), asked, 1 < number, writer.flushes);
            check_end(rt, input, number, came, (status, number - 1, true, 1));
            return Ok(());
        }
        let is_beginning = output.as_bytes().starts_with(written);
        let has_whole_lines = written.is_empty() || written.ends_with(b"\n");
        let is_right = is_beginning && has_whole_lines;
        let came = (outcome.status(), asked, is_right, writer.flushes);
        check_end(rt, input, number, came, (3, number, true, 0));
    }
    Err("each run was refused")?;
    Ok(())
}

#[rattlefmt::skip]
static REFUSED: [(&[u8], &str, u8); 4] = [
    // input                                 output                                                      status
    (b"",                                    "",                                                         0),
    (b"collect l:1\ncollect r:2\n",          "Left [1]\nRight [2]\n",                                    0),
    (b"collect b:1:a l:2 r:b\n\ncollect\nx", "Both [1 2] [a b]\nline 2: bad\nBoth [] []\nline 4: bad\n", 2),
    (LINES,                                  ANSWERS,                                                    2),
];

/// A run with any one of its requests for memory refused writes whole answers alone, asks for no more, and says so by its status.
#[test]
fn stops_where_memory_is_refused(rt: HostRuntime) -> Result<(), Fail> {
    for (input, output, status) in REFUSED {
        for step in [1, 5, usize::MAX] {
            refuse_each(&rt, rt.alloc(), input, output, status, step)?;
        }
    }
    Ok(())
}

// Lines, and what they are answered; a bad one with its number.
static KNOWN: [(&str, Option<&str>); 10] = [
    ("collect l:1 r:b", Some("Both [1] [b]")),
    ("collect", Some("Both [] []")),
    ("walk r:a l:1 l:2", Some("b:1:a l:2")),
    ("normal l:1 b:2:a", Some("no")),
    ("ends bbf l:1 r:a r:c", Some("r:c b:1:a . left 0")),
    ("join a=1 / a=2 b=3", Some("a=b:1:2 b=r:3")),
    ("", None),
    ("join b=1 a=1 /", None),
    ("ends l:1", None),
    ("collect l:A", None),
];

/// However the input is cut into pieces, the output is the same.
#[test]
fn answers_alike_whatever_the_cut(rt: HostRuntime) -> Result<(), Fail> {
    let alloc = rt.alloc();
    let mut random = Random::new(20261122);
    for seed in 0..300usize {
        let mut input = Vec::new(alloc);
        let mut output = String::new(alloc);
        let mut any_bad = false;
        for number in 0..random.below(12) {
            let place = random.below(10) as usize;
            let (line, answer) = KNOWN.get(place).copied().unwrap_or(("", None));
            input.extend_from_slice(line.as_bytes())?;
            input.push(b'\n')?;
            match answer {
                Some(answer) => writeln!(output, "{answer}")?,
                None => {
                    any_bad = true;
                    let line = number.saturating_add(1);
                    writeln!(output, "line {line}: bad")?;
                }
            }
        }
        let mut reader = PieceReader::drawn(&input, seed as u64);
        let mut writer = PieceWriter::new(alloc, usize::MAX);
        let outcome = run(alloc, &mut reader, &mut writer);
        let came = (writer.taken.as_slice(), outcome.status());
        let wanted = (output.as_str(), if any_bad { 2 } else { 0 });
        check_answer(&rt, &input, seed, came, wanted);
    }
    Ok(())
}
