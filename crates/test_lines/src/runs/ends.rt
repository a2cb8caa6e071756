//! What `ends` lines of many calls are answered.

use std::alloc::{AllocError, Global};
use std::test::Fail;
use testkit::bytes::{PieceReader, PieceWriter};
use walk_lines::{Outcome, run};

// A line of so many calls, of the front and of the back in turn, over five items more than that, and its answer.
fn calls_in_turn(alloc: Global, count: u16) -> Result<(Vec<u8>, Vec<u8>), AllocError> {
    let count = usize::from(count);
    let mut line = Vec::new(alloc);
    let mut answer = Vec::new(alloc);
    line.extend_from_slice(b"ends ")?;
    for call in 0..count {
        let item = if call % 2 == 0 {
            call / 2
        } else {
            count + 4 - call / 2
        };
        let text = format!(in alloc; "l:{item} ")?;
        line.push(if call % 2 == 0 { b'f' } else { b'b' })?;
        answer.extend_from_slice(text.as_bytes())?;
    }
    for item in 0..count + 5 {
        let text = format!(in alloc; " l:{item}")?;
        line.extend_from_slice(text.as_bytes())?;
    }
    answer.extend_from_slice(b"left 5\n")?;
    Ok((line, answer))
}

/// A line with more calls than are made at a time is answered as if they were made at once, and so is one with more calls than items.
#[test]
fn answers_many_calls(rt: HostRuntime) -> Result<(), Fail> {
    let alloc = rt.alloc();
    for count in [63u16, 64, 65, 1000] {
        let (mut input, mut output) = calls_in_turn(alloc, count)?;
        input.extend_from_slice(b"\nends ")?;
        for _ in 0..count {
            input.push(b'b')?;
        }
        input.extend_from_slice(b" l:1 l:2")?;
        output.extend_from_slice(b"l:2 l:1 ")?;
        for _ in 2..count {
            output.extend_from_slice(b". ")?;
        }
        output.extend_from_slice(b"left 0\n")?;
        let mut reader = PieceReader::new(&input, usize::MAX);
        let mut writer = PieceWriter::new(alloc, usize::MAX);
        let outcome = run(alloc, &mut reader, &mut writer);
        let is_whole = writer.taken.as_slice() == output.as_slice();
        assert_eq!(rt; (outcome, is_whole), (Outcome::Done, true), "{count} calls");
    }
    Ok(())
}
