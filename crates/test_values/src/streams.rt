//! Tests: an `Either` as a container, a pointer, a reader, a seeker and a writer. Bytes and errors pass it unchanged, the calls reach
//! the held side, and the variant stays.

use either_or_both::Either;
use std::alloc::{AllocError, Global};
use std::fmt::Debug;
use std::io::{BufRead, Cursor, Read, Seek, SeekFrom, Write};
use std::ops::{Deref, DerefMut};
use std::test::Fail;
use std::{fmt, io};
use testkit::bytes::{NEVER, NarrowText, Stream};
use testkit::same::same;

const SIDES: [bool; 2] = [true, false];

// The value on the left side or on the right one.
fn held<T: Drop>(is_left: bool, value: T) -> Either<T, T> {
    if is_left {
        Either::Left(value)
    } else {
        Either::Right(value)
    }
}

/// A container grows by the items that are put after it.
#[test]
fn container_grows_by_what_is_put_behind_it(rt: HostRuntime) -> Result<(), Fail> {
    let alloc = rt.alloc();
    for is_left in SIDES {
        let mut pair = held(is_left, vec![in alloc; 1]?);
        pair.extend([2, 3])?;
        same(
            "extend",
            &is_left,
            &pair,
            &held(is_left, vec![in alloc; 1, 2, 3]?),
        )?;
        pair.extend(None::<i32>)?;
        pair.extend(vec![in alloc; 4]?.into_iter().chain(Some(5)))?;
        let want = held(is_left, vec![in alloc; 1, 2, 3, 4, 5]?);
        same("extend", &is_left, &pair, &want)?;
    }
    Ok(())
}

// Adds one to what one of two kinds of pointer points to.
fn raise(mut pointer: Either<Box<u8>, &mut u8>) -> u8 {
    *pointer = pointer.wrapping_add(1);
    *pointer
}

/// A pointer shows the target of the side that is there, and what is written through it is what that side then holds.
#[test]
fn pointer_shows_and_changes_its_target(rt: HostRuntime) -> Result<(), Fail> {
    let alloc = rt.alloc();
    for is_left in SIDES {
        let mut pointer = held(is_left, Box::new(alloc, 3)?);
        same("deref", &is_left, pointer.deref(), &3)?;
        *pointer.deref_mut() = 4;
        same(
            "deref_mut",
            &is_left,
            &pointer,
            &held(is_left, Box::new(alloc, 4)?),
        )?;
    }
    let mut number = 7;
    let raised = [
        raise(Either::Right(&mut number)),
        raise(Either::Left(Box::new(alloc, 1)?)),
        number,
    ];
    assert_eq!(rt; raised, [8, 2, 8]);
    Ok(())
}

/// Bytes that are written are what the side then holds.
#[test]
fn side_holds_what_is_written(rt: HostRuntime) -> Result<(), Fail> {
    let alloc = rt.alloc();
    for is_left in SIDES {
        let mut writer = held(is_left, Cursor::new(Vec::new(alloc)));
        let count = writer.write(&[1, 2])?;
        writer.flush()?;
        let came = (count, writer.is_left());
        same("write", &is_left, &came, &(2, is_left))?;
        let bytes = writer.reduce().into_inner();
        let want = [1, 2].as_slice();
        same("write", &is_left, &bytes.as_slice(), &want)?;
    }
    Ok(())
}

/// Texts that are written are what the side then holds.
#[test]
fn side_holds_the_texts_that_are_written(rt: HostRuntime) -> Result<(), Fail> {
    let alloc = rt.alloc();
    for is_left in SIDES {
        let mut text = held(is_left, String::new(alloc));
        fmt::Write::write_str(&mut text, "ab")?;
        check_text(alloc, "write_str", &text, (is_left, "ab"))?;
        fmt::Write::write_fmt(&mut text, format_args!("{}-{:>3}", 7, 'c'))?;
        check_text(alloc, "write_fmt", &text, (is_left, "ab7-  c"))?;
    }
    Ok(())
}

// This side holds this text.
fn check_text(
    alloc: Global,
    call: &str,
    text: &Either<String, String>,
    (is_left, want): (bool, &str),
) -> Result<(), Fail> {
    let want = held(is_left, want.to_string(alloc)?);
    same(call, &is_left, text, &want)
}

const TEXT: &str = "hello\nworld";

/// A line of a text.
#[test]
fn line_is_read(rt: HostRuntime) -> Result<(), Fail> {
    for is_left in SIDES {
        let mut line = Vec::new(rt.alloc());
        let mut reader = held(is_left, Cursor::new(TEXT));
        let count = reader.read_until(10, &mut line)?;
        let came = (count, line.as_slice());
        let want = (6, b"hello\n".as_slice());
        same("read_until", &is_left, &came, &want)?;
    }
    Ok(())
}

/// The whole of it.
#[test]
fn whole_is_read(rt: HostRuntime) -> Result<(), Fail> {
    for is_left in SIDES {
        let mut whole = Vec::new(rt.alloc());
        let mut reader = held(is_left, Cursor::new(TEXT));
        let count = reader.read_to_end(&mut whole)?;
        let came = (count, whole.as_slice());
        let want = (11, TEXT.as_bytes());
        same("read_to_end", &is_left, &came, &want)?;
    }
    Ok(())
}

/// A place in it.
#[test]
fn place_is_sought() -> Result<(), Fail> {
    for is_left in SIDES {
        let mut seeker = held(is_left, Cursor::new(TEXT));
        let places = (
            seeker.seek(SeekFrom::End(-5))?,
            seeker.stream_position()?,
            seeker.is_left(),
        );
        same("seek", &is_left, &places, &(6, 6, is_left))?;
    }
    Ok(())
}

const BYTES: &[u8] = b"one line\nanother, longer line\nthe last";

// Reads all of the reader, `size` bytes at a time.
fn read_by<R: Read>(alloc: Global, reader: &mut R, size: usize) -> io::Result<Vec<u8>> {
    let mut all = Vec::new(alloc);
    let mut buf = [0; 9];
    let room = size.min(9);
    for _ in 0..100 {
        match reader.read(&mut buf[..room])? {
            0 => break,
            taken => all.extend_from_slice(&buf[..taken])?,
        }
    }
    Ok(all)
}

// Through which side, and in pieces of which size.
type Way = (bool, usize);

// The bytes read so many at a time.
fn check_read(alloc: Global, (is_left, size): Way) -> Result<(), Fail> {
    let mut reader = held(is_left, Stream::new(alloc, BYTES, NEVER, NEVER)?);
    let read = read_by(alloc, &mut reader, size)?;
    same("read", &(is_left, size), &read.as_slice(), &BYTES)
}

// The first line and the rest of bytes that are shown so many at a time.
fn check_shown(alloc: Global, (is_left, size): Way) -> Result<(), Fail> {
    let mut short = held(is_left, Stream::new(alloc, BYTES, size, NEVER)?);
    let mut line = Vec::new(alloc);
    let counts = [
        short.read_until(10, &mut line)?,
        short.read_to_end(&mut line)?,
    ];
    let want = ([9, 29], BYTES);
    same(
        "read_until, read_to_end",
        &(is_left, size),
        &(counts, line.as_slice()),
        &want,
    )
}

// The bytes written so many at a time.
fn check_written(alloc: Global, (is_left, size): Way) -> Result<(), Fail> {
    let mut writer = held(is_left, Stream::new(alloc, &[], NEVER, NEVER)?);
    for piece in BYTES.chunks(size.max(1)) {
        same(
            "write",
            &(is_left, size),
            &writer.write(piece)?,
            &piece.len(),
        )?;
    }
    let stayed = writer.is_left();
    let bytes = writer.reduce().bytes;
    same(
        "write",
        &(is_left, size),
        &(stayed, bytes.as_slice()),
        &(is_left, BYTES),
    )
}

// The bytes copied to the other side with some after them, where no call moves more at a time.
fn check_copied(alloc: Global, (is_left, size): Way) -> Result<(), Fail> {
    let mut from = held(is_left, Stream::new(alloc, BYTES, size, NEVER)?);
    let mut to = held(!is_left, Stream::new(alloc, &[], size, NEVER)?);
    let count = io::copy(&mut from, &mut to)?;
    to.write_all(b"!")?;
    write!(to, "{}", 12)?;
    let copied = to.reduce().bytes;
    let want = (
        38,
        b"one line\nanother, longer line\nthe last!12".as_slice(),
    );
    same("copy", &(is_left, size), &(count, copied.as_slice()), &want)
}

/// Bytes pass unchanged in pieces of each size, through what is written here and through what `std` provides.
#[test]
fn bytes_pass_in_pieces_of_each_size(rt: HostRuntime) -> Result<(), Fail> {
    let alloc = rt.alloc();
    for is_left in SIDES {
        for size in 1..=9 {
            check_read(alloc, (is_left, size))?;
            check_shown(alloc, (is_left, size))?;
            check_written(alloc, (is_left, size))?;
            check_copied(alloc, (is_left, size))?;
        }
    }
    Ok(())
}

// Records what a call answered: its value, or the kind and the text of its error.
fn note<T: Debug + Drop>(log: &mut String, call: &str, answer: io::Result<T>) -> Result<(), Fail> {
    match answer {
        Ok(value) => write!(log, "{call} {value:?}; ")?,
        Err(error) => {
            let kind = error.kind();
            write!(log, "{call} fails by {kind:?}, {error}; ")?;
        }
    }
    Ok(())
}

// Calls each of the calls of a stream in turn, going on after one that fails.
fn call_all<S: BufRead + Seek + Write>(alloc: Global, stream: &mut S) -> Result<String, Fail> {
    let mut log = String::new(alloc);
    let mut buf = [0; 4];
    note(&mut log, "read", stream.read(&mut buf))?;
    note(&mut log, "fill_buf", stream.fill_buf())?;
    stream.consume(2);
    note(&mut log, "seek", stream.seek(SeekFrom::Current(-3)))?;
    note(&mut log, "stream_position", stream.stream_position())?;
    note(&mut log, "write", stream.write(b"abcd"))?;
    note(&mut log, "flush", stream.flush())?;
    note(&mut log, "rewind", stream.rewind())?;
    let mut text = String::new(alloc);
    note(&mut log, "read_line", stream.read_line(&mut text))?;
    note(&mut log, "write_all", stream.write_all(b"end"))?;
    note(&mut log, "writeln", stream.writeln(7))?;
    note(&mut log, "read_to_string", stream.read_to_string(&mut text))?;
    note(&mut log, "text", Ok(text))?;
    Ok(log)
}

// Whether the stream that fails at this call fails on the way: through a side it answers as it does alone.
fn check_fault(alloc: Global, is_left: bool, fault: usize) -> Result<bool, Fail> {
    let mut alone = Stream::new(alloc, BYTES, 6, fault)?;
    let want = call_all(alloc, &mut alone)?;
    let mut stream = held(is_left, Stream::new(alloc, BYTES, 6, fault)?);
    let log = call_all(alloc, &mut stream)?;
    let has_failed = fault < alone.calls;
    let is_told = log.contains("fails by TimedOut, the stream broke;");
    same("calls", &fault, &(log, stream.is_left()), &(want, is_left))?;
    same("a fault", &fault, &is_told, &has_failed)?;
    let inner = stream.reduce();
    same(
        "calls",
        &fault,
        &(inner.calls, inner.bytes),
        &(alone.calls, alone.bytes),
    )?;
    Ok(has_failed)
}

/// A stream that fails at each of its calls in turn gives its own error, kind and text, and answers the calls around it as it does
/// alone. The variant stays.
#[test]
fn failing_stream_gives_its_own_error(rt: HostRuntime) -> Result<(), Fail> {
    let alloc = rt.alloc();
    for is_left in SIDES {
        let mut faults = 0usize;
        for fault in 0..40 {
            if check_fault(alloc, is_left, fault)? {
                faults = faults.saturating_add(1);
            }
        }
        assert!(rt; 15 < faults && faults < 40, "{faults} faults");
    }
    Ok(())
}

/// A writer of texts that fails gives its error, and what it took before is what it has.
#[test]
fn failing_writer_of_texts_gives_its_error() -> Result<(), Fail> {
    for is_left in SIDES {
        for room in 0..=6 {
            let mut writer = held(is_left, NarrowText { room });
            let mut left = room;
            for text in ["ab", "c", "def"] {
                let want = if text.len() <= left {
                    left -= text.len();
                    Ok(())
                } else {
                    Err(fmt::Error)
                };
                let came = fmt::Write::write_str(&mut writer, text);
                same(text, &room, &came, &want)?;
                same(
                    text,
                    &room,
                    &writer,
                    &held(is_left, NarrowText { room: left }),
                )?;
            }
        }
    }
    Ok(())
}
