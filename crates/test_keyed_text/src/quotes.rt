//! Tests: which texts have their quotes in order, at once and byte by byte, and that these pass unchanged.

use keyed_text::{Marks, QuoteFault, Strict};
use std::alloc::Global;
use std::io;
use std::io::{ErrorKind, Read};
use std::test::Fail;
use testkit::streams::SlowReader;

const COMMAS: Marks = Marks {
    delimiter: b',',
    comment: None,
};

const HASHES: Marks = Marks {
    delimiter: b';',
    comment: Some(b'#'),
};

// What is wrong with a text that is read, and the bytes that passed.
#[derive(Drop)]
struct Passed {
    bytes: Vec<u8>,
    fault: Option<QuoteFault>,
    has_failed: bool,
}

fn pass<R: Read + Drop>(alloc: Global, reader: R, marks: Marks) -> io::Result<Passed> {
    let mut strict = Strict::new(reader, marks);
    let mut bytes = Vec::new(alloc);
    let has_failed = match strict.read_to_end(&mut bytes) {
        Ok(_) => false,
        Err(error) => {
            if error.kind() != ErrorKind::InvalidData {
                return Err(error);
            }
            true
        }
    };
    Ok(Passed {
        bytes,
        fault: strict.quote_fault(),
        has_failed,
    })
}

// Fails unless a text passes whole with this fault, however it is read.
fn expect(alloc: Global, text: &[u8], marks: Marks, fault: Option<QuoteFault>) -> Result<(), Fail> {
    let at_once = pass(alloc, text, marks)?;
    let slowly = pass(alloc, SlowReader::new(text), marks)?;
    let is_right = at_once.bytes.as_slice() == text
        && at_once.fault == fault
        && at_once.has_failed == fault.is_some()
        && text.starts_with(&slowly.bytes)
        && slowly.fault == fault
        && slowly.has_failed == fault.is_some();
    if is_right && (fault.is_some() || slowly.bytes.as_slice() == text) {
        Ok(())
    } else {
        Err(Fail::new(format_args!(
            "{:?}: {:?}, and {:?} byte by byte",
            str::from_utf8(text),
            at_once.fault,
            slowly.fault
        )))
    }
}

const IN_ORDER: [&[u8]; 14] = [
    b"",
    b"\n",
    b"a,b\n1,2\n",
    b"a,b\r\n1,2",
    b"\"a\"",
    b"\"a\",\"b\"\r\n\"1\",\"\"\n",
    b"\"a,\nb\"\n",
    b"\"say \"\"so\"\"\",\"\"\"\"\n",
    // A quote inside a cell that is not quoted is a byte like any other.
    b"5\" pipe,a\"b,\"c\"\n",
    b" \"a\n",
    b"\xef\xbb\xbf\"a\nb\",c\n",
    b"\xef\"a\n",
    b"\xef\xbb\"a\n",
    b"# \"a\n",
];

/// Texts whose quotes are in order pass unchanged.
#[test]
fn texts_in_order_pass(rt: HostRuntime) -> Result<(), Fail> {
    let alloc = rt.alloc();
    for text in IN_ORDER {
        expect(alloc, text, COMMAS, None)?;
    }
    Ok(())
}

const OPEN: [&[u8]; 7] = [
    b"\"",
    b"\"a",
    b"a,\"b\n",
    b"1,\"x\"\n2,\"y\n3,z\n",
    b"\"a\"\"\n",
    b"\xef\xbb\xbf\"a\n",
    b"a\r\"b\n",
];

/// A quote that is never closed is a fault.
#[test]
fn open_quotes_are_faults(rt: HostRuntime) -> Result<(), Fail> {
    let alloc = rt.alloc();
    for text in OPEN {
        expect(alloc, text, COMMAS, Some(QuoteFault::NeverClosed))?;
    }
    Ok(())
}

const BEHIND: [&[u8]; 5] = [
    b"\"a\"b\n",
    b"\"a\" ,b\n",
    b"a,\"\"b\n1,2\n",
    b"\"a\"\"b\"c\"\n",
    b"\"a\n\"b",
];

/// So is more between a closing quote and the end of its cell.
#[test]
fn text_behind_a_closing_quote_is_a_fault(rt: HostRuntime) -> Result<(), Fail> {
    let alloc = rt.alloc();
    for text in BEHIND {
        expect(alloc, text, COMMAS, Some(QuoteFault::TextBehindQuote))?;
    }
    Ok(())
}

/// Lines that are passed over may have quotes, and other delimiters part other cells.
#[test]
fn comments_and_delimiters_count(rt: HostRuntime) -> Result<(), Fail> {
    let alloc = rt.alloc();
    for text in [
        b"#\"a;\"\n\"b\";c\n".as_slice(),
        b"a;b\n# it's \"open\n1;\"2\"\n",
        b"\"a,b\";c\n",
        b"a,\"b;c\n",
    ] {
        expect(alloc, text, HASHES, None)?;
    }
    expect(alloc, b"a;#\"b\n", HASHES, None)?;
    expect(alloc, b"a\n;\"#b\n", HASHES, Some(QuoteFault::NeverClosed))?;
    expect(
        alloc,
        b"\"a\",\"b\"\n",
        HASHES,
        Some(QuoteFault::TextBehindQuote),
    )
}
