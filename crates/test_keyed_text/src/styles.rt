//! Tests: the style of a text that its first bytes tell, and that these bytes are passed on.

use keyed_text::{CellQuotes, Headed, LineEnd, Marks, Style};
use std::alloc::Global;
use std::io;
use std::io::Read;
use std::test::Fail;
use testkit::streams::SlowReader;

const COMMAS: Marks = Marks {
    delimiter: b',',
    comment: None,
};

const HASHES: Marks = Marks {
    delimiter: b';',
    comment: Some(b'#'),
};

// The style that the first bytes of a text tell, and the text that is read after them.
#[derive(Drop)]
struct Told {
    style: Style,
    text: Vec<u8>,
}

fn tell<R: Read + Drop>(alloc: Global, reader: R, marks: Marks, skipped: u64) -> io::Result<Told> {
    let read = Headed::new(alloc, reader, marks, skipped)?;
    let (mut reader, style) = read;
    let mut text = Vec::new(alloc);
    reader.read_to_end(&mut text)?;
    Ok(Told { style, text })
}

// Fails unless the first bytes of a text tell this style, however it is read, and the text is passed on.
fn expect(
    alloc: Global,
    text: &[u8],
    marks: Marks,
    skipped: u64,
    style: Style,
) -> Result<(), Fail> {
    let at_once = tell(alloc, text, marks, skipped)?;
    let slowly = tell(alloc, SlowReader::new(text), marks, skipped)?;
    if at_once.style == style
        && slowly.style == style
        && at_once.text.as_slice() == text
        && slowly.text.as_slice() == text
    {
        Ok(())
    } else {
        Err(Fail::new(format_args!(
            "{:?}: {:?}, and {:?} byte by byte, for {:?}",
            str::from_utf8(text),
            at_once.style,
            slowly.style,
            style
        )))
    }
}

// Fails unless each of these texts has the style beside it, with so many lines above its first row.
fn expect_each(alloc: Global, texts: &[(&[u8], u64, Style)], marks: Marks) -> Result<(), Fail> {
    for (text, skipped, style) in texts {
        expect(alloc, text, marks, *skipped, *style)?;
    }
    Ok(())
}

const PLAIN: Style = Style::PLAIN;

const CR_LF: Style = Style {
    line_end: LineEnd::CrLf,
    ..PLAIN
};

const FULL: Style = Style {
    quotes: CellQuotes::Everywhere,
    ..PLAIN
};

const FULL_CR_LF: Style = Style {
    quotes: CellQuotes::Everywhere,
    ..CR_LF
};

const MARKED: Style = Style {
    has_mark: true,
    ..PLAIN
};

const MARKED_CR_LF: Style = Style {
    has_mark: true,
    ..CR_LF
};

const MARKED_FULL_CR_LF: Style = Style {
    has_mark: true,
    ..FULL_CR_LF
};

const TEXTS: [(&[u8], u64, Style); 28] = [
    (b"", 0, PLAIN),
    (b"\n", 0, PLAIN),
    (b"\r\n\r\n", 0, CR_LF),
    (b"\xef\xbb\xbf", 0, MARKED),
    (b"\xef\xbb\xbf\n", 0, MARKED),
    (b"\xef\xbb\xbf\r\n1\n", 0, MARKED_CR_LF),
    (b"a,b\n1,2\r\n", 0, PLAIN),
    (b"a,b\r\n1,2\n", 0, CR_LF),
    (b"a,b\r1,2\n", 0, PLAIN),
    (b"a\r", 0, PLAIN),
    (b"a,b", 0, PLAIN),
    (b"\"a\",\"b\"", 0, FULL),
    (b"\"a\",b\r\n", 0, CR_LF),
    (b"\"a\",\r\n", 0, CR_LF),
    (b"a,\"b\"\r\n\"1\",\"2\"\r\n", 0, CR_LF),
    (b"\"a,\nb\",\"c\"\r\n1,2\n", 0, FULL_CR_LF),
    (b"\"a\rb\"\r\n", 0, FULL_CR_LF),
    (b"\"say \"\"so\"\"\",\"\"\"\"\r\n", 0, FULL_CR_LF),
    (b"\"\"\n", 0, FULL),
    (b"\n\n\"a\",\"b\"\r\n", 0, FULL),
    (b"\r\n\"a\"\n", 0, FULL_CR_LF),
    (b"\r\"a\"\r\n", 0, FULL),
    (b"\xef\xbb\xbf\"a\",\"b\"\r\n", 0, MARKED_FULL_CR_LF),
    (b"\xef\xbb\xbf\r\n\"a\"\r\n", 0, MARKED_FULL_CR_LF),
    (b"\xef\"a\"\r\n", 0, CR_LF),
    (b"\xef\xbb\"a\"\r\n", 0, CR_LF),
    (b"\xef\xbb\xbf\xef\xbb\xbfa\r\n", 0, MARKED_CR_LF),
    (b"5\" pipe,a\r\n1,2\r\n", 0, CR_LF),
];

/// The mark, the end of the first line, and the quotes of the first row tell the style, and nothing after them. A quote in a cell that is not
/// quoted is a byte like any other.
#[test]
fn first_row_and_line_tell_the_style(rt: HostRuntime) -> Result<(), Fail> {
    expect_each(rt.alloc(), &TEXTS, COMMAS)
}

const SKIPPED: [(&[u8], u64, Style); 9] = [
    (b"\"a\",\"b\"", 1, PLAIN),
    (b"a,\"b\"\r\n\"1\",\"2\"\r\n", 1, FULL_CR_LF),
    (b"a,\"b\"\r\n\"1\",\"2\"\r\n", 2, CR_LF),
    (b"\n\n\"a\",\"b\"\r\n", 2, FULL),
    (b"\n\n\"a\",\"b\"\r\n", 3, PLAIN),
    (b"\r\n\"a\"\n", 1, FULL_CR_LF),
    (b"\xef\xbb\xbf\"a\",\"b\"\r\n", 1, MARKED_CR_LF),
    (b"\xef\xbb\xbf\r\n\"a\"\r\n", 1, MARKED_FULL_CR_LF),
    (b"\xef\xbb\xbf\r\n\"a\"\r\n", 2, MARKED_CR_LF),
];

/// A line that is passed over tells how lines end, and nothing of quotes.
#[test]
fn lines_that_are_passed_over_tell_no_quotes(rt: HostRuntime) -> Result<(), Fail> {
    expect_each(rt.alloc(), &SKIPPED, COMMAS)
}

const COMMENTED: [(&[u8], u64, Style); 10] = [
    (b"# \"a\r\n\"b\";\"c\"\n", 0, FULL_CR_LF),
    (b"# \"a\r\n\"b\";\"c\"\n", 2, CR_LF),
    (b"#\n\"b\";c\r\n", 0, PLAIN),
    (b"#\r\"b\"\r\n", 0, FULL),
    (b"\xef\xbb\xbf# a\r\n\"b\";\"c\"\r\n", 0, MARKED_FULL_CR_LF),
    (b"\r\n# a\n\"b\"\n# c", 0, FULL_CR_LF),
    (b"\"a\n# b\";\"c\"\r\n", 0, FULL_CR_LF),
    (b"a;#b\r\n", 0, CR_LF),
    (b"\"#\";\"a,b\"\r\n", 0, FULL_CR_LF),
    (b"# a\n# b", 0, PLAIN),
];

/// Nor does a comment.
#[test]
fn comments_tell_no_quotes(rt: HostRuntime) -> Result<(), Fail> {
    expect_each(rt.alloc(), &COMMENTED, HASHES)
}
