//! How bytes stand in case files and in transcripts: text as it is, and what a person would not see as an escape after a backslash. A
//! backslash at the end of a line says that no line end follows.

use crate::wrong::Wrong;
use std::alloc::{AllocError, Global};
use std::fmt::Write;

/// The bytes that a text with escapes means.
#[derive(Drop)]
pub struct Text {
    /// The bytes.
    pub bytes: Vec<u8>,
    /// Whether a lone backslash ends the text.
    pub is_joined: bool,
}

/// What a text with escapes means.
///
/// # Errors
///
/// Returns `Line` if an escape is none, and `Io` if a request for memory was refused.
pub fn meant(alloc: Global, text: &str) -> Result<Text, Wrong> {
    let mut bytes = Vec::new(alloc);
    // Whether what comes is no escape: it is the beginning, or after a backslash that another escapes.
    let mut is_plain = true;
    let mut is_joined = false;
    for part in text.split('\\') {
        is_joined = false;
        if is_plain {
            bytes.extend_from_slice(part.as_bytes())?;
            is_plain = false;
        } else if part.is_empty() {
            // Two backslashes mean one, and one alone is the last.
            is_joined = true;
            is_plain = true;
            bytes.push(b'\\')?;
        } else {
            put_escaped(alloc, &mut bytes, part)?;
        }
    }
    if is_joined {
        let _ = bytes.pop();
    }
    Ok(Text { bytes, is_joined })
}

// Puts what a text means that stands after a backslash.
fn put_escaped(alloc: Global, bytes: &mut Vec<u8>, text: &str) -> Result<(), Wrong> {
    if let Some(number) = text.strip_prefix("u{") {
        return put_character(alloc, bytes, number);
    }
    let mut chars = text.chars();
    let byte = match chars.next() {
        Some('n') => b'\n',
        Some('r') => b'\r',
        Some('t') => b'\t',
        Some('0') => 0,
        Some('x') => hex_byte(chars.next(), chars.next())?,
        _ => return Err(Wrong::Line("no such escape: there are \\n \\r \\t \\0 \\\\ \\xHH \\u{H}")),
    };
    bytes.push(byte)?;
    bytes.extend_from_slice(chars.as_str().as_bytes())?;
    Ok(())
}

// Puts a character by its number, which ends with a brace, and what stands after.
fn put_character(alloc: Global, bytes: &mut Vec<u8>, text: &str) -> Result<(), Wrong> {
    if let Some((number, rest)) = text.split_once('}') {
        if let Ok(code) = u32::from_str_radix(number, 16) {
            if let Some(c) = char::from_u32(code) {
                bytes.extend_from_slice(c.to_string(alloc)?.as_bytes())?;
                bytes.extend_from_slice(rest.as_bytes())?;
                return Ok(());
            }
        }
    }
    Err(Wrong::Line("\\u{H} is no character"))
}

fn hex_byte(high: Option<char>, low: Option<char>) -> Result<u8, Wrong> {
    if let (Some(high), Some(low)) = (high, low) {
        if let (Some(high), Some(low)) = (high.to_digit(16), low.to_digit(16)) {
            if let Ok(byte) = u8::try_from(high.saturating_mul(16).saturating_add(low)) {
                return Ok(byte);
            }
        }
    }
    Err(Wrong::Line("\\x has two hexadecimal digits"))
}

/// Puts bytes line by line after a sign. What a person would not see is escaped, and where no line end stands at the end, the last line
/// ends with a backslash.
///
/// # Errors
///
/// Returns `AllocError` if a request for memory was refused.
pub fn put_lines(text: &mut String, sign: char, bytes: &[u8]) -> Result<(), AllocError> {
    if bytes.is_empty() {
        return Ok(());
    }
    let (whole, is_ended) = match bytes.strip_suffix(b"\n") {
        Some(whole) => (whole, true),
        None => (bytes, false),
    };
    let mut is_first = true;
    for line in whole.split(|byte| *byte == b'\n') {
        if !is_first {
            text.push('\n')?;
        }
        is_first = false;
        text.push(sign)?;
        if !line.is_empty() {
            text.push(' ')?;
            put_line(text, line)?;
        }
    }
    text.push_str(if is_ended { "\n" } else { "\\\n" })
}

// Puts the bytes of a line. A space at its end would not be seen.
fn put_line(text: &mut String, line: &[u8]) -> Result<(), AllocError> {
    let (line, is_spaced) = match line.strip_suffix(b" ") {
        Some(line) => (line, true),
        None => (line, false),
    };
    for chunk in line.utf8_chunks() {
        for c in chunk.valid().chars() {
            put_shown(text, c)?;
        }
        for byte in chunk.invalid() {
            write!(text, "\\x{byte:02x}")?;
        }
    }
    if is_spaced {
        text.push_str("\\x20")?;
    }
    Ok(())
}

fn put_shown(text: &mut String, c: char) -> Result<(), AllocError> {
    match c {
        '\\' => text.push_str("\\\\"),
        '\t' => text.push_str("\\t"),
        '\r' => text.push_str("\\r"),
        '\0' => text.push_str("\\0"),
        _ if is_seen(c) => text.push(c),
        _ => write!(text, "\\u{{{:x}}}", c as u32),
    }
}

// Whether a person sees a character, and sees which one it is.
fn is_seen(c: char) -> bool {
    !matches!(
        c,
        '\0'..='\x1f'
            | '\x7f'..='\u{a0}'
            | '\u{ad}'
            | '\u{61c}'
            | '\u{200b}'..='\u{200f}'
            | '\u{2028}'..='\u{202f}'
            | '\u{2060}'..='\u{206f}'
            | '\u{e000}'..='\u{f8ff}'
            | '\u{feff}'
            | '\u{e0000}'..='\u{10ffff}'
    )
}
