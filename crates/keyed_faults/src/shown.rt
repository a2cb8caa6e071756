//! Cells, names and keys as a person reads them, so that two that differ never look the same.
ghost use Rattle.std.specs.Prelude.{[], ◌∷◌, ◌≡◌, ◌<◌, ◌==◌, ◌||◌, IfOk, IsTrue, MatchOption, chars, encode_utf8, encode_utf8_all, false, string_bytes};
ghost use Rattle.std.specs.Char.{digit_char};
ghost use Rattle.std.specs.Char.Escape.{escape_unicode};
ghost use Rattle.std.specs.Fmt.{WritesOnOk};
ghost use Rattle.std.specs.List.{list_any};
ghost use Rattle.keyed_faults.specs.ShownCells.{IsCellShown, IsQuoted, IsShownCell, ShowsCellOnOk, ShowsOnOk};
ghost use Rattle.keyed_faults.specs.ShownCells.{begins_quoted, escape_byte, is_moving, is_turning, letter_of};

use crate::look_alikes::{is_cyrillic_or_greek, prints_as_other, reads_as_latin};
use std::alloc::{AllocError, Global};
use std::fmt;
use std::fmt::Formatter;
use unicode_normalization::{IsNormalized, is_nfc_quick};

/// Bytes as text on one line, of which a terminal shows each character in its turn: control characters are escaped, and so are marks that
/// end a line or turn the direction of text, and bytes that are no UTF-8.
#[derive(Clone, Copy)]
pub struct Shown<'a>(pub &'a [u8]);

impl fmt::Display for Shown<'_> {
    fn fmt<W: fmt::Write>(&self, f: &mut Formatter<W>) -> fmt::Result {
        for chunk in self.0.utf8_chunks() {
            show_text(f, chunk.valid())?;
            show_bytes(f, chunk.invalid())?;
        }
        Ok(())
    }
}

// Text with what moves or turns a terminal's text escaped.
fn show_text<W: fmt::Write>(f: &mut Formatter<W>, text: &str) -> fmt::Result {
    for c in text.chars() {
        show_char(f, c)?;
    }
    Ok(())
}

// A character, escaped if it moves or turns a terminal's text.
fn show_char<W: fmt::Write>(f: &mut Formatter<W>, c: char) -> fmt::Result {
    if is_moving(c) {
        show_escaped(f, c)
    } else {
        f.write_char(c)
    }
}

// A character, escaped.
fn show_escaped<W: fmt::Write>(f: &mut Formatter<W>, c: char) -> fmt::Result
    ensures { ShowsOnOk W.write_str_gives f.old result (encode_utf8 c) f.new }
{
    match letter_of(c) {
        Some(letter) => show_letter(f, letter),
        None => show_code(f, c),
    }
}

// What stands after a backslash for a character that has an escape of its own.
fn letter_of(c: char) -> Option<char>
    ensures { MatchOption result (letter_of c ≡ 0) (λ letter. (0 < letter_of c) × (letter ≡ letter_of c)) }
{
    match c {
        '\0' => Some('0'),
        '\t' => Some('t'),
        '\n' => Some('n'),
        '\r' => Some('r'),
        '"' => Some('"'),
        '\\' => Some('\\'),
        _ => None,
    }
}

fn show_letter<W: fmt::Write>(f: &mut Formatter<W>, letter: char) -> fmt::Result
    ensures { WritesOnOk W.write_str_gives f.old result (encode_utf8_all (92 ∷ letter ∷ [])) f.new }
{
    f.write_char('\\')?;
    f.write_char(letter)
}

// A character by its code.
fn show_code<W: fmt::Write>(f: &mut Formatter<W>, c: char) -> fmt::Result
    ensures { WritesOnOk W.write_str_gives f.old result (encode_utf8_all (escape_unicode c)) f.new }
{
    for x in c.escape_unicode() {
        f.write_char(x)?;
    }
    Ok(())
}

// Bytes that are no UTF-8.
fn show_bytes<W: fmt::Write>(f: &mut Formatter<W>, bytes: &[u8]) -> fmt::Result
    ensures { ShowsOnOk W.write_str_gives f.old result bytes.now f.new }
{
    for byte in bytes {
        show_byte(f, *byte)?;
    }
    Ok(())
}

fn show_byte<W: fmt::Write>(f: &mut Formatter<W>, byte: u8) -> fmt::Result
    ensures { WritesOnOk W.write_str_gives f.old result (encode_utf8_all (escape_byte byte)) f.new }
{
    f.write_str("\\x")?;
    f.write_char(hex_digit(byte / 16))?;
    f.write_char(hex_digit(byte % 16))
}

// The digit of a number less than 16.
fn hex_digit(digit: u8) -> char
    ensures { digit < 16 → result ≡ digit_char digit }
{
    char::from_digit(u32::from(digit), 16).unwrap_or('0')
}

// Whether a character that is no control character ends a line, or turns the direction of the text around it.
fn turns_text(c: char) -> bool
    ensures { result ≡ is_turning c }
{
    matches!(
        c,
        '\u{61c}' | '\u{200e}' | '\u{200f}' | '\u{2028}'..='\u{202e}' | '\u{2066}'..='\u{2069}'
    )
}

/// A cell as a person reads it: as it is, or in quotes with escapes. In quotes stands what a terminal would not show as it is (a control
/// character, a mark that ends a line or turns the direction of text, bytes that are no UTF-8, a space at an end), what this program
/// prints of its own (`(no row)`, and `->` between two cells), and what begins with a quote. So does what prints as another cell would,
/// with that escaped by which they differ: characters of no width, spaces that are no space, signs that print as those of ASCII, all
/// characters beyond ASCII of a text that is not in Unicode's normal form NFC, and Cyrillic and Greek letters of a word that could be read
/// as a word in Latin letters. So two cells that differ never look the same, also as the two sides of a change, and no control character is
/// printed.
///
/// ```
/// assert_eq!(rt; format!(in alloc; "{}", ShownCell(b"say \"so\""))?.as_str(), "say \"so\"");
/// assert_eq!(rt; format!(in alloc; "{}", ShownCell(b"so\" "))?.as_str(), "\"so\\\" \"");
/// assert_eq!(rt; format!(in alloc; "{}", ShownCell("e\u{301}".as_bytes()))?.as_str(), "\"e\\u{301}\"");
/// ```
#[derive(Clone, Copy)]
pub struct ShownCell<'a>(pub &'a [u8]);

impl fmt::Display for ShownCell<'_> {
    fn fmt<W: fmt::Write>(&self, f: &mut Formatter<W>) -> fmt::Result {
        show_cell(f, self.0)
    }
}

// A cell as it is, or in quotes.
fn show_cell<W: fmt::Write>(f: &mut Formatter<W>, cell: &[u8]) -> fmt::Result
    ensures { ShowsCellOnOk W.write_str_gives IsCellShown f.old result cell.now f.new }
{
    match str::from_utf8(cell) {
        Ok(text) => {
            if is_bare(text) {
                f.write_str(text)
            } else {
                show_quoted(f, cell)
            }
        }
        Err(_) => show_quoted(f, cell),
    }
}

/// The text of [`ShownCell`].
///
/// # Errors
///
/// Returns `AllocError` if a request for memory was refused.
pub fn shown_cell(alloc: Global, cell: &[u8]) -> Result<String, AllocError>
    ensures { IfOk result (λ text. IsShownCell cell.now (string_bytes text)) }
{
    let mut f = Formatter::new(String::new(alloc));
    match show_cell(&mut f, cell) {
        Ok(()) => Ok(f.into_inner()),
        Err(_) => Err(AllocError),
    }
}

/// A cell among other text on a line, as a key or the name of a column in a message: as [`ShownCell`], and an empty one as `""`.
///
/// ```
/// assert_eq!(rt; format!(in alloc; "no column {}", ShownName(b""))?.as_str(), "no column \"\"");
/// ```
#[derive(Clone, Copy)]
pub struct ShownName<'a>(pub &'a [u8]);

impl fmt::Display for ShownName<'_> {
    fn fmt<W: fmt::Write>(&self, f: &mut Formatter<W>) -> fmt::Result {
        if self.0.is_empty() {
            f.write_str("\"\"")
        } else {
            write!(f, "{}", ShownCell(self.0))
        }
    }
}

impl ShownCell<'static> {
    /// What stands for a row where there is none.
    pub const NO_ROW: &'static str = "(no row)";
}

/// A cell in a list with commas, as one of the cells of a key: as [`ShownName`], and in quotes where a comma stands in it.
///
/// ```
/// assert_eq!(rt; format!(in alloc; "{},{}", ShownInList(b"a,b"), ShownInList(b"c"))?.as_str(), "\"a,b\",c");
/// ```
#[derive(Clone, Copy)]
pub struct ShownInList<'a>(pub &'a [u8]);

impl fmt::Display for ShownInList<'_> {
    fn fmt<W: fmt::Write>(&self, f: &mut Formatter<W>) -> fmt::Result {
        if self.0.contains(&b',') {
            show_quoted(f, self.0)
        } else {
            write!(f, "{}", ShownName(self.0))
        }
    }
}

// Whether a text is shown as it is.
fn is_bare(text: &str) -> bool
    ensures quote { IsTrue result → begins_quoted text.now ≡ false }
    ensures moves { IsTrue result → list_any is_moving (chars text.now) ≡ false }
{
    !(begins_quoted(text.as_bytes()) || moves_text(text) || is_misread(text))
}

fn begins_quoted(bytes: &[u8]) -> bool
    ensures { result ≡ begins_quoted bytes.now }
{
    match bytes {
        [first, ..] => *first == b'"',
        [] => false,
    }
}

// Whether a character of a text moves or turns a terminal's text.
fn moves_text(text: &str) -> bool
    ensures { result ≡ list_any is_moving (chars text.now) }
{
    text.chars().any(is_moving)
}

fn is_moving(c: char) -> bool
    ensures { result ≡ is_moving c }
{
    c.is_control() || turns_text(c)
}

// Whether a text that moves no text of a terminal could be read as another one, or as what this program prints of its own.
fn is_misread(text: &str) -> bool {
    text.starts_with(' ')
        || text.ends_with(' ')
        || text == ShownCell::NO_ROW
        || text.contains("->")
        || !(text.is_ascii() || is_plain(text))
}

// Whether a text with characters beyond ASCII prints as no other one.
fn is_plain(text: &str) -> bool {
    is_composed(text)
        && !text.chars().any(prints_as_other)
        && !text.split_inclusive(is_no_letter).any(reads_as_latin)
}

// Whether a text is in the normal form NFC, as far as single characters tell.
fn is_composed(text: &str) -> bool {
    matches!(is_nfc_quick(text.chars()), IsNormalized::Yes)
}

// Whether a character ends a word.
fn is_no_letter(c: char) -> bool {
    !c.is_alphabetic()
}

// Bytes in quotes, with escapes of what is not shown as it is, and of what begins an escape or ends the quotes.
fn show_quoted<W: fmt::Write>(f: &mut Formatter<W>, bytes: &[u8]) -> fmt::Result
    ensures { ShowsCellOnOk W.write_str_gives IsQuoted f.old result bytes.now f.new }
{
    f.write_char('"')?;
    show_inner(f, bytes)?;
    f.write_char('"')
}

// What stands between the quotes.
fn show_inner<W: fmt::Write>(f: &mut Formatter<W>, bytes: &[u8]) -> fmt::Result
    ensures { ShowsOnOk W.write_str_gives f.old result bytes.now f.new }
{
    for chunk in bytes.utf8_chunks() {
        show_words(f, chunk.valid())?;
        show_bytes(f, chunk.invalid())?;
    }
    Ok(())
}

// A text in quotes. Of a word that reads as a Latin one its Cyrillic and Greek letters are escaped.
fn show_words<W: fmt::Write>(f: &mut Formatter<W>, text: &str) -> fmt::Result
    ensures { ShowsOnOk W.write_str_gives f.old result text.now f.new }
{
    let is_composed = is_composed(text);
    let mut is_read_as_latin = false;
    let mut begins_word = true;
    for (at, c) in text.char_indices() {
        if begins_word {
            is_read_as_latin = begins_as_latin(text.get(at..).unwrap_or(""));
        }
        begins_word = is_no_letter(c);
        let is_decomposed = !c.is_ascii() && !is_composed;
        let is_misread = is_read_as_latin && is_cyrillic_or_greek(c);
        show_in_quotes(f, c, is_decomposed || is_misread || prints_as_other(c))?;
    }
    Ok(())
}

// Whether the first word of a text reads as a Latin one.
fn begins_as_latin(text: &str) -> bool {
    text.split_inclusive(is_no_letter)
        .next()
        .is_some_and(reads_as_latin)
}

// A character in quotes, escaped if it is hidden as it is, or else where it stands in any text.
fn show_in_quotes<W: fmt::Write>(f: &mut Formatter<W>, c: char, is_hidden: bool) -> fmt::Result
    ensures { ShowsOnOk W.write_str_gives f.old result (encode_utf8 c) f.new }
{
    if is_hidden {
        show_escaped(f, c)
    } else {
        show_in_any(f, c)
    }
}

// A character in quotes, escaped if it moves or turns a terminal's text, begins an escape, or ends the quotes.
fn show_in_any<W: fmt::Write>(f: &mut Formatter<W>, c: char) -> fmt::Result
    ensures { ShowsOnOk W.write_str_gives f.old result (encode_utf8 c) f.new }
{
    if is_escaped(c) {
        show_escaped(f, c)
    } else {
        f.write_char(c)
    }
}

// Whether a character is escaped wherever it stands in quotes.
fn is_escaped(c: char) -> bool
    ensures { result ≡ (is_moving c || (c == 34 || c == 92)) }
{
    is_moving(c) || c == '"' || c == '\\'
}
