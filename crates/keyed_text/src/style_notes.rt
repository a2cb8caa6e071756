//! The style of a text, noted of its first bytes: whether it begins with a byte order mark, how its first line ends, and whether each cell
//! of its first row is in quotes.
ghost use Rattle.std.specs.Prelude.{◌≡◌, ◌∷◌, [], ◌++◌, ℕ, IsTrue, List, false, true, unwrap_or};
ghost use Rattle.keyed_text.specs.TextStyles.{NotesMore, ending_after, ends_mark, ends_quoted, is_end_at};
ghost use Rattle.keyed_text.specs.TextStyles.{line_end_with, place_next, quoted_after, quotes_by, shows_bare};
ghost use Rattle.keyed_text.specs.TextStyles.{begins_bare, is_quoted_at, marked_from, style_of, style_with};
ghost use Rattle.keyed_text.specs.TextStyles.{with_byte};
ghost use Rattle.keyed_text.specs.declared.style.LineEnd.{LineEnd};

use crate::quotes::{Marks, Place, ends_line};
use crate::style::{CellQuotes, LineEnd, Style};

/// What is noted of the style of a text.
#[derive(Clone, Copy, Debug)]
pub struct StyleNotes {
    marks: Marks,
    // How many lines are still to be passed over, and whether the last byte of one was a CR, with which an LF would be the end of one line.
    skipped: u64,
    follows_cr: bool,
    place: Place,
    has_mark: bool,
    ending: Ending,
    // Whether each cell of the first row is in quotes, where that is known.
    quoted: Option<bool>,
}

/// What is noted of the end of the first line.
#[derive(Clone, Copy, Debug)]
pub enum Ending {
    /// The line goes on.
    Open,
    /// A CR ends it, with which an LF may come next.
    AfterCr,
    /// It ends so.
    Ended(LineEnd),
}

impl StyleNotes {
    /// Returns the notes of a text of which no byte is noted, with these bytes between its cells, and so many lines before its first row.
    ///
    /// ```
    /// let mut notes = StyleNotes::new(Marks { delimiter: b',', comment: None }, 0);
    /// notes.take(b"\"id\",\"pri");
    /// assert!(rt; !notes.is_settled());
    /// notes.take(b"ce\"\r\n1");
    /// assert!(rt; notes.is_settled() && notes.style().line_end == LineEnd::CrLf);
    /// assert!(rt; notes.style().quotes == CellQuotes::Everywhere && !notes.style().has_mark);
    /// ```
    pub fn new(marks: Marks, skipped: u64) -> Self
        ensures skipped { result.skipped ≡ skipped }
        ensures style { (text : List ℕ) → style_with result text ≡ style_of marks text true }
    {
        StyleNotes {
            marks,
            skipped,
            follows_cr: false,
            place: Place::Top,
            has_mark: false,
            ending: Ending::Open,
            quoted: None,
        }
    }

    /// Returns the style of the text if no byte comes after those that were noted, and each of its rows has an end.
    pub fn style(&self) -> Style
        ensures { result ≡ style_with self.now [] }
    {
        Style {
            has_mark: self.has_mark,
            quotes: self.quotes(),
            line_end: self.line_end(),
            has_end: true,
        }
    }

    /// Returns whether that is the style of the text whatever bytes come next.
    pub fn is_settled(&self) -> bool
        ensures { IsTrue result → (rest : List ℕ) → style_with self.now rest ≡ style_with self.now [] }
    {
        self.quoted.is_some() && is_ended(self.ending) && is_behind_mark(self.place)
    }

    /// Notes the next bytes of the text.
    pub fn take(&mut self, bytes: &[u8])
        ensures { self.old.skipped ≡ 0 → NotesMore self.old self.new bytes.now }
    {
        for byte in bytes {
            self.take_byte(*byte);
        }
    }

    // Notes the next byte.
    fn take_byte(&mut self, byte: u8)
        ensures { self.old.skipped ≡ 0 → self.new ≡ with_byte self.old byte }
    {
        *self = if self.skipped > 0 {
            self.passing(byte)
        } else {
            self.reading(byte)
        };
    }

    // The notes after one more byte of a row, or of a line that is passed over for its first byte.
    fn reading(self, byte: u8) -> Self
        ensures { result ≡ with_byte self byte }
    {
        StyleNotes {
            place: next_place(self.marks, self.place, byte),
            has_mark: self.has_mark || ends_mark(self.place, byte),
            ending: self.ending_after(byte),
            quoted: self.quoted_after(byte),
            ..self
        }
    }

    // The notes after one more byte of the lines at the top that are passed over.
    fn passing(self, byte: u8) -> Self {
        let next = self.reading(byte);
        let ends_last = byte == b'\n' && self.follows_cr;
        let left = if ends_line(byte) && !ends_last {
            self.skipped.saturating_sub(1)
        } else {
            self.skipped
        };
        let place = if left == 0 {
            Place::Row
        } else if is_behind_mark(next.place) {
            Place::Comment
        } else {
            next.place
        };
        StyleNotes {
            skipped: left,
            follows_cr: byte == b'\r',
            place,
            quoted: None,
            ..next
        }
    }

    // What is noted of the end of the first line after one more byte.
    fn ending_after(self, byte: u8) -> Ending
        ensures { result ≡ ending_after self.ending self.place byte }
    {
        match self.ending {
            Ending::Open => first_end(self.place, byte),
            Ending::AfterCr => Ending::Ended(if byte == b'\n' {
                LineEnd::CrLf
            } else {
                LineEnd::Lf
            }),
            Ending::Ended(line_end) => Ending::Ended(line_end),
        }
    }

    // Whether each cell of the first row is in quotes after one more byte, where that is known.
    fn quoted_after(self, byte: u8) -> Option<bool>
        ensures { result ≡ quoted_after self.marks self.quoted self.place byte }
    {
        match self.quoted {
            Some(quoted) => Some(quoted),
            None => {
                if ends_quoted(self.place, byte) {
                    Some(true)
                } else if shows_bare(self.marks, self.place, byte) {
                    Some(false)
                } else {
                    None
                }
            }
        }
    }

    // How the first line ends if no byte comes next.
    fn line_end(&self) -> LineEnd
        ensures { result ≡ line_end_with self.now.marks self.now.ending self.now.place [] }
    {
        match self.ending {
            Ending::Open => LineEnd::Lf,
            Ending::AfterCr => LineEnd::Lf,
            Ending::Ended(line_end) => line_end,
        }
    }

    // Which cells are in quotes if no byte comes next.
    fn quotes(&self) -> CellQuotes
        ensures { result ≡ quotes_by (unwrap_or self.now.quoted (is_quoted_at self.now.place)) }
    {
        if self.is_quoted() {
            CellQuotes::Everywhere
        } else {
            CellQuotes::WhereNeeded
        }
    }

    // Whether each cell of the first row is in quotes if no byte comes next.
    fn is_quoted(&self) -> bool
        ensures { result ≡ unwrap_or self.now.quoted (is_quoted_at self.now.place) }
    {
        match self.quoted {
            Some(quoted) => quoted,
            None => is_quoted_at(self.place),
        }
    }
}

// What is noted of the end of a line that went on up to this byte.
fn first_end(place: Place, byte: u8) -> Ending
    ensures { result ≡ ending_after Ending.Open place byte }
{
    if !is_end_at(place, byte) {
        Ending::Open
    } else if byte == b'\r' {
        Ending::AfterCr
    } else {
        Ending::Ended(LineEnd::Lf)
    }
}

// Whether it is known how a line ends.
fn is_ended(ending: Ending) -> bool
    ensures { IsTrue result → (line_end : LineEnd) × (ending ≡ Ending.Ended line_end) }
{
    match ending {
        Ending::Ended(_) => true,
        Ending::Open | Ending::AfterCr => false,
    }
}

// Whether no byte of a byte order mark comes next.
fn is_behind_mark(place: Place) -> bool
    ensures { IsTrue result → (rest : List ℕ) → marked_from place rest ≡ false }
{
    match place {
        Place::Top | Place::FirstOfMark | Place::SecondOfMark => false,
        Place::Row => true,
        Place::Cell => true,
        Place::Bare => true,
        Place::Quoted => true,
        Place::Closed => true,
        Place::Comment => true,
    }
}

// The place after one more byte.
fn next_place(marks: Marks, place: Place, byte: u8) -> Place
    ensures { result ≡ place_next marks place byte }
{
    match place {
        Place::Comment => {
            if ends_line(byte) {
                Place::Row
            } else {
                Place::Comment
            }
        }
        _ => marks.after(place, byte).unwrap_or(Place::Bare),
    }
}

// Whether a byte order mark is whole with a byte.
fn ends_mark(place: Place, byte: u8) -> bool
    ensures { result ≡ ends_mark place byte }
{
    place == Place::SecondOfMark && byte == 0xBF
}

// Whether a line ends with a byte.
fn is_end_at(place: Place, byte: u8) -> bool
    ensures { result ≡ is_end_at place byte }
{
    match place {
        Place::Quoted => false,
        _ => ends_line(byte),
    }
}

// Whether a row ends with a byte whose last cell is in quotes.
fn ends_quoted(place: Place, byte: u8) -> bool
    ensures { result ≡ ends_quoted place byte }
{
    match place {
        Place::Closed => ends_line(byte),
        _ => false,
    }
}

// Whether a text ends at a place behind the closing quote of a cell.
fn is_quoted_at(place: Place) -> bool
    ensures { result ≡ is_quoted_at place }
{
    match place {
        Place::Closed => true,
        _ => false,
    }
}

// Whether a cell of a row is in no quotes, as a byte tells.
fn shows_bare(marks: Marks, place: Place, byte: u8) -> bool
    ensures { result ≡ shows_bare marks place byte }
{
    match place {
        Place::Top => byte != 0xEF && begins_bare(marks, byte),
        Place::FirstOfMark => byte != 0xBB,
        Place::SecondOfMark => byte != 0xBF,
        Place::Row => begins_bare(marks, byte),
        Place::Cell => byte != b'"',
        Place::Bare => true,
        Place::Closed => marks.after(place, byte).is_none(),
        Place::Quoted | Place::Comment => false,
    }
}

// Whether a row begins with a byte whose first cell is in no quotes.
fn begins_bare(marks: Marks, byte: u8) -> bool
    ensures { result ≡ begins_bare marks byte }
{
    !(byte == b'"' || ends_line(byte) || marks.begins_comment(byte))
}
