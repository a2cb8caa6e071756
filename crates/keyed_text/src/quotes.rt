//! A reader that passes a text on while its quotes are in order: each quote that opens a cell is closed, and the cell ends right after
//! the closing one. The kit's reader of CSV takes any text, so that a quote which is never closed would swallow the rest of a file.
ghost use Rattle.std.specs.Prelude.{◌≡◌, ◌↔◌, IsTrue};
ghost use Rattle.csv.specs.Machine.{is_byte};
ghost use Rattle.keyed_text.specs.Quotes.{cell_place, closed_place, ends_line, place_after, place_behind};
ghost use Rattle.keyed_text.specs.Quotes.{IsOutside, IsQuoteFree, place_behind_plain, plain_place};
ghost use Rattle.keyed_text.specs.Quotes.{row_place, then_place};
ghost use Rattle.keyed_text.specs.declared.quotes.Place.TheVariants.{Closed};

use memchr::memchr;

/// The bytes that a text is parted by: the one between cells, and the one that begins lines which are passed over, if there is one.
#[derive(Clone, Copy, Debug)]
pub struct Marks {
    pub delimiter: u8,
    pub comment: Option<u8>,
}

/// Where a text stands after some of its bytes, as far as quotes go.
#[derive(Clone, Copy, Debug, PartialEq, Eq)]
pub enum Place {
    /// At its beginning, where a byte order mark may stand.
    Top,
    /// After the first byte of what may be a byte order mark.
    FirstOfMark,
    /// After the second one.
    SecondOfMark,
    /// At the beginning of a row.
    Row,
    /// At the beginning of a cell that is not the first of its row.
    Cell,
    /// In a cell that is not quoted, where a quote is a byte like any other.
    Bare,
    /// Between quotes.
    Quoted,
    /// After a quote between quotes: the closing one, or the first of two that stand for one.
    Closed,
    /// In a line that is passed over.
    Comment,
}

impl Marks {
    /// Returns the place after one more byte, or `None` where the byte stands between a closing quote and the end of its cell.
    pub fn after(self, place: Place, byte: u8) -> Option<Place>
        ensures { result ≡ place_after self place byte }
    {
        match place {
            Place::Top => Some(if byte == 0xEF {
                Place::FirstOfMark
            } else {
                self.row(byte)
            }),
            Place::FirstOfMark => Some(if byte == 0xBB {
                Place::SecondOfMark
            } else {
                self.plain(byte)
            }),
            Place::SecondOfMark => Some(if byte == 0xBF {
                Place::Row
            } else {
                self.plain(byte)
            }),
            Place::Row => Some(self.row(byte)),
            Place::Cell => Some(self.cell(byte)),
            Place::Bare => Some(self.plain(byte)),
            Place::Quoted => Some(if byte == b'"' {
                Place::Closed
            } else {
                Place::Quoted
            }),
            Place::Closed => self.closed(byte),
            Place::Comment => Some(if byte == b'\n' {
                Place::Row
            } else {
                Place::Comment
            }),
        }
    }

    /// Returns the place after more bytes, or `None` where one of them stands between a closing quote and the end of its cell.
    ///
    /// Quotes are looked for, so that bytes with no quote among them take next to no time. Where a byte begins lines that are passed over,
    /// each byte is followed.
    pub fn behind(self, place: Place, bytes: &[u8]) -> Option<Place>
        ensures { result ≡ place_behind self place bytes.now }
    {
        if self.comment.is_some() {
            return self.behind_each(place, bytes);
        }
        let mut place = place;
        let mut rest = bytes;
        'quotes: while let Some(at) = memchr(b'"', rest) {
            place = self.behind_quote(place, &rest[..at])?;
            rest = &rest[at + 1..];
        }
        self.behind_run(place, rest)
    }

    // The place after bytes with no quote among them, and after the quote that follows them.
    fn behind_quote(self, place: Place, run: &[u8]) -> Option<Place>
        requires { IsQuoteFree run.now }
        ensures { result ≡ then_place (place_behind self place run.now) (λ place. place_after self place 34) }
    {
        let place = self.behind_run(place, run)?;
        self.after(place, b'"')
    }

    // The place after bytes with no quote among them.
    fn behind_run(self, place: Place, run: &[u8]) -> Option<Place>
        requires { IsQuoteFree run.now }
        ensures { result ≡ place_behind self place run.now }
    {
        match place {
            Place::Quoted => Some(Place::Quoted),
            Place::Closed => self.behind_closed(run),
            _ => self.behind_other(place, run),
        }
    }

    // The place after bytes with no quote among them, the first of which follows a closing quote.
    fn behind_closed(self, run: &[u8]) -> Option<Place>
        requires { IsQuoteFree run.now }
        ensures { result ≡ place_behind self Closed run.now }
    {
        match run.split_first() {
            Some((first, rest)) => {
                let place = self.closed(*first)?;
                self.behind_other(place, rest)
            }
            None => Some(Place::Closed),
        }
    }

    // The place after bytes with no quote among them: at once from outside of quotes, and else one by one.
    fn behind_other(self, place: Place, run: &[u8]) -> Option<Place>
        requires { IsQuoteFree run.now }
        ensures { result ≡ place_behind self place run.now }
    {
        if self.is_outside(place) {
            Some(self.behind_plain(place, run))
        } else {
            self.behind_each(place, run)
        }
    }

    // Whether bytes without quotes lead to a place that the last of them decides.
    fn is_outside(self, place: Place) -> bool
        ensures { IsTrue result ↔ IsOutside self place }
    {
        match place {
            Place::Row | Place::Cell | Place::Bare => self.comment.is_none(),
            _ => false,
        }
    }

    // The place after bytes with no quote among them.
    fn behind_plain(self, place: Place, bytes: &[u8]) -> Place
        ensures { result ≡ place_behind_plain self place bytes.now }
    {
        match bytes.last() {
            Some(byte) => self.plain(*byte),
            None => place,
        }
    }

    // The place after more bytes, one by one.
    fn behind_each(self, place: Place, bytes: &[u8]) -> Option<Place>
        ensures { result ≡ place_behind self place bytes.now }
    {
        let mut place = place;
        for byte in bytes {
            place = self.after(place, *byte)?;
        }
        Some(place)
    }

    // The place after the first byte of a row.
    fn row(self, byte: u8) -> Place
        ensures { result ≡ row_place self byte }
    {
        if self.begins_comment(byte) {
            Place::Comment
        } else {
            self.cell(byte)
        }
    }

    // Whether a byte at the beginning of a row begins a line that is passed over.
    pub(crate) fn begins_comment(self, byte: u8) -> bool
        ensures { result ≡ is_byte self.comment byte }
    {
        self.comment == Some(byte)
    }

    // The place after the first byte of a cell.
    fn cell(self, byte: u8) -> Place
        ensures { result ≡ cell_place self byte }
    {
        if byte == b'"' {
            Place::Quoted
        } else {
            self.plain(byte)
        }
    }

    // The place after a byte of a cell that is not quoted.
    fn plain(self, byte: u8) -> Place
        ensures { result ≡ plain_place self byte }
    {
        if byte == self.delimiter {
            Place::Cell
        } else if ends_line(byte) {
            Place::Row
        } else {
            Place::Bare
        }
    }

    // The place after a byte that follows a quote between quotes.
    fn closed(self, byte: u8) -> Option<Place>
        ensures { result ≡ closed_place self byte }
    {
        if byte == b'"' {
            Some(Place::Quoted)
        } else if byte == self.delimiter {
            Some(Place::Cell)
        } else if ends_line(byte) {
            Some(Place::Row)
        } else {
            None
        }
    }
}

// Whether a byte ends a line.
pub(crate) fn ends_line(byte: u8) -> bool
    ensures { result ≡ ends_line byte }
{
    byte == b'\r' || byte == b'\n'
}
