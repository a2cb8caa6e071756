//! An [`Either`] of readers as a reader, of seekers as a seeker, and of writers as a writer.
//!
//! Each call acts on the held side alone, keeps the variant and hands the held side's error on unchanged. What `std` provides, such
//! as `read_line` or `write_all`, runs over the calls that are written here.
ghost use Rattle.std.specs.Prelude.{◌≡◌, IfSome, IfOk, IsOk, is_some, length, []};
ghost use Rattle.std.specs.Borrow.{sem};
ghost use Rattle.std.specs.Io.{ReadsAtMost, StartsWith, WritesAtMost};
ghost use Rattle.std.specs.Io.KnownBytes.{Keeps, ReadConsumes, WriteAppends};
ghost use Rattle.std.specs.Io.BufRead.{DropsConsumable, FillKeeps, Rests};
ghost use Rattle.std.specs.Io.Seek.{SeekMoves};
ghost use Rattle.either_or_both.specs.contracts.either.Either.{the_row};
ghost use Rattle.either_or_both.specs.Either.{left_place};
ghost use Rattle.either_or_both.specs.EitherStreams.{of_held, HeldBecomes};

use crate::Either;
use crate::Either::{Left, Right};
use std::{fmt, io};

impl<L: io::Read, R: io::Read> io::Read for Either<L, R> {
    ghost remaining = { of_held L.remaining R.remaining };

    /// Reads from the reader that is present.
    ///
    /// # Errors
    ///
    /// Returns the error of that reader, unchanged.
    ///
    /// # Examples
    ///
    /// ```
    /// let mut reader: Either<&[u8], &[u8]> = Either::Right(b"abc");
    /// let mut bytes = [0; 2];
    /// assert_eq!(rt; reader.read(&mut bytes)?, 2);
    /// assert_eq!(rt; bytes, *b"ab");
    /// ```
    fn read(&mut self, buf: &mut [u8]) -> io::Result<usize>
        ensures bound { ReadsAtMost result buf.new }
        ensures bytes { ReadConsumes (of_held L.remaining R.remaining self.old)
            (of_held L.remaining R.remaining self.new) result buf.new }
        ensures variant { is_some (left_place self.new) ≡ is_some (left_place self.old) }
    {
        match self {
            Left(l) => l.read(buf),
            Right(r) => r.read(buf),
        }
    }
}

impl<L: io::BufRead, R: io::BufRead> io::BufRead for Either<L, R> {
    ghost consumable_len = { of_held L.consumable_len R.consumable_len };

    /// Returns what the reader that is present has in its buffer, which it fills if it is empty.
    ///
    /// # Errors
    ///
    /// Returns the error of that reader, unchanged.
    ///
    /// # Examples
    ///
    /// ```
    /// let mut reader: Either<&[u8], &[u8]> = Either::Right(b"abc");
    /// assert_eq!(rt; reader.fill_buf()?.len(), 3);
    /// ```
    fn fill_buf(&mut self) -> io::Result<&[u8]>
        ensures front { IfSome (of_held L.remaining R.remaining self.old)
            (λ xs. IfOk result (λ s. StartsWith xs s.now)) }
        ensures end { IfSome (of_held L.remaining R.remaining self.old)
            (λ xs. IfOk result (λ s. length s.now ≡ 0 → xs ≡ [])) }
        ensures* after_borrow { sem 𝓛 (Rests (the_row L.row R.row) self.entry (λ new.
            FillKeeps (of_held L.remaining R.remaining self.old) (of_held L.remaining R.remaining new)
            (of_held L.consumable_len R.consumable_len new) result
            × (is_some (left_place new) ≡ is_some (left_place self.old)))) }
    {
        match self {
            Left(l) => l.fill_buf(),
            Right(r) => r.fill_buf(),
        }
    }

    /// Takes `amount` bytes that [`fill_buf`](io::BufRead::fill_buf) showed from the reader that is present.
    ///
    /// # Examples
    ///
    /// ```
    /// let mut reader: Either<&[u8], &[u8]> = Either::Right(b"abc");
    /// let seen = reader.fill_buf()?.len();
    /// reader.consume(seen);
    /// assert_eq!(rt; reader.fill_buf()?.len(), 0);
    /// ```
    fn consume(&mut self, amount: usize)
        ensures bytes { DropsConsumable (of_held L.remaining R.remaining self.old)
            (of_held L.remaining R.remaining self.new)
            (of_held L.consumable_len R.consumable_len self.old) amount }
        ensures variant { is_some (left_place self.new) ≡ is_some (left_place self.old) }
    {
        match self {
            Left(l) => l.consume(amount),
            Right(r) => r.consume(amount),
        }
    }
}

impl<L: io::Seek, R: io::Seek> io::Seek for Either<L, R> {
    ghost stream_position = { of_held L.stream_position R.stream_position };

    ghost stream_bytes = { of_held L.stream_bytes R.stream_bytes };

    /// Moves the position of the stream that is present, and returns the new one.
    ///
    /// # Errors
    ///
    /// Returns the error of that stream, unchanged.
    ///
    /// # Examples
    ///
    /// ```
    /// let mut stream: Either<Cursor<Vec<u8>>, Cursor<Vec<u8>>> = Either::Left(Cursor::new(vec![in alloc; 1, 2, 3]?));
    /// assert_eq!(rt; stream.seek(SeekFrom::Start(2))?, 2);
    /// ```
    fn seek(&mut self, to: io::SeekFrom) -> io::Result<u64>
        ensures moves { SeekMoves (of_held L.stream_position R.stream_position self.old)
            (of_held L.stream_position R.stream_position self.new)
            (of_held L.stream_bytes R.stream_bytes self.old) to result }
        ensures bytes { Keeps (of_held L.stream_bytes R.stream_bytes self.old)
            (of_held L.stream_bytes R.stream_bytes self.new) }
        ensures variant { is_some (left_place self.new) ≡ is_some (left_place self.old) }
    {
        match self {
            Left(l) => l.seek(to),
            Right(r) => r.seek(to),
        }
    }
}

impl<L: io::Write, R: io::Write> io::Write for Either<L, R> {
    ghost contents = { of_held L.contents R.contents };

    /// Writes to the writer that is present, and returns how many bytes it took.
    ///
    /// # Errors
    ///
    /// Returns the error of that writer, unchanged.
    ///
    /// # Examples
    ///
    /// ```
    /// let mut writer: Either<Vec<u8>, Vec<u8>> = Either::Left(Vec::new(alloc));
    /// assert_eq!(rt; writer.write(b"ab")?, 2);
    /// assert_eq!(rt; writer.unwrap_left().as_slice(), b"ab".as_slice());
    /// ```
    fn write(&mut self, buf: &[u8]) -> io::Result<usize>
        ensures bound { WritesAtMost result buf.now }
        ensures bytes { WriteAppends (of_held L.contents R.contents self.old)
            (of_held L.contents R.contents self.new) result buf.now }
        ensures variant { is_some (left_place self.new) ≡ is_some (left_place self.old) }
    {
        match self {
            Left(l) => l.write(buf),
            Right(r) => r.write(buf),
        }
    }

    /// Flushes the writer that is present.
    ///
    /// # Errors
    ///
    /// Returns the error of that writer, unchanged.
    ///
    /// # Examples
    ///
    /// ```
    /// let mut writer: Either<Vec<u8>, Vec<u8>> = Either::Left(Vec::new(alloc));
    /// writer.flush()?;
    /// assert!(rt; writer.is_left());
    /// ```
    fn flush(&mut self) -> io::Result<()>
        ensures bytes { Keeps (of_held L.contents R.contents self.old)
            (of_held L.contents R.contents self.new) }
        ensures variant { is_some (left_place self.new) ≡ is_some (left_place self.old) }
    {
        match self {
            Left(l) => l.flush(),
            Right(r) => r.flush(),
        }
    }
}

impl<L: fmt::Write, R: fmt::Write> fmt::Write for Either<L, R> {
    ghost write_str_gives = { λ v bytes w. HeldBecomes (λ l m. L.write_str_gives l bytes m)
        (λ r s. R.write_str_gives r bytes s) v w };

    /// Writes the text to the writer that is present.
    ///
    /// # Errors
    ///
    /// Returns the error of that writer, unchanged.
    ///
    /// # Examples
    ///
    /// ```
    /// let mut writer: Either<String, String> = Either::Left(String::new(alloc));
    /// fmt::Write::write_str(&mut writer, "ab")?;
    /// assert_eq!(rt; writer.unwrap_left().as_str(), "ab");
    /// ```
    fn write_str(&mut self, s: &str) -> fmt::Result
        ensures ok { IsOk result → HeldBecomes (λ l m. L.write_str_gives l s.now m)
            (λ r n. R.write_str_gives r s.now n) self.old self.new }
        ensures variant { is_some (left_place self.new) ≡ is_some (left_place self.old) }
    {
        match self {
            Left(l) => l.write_str(s),
            Right(r) => r.write_str(s),
        }
    }
}
