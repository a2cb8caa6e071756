//! One reader out of two, chosen at run time and read line by line. No box is made, and what a line was is known of either side.
ghost use Rattle.std.specs.Prelude.{◌≡◌, ◌++◌};
ghost use Rattle.either_or_both.specs.Prelude.{IfSome, OnOk, drop, of_held, option_map, unwrap_or};
ghost use Rattle.std.specs.Io.BufRead.{take_through};
ghost use Rattle.std.specs.Io.Cursor.{cursor_inner, cursor_position};
ghost use Rattle.either_or_both.specs.Either.{left_place, right_place};

use either_or_both::Either;
use std::io;
use std::io::{BufRead, Cursor};

/// What is stored where there is some, else what is given.
pub fn opened(stored: Option<Vec<u8>>, given: &[u8]) -> Either<&[u8], Cursor<Vec<u8>>>
    ensures { of_held (λ l. l.now) (λ r. drop (cursor_position r) (cursor_inner r).items) result
        ≡ unwrap_or (option_map (λ v. v.items) stored) given.now }
{
    match stored {
        Some(bytes) => Either::Right(Cursor::new(bytes)),
        None => Either::Left(given),
    }
}

/// Puts the next line after what stands in `line`, up to and with its end, and returns how many bytes it has: 0 at the end.
pub fn next_line(
    reader: &mut Either<&[u8], Cursor<Vec<u8>>>,
    line: &mut Vec<u8>,
) -> io::Result<usize>
    ensures left { OnOk result (IfSome (left_place reader.old)
        (λ l. line.new.items ≡ line.old.items ++ take_through 10 l.now)) }
    ensures right { OnOk result (IfSome (right_place reader.old)
        (λ r. line.new.items
        ≡ line.old.items ++ take_through 10 (drop (cursor_position r) (cursor_inner r).items))) }
{
    reader.read_until(10, line)
}
