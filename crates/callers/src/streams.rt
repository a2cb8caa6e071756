//! Callers of `Either` as a reader, a writer, a pointer and a container: each is generic in the trait, or holds one of two that were
//! chosen at run time, and knows as much through an `Either` as it would of the side alone.
ghost use Rattle.std.specs.Prelude.{◌≡◌, Some, IfOk, IfSome, OnOk, option_map, ◌++◌, string_bytes, is_some};
ghost use Rattle.std.specs.Prelude.{MatchResult, List, ℕ};
ghost use Rattle.std.specs.Iterator.{Drains, Yields, IsFinite};
ghost use Rattle.std.specs.Io.Cursor.{cursor_position, cursor_remaining};
ghost use Rattle.std.specs.Io.KnownBytes.{Appends, Consumes};
ghost use Rattle.either_or_both.specs.Places.{MapsPlace};
ghost use Rattle.either_or_both.specs.Either.{left_place, right_place};
ghost use Rattle.either_or_both.specs.EitherStreams.{of_held};

use either_or_both::Either;
use std::alloc::AllocError;
use std::io;
use std::io::{Cursor, Read, Seek, SeekFrom, Write};
use std::ops::{Deref, DerefMut};

/// Fills the buffer from any reader, and knows what it has left.
pub fn fill<R: Read>(reader: &mut R, buf: &mut [u8]) -> io::Result<()>
    ensures { OnOk result (Consumes (R.remaining reader.old) (R.remaining reader.new) buf.new) }
{
    reader.read_exact(buf)
}

/// Fills the buffer from one of two readers, and knows what that one has left.
pub fn fill_from_either(
    reader: &mut Either<&[u8], Cursor<Vec<u8>>>,
    buf: &mut [u8],
) -> io::Result<()>
    ensures { OnOk result (Consumes
        (of_held (λ l. Some l.now) (cursor_remaining (λ v. Some v.items)) reader.old)
        (of_held (λ l. Some l.now) (cursor_remaining (λ v. Some v.items)) reader.new) buf.new) }
{
    fill(reader, buf)
}

/// Writes two texts to any writer.
pub fn write_two<W: Write>(writer: &mut W, first: &[u8], second: &[u8]) -> io::Result<()>
    ensures { OnOk result (Appends
        (W.contents writer.old) (W.contents writer.new) (first.now ++ second.now)) }
{
    writer.write_all(first)?;
    writer.write_all(second)
}

/// Writes two texts to one of two vectors.
pub fn write_two_to_either(
    writer: &mut Either<Vec<u8>, Vec<u8>>,
    first: &[u8],
    second: &[u8],
) -> io::Result<()>
    ensures { OnOk result (of_held (λ l. l.items) (λ r. r.items) writer.new
        ≡ of_held (λ l. l.items) (λ r. r.items) writer.old ++ (first.now ++ second.now)) }
{
    write_two(writer, first, second)
}

/// Goes to a place of one of two cursors.
pub fn go_to(cursor: &mut Either<Cursor<Vec<u8>>, Cursor<Vec<u8>>>, place: u64) -> io::Result<u64>
    ensures { IfOk result (λ n. (n ≡ place) × (of_held cursor_position cursor_position cursor.new ≡ place)) }
{
    cursor.seek(SeekFrom::Start(place))
}

/// Writes a word into one of two texts.
pub fn print_to_either(text: &mut Either<String, String>, word: &str) -> std::fmt::Result
    ensures left { OnOk result (option_map string_bytes (left_place text.new)
        ≡ option_map (λ s. string_bytes s ++ word.now) (left_place text.old)) }
    ensures right { OnOk result (option_map string_bytes (right_place text.new)
        ≡ option_map (λ s. string_bytes s ++ word.now) (right_place text.old)) }
{
    std::fmt::Write::write_str(text, word)
}

/// What any pointer to a number shows.
pub fn shown<P: Deref<Target = u32>>(pointer: &P) -> u32
    ensures { P.deref_gives pointer.now result }
{
    *pointer.deref()
}

/// What one of two boxes shows.
pub fn shown_of_either(pointer: &Either<Box<u32>, Box<u32>>) -> u32
    ensures left { IfSome (left_place pointer.now) (λ l. result ≡ l.value) }
    ensures right { IfSome (right_place pointer.now) (λ r. result ≡ r.value) }
{
    shown(pointer)
}

/// What one of two boxes shows for writing.
pub fn shown_mut(pointer: &mut Either<Box<u32>, Box<u32>>) -> u32
    ensures left { IfSome (left_place pointer.old) (λ l. result ≡ l.value) }
    ensures right { IfSome (right_place pointer.old) (λ r. result ≡ r.value) }
{
    *pointer.deref_mut()
}

/// One of two vectors with the items of any finite source put after it: it keeps its side.
pub fn extended<I: IntoIterator<Item = u8>>(
    pair: &mut Either<Vec<u8>, Vec<u8>>,
    source: I,
) -> Result<(), AllocError>
    requires { (it : I.IntoIter) → I.into_iter_gives source it
        → I.IntoIter.can_next it × IsFinite (I.IntoIter.remaining it) }
    ensures ran { (it : I.IntoIter) × (xs : List ℕ) × I.into_iter_gives source it
        × MatchResult result (λ _. Drains I.IntoIter.next_gives it xs)
        (λ _. (rest : I.IntoIter) × Yields I.IntoIter.next_gives it xs rest)
        × MapsPlace (λ v w. w.items ≡ v.items ++ xs) (left_place pair.old) (left_place pair.new)
        × MapsPlace (λ v w. w.items ≡ v.items ++ xs) (right_place pair.old) (right_place pair.new) }
    ensures variant { is_some (left_place pair.new) ≡ is_some (left_place pair.old) }
{
    pair.extend(source)
}
