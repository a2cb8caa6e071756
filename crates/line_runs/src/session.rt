//! The run over a reader and a writer: streams, lines, and how it ends.
//!
//! Each complete line is answered before the reader is asked for more, and the answers of one read are written together. Lines
//! are answered where they stand in the buffer that was read, and only the bytes after the last of them are kept: so memory follows
//! the longest line and its answer, and not the input.
ghost use Rattle.std.specs.Prelude.{◌≡◌, ◌≤◌, ◌<◌, ◌+◌, ◌-◌, ◌^◌, ◌++◌, ◌∷◌, ◌↔◌, ℕ, List, min, true, false, IfOk, IfSome, [], MatchOption, OnOk, OnErr, IfErr, IsFalse, take, length, vec_len};
ghost use Rattle.std.specs.Io.KnownBytes.{Appends, IsAtEnd};
ghost use Rattle.line_words.specs.Growth.{Extends};
ghost use Rattle.line_runs.specs.Lines.{lines};
ghost use Rattle.line_runs.specs.Session.{AddsAnswer, AnswersAhead, AnswersBeginning, AnswersFirst};
ghost use Rattle.line_runs.specs.Session.{AnswersFirstLines, AnswersText, HasNoEnd, PutSome, Stopped};
ghost use Rattle.line_runs.specs.Session.{StopsAmid, StopsAtEnd, Taken};
ghost use Rattle.line_runs.specs.Texts.{AnswersLines};

use crate::answerer::Answerer;
use std::alloc::{AllocError, Allocator};
use std::io;
use std::io::{Read, Write};

// The bytes that the reader is asked for at a time.
const READ_SIZE: usize = 65536;

// The bytes that are searched for the end of a line at a time.
const BLOCK_SIZE: usize = 16;

/// How a run ended.
#[derive(Debug, Clone, Copy, PartialEq, Eq)]
pub enum Outcome {
    /// The input ended, and no line was bad.
    Done,
    /// The input ended, and some line was bad.
    BadLine,
    /// A request for memory was refused.
    NoMemory,
    /// A read, a write or the last flush failed, or the reader was asked as often as it may be and its input had not ended.
    Io,
}

impl Outcome {
    /// The status that the program ends with.
    pub fn status(&self) -> u8
        ensures done { self.now ≡ Outcome.Done → result ≡ 0 }
        ensures bad_line { self.now ≡ Outcome.BadLine → result ≡ 2 }
        ensures no_memory { self.now ≡ Outcome.NoMemory → result ≡ 3 }
        ensures io { self.now ≡ Outcome.Io → result ≡ 4 }
    {
        match self {
            Outcome::Done => 0,
            Outcome::BadLine => 2,
            Outcome::NoMemory => 3,
            Outcome::Io => 4,
        }
    }
}

/// Answers each line of the reader on the writer, before it asks the reader for more, and flushes the writer at the end of the
/// input. Any error of a stream ends it, an interruption too, and so does a refused request for memory.
pub fn run<A: Allocator + Copy, N: Answerer + Drop, R: Read, W: Write>(
    alloc: A,
    answerer: N,
    reader: &mut R,
    writer: &mut W,
) -> Outcome
    ensures done { result ≡ Outcome.Done → IsAtEnd (R.remaining reader.new) }
    ensures bad_line { result ≡ Outcome.BadLine → IsAtEnd (R.remaining reader.new) }
    ensures answers { result ≡ Outcome.Done → AnswersText N.answers (R.remaining reader.old)
        (W.contents writer.old) (W.contents writer.new) false }
    ensures bad_answers { result ≡ Outcome.BadLine → AnswersText N.answers (R.remaining reader.old)
        (W.contents writer.old) (W.contents writer.new) true }
    ensures no_memory { result ≡ Outcome.NoMemory → AnswersFirstLines N.answers
        (R.remaining reader.old) (W.contents writer.old) (W.contents writer.new) }
    ensures io { result ≡ Outcome.Io → AnswersBeginning N.answers (R.remaining reader.old)
        (W.contents writer.old) (W.contents writer.new) }
{
    let mut session = Session::new(alloc, answerer);
    match session.answer_all(reader, writer) {
        Ok(()) if session.answers.any_bad => Outcome::BadLine,
        Ok(()) => Outcome::Done,
        Err(Stop::NoMemory) => Outcome::NoMemory,
        Err(Stop::Io) => Outcome::Io,
    }
}

// Why a run stops before the end of its input.
#[derive(Drop)]
enum Stop {
    NoMemory,
    Io,
}

impl From<AllocError> for Stop {
    ghost use Rattle.line_runs.specs.declared.session.Stop.TheVariants.{NoMemory};

    ghost from_gives = { λ _ stop. stop ≡ NoMemory };

    fn from(_refused: AllocError) -> Self {
        Stop::NoMemory
    }
}

impl From<io::Error> for Stop {
    ghost use Rattle.line_runs.specs.declared.session.Stop.TheVariants.{Io};

    ghost from_gives = { λ _ stop. stop ≡ Io };

    fn from(_failed: io::Error) -> Self {
        Stop::Io
    }
}

// The answers that are not written yet, each whole, and what there is to know of the lines so far.
#[derive(Drop)]
struct Answers<N: Drop, A: Allocator + Copy> {
    answerer: N,
    alloc: A,
    unwritten: Vec<u8, A>,
    lines: u64,
    any_bad: bool,
}

impl<N: Answerer + Drop, A: Allocator + Copy> Answers<N, A> {
    // Answers a line. Where memory is refused on the way, what stands of its answer is cut off.
    #[tactic(auto, using(line_words::proofs::GrowthLemmas::take_extended))]
    fn add(&mut self, line: &[u8]) -> Result<(), AllocError>
        ensures grown { Extends self.old.unwritten.items self.new.unwritten.items }
        ensures cut_off { OnErr result (self.new.unwritten.items ≡ self.old.unwritten.items) }
        ensures number { self.new.lines ≡ min (self.old.lines + 1) (2 ^ 64 - 1) }
        ensures answer { OnOk result (AddsAnswer N.answers line.now self.old.unwritten.items self.new.unwritten.items
            self.new.lines self.old.any_bad self.new.any_bad) }
    {
        let whole = self.unwritten.len();
        self.lines = self.lines.saturating_add(1);
        let added = self
            .answerer
            .append_answer(self.alloc, &mut self.unwritten, line, self.lines);
        match added {
            Ok(bad) => {
                self.any_bad = self.any_bad || bad;
                Ok(())
            }
            Err(refused) => {
                self.unwritten.truncate(whole);
                Err(refused)
            }
        }
    }
}

// A run between two reads.
#[derive(Drop)]
struct Session<N: Drop, A: Allocator + Copy> {
    unfinished: Vec<u8, A>,
    answers: Answers<N, A>,
}

impl<N: Answerer + Drop, A: Allocator + Copy> Session<N, A> {
    fn new(alloc: A, answerer: N) -> Self
        ensures taken { Taken N.answers [] [] result }
        ensures none_left { result.answers.unwritten.items ≡ [] }
    {
        Session {
            unfinished: Vec::new(alloc),
            answers: Answers {
                answerer,
                alloc,
                unwritten: Vec::new(alloc),
                lines: 0,
                any_bad: false,
            },
        }
    }

    // Answers all lines of the input. The number of reads is bounded, since nothing says that an input ends.
    fn answer_all<R: Read, W: Write>(&mut self, reader: &mut R, writer: &mut W) -> Result<(), Stop>
        requires taken { Taken N.answers [] [] self.old }
        requires none_left { self.old.answers.unwritten.items ≡ [] }
        ensures end { OnOk result (IsAtEnd (R.remaining reader.new)) }
        ensures answers { OnOk result (AnswersText N.answers (R.remaining reader.old) (W.contents writer.old)
            (W.contents writer.new) self.new.answers.any_bad) }
        ensures stopped { IfErr result (λ stop. IfSome (R.remaining reader.old) (λ text.
            Stopped (W.contents writer.old) (W.contents writer.new) (AnswersFirst N.answers text) stop)) }
    {
        let mut memory = read_memory(self.answers.alloc)?;
        let buffer = memory.as_mut_slice();
        for _ in 0..u64::MAX {
            let count = reader.read(buffer)?;
            if count == 0 {
                self.end(writer)?;
                return Ok(());
            }
            self.answer_bytes(&buffer[..count], writer)?;
        }
        Err(Stop::Io)
    }

    // Answers each line that the bytes complete.
    fn answer_bytes<W: Write>(&mut self, bytes: &[u8], writer: &mut W) -> Result<(), Stop>
        ensures none_left { OnOk result (self.new.answers.unwritten.items ≡ []) }
        ensures stopped { IfErr result (λ stop. StopsAmid N.answers self.old bytes.now
            (W.contents writer.old) (W.contents writer.new) stop) }
        ensures taken { OnOk result ((given written : List ℕ) → Taken N.answers given written self.old
            → (more : List ℕ) × Appends (W.contents writer.old) (W.contents writer.new) more
            × Taken N.answers (given ++ bytes.now) (written ++ more) self.new) }
    {
        let taken = self.take_bytes(bytes);
        // The answers written are those before the line that memory was refused for, so a failed write of them comes first.
        self.write_answers(writer)?;
        taken?;
        Ok(())
    }

    // Answers each line that the bytes complete, and keeps the bytes after the last of them.
    fn take_bytes(&mut self, bytes: &[u8]) -> Result<(), AllocError>
        ensures ahead { (given written : List ℕ) → Taken N.answers given written self.old
            → AnswersAhead N.answers (given ++ bytes.now) written self.new.answers.unwritten.items }
        ensures taken { OnOk result ((given written : List ℕ) → Taken N.answers given written self.old
            → Taken N.answers (given ++ bytes.now) written self.new) }
    {
        let mut rest = bytes;
        while let Some((line, after)) = split_line(rest) {
            self.take_line(line)?;
            rest = after;
        }
        self.unfinished.extend_from_slice(rest)?;
        Ok(())
    }

    // Answers the line that these bytes end.
    fn take_line(&mut self, line: &[u8]) -> Result<(), AllocError>
        ensures refused { OnErr result (self.new.answers.unwritten.items ≡ self.old.answers.unwritten.items) }
        ensures taken { OnOk result ((given written : List ℕ) → HasNoEnd line.now
            → Taken N.answers given written self.old → Taken N.answers (given ++ line.now ++ 10 ∷ []) written self.new) }
    {
        if self.unfinished.is_empty() {
            self.answers.add(line)?;
            return Ok(());
        }
        self.unfinished.extend_from_slice(line)?;
        self.answers.add(&self.unfinished)?;
        self.unfinished.clear();
        Ok(())
    }

    // Writes the answers that are not written yet. After an error some of them are written.
    fn write_answers<W: Write>(&mut self, writer: &mut W) -> Result<(), Stop>
        ensures written { OnOk result
            (Appends (W.contents writer.old) (W.contents writer.new) self.old.answers.unwritten.items) }
        ensures none_left { OnOk result (self.new.answers.unwritten.items ≡ []) }
        ensures stopped { IfErr result (λ stop. (stop ≡ Stop.Io)
            × PutSome (W.contents writer.old) (W.contents writer.new) self.old.answers.unwritten.items) }
        ensures same { self.new.answers.any_bad ≡ self.old.answers.any_bad }
        ensures taken { OnOk result ((given written : List ℕ) → Taken N.answers given written self.old
            → Taken N.answers given (written ++ self.old.answers.unwritten.items) self.new) }
    {
        write_whole(writer, &self.answers.unwritten)?;
        self.answers.unwritten.clear();
        Ok(())
    }

    // Ends the run with the end of the input: bytes after the last line's end are a line, where there are any.
    fn end<W: Write>(&mut self, writer: &mut W) -> Result<(), Stop>
        requires { self.old.answers.unwritten.items ≡ [] }
        ensures stopped { IfErr result (λ stop. StopsAtEnd N.answers self.old (W.contents writer.old)
            (W.contents writer.new) stop) }
        ensures answers { OnOk result ((given written : List ℕ) → Taken N.answers given written self.old
            → (more : List ℕ) × Appends (W.contents writer.old) (W.contents writer.new) more
            × AnswersLines N.answers 0 (lines given) (written ++ more) self.new.answers.any_bad) }
    {
        self.take_last()?;
        self.write_answers(writer)?;
        writer.flush()?;
        Ok(())
    }

    // Answers the bytes after the last line's end, where there are any.
    fn take_last(&mut self) -> Result<(), AllocError>
        ensures refused { OnErr result (self.new.answers.unwritten.items ≡ self.old.answers.unwritten.items) }
        ensures answers { OnOk result ((given written : List ℕ) → Taken N.answers given written self.old
            → AnswersLines N.answers 0 (lines given) (written ++ self.new.answers.unwritten.items) self.new.answers.any_bad) }
    {
        if self.unfinished.is_empty() {
            return Ok(());
        }
        self.answers.add(&self.unfinished)?;
        Ok(())
    }
}

// The bytes before the first end of a line, and those after it, or None.
fn split_line(bytes: &[u8]) -> Option<(&[u8], &[u8])>
    ensures line { MatchOption result (HasNoEnd bytes.now)
        (λ parts. (bytes.now ≡ parts.0.now ++ 10 ∷ parts.1.now) × HasNoEnd parts.0.now) }
    ensures rest { IfSome result (λ parts. length parts.1.now < length bytes.now) }
{
    let (blocks, others) = bytes.split_at(blocks_len(bytes));
    let (last, rest) = split_line_bytewise(others)?;
    Some((&bytes[..blocks.len() + last.len()], rest))
}

// The same, found byte by byte.
#[inline(always)]
fn split_line_bytewise(bytes: &[u8]) -> Option<(&[u8], &[u8])>
    ensures line { MatchOption result (HasNoEnd bytes.now)
        (λ parts. (bytes.now ≡ parts.0.now ++ 10 ∷ parts.1.now) × HasNoEnd parts.0.now) }
    ensures rest { IfSome result (λ parts. length parts.1.now < length bytes.now) }
{
    let end = bytes.iter().position(|byte| *byte == b'\n')?;
    Some((&bytes[..end], &bytes[end + 1..]))
}

// How many bytes stand in whole blocks before the first block in which a line ends. The bytes of a block are tested at once, so these are
// passed over faster than byte by byte.
fn blocks_len(bytes: &[u8]) -> usize
    ensures within { result ≤ length bytes.now }
    ensures endless { HasNoEnd (take result bytes.now) }
{
    let mut len = 0;
    while bytes.len() - len >= BLOCK_SIZE && !has_line_end(&bytes[len..len + BLOCK_SIZE]) {
        len += BLOCK_SIZE;
    }
    len
}

// Whether a line ends in a block.
#[inline(always)]
fn has_line_end(block: &[u8]) -> bool
    ensures { IsFalse result → HasNoEnd block.now }
{
    let mut found = false;
    for byte in block {
        found |= *byte == b'\n';
    }
    found
}

// The memory that is read into.
fn read_memory<A: Allocator>(alloc: A) -> Result<Vec<u8, A>, AllocError>
    ensures { IfOk result (λ memory. 0 < vec_len memory) }
{
    vec![in alloc; 0; READ_SIZE]
}

// Writes all the bytes. An error ends it, an interruption too, and so does a write that takes none of a rest.
fn write_whole<W: Write>(writer: &mut W, bytes: &[u8]) -> Result<(), Stop>
    ensures written { OnOk result (Appends (W.contents writer.old) (W.contents writer.new) bytes.now) }
    ensures stopped { IfErr result (λ stop. (stop ≡ Stop.Io)
        × PutSome (W.contents writer.old) (W.contents writer.new) bytes.now) }
{
    let mut rest = bytes;
    while !rest.is_empty() {
        let count = writer.write(rest)?;
        if count == 0 {
            return Err(Stop::Io);
        }
        rest = &rest[count..];
    }
    Ok(())
}
