//! The run over a reader and a writer whose lines are commands.
ghost use Rattle.std.specs.Prelude.{◌≡◌, true, false};
ghost use Rattle.std.specs.Io.KnownBytes.{IsAtEnd};
ghost use Rattle.line_runs.specs.Session.{AnswersBeginning, AnswersFirstLines, AnswersText};
ghost use Rattle.walk_lines.specs.Texts.{LineAnswer};

use crate::answer::append_line;
use line_runs::{Answerer, Outcome};
use std::alloc::{AllocError, Allocator};
use std::io::{Read, Write};

// Answers a line by the call of the library that it names.
#[derive(Drop)]
struct Commands;

impl Answerer for Commands {
    ghost answers = { LineAnswer };

    fn append_answer<A: Allocator + Copy>(
        &self,
        alloc: A,
        output: &mut Vec<u8, A>,
        line: &[u8],
        number: u64,
    ) -> Result<bool, AllocError> {
        append_line(alloc, output, line, number)
    }
}

/// Answers each line of the reader on the writer, before it asks the reader for more, and flushes the writer at the end of the
/// input. Any error of a stream ends it, an interruption too, and so does a refused request for memory.
pub fn run<A: Allocator + Copy, R: Read, W: Write>(
    alloc: A,
    reader: &mut R,
    writer: &mut W,
) -> Outcome
    ensures done { result ≡ Outcome.Done → IsAtEnd (R.remaining reader.new) }
    ensures bad_line { result ≡ Outcome.BadLine → IsAtEnd (R.remaining reader.new) }
    ensures answers { result ≡ Outcome.Done → AnswersText LineAnswer (R.remaining reader.old)
        (W.contents writer.old) (W.contents writer.new) false }
    ensures bad_answers { result ≡ Outcome.BadLine → AnswersText LineAnswer (R.remaining reader.old)
        (W.contents writer.old) (W.contents writer.new) true }
    ensures no_memory { result ≡ Outcome.NoMemory → AnswersFirstLines LineAnswer
        (R.remaining reader.old) (W.contents writer.old) (W.contents writer.new) }
    ensures io { result ≡ Outcome.Io → AnswersBeginning LineAnswer (R.remaining reader.old)
        (W.contents writer.old) (W.contents writer.new) }
{
    line_runs::run(alloc, Commands, reader, writer)
}
