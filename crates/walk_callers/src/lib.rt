//! Callers of the run over lines: texts that are known when a program is written, with what a run over each writes, to the byte.
#![tactic(auto)]

ghost use Rattle.std.specs.Prelude.{◌≡◌, ◌≢◌, codes, false, true};
ghost use Rattle.line_runs.specs.Lines.{lines};
ghost use Rattle.line_runs.specs.Texts.{AnswersLines};
ghost use Rattle.walk_lines.specs.Texts.{LineAnswer};

use std::alloc::Allocator;
use walk_lines::laws::{law_bad_answer, law_said_answer};
use walk_lines::{Outcome, run};

/// How a run over a text ended, and what it wrote.
#[derive(Drop)]
pub struct Ran<A: Allocator> {
    /// How it ended.
    pub outcome: Outcome,
    /// What it wrote.
    pub written: Vec<u8, A>,
}

/// Answers a text. Where memory is refused the outcome says so.
pub fn run_text<A: Allocator + Copy>(alloc: A, text: &[u8]) -> Ran<A>
    ensures done { result.outcome ≡ Outcome.Done
        → AnswersLines LineAnswer 0 (lines text.now) result.written.items false }
    ensures bad_line { result.outcome ≡ Outcome.BadLine
        → AnswersLines LineAnswer 0 (lines text.now) result.written.items true }
{
    let mut reader = text;
    let mut written = Vec::new(alloc);
    let outcome = run(alloc, &mut reader, &mut written);
    Ran { outcome, written }
}

/// The names on both sides of three items, collected.
pub fn collected_names<A: Allocator + Copy>(alloc: A) -> Ran<A>
    ensures written { result.outcome ≡ Outcome.Done
        → result.written.items ≡ codes "Both [a b] [c d]\n" }
    ensures good { result.outcome ≢ Outcome.BadLine }
{
    law_said_answer();
    run_text(alloc, b"collect l:a b:b:c r:d\n")
}

/// A walk over both sides, and calls of its ends: the second line has no line end of its own.
pub fn walked_names<A: Allocator + Copy>(alloc: A) -> Ran<A>
    ensures written { result.outcome ≡ Outcome.Done
        → result.written.items ≡ codes "b:a:b l:c\nl:c b:a:b . left 0\n" }
    ensures good { result.outcome ≢ Outcome.BadLine }
{
    law_said_answer();
    run_text(alloc, b"walk r:b l:a l:c\nends bfb r:b l:a l:c")
}

/// A test of a normal form, and a line without a command, which is bad.
pub fn bad_second_line<A: Allocator + Copy>(alloc: A) -> Ran<A>
    ensures written { result.outcome ≡ Outcome.BadLine
        → result.written.items ≡ codes "yes\nline 2: bad\nno\n" }
    ensures bad { result.outcome ≢ Outcome.Done }
{
    law_said_answer();
    law_bad_answer();
    run_text(alloc, b"normal b:a:b l:c\n \nnormal l:c b:a:b\n")
}
