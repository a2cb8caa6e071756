//! What a run asks of those who answer its lines.
ghost use Rattle.std.specs.Prelude.{◌≡◌, ◌++◌, ◌∷◌, [], ℕ, List, Bool, IfOk};
ghost use Rattle.line_words.specs.Growth.{Extends};

use std::alloc::{AllocError, Allocator};

/// Answers lines, each by itself.
pub trait Answerer {
    // What a line with a number may be answered, without the byte that ends the answer, and whether the line is bad.
    ghost answers: { ℕ → List ℕ → List ℕ → Bool → Type 0 };

    /// Appends the answer to a line, with the byte that ends it, and returns whether the line is bad.
    ///
    /// # Errors
    ///
    /// Returns `AllocError` if a request for memory was refused. What was appended until then stays.
    fn append_answer<A: Allocator + Copy>(
        &self,
        alloc: A,
        output: &mut Vec<u8, A>,
        line: &[u8],
        number: u64,
    ) -> Result<bool, AllocError>
        ensures grown { Extends output.old.items output.new.items }
        ensures answer { IfOk result (λ bad. (text : List ℕ) × answers number line.now text bad
            × (output.new.items ≡ output.old.items ++ text ++ 10 ∷ [])) };
}
