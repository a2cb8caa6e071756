//! What a program knows of changes of the key and one column alone, of tables that it knows when it is written.
ghost use Rattle.std.specs.Prelude.{◌≡◌, ◌∷◌, [], IfOk, codes};
ghost use Rattle.command_callers.specs.Answered.{IsTableInStyle, plainly};

use crate::PLAIN;
use keyed_commands::{
    Answer, Comparing, Direction, Fault, Format, Picked, Stream, View, apply, diff,
};
use std::alloc::Global;

/// Returns the changes of one column between two tables of which another one is another too, with status 1.
///
/// # Errors
///
/// Returns the errors of `diff`.
pub fn changed_column(alloc: Global) -> Result<Answer, Fault<'static>>
    ensures status { IfOk result (λ answer. answer.status ≡ 1) }
    ensures bytes { IfOk result (λ answer. answer.bytes.items ≡ codes "change,id,a\n-,1,x\n+,1,y\n") }
{
    let only_a = Comparing {
        format: Format::Csv,
        view: View {
            columns: Picked::Only("a"),
            ..View::WHOLE
        },
        sameness: None,
    };
    let old = file!("old.csv", b"id,b,a\n1,u,x\n");
    let new = file!("new.csv", b"id,b,a\n1,v,y\n");
    diff(alloc, PLAIN, only_a, old, new)
}

/// Returns a table with these changes made to it, whose other column stays as it is.
///
/// # Errors
///
/// Returns the errors of `apply`.
pub fn applied_column(alloc: Global) -> Result<Answer, Fault<'static>>
    ensures { IfOk result (IsTableInStyle
        ((codes "id" ∷ codes "b" ∷ codes "a" ∷ []) ∷ (codes "1" ∷ codes "u" ∷ codes "y" ∷ []) ∷ [])
        plainly (codes "id,b,a\n1,u,y\n")) }
{
    let old = file!("old.csv", b"id,b,a\n1,u,x\n");
    let changes = file!("changes.csv", b"change,id,a\n-,1,x\n+,1,y\n");
    apply(alloc, PLAIN, Direction::Forward, old, changes)
}
