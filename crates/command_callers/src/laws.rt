//! Callers of the laws of commands: what a program knows by them of answers to texts that it knows when it is written.
ghost use Rattle.std.specs.Prelude.{◌≡◌, ◌∷◌, [], ℕ, List, IfOk, None, codes};
ghost use Rattle.eob_both.specs.declared.either_or_both.EitherOrBoth.TheVariants.{Left, Both, Right};
ghost use Rattle.keyed_text.specs.Texts.{ReadsAs};
ghost use Rattle.keyed_jobs.specs.declared.answer.Outcome.TheVariants.{Made};
ghost use Rattle.command_callers.specs.Answered.{IsFileOf, IsTableInStyle, SaysOnlyChanges, fully, plainly};

use crate::{CHANGES, PLAIN, WITH_MARKS};
use keyed_commands::{Answer, Direction, Fault, Merging, Stream, apply, diff, merge};
use keyed_laws::{
    law_diff_apply_texts, law_diff_reads, law_diff_says, law_marks, law_one_side, law_text_once,
};
use std::alloc::Global;

/// Returns the changes between two tables: whoever reads their text finds these rows, each after its sign, and no other.
///
/// # Errors
///
/// Returns the errors of `diff`.
pub fn changes_read(alloc: Global) -> Result<Answer, Fault<'static>>
    ensures { IfOk result (λ answer. ReadsAs 44 None answer.bytes.items
        (codes "change" ∷ codes "id" ∷ codes "a" ∷ [])
        ((codes "-" ∷ codes "1" ∷ codes "x" ∷ []) ∷ (codes "+" ∷ codes "1" ∷ codes "z" ∷ [])
        ∷ (codes "-" ∷ codes "2" ∷ codes "y" ∷ []) ∷ (codes "+" ∷ codes "3" ∷ codes "w" ∷ []) ∷ [])) }
{
    let old = file!("old.csv", b"id,a\n1,x\n2,y\n");
    let new = file!("new.csv", b"id,a\n3,w\n1,z\n");
    law_diff_reads();
    diff(alloc, PLAIN, CHANGES, old, new)
}

/// Returns the changes between two tables: whoever reads their text as changes, by the columns of both, finds these, and no others.
///
/// # Errors
///
/// Returns the errors of `diff`.
pub fn changes_said(alloc: Global) -> Result<Answer, Fault<'static>>
    ensures { IfOk result (λ answer. SaysOnlyChanges answer.bytes.items (codes "id" ∷ []) (codes "a" ∷ [])
        ((codes "1" ∷ [], Both ((codes "x" ∷ []) ∷ []) ((codes "z" ∷ []) ∷ []))
        ∷ (codes "2" ∷ [], Left ((codes "y" ∷ []) ∷ []))
        ∷ (codes "3" ∷ [], Right ((codes "w" ∷ []) ∷ [])) ∷ [])) }
{
    let old = file!("old.csv", b"id,a\n1,x\n2,y\n");
    let new = file!("new.csv", b"id,a\n3,w\n1,z\n");
    law_diff_says();
    diff(alloc, PLAIN, CHANGES, old, new)
}

/// Returns the changes between a text and itself: none, with status 0, whatever the rows are under its header.
///
/// # Errors
///
/// Returns the errors of `diff`.
pub fn compared_with_itself<'a>(alloc: Global, text: &'a [u8]) -> Result<Answer, Fault<'a>>
    ensures { IfOk result (λ answer. (rows : List (List (List ℕ)))
        → ReadsAs 44 None text.now (codes "id" ∷ codes "a" ∷ []) rows → answer.status ≡ 0) }
{
    let old = Stream {
        file: "old.csv",
        delimiter: None,
        reader: Ok(text),
    };
    let new = Stream {
        file: "new.csv",
        delimiter: None,
        reader: Ok(text),
    };
    law_text_once();
    diff(alloc, PLAIN, CHANGES, old, new)
}

/// Returns a table with the changes made to it that `diff` wrote between it and another one: the file of the other table, with its rows in
/// the order of their keys.
///
/// # Errors
///
/// Returns the errors of `diff` and of `apply`.
pub fn changes_applied(alloc: Global) -> Result<Answer, Fault<'static>>
    ensures { IfOk result (IsTableInStyle
        ((codes "id" ∷ codes "a" ∷ []) ∷ (codes "1" ∷ codes "z" ∷ []) ∷ (codes "3" ∷ codes "w" ∷ []) ∷ [])
        plainly (codes "id,a\n1,z\n3,w\n")) }
{
    let settings = PLAIN;
    let text = b"id,a\n1,x\n2,y\n".as_slice();
    let old = Stream {
        file: "old.csv",
        delimiter: None,
        reader: Ok(text),
    };
    let new = file!("new.csv", b"id,a\n3,w\n1,z\n");
    let difference = diff(alloc, settings, CHANGES, old, new)?;
    law_diff_apply_texts();
    let table = Stream {
        file: "old.csv",
        delimiter: None,
        reader: Ok(text),
    };
    let changes = Stream {
        file: "changes.csv",
        delimiter: None,
        reader: Ok(difference.bytes.as_slice()),
    };
    apply(alloc, settings, Direction::Forward, table, changes)
}

/// Returns two versions of a table merged over their base, of which ours changed a row, and theirs removed one and added one. Where the
/// answer is a table, each of these changes stands in it.
///
/// # Errors
///
/// Returns the errors of `merge`.
pub fn one_side_each(alloc: Global) -> Result<Answer, Fault<'static>>
    ensures { IfOk result (λ answer. answer.outcome ≡ Made → IsFileOf
        ((codes "id" ∷ codes "a" ∷ []) ∷ (codes "1" ∷ codes "z" ∷ []) ∷ (codes "3" ∷ codes "w" ∷ []) ∷ [])
        answer.bytes.items) }
{
    let base = file!("base.csv", b"id,a\n1,x\n2,y\n");
    let ours = file!("ours.csv", b"id,a\n1,z\n2,y\n");
    let theirs = file!("theirs.csv", b"id,a\n1,x\n3,w\n");
    law_one_side();
    merge(alloc, PLAIN, Merging::PLAIN, base, ours, theirs)
}

/// Returns two versions of a table merged with marks, of which no row is in conflict: the merged table, with no mark, in the style of ours.
///
/// # Errors
///
/// Returns the errors of `merge`.
pub fn merged_with_marks(alloc: Global) -> Result<Answer, Fault<'static>>
    ensures { IfOk result (IsTableInStyle
        ((codes "id" ∷ codes "a" ∷ []) ∷ (codes "1" ∷ codes "y" ∷ []) ∷ (codes "2" ∷ codes "z" ∷ []) ∷ [])
        fully (239 ∷ 187 ∷ 191 ∷ codes "\"id\",\"a\"\r\n\"1\",\"y\"\r\n\"2\",\"z\"\r\n")) }
{
    let base = file!("base.csv", b"id,a\n1,x\n");
    let ours = file!("ours.csv", b"\xef\xbb\xbf\"id\",\"a\"\r\n\"1\",\"y\"\r\n");
    let theirs = file!("theirs.csv", b"id,a\n1,x\n2,z\n");
    law_marks();
    merge(alloc, PLAIN, WITH_MARKS, base, ours, theirs)
}
