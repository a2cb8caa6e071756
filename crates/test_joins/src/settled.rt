//! Tests of a merge in which a rule of this file settles rows that both sides changed, with each request for memory refused in turn.

ghost use Rattle.std.specs.Prelude.{◌≡◌, ◌&&◌, IfOk, Some, is_some};
ghost use Rattle.std.specs.Ordering.{nat_cmp};
ghost use Rattle.either_or_both.specs.Join.{Rising};
ghost use Rattle.eob_joins.specs.Settled.{Settles};

use either_or_both::EitherOrBoth;
use either_or_both::join::is_rising;
use eob_joins::{Merged, Settle, Versions, merge_versions_with};
use std::alloc::{AllocError, Global};
use std::process::Abort;
use std::test::Fail;
use testkit::memory::{RUNS, Refusing};

// Takes ours of a row that all three versions have.
struct TakesOurs;

impl<V: Drop> Settle<V> for TakesOurs {
    ghost can = { λ rule base ours theirs. is_some base && is_some ours && is_some theirs };

    ghost gives = { λ rule base ours theirs value. ours ≡ Some value };

    fn settle(&self, row: Versions<V>) -> Result<Result<V, Versions<V>>, AllocError>
        ensures { IfOk result (Settles (λ base ours theirs. is_some base && is_some ours && is_some theirs)
            (λ base ours theirs value. ours ≡ Some value) row) }
    {
        match row {
            EitherOrBoth::Left(base) => Ok(Err(EitherOrBoth::Left(base))),
            EitherOrBoth::Both(base, sides) => match sides {
                EitherOrBoth::Left(ours) => {
                    Ok(Err(EitherOrBoth::Both(base, EitherOrBoth::Left(ours))))
                }
                EitherOrBoth::Both(ours, _theirs) => Ok(Ok(ours)),
                EitherOrBoth::Right(theirs) => {
                    Ok(Err(EitherOrBoth::Both(base, EitherOrBoth::Right(theirs))))
                }
            },
            EitherOrBoth::Right(sides) => Ok(Err(EitherOrBoth::Right(sides))),
        }
    }
}

type Memory = Refusing<Global>;

// A version of the table.
fn version<'a>(
    rt: &impl Abort,
    memory: &'a Memory,
    rows: &[(u32, char)],
) -> Result<Vec<(u32, char), &'a Memory>, AllocError>
    ensures { IfOk result (λ table. Rising nat_cmp table.items) }
{
    let table = Vec::from_slice(memory, rows)?;
    assert!(rt; is_rising(&table));
    Ok(table)
}

// The merge by this rule of one row that all have and of one that our side alone has, in a memory that refuses a request.
fn settled<'a>(
    rt: &impl Abort,
    memory: &'a Memory,
    number: u64,
) -> Result<Merged<u32, char, &'a Memory>, AllocError> {
    memory.refuse(0);
    let base = version(rt, memory, &[(1, 'a')])?;
    let ours = version(rt, memory, &[(1, 'b'), (2, 'c')])?;
    let theirs = version(rt, memory, &[(1, 'd')])?;
    memory.refuse(number);
    merge_versions_with(memory, base, ours, theirs, &TakesOurs)
}

// Whether the merge is whole, with these rows.
fn is_settled(merge: &Merged<u32, char, &Memory>) -> bool {
    match merge {
        Merged::Whole(rows) => rows.as_slice() == [(1, 'b'), (2, 'c')].as_slice(),
        Merged::Conflicts(_rows) => false,
    }
}

/// A rule of a caller's own settles rows, and each request for memory that is refused ends the merge.
#[test]
fn rule_settles_rows_or_memory_is_refused(rt: HostRuntime) -> Result<(), Fail> {
    let memory = Refusing::new(rt.alloc());
    for number in 1..RUNS {
        if let Ok(merge) = settled(&rt, &memory, number) {
            assert!(rt; number > 1 && is_settled(&merge));
            return Ok(());
        }
    }
    Err("each run was refused")?;
    Ok(())
}
