//! The rows of a full outer join that a function keeps, item by item, so that a refused request for memory is never passed over.
ghost use Rattle.std.specs.Prelude.{◌≡◌, IfOk, Option, option_map, true};
ghost use Rattle.std.specs.Iterator.{ActsAs, IsFinite};
ghost use Rattle.std.specs.Iterator.Runs.{EachRunFrom, WholeRun};
ghost use Rattle.eob_lists.specs.Join.{IsJoin, Rising};
ghost use Rattle.eob_both.specs.declared.either_or_both.EitherOrBoth.{EitherOrBoth};
ghost use Rattle.eob_joins.specs.Tables.{IsKeptOfJoin};

use eob_lists::EitherOrBoth;
use eob_lists::join::{OuterJoin, outer_join_lazily};
use std::alloc::{AllocError, Allocator};
use std::vec::IntoIter;

/// Returns what a function makes of the rows of the join of two lists, where it makes something of them. Whatever it is called on, the
/// function answers a row of the same key or nothing, as some other function of the row's value says.
pub(crate) fn kept_rows<K: Ord + Drop, A: Drop, B: Drop, W: Drop, F, M: Allocator>(
    alloc: M,
    left: Vec<(K, A), M>,
    right: Vec<(K, B), M>,
    keep: F,
) -> Result<Vec<(K, W), M>, AllocError>
where
    F: FnMut((K, EitherOrBoth<A, B>)) -> Option<(K, W)> + Drop,
    requires left { Rising K.cmp left.items }
    requires right { Rising K.cmp right.items }
    requires callable { (f : F) (row : K × EitherOrBoth A B) → F.pre f row }
    ensures { IfOk result (λ rows. (kept : EitherOrBoth A B → Option W)
        → ActsAs F.FnMut keep (λ row. option_map (λ w. (row.0, w)) (kept row.1))
        → IsKeptOfJoin K.cmp kept left.items right.items rows.items) }
{
    let rows = push_all(alloc, join_of(left, right).filter_map(keep))?;
    Ok(rows)
}

// The lazy join of two lists.
type Join<K, A, B, M> = OuterJoin<IntoIter<(K, A), M>, IntoIter<(K, B), M>>;

fn join_of<K: Ord + Drop, A: Drop, B: Drop, M: Allocator>(
    left: Vec<(K, A), M>,
    right: Vec<(K, B), M>,
) -> Join<K, A, B, M>
    requires left { Rising K.cmp left.items }
    requires right { Rising K.cmp right.items }
    ensures can { ⟦<Join<K, A, B, M> as Iterator>⟧.can_next result }
    ensures finite { IsFinite (⟦<Join<K, A, B, M> as Iterator>⟧.remaining result) }
    ensures rows { EachRunFrom ⟦<Join<K, A, B, M> as Iterator>⟧.next_gives result
        (λ run. run.whole ≡ true → IsJoin K.cmp left.items right.items run.items) }
{
    outer_join_lazily(left, right)
}

/// Returns the items of an iterator as a vector. Where `collect` asks for memory by the hint, and goes on where that is refused, this pushes each
/// item and stops at the first refused request.
pub(crate) fn push_all<I: Iterator, M: Allocator>(
    alloc: M,
    items: I,
) -> Result<Vec<I::Item, M>, AllocError>
where
    I::Item: Drop,
    requires can { I.can_next items }
    requires finite { IsFinite (I.remaining items) }
    ensures { IfOk result (λ list. WholeRun I.next_gives items (λ p. list.items ≡ p.items)) }
{
    let mut list = Vec::new(alloc);
    for item in items {
        list.push(item)?;
    }
    Ok(list)
}
