//! The order in which the rows of a command come out.
ghost use Rattle.std.specs.Prelude.{◌≡◌, IfOk, is_none};
ghost use Rattle.keyed_tables.specs.Arranged.{noted};
ghost use Rattle.keyed_jobs.specs.ComeOut.{AlikeByKey, ComesOut};

use crate::job::Job;
use crate::row_order::{Grouped, RowOrder};
use keyed_rows::Key;
use std::alloc::{AllocError, Global};

impl<C> Job<'_, C> {
    /// Rows that are in the order of their keys, put into the order in which they come out, and so the rows of their groups.
    ///
    /// # Errors
    ///
    /// Returns `AllocError` if a request for memory was refused.
    pub fn arrange<V: Grouped + Drop>(
        &self,
        rows: Vec<(Key, V)>,
    ) -> Result<Vec<(Key, V)>, AllocError>
        ensures { IfOk result (λ shown. ComesOut (noted self.now.order) (is_none self.now.row_order.files)
            V.alike rows.items shown.items) }
    {
        let rows = self.order.arrange(rows)?;
        if self.row_order.is_by_cells() {
            Ok(rows)
        } else {
            Ok(with_groups_in_order(self.alloc, &self.row_order, rows)?)
        }
    }
}

// Rows with the rows of each group in the order of the files.
fn with_groups_in_order<V: Grouped + Drop>(
    alloc: Global,
    order: &RowOrder,
    rows: Vec<(Key, V)>,
) -> Result<Vec<(Key, V)>, AllocError>
    ensures { IfOk result (λ arranged. AlikeByKey V.alike rows.items arranged.items) }
{
    let mut arranged = Vec::new(alloc);
    for row in rows {
        arranged.push(with_group_in_order(alloc, order, row)?)?;
    }
    Ok(arranged)
}

// A row with those of its group in the order of the files.
fn with_group_in_order<V: Grouped + Drop>(
    alloc: Global,
    order: &RowOrder,
    row: (Key, V),
) -> Result<(Key, V), AllocError>
    ensures key { IfOk result (λ arranged. row.0 ≡ arranged.0) }
    ensures group { IfOk result (λ arranged. V.alike row.1 arranged.1) }
{
    let (key, group) = row;
    let group = group.in_order(alloc, order, &key)?;
    Ok((key, group))
}
