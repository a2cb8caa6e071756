//! Three versions of a table: joined, judged and merged.

use crate::read::{Wrong, rising, shown, table, three};
use eob_joins::{Verdict, join_versions, judge, merge_version_maps, merge_versions};
use std::alloc::Global;
use std::collections::BTreeMap;

/// What a call on three versions of a table returns.
pub fn returned(alloc: Global, call: &str, tables: &str) -> Result<String, Wrong> {
    let (base, ours, theirs) = three(tables)?;
    if call == "merge_version_maps" {
        return merged_maps(alloc, base, ours, theirs);
    }
    let base = rising::<u32>(alloc, base)?;
    let ours = rising(alloc, ours)?;
    let theirs = rising(alloc, theirs)?;
    match call {
        "join_versions" => shown(alloc, &join_versions(alloc, base, ours, theirs)?),
        "merge_versions" => shown(alloc, &merge_versions(alloc, base, ours, theirs)?),
        _ => {
            let mut verdicts: Vec<(u32, Verdict)> = Vec::new(alloc);
            for (key, row) in join_versions(alloc, base, ours, theirs)? {
                verdicts.push((key, judge(&row)))?;
            }
            shown(alloc, &verdicts)
        }
    }
}

fn map(alloc: Global, text: &str) -> Result<BTreeMap<u32, u32>, Wrong> {
    Ok(table(alloc, text)?.into_iter().collect(alloc)?)
}

fn merged_maps(alloc: Global, base: &str, ours: &str, theirs: &str) -> Result<String, Wrong> {
    let base = map(alloc, base)?;
    let ours = map(alloc, ours)?;
    let theirs = map(alloc, theirs)?;
    shown(alloc, &merge_version_maps(alloc, base, ours, theirs)?)
}
