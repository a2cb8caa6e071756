//! Joins of maps, and of lists whose keys repeat, with each request for memory refused in turn.

use super::{Memory, Run, Table, check};
use eob_joins::{
    Layered, Merged, group_join_unordered, lookup_join, merge_version_maps, outer_join_hash_maps,
    outer_join_index_maps, overlay_index_maps, overlay_maps,
};
use indexmap::IndexMap;
use std::alloc::AllocError;
use std::collections::{BTreeMap, HashMap};
use std::hash::{BuildHasherDefault, FoldHasher};
use std::rc::Rc;
use std::test::Fail;

type Hasher = BuildHasherDefault<FoldHasher>;

// Each of six keys four times.
const REPEATED: [u32; 24] = [
    0, 1, 2, 3, 4, 5, 0, 1, 2, 3, 4, 5, 0, 1, 2, 3, 4, 5, 0, 1, 2, 3, 4, 5,
];

impl<'a> Run<'a> {
    // Each key with each of these tokens.
    fn tokened(&self, keys: &[u32], numbers: &[u8]) -> Result<Table<'a, Rc<u8>>, AllocError> {
        let mut table = Vec::new(self.memory);
        for key in keys {
            for number in numbers {
                table.push((*key, self.tokens.of(*number)?))?;
            }
        }
        Ok(table)
    }

    // Whether a join of two tables whose keys repeat was whole.
    pub fn joins_groups(&self) -> Result<bool, Fail> {
        let left = self.tokened(&REPEATED, &[1])?;
        let right = self.tokened(&[8, 7, 6, 5, 4, 3], &[2, 3])?;
        self.memory.refuse(self.number);
        let ended = group_join_unordered(self.memory, left, right);
        Ok(self.runs.is_whole(ended, self.want)?)
    }

    // Whether the join of a list with a map was whole.
    pub fn looks_up(&self) -> Result<bool, Fail> {
        let list = self.tokened(&[2, 1, 2, 0], &[1, 3])?;
        let mut map = BTreeMap::new(self.memory);
        map.insert(2, 'b')?;
        self.memory.refuse(self.number);
        let ended = lookup_join(self.memory, list, &map);
        Ok(self.runs.is_whole(ended, self.want)?)
    }

    // Twelve keys from this one on, each with this token.
    fn index_map(
        &self,
        first: u32,
        token: u8,
    ) -> Result<IndexMap<u32, Rc<u8>, Hasher, &'a Memory>, AllocError> {
        let mut map = IndexMap::new(self.memory);
        for key in first..first.saturating_add(12) {
            map.insert(key, self.tokens.of(token)?)?;
        }
        Ok(map)
    }

    // Whether the call on two maps in the order of insertion was whole.
    pub fn joins_index_maps(&self, call: &str) -> Result<bool, Fail> {
        let left = self.index_map(0, 1)?;
        let right = self.index_map(10, 2)?;
        self.memory.refuse(self.number);
        let is_whole = match call {
            "overlay_index_maps" => self
                .runs
                .is_whole(overlay_index_maps(self.memory, left, right), self.want),
            _ => self
                .runs
                .is_whole(outer_join_index_maps(self.memory, left, right), self.want),
        };
        Ok(is_whole?)
    }

    // A hashed map of this key alone.
    fn single(
        &self,
        key: u32,
        token: u8,
    ) -> Result<HashMap<u32, Rc<u8>, Hasher, &'a Memory>, AllocError> {
        let mut map = HashMap::new(self.memory);
        map.insert(key, self.tokens.of(token)?)?;
        Ok(map)
    }

    // Whether the join of two hashed maps was whole, of one key each, since their order is not told.
    pub fn joins_hash_maps(&self) -> Result<bool, Fail> {
        let left = self.single(7, 1)?;
        let right = self.single(5, 2)?;
        self.memory.refuse(self.number);
        let ended = outer_join_hash_maps(self.memory, left, right);
        Ok(self.runs.is_whole(ended, self.want)?)
    }

    // Twelve keys from this one on, each with this token, in order.
    fn ordered_map(
        &self,
        first: u32,
        token: u8,
    ) -> Result<BTreeMap<u32, Rc<u8>, &'a Memory>, AllocError> {
        let mut map = BTreeMap::new(self.memory);
        for key in first..first.saturating_add(12) {
            map.insert(key, self.tokens.of(token)?)?;
        }
        Ok(map)
    }

    // Whether two ordered maps as layers were laid one over the other whole.
    pub fn lays_maps(&self) -> Result<bool, Fail> {
        let mut layers = Vec::new(self.memory);
        layers.push(self.ordered_map(0, 1)?)?;
        layers.push(self.ordered_map(4, 2)?)?;
        self.memory.refuse(self.number);
        let ended = overlay_maps(self.memory, layers);
        Ok(self.runs.is_whole(ended, self.want)?)
    }

    // Whether a merge of ordered maps, in which their side changed nothing, was whole.
    pub fn merges_maps(&self) -> Result<bool, Fail> {
        let base = self.ordered_map(0, 1)?;
        let ours = self.ordered_map(4, 2)?;
        let theirs = self.ordered_map(0, 1)?;
        self.memory.refuse(self.number);
        // `Merged` is `Debug` where its memory is, which the tests' own is not.
        let ended = match merge_version_maps(self.memory, base, ours, theirs) {
            Ok(Merged::Whole(rows)) => Ok(Ok(rows)),
            Ok(Merged::Conflicts(rows)) => Ok(Err(rows)),
            Err(refused) => Err(refused),
        };
        Ok(self.runs.is_whole(ended, self.want)?)
    }
}

/// A group join returns all rows, or drops both tables where memory is refused.
#[test]
fn group_join_drops_both_tables_where_refused(rt: HostRuntime) -> Result<(), Fail> {
    let want = "[(0, Left([1, 1, 1, 1])), (1, Left([1, 1, 1, 1])), (2, Left([1, 1, 1, 1])), (3, \
                Both([1, 1, 1, 1], [2, 3])), (4, Both([1, 1, 1, 1], [2, 3])), (5, Both([1, 1, 1, 1], \
                [2, 3])), (6, Right([2, 3])), (7, Right([2, 3])), (8, Right([2, 3]))]";
    check(&rt, rt.alloc(), "group_join_unordered", want)
}

/// A look-up join returns all rows, or drops the list.
#[test]
fn lookup_join_drops_the_list_where_refused(rt: HostRuntime) -> Result<(), Fail> {
    let want =
        "[(2, 1, Some('b')), (2, 3, Some('b')), (1, 1, None), (1, 3, None), (2, 1, Some('b')), \
                (2, 3, Some('b')), (0, 1, None), (0, 3, None)]";
    check(&rt, rt.alloc(), "lookup_join", want)
}

/// A join of maps drops both.
#[test]
fn join_of_index_maps_drops_both_where_refused(rt: HostRuntime) -> Result<(), Fail> {
    let want =
        "{0: Left(1), 1: Left(1), 2: Left(1), 3: Left(1), 4: Left(1), 5: Left(1), 6: Left(1), \
                7: Left(1), 8: Left(1), 9: Left(1), 10: Both(1, 2), 11: Both(1, 2), 12: Right(2), \
                13: Right(2), 14: Right(2), 15: Right(2), 16: Right(2), 17: Right(2), 18: Right(2), \
                19: Right(2), 20: Right(2), 21: Right(2)}";
    check(&rt, rt.alloc(), "outer_join_index_maps", want)
}

/// The same of hashed maps.
#[test]
fn join_of_hash_maps_drops_both_where_refused(rt: HostRuntime) -> Result<(), Fail> {
    check(
        &rt,
        rt.alloc(),
        "outer_join_hash_maps",
        "{7: Left(1), 5: Right(2)}",
    )
}

/// The same of a map laid over another.
#[test]
fn overlay_drops_both_maps_where_refused(rt: HostRuntime) -> Result<(), Fail> {
    let want = "{0: 1, 1: 1, 2: 1, 3: 1, 4: 1, 5: 1, 6: 1, 7: 1, 8: 1, 9: 1, 10: 2, 11: 2, 12: 2, \
                13: 2, 14: 2, 15: 2, 16: 2, 17: 2, 18: 2, 19: 2, 20: 2, 21: 2}";
    check(&rt, rt.alloc(), "overlay_index_maps", want)
}

/// Layers are returned whole, or dropped.
#[test]
fn layers_are_dropped_where_refused(rt: HostRuntime) -> Result<(), Fail> {
    let alloc = rt.alloc();
    let mut want = Vec::new(alloc);
    for key in 0..16 {
        let (layer, value) = if key < 4 { (0, 1) } else { (1, 2) };
        want.push((key, Layered { layer, value }))?;
    }
    check(&rt, alloc, "overlay_maps", &format!(in alloc; "{want:?}")?)
}

/// Three maps are merged whole, or dropped.
#[test]
fn maps_are_dropped_where_refused(rt: HostRuntime) -> Result<(), Fail> {
    let want =
        "Ok([(4, 2), (5, 2), (6, 2), (7, 2), (8, 2), (9, 2), (10, 2), (11, 2), (12, 2), (13, 2), \
                (14, 2), (15, 2)])";
    check(&rt, rt.alloc(), "merge_version_maps", want)
}
