//! Tests: the joins of lists and of maps, what changed in a table, and merges, with each request for memory refused in turn. What is
//! tested is their forms with any allocator, with memory of the tests' own.

mod maps;

use either_or_both::EitherOrBoth;
use either_or_both::join::is_rising;
use eob_joins::{
    Change, Merged, anti_join, apply, diff, inner_join, join_versions, left_join, merge_versions,
    right_join, semi_join,
};
use std::alloc::{AllocError, Global};
use std::process::Abort;
use std::rc::Rc;
use std::test::Fail;
use testkit::memory::{RUNS, Refusing, Runs, Tokens};

type Memory = Refusing<Global>;

type Table<'a, V> = Vec<(u32, V), &'a Memory>;

// The keys of the tables are below this.
const KEYS: u32 = 60;

// A table of values out of the tokens.
#[derive(Clone, Copy)]
enum Side {
    // The even keys.
    Evens,
    // The multiples of three, where a multiple of twelve has the value that it has among the even keys.
    Threes,
    // The multiples of four, with another value than the even keys have.
    Fours,
}

// What a table has under a key.
fn value(side: Side, key: u32) -> Option<u8> {
    match side {
        Side::Evens if key % 2 == 0 => Some(1),
        Side::Threes if key % 12 == 0 => Some(1),
        Side::Threes if key % 3 == 0 => Some(2),
        Side::Fours if key % 4 == 0 => Some(2),
        _ => None,
    }
}

// The table in this memory.
fn table<'a>(
    memory: &'a Memory,
    tokens: &Tokens,
    side: Side,
) -> Result<Table<'a, Rc<u8>>, AllocError> {
    let mut table = Vec::new(memory);
    for key in 0..KEYS {
        if let Some(number) = value(side, key) {
            table.push((key, tokens.of(number)?))?;
        }
    }
    Ok(table)
}

// Changes to the even keys: a multiple of four goes, and each other multiple of three has another value.
fn changes<'a>(
    memory: &'a Memory,
    tokens: &Tokens,
) -> Result<Table<'a, Change<Rc<u8>>>, AllocError> {
    let mut table = Vec::new(memory);
    for key in 0..KEYS {
        if key % 4 == 0 {
            table.push((key, EitherOrBoth::Left(tokens.one()?)))?;
        } else if key % 3 == 0 {
            table.push((key, EitherOrBoth::Right(tokens.three()?)))?;
        }
    }
    Ok(table)
}

// What the even keys and the multiples of three have under a key.
fn values(key: u32) -> (Option<u8>, Option<u8>) {
    (value(Side::Evens, key), value(Side::Threes, key))
}

// One run of a call, in memory that refuses the request with this number.
#[derive(Clone, Copy)]
struct Run<'a> {
    memory: &'a Memory,
    tokens: &'a Tokens,
    runs: &'a Runs<'a>,
    number: u64,
    want: &'a str,
}

impl Run<'_> {
    // Whether the call on the even keys and the multiples of three was whole.
    fn joins_tables(&self, rt: &impl Abort, call: &str) -> Result<bool, Fail> {
        let left = table(self.memory, self.tokens, Side::Evens)?;
        let right = table(self.memory, self.tokens, Side::Threes)?;
        assert!(rt; is_rising(&left) && is_rising(&right));
        self.memory.refuse(self.number);
        let is_whole = match call {
            "inner_join" => self
                .runs
                .is_whole(inner_join(self.memory, left, right), self.want),
            "left_join" => self
                .runs
                .is_whole(left_join(self.memory, left, right), self.want),
            "right_join" => self
                .runs
                .is_whole(right_join(self.memory, left, right), self.want),
            "semi_join" => self
                .runs
                .is_whole(semi_join(self.memory, left, right), self.want),
            "anti_join" => self
                .runs
                .is_whole(anti_join(self.memory, left, right), self.want),
            _ => self
                .runs
                .is_whole(diff(self.memory, left, right), self.want),
        };
        Ok(is_whole?)
    }

    // Whether the changes made to the even keys were whole.
    fn makes_changes(&self, rt: &impl Abort) -> Result<bool, Fail> {
        let left = table(self.memory, self.tokens, Side::Evens)?;
        let right = changes(self.memory, self.tokens)?;
        assert!(rt; is_rising(&left) && is_rising(&right));
        self.memory.refuse(self.number);
        let ended = apply(self.memory, left, right);
        Ok(self.runs.is_whole(ended, self.want)?)
    }

    // Whether the call on three versions was whole. The base has the even keys, and ours the multiples of three.
    fn joins_versions(&self, rt: &impl Abort, call: &str, side: Side) -> Result<bool, Fail> {
        let base = table(self.memory, self.tokens, Side::Evens)?;
        let ours = table(self.memory, self.tokens, Side::Threes)?;
        let theirs = table(self.memory, self.tokens, side)?;
        assert!(rt; is_rising(&base) && is_rising(&ours) && is_rising(&theirs));
        self.memory.refuse(self.number);
        let is_whole = match call {
            "join_versions" => {
                let ended = join_versions(self.memory, base, ours, theirs);
                self.runs.is_whole(ended, self.want)
            }
            _ => {
                // `Merged` is `Debug` where its memory is, which the tests' own is not.
                let ended = match merge_versions(self.memory, base, ours, theirs) {
                    Ok(merge) => Ok(match merge {
                        Merged::Whole(rows) => Ok(rows),
                        Merged::Conflicts(rows) => Err(rows),
                    }),
                    Err(refused) => Err(refused),
                };
                self.runs.is_whole(ended, self.want)
            }
        };
        Ok(is_whole?)
    }
}

// Makes the call with each request refused in turn: the run that meets no refusal answers this. Of three versions, theirs has the
// multiples of four, or what the base has where they changed nothing.
fn check(rt: &impl Abort, alloc: Global, call: &str, want: &str) -> Result<(), Fail> {
    let memory = Refusing::new(alloc);
    let tokens = Tokens::new(alloc)?;
    let runs = Runs::new(alloc, &memory, &tokens);
    for number in 1..RUNS {
        memory.refuse(0);
        let run = Run {
            memory: &memory,
            tokens: &tokens,
            runs: &runs,
            number,
            want,
        };
        let is_whole = match call {
            "apply" => run.makes_changes(rt),
            "join_versions" | "merge_versions" => run.joins_versions(rt, call, Side::Fours),
            "merge_unchanged" => run.joins_versions(rt, call, Side::Evens),
            "group_join_unordered" => run.joins_groups(),
            "lookup_join" => run.looks_up(),
            "outer_join_index_maps" | "overlay_index_maps" => run.joins_index_maps(call),
            "outer_join_hash_maps" => run.joins_hash_maps(),
            "overlay_maps" => run.lays_maps(),
            "merge_version_maps" => run.merges_maps(),
            _ => run.joins_tables(rt, call),
        };
        if is_whole? {
            return Ok(());
        }
    }
    Err("each run was refused")?;
    Ok(())
}

/// An inner join answers the rows of both tables whole, or drops the tables.
#[test]
fn inner_join_drops_both_tables_where_refused(rt: HostRuntime) -> Result<(), Fail> {
    let alloc = rt.alloc();
    let mut rows = Vec::new(alloc);
    for key in 0..KEYS {
        match values(key) {
            (Some(a), Some(b)) => rows.push((key, (a, b)))?,
            _ => (),
        }
    }
    check(&rt, alloc, "inner_join", &format!(in alloc; "{rows:?}")?)
}

/// The same of a left join.
#[test]
fn left_join_drops_both_tables_where_refused(rt: HostRuntime) -> Result<(), Fail> {
    let alloc = rt.alloc();
    let mut rows = Vec::new(alloc);
    for key in 0..KEYS {
        match values(key) {
            (Some(a), b) => rows.push((key, (a, b)))?,
            (None, _) => (),
        }
    }
    check(&rt, alloc, "left_join", &format!(in alloc; "{rows:?}")?)
}

/// The same of a right join.
#[test]
fn right_join_drops_both_tables_where_refused(rt: HostRuntime) -> Result<(), Fail> {
    let alloc = rt.alloc();
    let mut rows = Vec::new(alloc);
    for key in 0..KEYS {
        match values(key) {
            (a, Some(b)) => rows.push((key, (a, b)))?,
            (_, None) => (),
        }
    }
    check(&rt, alloc, "right_join", &format!(in alloc; "{rows:?}")?)
}

/// The same of a semi join.
#[test]
fn semi_join_drops_both_tables_where_refused(rt: HostRuntime) -> Result<(), Fail> {
    let alloc = rt.alloc();
    let mut rows = Vec::new(alloc);
    for key in 0..KEYS {
        match values(key) {
            (Some(a), Some(_)) => rows.push((key, a))?,
            _ => (),
        }
    }
    check(&rt, alloc, "semi_join", &format!(in alloc; "{rows:?}")?)
}

/// The same of an anti join.
#[test]
fn anti_join_drops_both_tables_where_refused(rt: HostRuntime) -> Result<(), Fail> {
    let alloc = rt.alloc();
    let mut rows = Vec::new(alloc);
    for key in 0..KEYS {
        match values(key) {
            (Some(a), None) => rows.push((key, a))?,
            _ => (),
        }
    }
    check(&rt, alloc, "anti_join", &format!(in alloc; "{rows:?}")?)
}

/// What changed is answered whole, or both versions are dropped.
#[test]
fn diff_drops_both_tables_where_refused(rt: HostRuntime) -> Result<(), Fail> {
    let alloc = rt.alloc();
    let mut rows = Vec::new(alloc);
    for key in 0..KEYS {
        match values(key) {
            (Some(a), None) => rows.push((key, EitherOrBoth::Left(a)))?,
            (None, Some(b)) => rows.push((key, EitherOrBoth::Right(b)))?,
            (Some(a), Some(b)) if a != b => rows.push((key, EitherOrBoth::Both(a, b)))?,
            _ => (),
        }
    }
    check(&rt, alloc, "diff", &format!(in alloc; "{rows:?}")?)
}

/// A changed table is answered whole, or the table and its changes are dropped.
#[test]
fn apply_drops_table_and_changes_where_refused(rt: HostRuntime) -> Result<(), Fail> {
    let alloc = rt.alloc();
    let mut rows = Vec::new(alloc);
    for key in 0..KEYS {
        if key % 4 != 0 && key % 3 == 0 {
            rows.push((key, 3))?;
        } else if key % 4 != 0 && key % 2 == 0 {
            rows.push((key, 1))?;
        }
    }
    check(&rt, alloc, "apply", &format!(in alloc; "{rows:?}")?)
}

/// A join of three versions answers each key's values whole, or drops the versions.
#[test]
fn join_drops_three_versions_where_refused(rt: HostRuntime) -> Result<(), Fail> {
    let alloc = rt.alloc();
    let mut rows = Vec::new(alloc);
    for key in 0..KEYS {
        let (base, ours) = values(key);
        let sides = EitherOrBoth::try_from((ours, value(Side::Fours, key))).ok();
        match EitherOrBoth::try_from((base, sides)) {
            Ok(row) => rows.push((key, row))?,
            Err(_) => (),
        }
    }
    check(&rt, alloc, "join_versions", &format!(in alloc; "{rows:?}")?)
}

/// A merge where their side changed nothing answers our version, or drops the versions.
#[test]
fn merge_drops_three_versions_where_refused(rt: HostRuntime) -> Result<(), Fail> {
    let alloc = rt.alloc();
    let mut rows = Vec::new(alloc);
    for key in 0..KEYS {
        match values(key) {
            (_, Some(ours)) => rows.push((key, ours))?,
            (_, None) => (),
        }
    }
    check(
        &rt,
        alloc,
        "merge_unchanged",
        &format!(in alloc; "Ok({rows:?})")?,
    )
}

/// A merge where both sides changed some rows in two ways answers these rows, or drops the versions. Ours lacks a multiple of four
/// that is none of three, and theirs lacks a multiple of six that is none of four.
#[test]
fn conflicts_drop_three_versions_where_refused(rt: HostRuntime) -> Result<(), Fail> {
    let alloc = rt.alloc();
    let mut rows = Vec::new(alloc);
    for key in 0..KEYS {
        if key % 4 == 0 && key % 3 != 0 {
            rows.push((key, EitherOrBoth::Both(1, EitherOrBoth::Right(2))))?;
        } else if key % 12 == 6 {
            rows.push((key, EitherOrBoth::Both(1, EitherOrBoth::Left(2))))?;
        }
    }
    check(
        &rt,
        alloc,
        "merge_versions",
        &format!(in alloc; "Err({rows:?})")?,
    )
}
