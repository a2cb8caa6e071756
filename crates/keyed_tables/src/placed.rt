//! The order of a merged table: the keys of ours, with each that only theirs has after the one that it follows there.
ghost use Rattle.std.specs.Prelude.{◌≡◌, ◌++◌, IfOk, OnOk, drop};
ghost use Rattle.std.specs.List.{IsDistinct};
ghost use Rattle.keyed_tables.specs.Placed.{PlacedLaw, new_behind, new_first, placed};

use indexmap::IndexSet;
use keyed_rows::Key;
use std::alloc::{AllocError, Global};

/// The keys of both versions, each once: those of ours in their order, and each that only theirs has right after the key that it follows
/// there, or first where it is the first there.
///
/// # Errors
///
/// Returns `AllocError` if a request for memory was refused.
pub fn placed_keys(
    alloc: Global,
    ours: &IndexSet<Key>,
    theirs: &IndexSet<Key>,
) -> Result<IndexSet<Key>, AllocError>
    ensures { IfOk result (λ keys. keys.keys ≡ placed ⟦<Key as Eq>⟧.eq ours.now.keys theirs.now.keys) }
{
    let keys = list_keys(alloc, ours, theirs)?;
    set_of(alloc, keys)
}

// The keys of both in this order.
fn list_keys(
    alloc: Global,
    ours: &IndexSet<Key>,
    theirs: &IndexSet<Key>,
) -> Result<Vec<Key>, AllocError>
    ensures placed { IfOk result (λ keys. keys.items
        ≡ placed ⟦<Key as Eq>⟧.eq ours.now.keys theirs.now.keys) }
    ensures distinct { IfOk result (λ keys. IsDistinct ⟦<Key as Eq>⟧.eq keys.items) }
{
    let mut keys = Vec::new(alloc);
    put_first(&mut keys, ours, theirs.as_slice())?;
    for key in ours.as_slice() {
        keys.push(key.clone()?)?;
        put_behind(&mut keys, ours, theirs, key)?;
    }
    Ok(keys)
}

// Puts the keys after this one in theirs, before the next that ours has.
fn put_behind(
    keys: &mut Vec<Key>,
    ours: &IndexSet<Key>,
    theirs: &IndexSet<Key>,
    key: &Key,
) -> Result<(), AllocError>
    ensures { OnOk result (keys.new.items ≡ keys.old.items
        ++ new_behind ⟦<Key as Eq>⟧.eq ours.now.keys theirs.now.keys key.now) }
{
    match theirs.get_index_of(key) {
        Some(place) => put_first(keys, ours, rest_behind(theirs.as_slice(), place)),
        None => Ok(()),
    }
}

// Those after the one at a place.
fn rest_behind(keys: &[Key], place: usize) -> &[Key]
    ensures { result.now ≡ drop 1 (drop place keys.now) }
{
    match keys.get(place..) {
        Some([_, rest @ ..]) => rest,
        _ => &[],
    }
}

// Puts the keys of theirs before the first that ours has.
fn put_first(keys: &mut Vec<Key>, ours: &IndexSet<Key>, theirs: &[Key]) -> Result<(), AllocError>
    ensures { OnOk result (keys.new.items ≡ keys.old.items
        ++ new_first ⟦<Key as Eq>⟧.eq ours.now.keys theirs.now) }
{
    for key in theirs {
        if ours.contains(key) {
            return Ok(());
        }
        keys.push(key.clone()?)?;
    }
    Ok(())
}

// Keys as a set, in their order. None stands there twice.
fn set_of(alloc: Global, keys: Vec<Key>) -> Result<IndexSet<Key>, AllocError>
    requires { IsDistinct ⟦<Key as Eq>⟧.eq keys.items }
    ensures { IfOk result (λ set. set.keys ≡ keys.items) }
{
    let mut set = IndexSet::new(alloc);
    for key in keys {
        set.insert(key)?;
    }
    Ok(set)
}

/// The keys of two versions, placed, are those of both, each once: ours in their order, and each new one right after the key that it
/// follows in theirs. Calling it does nothing: its contract gives the caller's proof the law.
pub fn law_placed()
    ensures { PlacedLaw ⟦<Key as Eq>⟧.eq }
{}
