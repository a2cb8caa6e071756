//! Tests: what is collected again is built anew, with one push or insert for each item and no room in advance.
//!
//! No clause says so: a call that looks which side is empty and hands the containers on as they are gives equal contents, and a
//! collector that asks for much memory in advance collects the same.
ghost use Rattle.std.proofs.Common.{rules};
ghost use Rattle.std.specs.Cmp.Rules.{comparing};
ghost use Rattle.std.specs.Cmp.{partial_order_from_own_ties};
ghost use Rattle.std.specs.Ordering.{as_partial_cmp, nat_cmp, on};

use either_or_both::EitherOrBoth::{self, Both, Left, Right};
use either_or_both::laws::{
    recollect_btree_map, recollect_btree_set, recollect_hash_map, recollect_hash_set,
    recollect_index_map, recollect_index_set, recollect_vec, recollect_vec_deque,
};
use indexmap::{IndexMap, IndexSet};
use std::alloc::{AllocError, Global};
use std::cell::Cell;
use std::cmp::Ordering;
use std::collections::{BTreeMap, BTreeSet, HashMap, HashSet, VecDeque};
use std::process::Abort;
use std::rc::Rc;
use std::test::Fail;

/// How many items a container that is handed in has room for. Three hundred are held in less.
const ROOM: usize = 1_000;

/// A container that shows whether its items were moved into it or it was handed on as it was.
trait Container: Sized + Drop {
    /// One with so many items, and with room for a thousand.
    fn old(alloc: Global, count: u16) -> Result<Self, AllocError>;

    /// The pair, collected again by the call for this shape.
    fn again(
        alloc: Global,
        pair: EitherOrBoth<Self, Self>,
    ) -> Result<EitherOrBoth<Self, Self>, AllocError>;

    /// Whether it has grown as its items came.
    fn is_new(&self) -> bool;
}

impl Container for Vec<u16> {
    fn old(alloc: Global, count: u16) -> Result<Self, AllocError> {
        let mut list = Vec::with_capacity(alloc, ROOM)?;
        for i in 0..count {
            list.push(i)?;
        }
        Ok(list)
    }

    fn again(
        alloc: Global,
        pair: EitherOrBoth<Self, Self>,
    ) -> Result<EitherOrBoth<Self, Self>, AllocError> {
        recollect_vec(alloc, pair)
    }

    fn is_new(&self) -> bool {
        self.capacity() < ROOM
    }
}

impl Container for VecDeque<u16> {
    fn old(alloc: Global, count: u16) -> Result<Self, AllocError> {
        let mut queue = VecDeque::with_capacity(alloc, ROOM)?;
        for i in 0..count {
            queue.push_back(i)?;
        }
        Ok(queue)
    }

    fn again(
        alloc: Global,
        pair: EitherOrBoth<Self, Self>,
    ) -> Result<EitherOrBoth<Self, Self>, AllocError> {
        recollect_vec_deque(alloc, pair)
    }

    fn is_new(&self) -> bool {
        self.capacity() < ROOM
    }
}

impl Container for HashSet<u16> {
    fn old(alloc: Global, count: u16) -> Result<Self, AllocError> {
        let mut set = HashSet::with_capacity(alloc, ROOM)?;
        for i in 0..count {
            set.insert(i)?;
        }
        Ok(set)
    }

    fn again(
        alloc: Global,
        pair: EitherOrBoth<Self, Self>,
    ) -> Result<EitherOrBoth<Self, Self>, AllocError> {
        recollect_hash_set(alloc, pair)
    }

    fn is_new(&self) -> bool {
        self.capacity() < ROOM
    }
}

impl Container for HashMap<u16, u16> {
    fn old(alloc: Global, count: u16) -> Result<Self, AllocError> {
        let mut map = HashMap::with_capacity(alloc, ROOM)?;
        for i in 0..count {
            map.insert(i, i)?;
        }
        Ok(map)
    }

    fn again(
        alloc: Global,
        pair: EitherOrBoth<Self, Self>,
    ) -> Result<EitherOrBoth<Self, Self>, AllocError> {
        recollect_hash_map(alloc, pair)
    }

    fn is_new(&self) -> bool {
        self.capacity() < ROOM
    }
}

impl Container for IndexSet<u16> {
    fn old(alloc: Global, count: u16) -> Result<Self, AllocError> {
        let mut set = IndexSet::with_capacity(alloc, ROOM)?;
        for i in 0..count {
            set.insert(i)?;
        }
        Ok(set)
    }

    fn again(
        alloc: Global,
        pair: EitherOrBoth<Self, Self>,
    ) -> Result<EitherOrBoth<Self, Self>, AllocError> {
        recollect_index_set(alloc, pair)
    }

    fn is_new(&self) -> bool {
        self.capacity() < ROOM
    }
}

impl Container for IndexMap<u16, u16> {
    fn old(alloc: Global, count: u16) -> Result<Self, AllocError> {
        let mut map = IndexMap::with_capacity(alloc, ROOM)?;
        for i in 0..count {
            map.insert(i, i)?;
        }
        Ok(map)
    }

    fn again(
        alloc: Global,
        pair: EitherOrBoth<Self, Self>,
    ) -> Result<EitherOrBoth<Self, Self>, AllocError> {
        recollect_index_map(alloc, pair)
    }

    fn is_new(&self) -> bool {
        self.capacity() < ROOM
    }
}

/// A number that writes down, for all of its container, that it was compared.
#[derive(Drop)]
#[derive_where(PartialEq, Eq)]
struct Compared {
    number: u16,
    #[derive_where(skip)]
    was_compared: Rc<Cell<bool>>,
}

impl Ord for Compared {
    ghost cmp = { on (λ k. k.number) nat_cmp };

    ghost total = { Prim.search (comparing, rules) };

    ghost matches_partial_cmp = { Prim.search (comparing, rules) };

    ghost matches_eq = { Prim.search (comparing, rules) };

    fn cmp(&self, other: &Compared) -> Ordering {
        self.was_compared.set(true);
        self.number.cmp(&other.number)
    }
}

impl PartialOrd for Compared {
    ghost partial_cmp = { as_partial_cmp (on (λ k. k.number) nat_cmp) };

    ghost laws = { partial_order_from_own_ties (Prim.search (comparing, rules))
        (Prim.search (comparing, rules)) };

    fn partial_cmp(&self, other: &Compared) -> Option<Ordering> {
        Some(self.cmp(other))
    }
}

/// An ordered container shows it by its keys, which were compared since it was made. One item is compared with none.
impl Container for BTreeSet<Compared> {
    fn old(alloc: Global, count: u16) -> Result<Self, AllocError> {
        let was_compared = Rc::new(alloc, Cell::new(false))?;
        let mut set = BTreeSet::new(alloc);
        for number in 0..count {
            set.insert(Compared {
                number,
                was_compared: was_compared.clone()?,
            })?;
        }
        was_compared.set(false);
        Ok(set)
    }

    fn again(
        alloc: Global,
        pair: EitherOrBoth<Self, Self>,
    ) -> Result<EitherOrBoth<Self, Self>, AllocError> {
        recollect_btree_set(alloc, pair)
    }

    fn is_new(&self) -> bool {
        match self.first() {
            Some(first) => first.was_compared.get(),
            None => true,
        }
    }
}

impl Container for BTreeMap<Compared, u16> {
    fn old(alloc: Global, count: u16) -> Result<Self, AllocError> {
        let was_compared = Rc::new(alloc, Cell::new(false))?;
        let mut map = BTreeMap::new(alloc);
        for number in 0..count {
            let key = Compared {
                number,
                was_compared: was_compared.clone()?,
            };
            map.insert(key, number)?;
        }
        was_compared.set(false);
        Ok(map)
    }

    fn again(
        alloc: Global,
        pair: EitherOrBoth<Self, Self>,
    ) -> Result<EitherOrBoth<Self, Self>, AllocError> {
        recollect_btree_map(alloc, pair)
    }

    fn is_new(&self) -> bool {
        match self.first_key_value() {
            Some((first, _)) => first.was_compared.get(),
            None => true,
        }
    }
}

/// How many items are on each side.
#[rattlefmt::skip]
static COUNTS: [EitherOrBoth<u16>; 6] = [
    Left(2), Right(2), Both(2, 2), Both(2, 0), Both(0, 2), Both(3, 300),
];

// Collects pairs of containers with these counts again.
fn check<C: Container>(rt: &impl Abort, alloc: Global, shape: &str) -> Result<(), Fail> {
    for counts in COUNTS.iter().copied() {
        let pair = match counts {
            Left(l) => Left(C::old(alloc, l)?),
            Both(l, r) => Both(C::old(alloc, l)?, C::old(alloc, r)?),
            Right(r) => Right(C::old(alloc, r)?),
        };
        for container in C::again(alloc, pair)? {
            assert!(rt; container.is_new(), "{shape} of {counts:?}");
        }
    }
    Ok(())
}

/// Lists and sets that are collected again hold their items in containers that have grown with them.
#[test]
fn values_move_into_new_containers(rt: HostRuntime) -> Result<(), Fail> {
    let alloc = rt.alloc();
    check::<Vec<u16>>(&rt, alloc, "Vec")?;
    check::<VecDeque<u16>>(&rt, alloc, "VecDeque")?;
    check::<HashSet<u16>>(&rt, alloc, "HashSet")?;
    check::<IndexSet<u16>>(&rt, alloc, "IndexSet")?;
    check::<BTreeSet<Compared>>(&rt, alloc, "BTreeSet")
}

/// The same of maps.
#[test]
fn entries_move_into_new_containers(rt: HostRuntime) -> Result<(), Fail> {
    let alloc = rt.alloc();
    check::<HashMap<u16, u16>>(&rt, alloc, "HashMap")?;
    check::<IndexMap<u16, u16>>(&rt, alloc, "IndexMap")?;
    check::<BTreeMap<Compared, u16>>(&rt, alloc, "BTreeMap")
}
