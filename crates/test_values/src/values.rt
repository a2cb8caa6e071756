//! Tests: the default iterators over the values of both enums.

use either_or_both::iter::{IntoIterEitherOrBoth, IterEitherOrBoth, IterMutEitherOrBoth};
use either_or_both::iter_either::{IntoIterEither, IterEither, IterMutEither};

/// A default walk has nothing to give.
#[test]
fn default_walks_give_nothing(rt: HostRuntime) {
    let mut owned = IntoIterEitherOrBoth::<u8>::default();
    assert_eq!(rt; owned.len(), 0);
    let items = [
        owned.next(),
        owned.next_back(),
        IterEitherOrBoth::<u8>::default().next().copied(),
        IterEitherOrBoth::<u8>::default().next_back().copied(),
        IterMutEitherOrBoth::<u8>::default().next().copied(),
        IterMutEitherOrBoth::<u8>::default().next_back().copied(),
    ];
    assert_eq!(rt; items, [None; 6]);
}

/// A default walk over the value of an `Either` has nothing to give.
#[test]
fn default_walks_of_either_give_nothing(rt: HostRuntime) {
    let lengths = [
        IntoIterEither::<u8>::default().len(),
        IterEither::<u8>::default().len(),
        IterMutEither::<u8>::default().len(),
    ];
    assert_eq!(rt; lengths, [0; 3]);
    let items = [
        IntoIterEither::<u8>::default().next(),
        IterEither::<u8>::default().next_back().copied(),
        IterMutEither::<u8>::default().next().copied(),
    ];
    assert_eq!(rt; items, [None; 3]);
}
