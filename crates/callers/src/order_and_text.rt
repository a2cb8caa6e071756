//! Values of both enums compared, hashed and printed.
ghost use Rattle.std.specs.Prelude.{◌≡◌, ◌↔◌, ◌∷◌, ◌++◌, IfOk, IfSome, IsTrue, codes, fold, string_bytes};
ghost use Rattle.std.specs.Fmt.{decimal};
ghost use Rattle.std.specs.declared.cmp.Ordering.TheVariants.{Equal};
ghost use Rattle.either_or_both.specs.Places.{MatchPlaces};
ghost use Rattle.either_or_both.specs.EitherText.{printed};

use either_or_both::{Either, EitherOrBoth, TryFromOptionsError};
use std::alloc::{AllocError, Global};
use std::cmp::Ordering;
use std::fmt::Display;
use std::hash::{Hash, Hasher};

/// What a value writes into a hasher.
pub fn feed<T: Hash, H: Hasher>(value: &T, state: &mut H)
    ensures { state.new ≡ fold H.write state.old (T.hash_input value.now) }
{
    value.hash(state);
}

/// `cmp` returns Equal exactly where the values are equal.
pub fn tied_where_equal<L: Ord, R: Ord>(
    a: &EitherOrBoth<L, R>,
    b: &EitherOrBoth<L, R>,
) -> (bool, Ordering)
    ensures { IsTrue result.0 ↔ (result.1 ≡ Equal) }
{
    (a == b, a.cmp(b))
}

/// Equality is that of the places.
pub fn equal_places<L: PartialEq, R: PartialEq>(
    a: &EitherOrBoth<L, R>,
    b: &EitherOrBoth<L, R>,
) -> bool
    ensures { IsTrue result ↔ (MatchPlaces a.now
        (λ l r. MatchPlaces b.now (λ m s. IsTrue (L.eq l m) × IsTrue (R.eq r s)) (λ _. ⊥) (λ _. ⊥))
        (λ l. MatchPlaces b.now (λ _ _. ⊥) (λ m. IsTrue (L.eq l m)) (λ _. ⊥))
        (λ r. MatchPlaces b.now (λ _ _. ⊥) (λ _. ⊥) (λ s. IsTrue (R.eq r s)))) }
{
    a == b
}

/// Equal values leave two hashers that were alike alike.
pub fn equal_hash_alike<L: Hash, R: Hash, H: Hasher>(
    a: &EitherOrBoth<L, R>,
    b: &EitherOrBoth<L, R>,
    s: &mut H,
    t: &mut H,
) -> bool
    requires { s.old ≡ t.old }
    ensures { IsTrue result → s.new ≡ t.new }
{
    let equal = a == b;
    feed(a, s);
    feed(b, t);
    equal
}

/// Two numbers print one below the other.
pub fn print_two(alloc: Global, l: u8, r: u8) -> Result<String, AllocError>
    ensures { IfOk result (λ s. string_bytes s ≡ decimal l ++ 10 ∷ decimal r) }
{
    EitherOrBoth::Both(l, r).to_string(alloc)
}

/// The text of the refusal.
pub fn print_refusal(alloc: Global) -> Result<String, AllocError>
    ensures { IfOk result (λ s. string_bytes s
        ≡ codes "Either the left, right or both values must be present") }
{
    TryFromOptionsError.to_string(alloc)
}

/// A row of a report on two versions of a table.
#[derive(Debug, Clone, PartialEq, Eq, PartialOrd, Ord, Hash, Drop)]
pub struct Line {
    pub key: u32,
    pub cells: EitherOrBoth<u16, u8>,
}

/// Rows are equal where their keys and their cells are.
pub fn same_line(a: &Line, b: &Line) -> bool
    ensures { IsTrue result ↔ (a.now ≡ b.now) }
{
    a == b
}

/// A left value stands before a right one, whatever they hold.
pub fn left_before_right<L: Ord + Drop, R: Ord + Drop>(a: L, b: R) -> bool
    ensures { IsTrue result }
{
    let lone: Either<L, R> = Either::Left(a);
    lone < Either::Right(b)
}

/// The text of any value whose parts state theirs, in a format.
pub fn print_any<L: Display + Drop, R: Display + Drop>(
    alloc: Global,
    v: Either<L, R>,
) -> Result<String, AllocError>
    ensures { IfOk result (λ s. IfSome (printed L.output R.output v) (λ text. string_bytes s ≡ text)) }
{
    format!(in alloc; "{v}")
}
