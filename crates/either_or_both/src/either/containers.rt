//! An [`Either`] of growing containers as a container, and an [`Either`] of pointers as a pointer.
//!
//! Each call acts on the held side alone and keeps the variant.
ghost use Rattle.either_or_both.specs.EitherStreams.{HoldsOfHeld, HeldBecomes};

use crate::Either;
use crate::Either::{Left, Right};
use std::alloc::AllocError;
use std::ops::{Deref, DerefMut};

impl<A, T: Extend<A>> Extend<A> for Either<T, T> {
    ghost can_extend = { λ v xs. HoldsOfHeld (λ l. T.can_extend l xs) (λ r. T.can_extend r xs) v };

    ghost extend_gives = { λ v xs w. HeldBecomes (λ l m. T.extend_gives l xs m) (λ r s. T.extend_gives r xs s)
        v w };

    /// Adds the items to the container that is present.
    ///
    /// # Errors
    ///
    /// Returns `AllocError` if that container was refused memory. The variant stays, and the container is as its own `extend`
    /// leaves it.
    ///
    /// # Examples
    ///
    /// ```
    /// let mut row = Either::<Vec<u32>>::Right(vec![in alloc; 1]?);
    /// row.extend([2, 3])?;
    /// assert_eq!(rt; row, Either::Right(vec![in alloc; 1, 2, 3]?));
    /// ```
    fn extend<U: IntoIterator<Item = A>>(&mut self, iter: U) -> Result<(), AllocError> {
        match self {
            Left(l) => l.extend(iter),
            Right(r) => r.extend(iter),
        }
    }
}

impl<L: Deref<Target = R::Target>, R: Deref> Deref for Either<L, R> {
    type Target = R::Target;

    ghost deref_gives = { λ v t. HoldsOfHeld (λ l. L.deref_gives l t) (λ r. R.deref_gives r t) v };

    /// Returns a reference to the target of the pointer that is present.
    ///
    /// # Examples
    ///
    /// ```
    /// let pointer: Either<Box<u8>, Box<u8>> = Either::Right(Box::new(alloc, 3)?);
    /// assert_eq!(rt; *pointer, 3);
    /// ```
    fn deref(&self) -> &R::Target {
        match self {
            Left(l) => l.deref(),
            Right(r) => r.deref(),
        }
    }
}

impl<L: DerefMut<Target = R::Target>, R: DerefMut> DerefMut for Either<L, R> {
    ghost deref_mut_gives = { λ v t. HoldsOfHeld (λ l. L.deref_mut_gives l t) (λ r. R.deref_mut_gives r t)
        v };

    /// Returns a mutable reference to the target of the pointer that is present.
    ///
    /// # Examples
    ///
    /// ```
    /// let mut pointer: Either<Box<u8>, Box<u8>> = Either::Right(Box::new(alloc, 3)?);
    /// *pointer = 4;
    /// assert_eq!(rt; *pointer, 4);
    /// ```
    fn deref_mut(&mut self) -> &mut R::Target {
        match self {
            Left(l) => l.deref_mut(),
            Right(r) => r.deref_mut(),
        }
    }
}
