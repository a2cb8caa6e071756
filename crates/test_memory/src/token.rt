//! The values of these tests, as a type of its own: what is built of it is proved with less than over `Rc<u8>`, since it has no
//! parameter.

use either_or_both::EitherOrBoth::{Both, Left, Right};
use either_or_both::{Either, EitherOrBoth};
use std::alloc::{AllocError, Global};
use std::fmt::{self, Debug, Formatter, Write};
use std::rc::Rc;
use testkit::memory::Tokens;

/// A number that is counted among the values of [`Tokens`] while it is alive. It is compared and shown by its number.
#[derive(Clone, Drop)]
#[derive_where(PartialEq, Eq, PartialOrd, Ord, Hash)]
pub struct Token(u16, #[derive_where(skip)] Rc<u8>);

impl Debug for Token {
    fn fmt<W: Write>(&self, f: &mut Formatter<W>) -> fmt::Result {
        self.0.fmt(f)
    }
}

/// A value of this number.
pub fn counted(tokens: &Tokens, number: u16) -> Result<Token, AllocError> {
    Ok(Token(number, tokens.one()?))
}

/// A key and its value.
pub type Entry = (Token, Token);

/// Numbers of which values are made.
pub trait Numbers: Copy {
    type Values: Drop;

    fn values(self, tokens: &Tokens) -> Result<Self::Values, AllocError>;
}

impl Numbers for u16 {
    type Values = Token;

    fn values(self, tokens: &Tokens) -> Result<Token, AllocError> {
        counted(tokens, self)
    }
}

impl Numbers for (u16, u16) {
    type Values = Entry;

    fn values(self, tokens: &Tokens) -> Result<Entry, AllocError> {
        Ok((counted(tokens, self.0)?, counted(tokens, self.1)?))
    }
}

impl<N: Numbers> Numbers for EitherOrBoth<N> {
    type Values = EitherOrBoth<N::Values>;

    fn values(self, tokens: &Tokens) -> Result<EitherOrBoth<N::Values>, AllocError> {
        match self {
            Left(l) => Ok(Left(l.values(tokens)?)),
            Both(l, r) => Ok(Both(l.values(tokens)?, r.values(tokens)?)),
            Right(r) => Ok(Right(r.values(tokens)?)),
        }
    }
}

impl<N: Numbers> Numbers for Either<N> {
    type Values = Either<N::Values>;

    fn values(self, tokens: &Tokens) -> Result<Either<N::Values>, AllocError> {
        match self {
            Either::Left(l) => Ok(Either::Left(l.values(tokens)?)),
            Either::Right(r) => Ok(Either::Right(r.values(tokens)?)),
        }
    }
}

/// The values of these numbers, in order.
pub fn list<N: Numbers>(
    alloc: Global,
    tokens: &Tokens,
    numbers: &[N],
) -> Result<Vec<N::Values>, AllocError> {
    let mut list = Vec::new(alloc);
    for number in numbers {
        list.push(number.values(tokens)?)?;
    }
    Ok(list)
}
