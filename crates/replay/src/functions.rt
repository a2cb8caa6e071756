//! The functions that a line can name. Each call is recorded; that of an unknown name as `?`.

use crate::calls::Calls;
use crate::read::{Held, Value};
use either_or_both::{Either, EitherOrBoth};

/// A function by its name, or a number, which is a function of nothing.
#[derive(Clone, Copy)]
pub struct Function<'a> {
    name: &'a str,
    calls: &'a Calls,
}

impl<'a> Function<'a> {
    /// The function of this name, and where its calls are recorded.
    pub fn new(name: &'a str, calls: &'a Calls) -> Function<'a> {
        Function { name, calls }
    }

    /// Of nothing: the value that its name is.
    pub fn make<T: Value>(&self) -> T {
        self.calls.note_empty(self.name);
        match T::read(self.calls.alloc(), self.name) {
            Ok(value) => value,
            Err(_) => {
                self.calls.note_empty("?");
                T::default()
            }
        }
    }

    /// Looks at a value.
    pub fn see<T: Value>(&self, x: &T) {
        self.calls.note(self.name, x);
    }

    /// `next`, `double`, `negate` and `same`, of a value of one type to one of the same or of another.
    pub fn of<A: Value, B: Value>(&self, x: A) -> B {
        self.calls.note(self.name, &x);
        B::of_code(self.step(x.code()))
    }

    fn step(&self, code: i32) -> i32 {
        match self.name {
            "next" => code.wrapping_add(1),
            "double" => code.wrapping_mul(2),
            "negate" => code.wrapping_neg(),
            "same" => code,
            _ => self.unknown(code),
        }
    }

    fn unknown(&self, code: i32) -> i32 {
        self.calls.note_empty("?");
        code
    }

    /// `sum`, `difference`, `max` and `first`, of two values.
    pub fn of_two<T: Value>(&self, x: T, y: T) -> T {
        self.calls.note_two(self.name, &x, &y);
        let (first, second) = (x.code(), y.code());
        T::of_code(match self.name {
            "sum" => first.wrapping_add(second),
            "difference" => first.wrapping_sub(second),
            "max" => first.max(second),
            "first" => first,
            _ => self.unknown(first),
        })
    }

    /// Puts a value after an accumulator, as a digit.
    pub fn fold<T: Value>(&self, acc: i32, x: T) -> i32 {
        self.calls.note_two(self.name, &acc, &x);
        acc.wrapping_mul(10).wrapping_add(self.step(x.code()))
    }

    /// `even`, `positive`, `always` and `never`.
    pub fn test<T: Value>(&self, x: T) -> bool {
        self.calls.note(self.name, &x);
        match self.name {
            "even" => x.code() % 2 == 0,
            "positive" => x.code() > 0,
            "always" => true,
            "never" => false,
            _ => self.unknown(0) > 0,
        }
    }

    /// `equal`, `less` and `never`, of two values.
    pub fn test_two<L: Value, R: Value>(&self, x: L, y: R) -> bool {
        self.calls.note_two(self.name, &x, &y);
        match self.name {
            "equal" => x.code() == y.code(),
            "less" => x.code() < y.code(),
            "never" => false,
            _ => self.unknown(0) > 0,
        }
    }

    /// `left`, `right` and `both`: the places that a value gets.
    pub fn place<T: Value, L: Value, R: Value>(&self, x: T) -> EitherOrBoth<L, R> {
        self.calls.note(self.name, &x);
        self.placed(x.code(), x.code().wrapping_add(1))
    }

    /// The same of two values.
    pub fn place_two<L: Value, R: Value>(&self, x: L, y: R) -> EitherOrBoth<L, R> {
        self.calls.note_two(self.name, &x, &y);
        self.placed(x.code(), y.code())
    }

    fn placed<L: Value, R: Value>(&self, left: i32, right: i32) -> EitherOrBoth<L, R> {
        match self.name {
            "left" => EitherOrBoth::Left(L::of_code(left)),
            "both" => EitherOrBoth::Both(L::of_code(left), R::of_code(right)),
            "right" => EitherOrBoth::Right(R::of_code(right)),
            _ => EitherOrBoth::Right(R::of_code(self.unknown(right))),
        }
    }

    /// `left` and `right`: the side that a value gets.
    pub fn side<T: Value, L: Value, R: Value>(&self, x: T) -> Either<L, R> {
        self.calls.note(self.name, &x);
        match self.name {
            "left" => Either::Left(L::of_code(x.code())),
            "right" => Either::Right(R::of_code(x.code())),
            _ => Either::Right(R::of_code(self.unknown(0))),
        }
    }
}
