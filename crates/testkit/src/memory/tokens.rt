//! Values that count how many of them there are.

use std::alloc::{AllocError, Global};
use std::rc::Rc;

/// Three numbers of which each knows how many values share it. A test makes its values of these, so that the count of all that are
/// alive is the same after a run exactly where the run has dropped each value that it took, and none twice.
#[derive(Drop)]
pub struct Tokens {
    numbers: [Rc<u8>; 3],
}

impl Tokens {
    pub fn new(alloc: Global) -> Result<Tokens, AllocError> {
        Ok(Tokens {
            numbers: [Rc::new(alloc, 1)?, Rc::new(alloc, 2)?, Rc::new(alloc, 3)?],
        })
    }

    /// Another 1.
    pub fn one(&self) -> Result<Rc<u8>, AllocError> {
        self.numbers[0].clone()
    }

    /// Another 2.
    pub fn two(&self) -> Result<Rc<u8>, AllocError> {
        self.numbers[1].clone()
    }

    /// Another 3.
    pub fn three(&self) -> Result<Rc<u8>, AllocError> {
        self.numbers[2].clone()
    }

    /// Another 1 for 1, another 2 for 2, and another 3 for each other number.
    pub fn of(&self, number: u8) -> Result<Rc<u8>, AllocError> {
        match number {
            1 => self.one(),
            2 => self.two(),
            _ => self.three(),
        }
    }

    /// How many values are alive.
    pub fn alive(&self) -> usize {
        let mut sum = 0usize;
        for number in &self.numbers {
            sum = sum.saturating_add(Rc::strong_count(number));
        }
        sum
    }
}
