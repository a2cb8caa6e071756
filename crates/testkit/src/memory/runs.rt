//! What the runs of one call show, of which each has another request refused.

use super::{Refusing, Tokens, Wrong};
use std::alloc::{AllocError, Global};
use std::fmt::Debug;

/// The runs of one call with values out of [`Tokens`], all of which are to be dropped after each run.
#[derive(Drop)]
pub struct Runs<'a> {
    alloc: Global,
    memory: &'a Refusing<Global>,
    tokens: &'a Tokens,
    alive: usize,
}

impl<'a> Runs<'a> {
    /// Runs that start with as many values alive as there are now.
    pub fn new(alloc: Global, memory: &'a Refusing<Global>, tokens: &'a Tokens) -> Runs<'a> {
        Runs {
            alloc,
            memory,
            tokens,
            alive: tokens.alive(),
        }
    }

    /// Whether a run was whole that ended like this, and not refused. A whole answer shows as `want`.
    pub fn is_whole<T: Debug + Drop>(
        &self,
        ended: Result<T, AllocError>,
        want: &str,
    ) -> Result<bool, Wrong> {
        let judged = self.memory.judge(ended)?;
        let is_whole = judged.is_some();
        if let Some(answer) = judged {
            let shown = format!(in self.alloc; "{answer:?}").map_err(|_refused| Wrong::Refused)?;
            if shown.as_str() != want {
                return Err(Wrong::Differs);
            }
        }
        if self.tokens.alive() == self.alive {
            Ok(is_whole)
        } else {
            Err(Wrong::Kept)
        }
    }
}
