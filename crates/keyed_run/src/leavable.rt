//! An output whose reader may leave before all is written, as `head` does. That is no trouble.

use std::io;
use std::io::{ErrorKind, Write};

/// What a command does once the reader of its output has left.
#[derive(Clone, Copy)]
pub enum WhenLeft {
    /// It goes on, and what it writes is dropped: its status says what it found.
    GoOn,
    /// It stops: there is nothing else to know.
    Stop,
}

/// An output whose reader may leave.
#[derive(Drop)]
pub struct LeavableOutput<'w, W> {
    output: &'w mut W,
    when_left: WhenLeft,
    is_left: bool,
}

impl<'w, W> LeavableOutput<'w, W> {
    /// The output of a command that does this once its reader has left.
    pub fn new(output: &'w mut W, when_left: WhenLeft) -> Self {
        LeavableOutput {
            output,
            when_left,
            is_left: false,
        }
    }

    /// Whether the reader has left, and the command has stopped for it.
    pub fn has_stopped(&self) -> bool {
        match self.when_left {
            WhenLeft::GoOn => false,
            WhenLeft::Stop => self.is_left,
        }
    }

    // The outcome where the output has failed with this error.
    fn outcome(&mut self, error: io::Error) -> io::Result<()> {
        if error.kind() != ErrorKind::BrokenPipe {
            return Err(error);
        }
        self.is_left = true;
        match self.when_left {
            WhenLeft::GoOn => Ok(()),
            WhenLeft::Stop => Err(error),
        }
    }
}

impl<W: Write> Write for LeavableOutput<'_, W> {
    fn write(&mut self, bytes: &[u8]) -> io::Result<usize> {
        if self.is_left {
            return Ok(bytes.len());
        }
        match self.output.write(bytes) {
            Ok(count) => Ok(count),
            Err(error) => {
                self.outcome(error)?;
                Ok(bytes.len())
            }
        }
    }

    fn flush(&mut self) -> io::Result<()> {
        if self.is_left {
            return Ok(());
        }
        match self.output.flush() {
            Ok(()) => Ok(()),
            Err(error) => self.outcome(error),
        }
    }
}
