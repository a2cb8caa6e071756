//! What a command answers.
ghost use Rattle.keyed_jobs.specs.Answers.{Stops};

/// What stands on the output, and the status that the program ends with.
#[derive(Drop)]
pub struct Answer {
    pub bytes: Vec<u8>,
    pub status: u8,
    pub outcome: Outcome,
}

/// What the bytes of an answer are.
#[derive(Clone, Copy, Debug)]
pub enum Outcome {
    /// What the command was asked for.
    Made,
    /// A report of the rows for which there is no such: rows in conflict, changes that do not fit, or cells that would be lost.
    Stopped,
}

/// An answer that is a report and no table: these bytes, with status 1.
pub fn stopped(bytes: Vec<u8>) -> Answer
    ensures { Stops result }
{
    Answer {
        bytes,
        status: 1,
        outcome: Outcome::Stopped,
    }
}
