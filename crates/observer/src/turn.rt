//! What a turn answers.
use sub_queue::End;

/// How many items a turn took, an end among them, and how the drainer stands after it.
#[derive(Clone, Copy, Debug, PartialEq, Eq)]
pub struct Turn {
    pub took: u64,
    pub state: Drained,
}

/// How a drainer stands after a turn.
#[derive(Clone, Copy, Debug, PartialEq, Eq)]
pub enum Drained {
    /// It took as many items as it was to, and no end yet.
    Done,
    /// It took fewer: the queue had no more.
    Empty,
    /// The end was taken, in this turn or before.
    Ended(End),
}
