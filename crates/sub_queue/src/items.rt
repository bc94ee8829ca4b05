//! What a queue carries.
ghost use Rattle.std.specs.Prelude.{◌≡◌, ℕ, ◌≤◌};

/// Why nothing more comes to a subscriber.
#[derive(Clone, Copy, Debug, PartialEq, Eq)]
pub enum End {
    /// All was published.
    Completed,
    /// The subscriber left.
    Left,
    /// The subscriber was too slow.
    Lagged,
    /// The source failed.
    Source,
    /// The stream has a fault.
    Stream,
    /// The limit was reached.
    Limit,
}

/// What a queue holds: an item, or the end behind all items.
#[derive(Debug, Drop)]
pub enum Item<T> {
    One(T),
    Ended(End),
}

/// What a tap answers: the next item, nothing for now, or the end.
#[derive(Debug, Drop)]
pub enum Taken<T> {
    One(T),
    Empty,
    Ended(End),
}

/// What takes up room in a queue, in a unit of its own: a frame has size 1, a batch as many as it has frames.
pub trait Measured: Drop {
    /// The size, as contracts see it.
    ghost measure: { Self → ℕ };

    /// The size, at least 1. It is asked once for each push, and is to be O(1).
    fn size(&self) -> usize
        ensures { (result ≡ measure self.now) × (1 ≤ result) };
}
