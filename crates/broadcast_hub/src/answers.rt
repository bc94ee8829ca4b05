//! What a hub answers.
use frame_batch::Batch;
use std::fmt;
use storage::Returns;
use sub_queue::{End, Feed};

/// A subscription: its id, and how many frames were published when it came.
#[derive(Clone, Copy, Debug, PartialEq, Eq)]
pub struct Sub {
    pub id: u64,
    pub first: u64,
}

/// Why nobody was subscribed. The feed comes back as it was.
#[derive(Drop)]
pub enum SubFault {
    /// The hub is closed, with this end.
    Closed(End, Feed<Batch>),
    /// There are 256 subscriptions already that are live or leaving.
    Full256(Feed<Batch>),
    /// Memory was refused, or all ids were given out.
    NoMemory(Feed<Batch>),
}

/// What became of a batch.
#[derive(Drop)]
pub struct Published {
    /// How many first frames were published.
    pub count: usize,
    /// The batch of the other frames, where there are any.
    pub rest: Option<Batch>,
    /// The batch itself, given back, where nobody took it.
    pub returns: Option<Returns>,
}

/// Why nothing was published.
#[derive(Drop)]
pub enum PubFault {
    /// The live subscription of this id has no room for a frame. The batch comes back as it was.
    Blocked(u64, Batch),
    /// Memory was refused. The batch comes back with all its weight.
    NoMemory(Batch),
}

/// No live subscription has this id.
#[derive(Clone, Copy, Debug, PartialEq, Eq)]
pub struct Unknown {
    pub id: u64,
}

impl fmt::Debug for SubFault {
    fn fmt<W: fmt::Write>(&self, f: &mut fmt::Formatter<W>) -> fmt::Result {
        match self {
            SubFault::Closed(end, _) => write!(f, "Closed({end:?})"),
            SubFault::Full256(_) => write!(f, "Full256"),
            SubFault::NoMemory(_) => write!(f, "NoMemory"),
        }
    }
}

impl fmt::Debug for PubFault {
    fn fmt<W: fmt::Write>(&self, f: &mut fmt::Formatter<W>) -> fmt::Result {
        match self {
            PubFault::Blocked(id, batch) => write!(f, "Blocked({id}, {batch:?})"),
            PubFault::NoMemory(batch) => write!(f, "NoMemory({batch:?})"),
        }
    }
}
