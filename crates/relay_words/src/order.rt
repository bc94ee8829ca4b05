//! What the words ask for.
use crate::name::Name;
use crate::stages::StageWords;
use crate::subscribers::SubWords;
use frame_head::{Codec, Out};

/// A command with its values. Sizes are in bytes.
#[derive(Debug, Drop)]
pub enum Order {
    /// Cut the input into frames and report them.
    Frames {
        codec: Codec,
        block: usize,
        limit: u64,
        input: Name,
    },
    /// Run a script of buffer calls.
    Chain {
        input: Name,
    },
    /// Hand the frames of the input to subscribers. `cap` is in frames; `drop_slow` says that a subscriber with a full
    /// queue is dropped.
    Relay {
        codec: Codec,
        out: Out,
        stages: StageWords,
        block: usize,
        cap: usize,
        drop_slow: bool,
        limit: u64,
        input: Name,
        subs: SubWords,
    },
    /// Hand so many made frames to four subscribers in memory.
    Mill {
        n: u64,
    },
}
