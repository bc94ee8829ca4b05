ghost use Rattle.std.specs.Prelude.{◌≡◌, []};

use frame_head::FaultKind;
use std::alloc::Global;
use storage::Returns;

/// A unit of a stream, by where it lies. Places are offsets in the stream, in bytes.
#[derive(Clone, Copy, Debug, PartialEq, Eq)]
pub enum Mark {
    /// A frame whose unit begins at `at`, and whose bytes are those from one place up to another.
    Frame { at: u64, from: u64, to: u64 },
    /// Something in the place of a frame.
    Fault { at: u64, kind: FaultKind },
}

/// What a marking call found, and what marking calls handed back. The list of marks is the last call's, and its memory
/// serves the next. What was handed back may be taken out between calls.
#[derive(Debug, Drop)]
pub struct Finds {
    /// Frames and faults, in the order of the stream.
    pub marks: Vec<Mark>,
    /// What the nodes handed back whose bytes are in no batch.
    pub back: Vec<Returns>,
}

impl Finds {
    /// An empty one. Takes no memory.
    pub fn new(alloc: Global) -> Finds
        ensures marks { result.marks.items ≡ [] }
        ensures back { result.back.items ≡ [] }
    {
        Finds {
            marks: Vec::new(alloc),
            back: Vec::new(alloc),
        }
    }
}
