ghost use Rattle.std.specs.Prelude.{◌≡◌, []};

use crate::unit::FrameUnit;
use std::alloc::Global;
use storage::Returns;

/// What decoders found in what they were fed, and what they handed back of it. It may be emptied between calls.
#[derive(Debug, Drop)]
pub struct Haul {
    /// Frames and faults, in the order of the stream.
    pub units: Vec<FrameUnit>,
    /// What the nodes handed back whose bytes are used up.
    pub back: Vec<Returns>,
}

impl Haul {
    /// An empty one. Takes no memory.
    pub fn new(alloc: Global) -> Haul
        ensures units { result.units.items ≡ [] }
        ensures back { result.back.items ≡ [] }
    {
        Haul {
            units: Vec::new(alloc),
            back: Vec::new(alloc),
        }
    }
}
