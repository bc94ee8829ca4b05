//! Stages that a caller makes.
ghost use Rattle.std.specs.Prelude.{◌≡◌, IfErr, IfOk, OnErr, OnOk};
ghost use Rattle.buffer_model.specs.Segment.{bytes_of};
ghost use Rattle.buffer_model.specs.Minted.{NumbersOn};
ghost use Rattle.pipeline.specs.Meanings.{Machine, reached, said_by};
ghost use Rattle.pipeline.specs.Stages.{said_of};

use crate::step::Step;
use iobuf_chain::Frame;
use share_count::Mint;
use std::alloc::Global;

/// A stage that a caller makes. What it says of a frame, and what it holds afterwards, follow from what it holds and
/// from the frame's bytes alone.
pub trait Handler: Drop {
    /// What it holds, and what it makes of frames.
    ghost machine: { Self → Machine };

    /// Takes a frame and says what becomes of it. At want of memory the frame is handed back with its bytes, and the
    /// handler holds what it held. Storages that it needs are numbered by this mint, which goes on and is never
    /// another.
    fn read(&mut self, alloc: Global, frame: Frame, mint: &mut Mint) -> Result<Step, Frame>
        ensures says { IfOk result (λ s. said_of s ≡ said_by (machine self.old) (bytes_of frame.entry)) }
        ensures holds { OnOk result (machine self.new ≡ reached (bytes_of frame.entry) (machine self.old)) }
        ensures refused { IfErr result (λ f. bytes_of f ≡ bytes_of frame.entry) }
        ensures stays { OnErr result (machine self.new ≡ machine self.old) }
        ensures mint { NumbersOn mint.old mint.new };
}

/// A handler of any kind, which another thread may take.
pub type AnyHandler = Box<dyn Handler + Send>;

impl Handler for AnyHandler {
    ghost machine = { λ b. (Handler-box b).machine b.value };

    fn read(&mut self, alloc: Global, frame: Frame, mint: &mut Mint) -> Result<Step, Frame> {
        (**self).read(alloc, frame, mint)
    }
}
