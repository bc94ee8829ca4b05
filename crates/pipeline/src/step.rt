//! What becomes of a frame.
use iobuf_chain::Frame;
use std::fmt;

/// What a stage or a pipeline answers of a frame.
#[derive(Drop)]
pub enum Step {
    /// The frame goes on.
    Pass(Frame),
    /// The frame is to be left out.
    Skip(Frame),
    /// The frame is faulty, with a number that the handler chose.
    Fail(u32, Frame),
}

impl fmt::Debug for Step {
    fn fmt<W: fmt::Write>(&self, f: &mut fmt::Formatter<W>) -> fmt::Result {
        match self {
            Step::Pass(frame) => write!(f, "Pass({frame:?})"),
            Step::Skip(frame) => write!(f, "Skip({frame:?})"),
            Step::Fail(number, frame) => write!(f, "Fail({number}, {frame:?})"),
        }
    }
}
