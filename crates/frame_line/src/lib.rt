//! Frames that are lines.
#![tactic(auto)]

mod line_scanner;

pub use frame_rule::{
    Codec, CodecFault, Decoder, FaultKind, FeedFault, FrameUnit, Framer, Haul, Scan, Scanner, check,
};
pub use line_scanner::LineScanner;

/// Cuts a stream into lines.
pub type LineDecoder = Framer<LineScanner>;
