//! Frames that end with a delimiter.
#![tactic(auto)]

mod delim_scanner;
mod find;
mod tail;

pub use delim_scanner::DelimScanner;
pub use frame_rule::{
    Codec, CodecFault, Decoder, FaultKind, FeedFault, FrameUnit, Framer, Haul, Scan, Scanner, check,
};

/// Cuts a stream into frames that end with one of some delimiters.
pub type DelimDecoder = Framer<DelimScanner>;
