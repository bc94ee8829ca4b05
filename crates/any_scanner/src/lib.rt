//! One scanner for every codec.
#![tactic(auto)]

mod any_scanner;

pub use any_scanner::AnyScanner;
pub use frame_rule::{
    Codec, CodecFault, Decoder, FaultKind, FeedFault, FrameUnit, Framer, Haul, Scan, Scanner, check,
};

/// Cuts a stream into frames by any codec.
pub type AnyDecoder = Framer<AnyScanner>;
