//! Cuts a stream that comes in pieces into frames by a length field, or into frames of one size.
#![tactic(auto)]

mod fixed_scanner;
mod length_scanner;
mod numbers;

pub use fixed_scanner::FixedScanner;
pub use frame_rule::{
    Codec, CodecFault, Decoder, FaultKind, FeedFault, FrameUnit, Framer, Haul, Scan, Scanner, check,
};
pub use length_scanner::LengthScanner;

/// Cuts a stream into frames by a length field.
pub type LengthDecoder = Framer<LengthScanner>;

/// Cuts a stream into frames of one size.
pub type FixedDecoder = Framer<FixedScanner>;
