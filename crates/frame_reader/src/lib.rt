//! The frames of anything that can be read: a file, standard input, a slice, a socket.
#![tactic(auto)]

mod blocks;
mod filling;
mod reader;

pub use any_scanner::AnyDecoder;
pub use frame_rule::{Codec, CodecFault, Decoder, FaultKind, FrameUnit};
pub use reader::{FrameError, FrameReader};

#[cfg(test)]
mod tests;
