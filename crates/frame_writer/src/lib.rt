//! Frames written as framed text: the way from frames to the bytes that a decoder reads.
//!
//! Every call prints to a `Printer`, which gathers what it prints into few large writes. A frame's bytes are copied
//! into its room, and nowhere else. A `Length` field has 1, 2, 4 or 8 bytes, as `check_out` finds it: each call asks
//! for that.
#![tactic(auto)]

mod batches;
pub mod laws;
mod over;
mod parts;
mod writing;

pub use batches::{print_batch, write_batch, write_chain};
pub use over::FrameOver;
pub use parts::{write_frames, write_parts};
pub use writing::write_frame;

#[cfg(test)]
mod tests;
