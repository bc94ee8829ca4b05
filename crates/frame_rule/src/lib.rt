//! The one way in which every codec cuts a stream: a scanner for each kind finds where units end.
#![tactic(auto)]

mod cuts;
mod decoder;
mod endings;
mod feeding;
mod feeds;
mod framer;
mod haul;
mod progress;
mod scanner;
mod unit;

pub use cuts::cut_front;
pub use decoder::{Decoder, FeedFault};
pub use endings::{Ending, scan_at};
pub use feeds::feed_all;
pub use frame_head::{Codec, CodecFault, FaultKind, check};
pub use framer::Framer;
pub use haul::Haul;
pub use scanner::{Scan, Scanner};
pub use unit::FrameUnit;
