//! Decoders that mark: a piece of a stream goes on as one chain, and its frames are windows on it.
//!
//! A chain is cut once a call, at the end of its last unit. No frame takes memory, a share of a storage or an atomic
//! step; the list of windows is one allocation a call.
#![tactic(auto)]

mod mark;
mod marker;
mod marking;
mod pieces;
mod windows;

pub use mark::{Finds, Mark};
pub use marker::Marker;
pub use pieces::Marked;
