//! Frames that travel together: one chain, and the windows on its bytes that are its frames.
//!
//! A frame costs 16 bytes of a list, which those who share the batch share too. It has no memory, no share of a storage
//! and no count of its own: a share of a batch is one share of each node of its chain, whatever its number of frames.
#![tactic(auto)]

mod batch;
mod frames;
pub mod laws;
mod listed;
mod measured;
mod parts;
mod spot;
#[cfg(test)]
mod tests;
mod window;
mod window_list;

pub use batch::Batch;
pub use frames::Frames;
pub use parts::Parts;
pub use window::Window;
pub use window_list::WindowList;
