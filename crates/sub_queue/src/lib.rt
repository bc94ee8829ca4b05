//! A queue from one feed to one tap. Each end knows what it did itself, and learns how far the other has come.
#![tactic(auto)]

mod feed;
mod items;
pub mod laws;
mod outstanding;
mod pair;
mod rule;
mod taking;
mod tap;
#[cfg(test)]
mod tests;

pub use feed::Feed;
pub use items::{End, Item, Measured, Taken};
pub use pair::{make, waiting};
pub use tap::Tap;
