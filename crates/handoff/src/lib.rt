//! A handoff: an item goes to another thread by value, is worked on there, and comes back.
//!
//! An [`Idle`] end hands an item over and becomes [`Busy`]; the [`Worker`] in the other thread works on it; the busy
//! end takes the item back and is idle again. So there is one item at a time, and an answer belongs to its question.
//! The item moves into a slot that both ends share and out of it again: no step allocates.
#![tactic(auto)]

mod ends;
mod meeting;
mod rule;
mod work;

pub use ends::{Busy, Idle, Worker, make, start};
pub use rule::View;
pub use work::Work;

#[cfg(test)]
mod tests;
