//! Turns of drainers in kept threads, beside what their caller does: a publication, say.
#![tactic(auto)]

mod turning;
mod turns;

pub use turning::Turning;
pub use turns::{reserve_turns, turn_all, turn_beside};
