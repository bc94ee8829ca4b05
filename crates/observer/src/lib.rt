//! What is taken from a queue of batches: drainers, which write frames as framed text, and watchers, which are told of
//! them.
#![tactic(auto)]

mod counting;
mod drainer;
mod giving;
pub mod laws;
mod metered;
mod outflow;
mod taking;
mod telling;
mod turn;
mod watcher;

pub use drainer::Drainer;
pub use turn::{Drained, Turn};
pub use watcher::{AnyWatcher, Audience, Watcher};

#[cfg(test)]
mod tests;
