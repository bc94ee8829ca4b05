//! Queues of nodes, which may be empty.
#![tactic(auto)]

mod front;
mod grow;
mod queue;
mod tail;
#[cfg(test)]
mod tests;

pub use queue::{Queue, QueueOf};
