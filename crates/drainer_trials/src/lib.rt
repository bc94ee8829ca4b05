//! A drainer in a kept thread: work that prints to a sink of its own, tried over sinks in memory.
#![tactic(auto)]

mod drainer;

pub use drainer::{Drainer, drain_all};

#[cfg(test)]
mod tests;
