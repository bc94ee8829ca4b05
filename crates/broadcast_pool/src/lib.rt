//! A pool of hubs, each found by its key.
#![tactic(auto)]

mod pool;
#[cfg(test)]
mod tests;

pub use pool::Pool;
