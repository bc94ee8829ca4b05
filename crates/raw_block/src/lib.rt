//! Blocks of bytes: memory whose length is fixed when it is made.
#![tactic(auto)]

mod block;
#[cfg(test)]
mod tests;

pub use block::Block;
