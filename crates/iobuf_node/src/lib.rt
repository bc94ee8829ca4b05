//! Windows on blocks: the nodes of which chains are made.
#![tactic(auto)]

mod copies;
pub mod laws;
mod make;
mod mine;
mod node;
mod share;
#[cfg(test)]
mod tests;
mod wrapped;

pub use mine::Mine;
pub use node::{IoBuf, IoBufOf};
pub use wrapped::Wrapped;
