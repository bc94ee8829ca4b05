//! Chains of windows: lists of one or more nodes.
#![tactic(auto)]

mod absorb;
mod chain;
mod ends;
mod fault;
mod joins;
pub mod laws;
mod managed;
mod many;
mod nodes;
mod parts;
mod range;
mod settle;
mod share;
mod slices;
mod tails;
#[cfg(test)]
mod tests;
mod trims;

pub use chain::{Chain, ChainOf, Frame};
pub use fault::CutFault;
pub use settle::rejoin;
pub use slices::Slices;
