//! Calls that split chains, that join their nodes, and that move them to storages of their own.
#![tactic(auto)]

mod front;
mod joins;
pub mod laws;
mod moves;
#[cfg(test)]
mod tests;

pub use front::split;
pub use joins::{clone_coalesced, coalesce, gather};
pub use moves::unshare;
