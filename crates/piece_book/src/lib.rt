//! Receipts of lent blocks are joined, and each block goes back to its host once.
#![tactic(auto)]

mod book;
mod homing;
pub mod laws;
mod piece;

pub use book::PieceBook;

#[cfg(test)]
mod tests;
