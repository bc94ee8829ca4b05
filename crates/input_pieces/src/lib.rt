//! Input that is read in pieces, each straight into the block of a node.
#![tactic(auto)]

mod reader;

pub use buffered_io::{Filled, Stop};
pub use iobuf_node::IoBuf;
pub use reader::{NoPiece, PieceReader};
pub use share_count::Mint;

#[cfg(test)]
mod tests;
