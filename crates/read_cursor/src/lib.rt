//! Cursors that read numbers and bytes of chains, wherever their nodes end.
#![tactic(auto)]

mod cursor;
mod number;
mod reads;
mod runs;
#[cfg(test)]
mod tests;
mod until;

pub use cursor::{Cursor, Short};
pub use number::Number;
pub use until::FindFault;
