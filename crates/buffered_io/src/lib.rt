//! Blocks that are filled from a source, and text that is gathered on its way to a sink.
#![tactic(auto)]

mod printer;
mod reading;
mod texts;
mod writing;

pub use printer::Printer;
pub use reading::{Filled, Stop, fill, probe};
pub use writing::write_all;

#[cfg(test)]
mod tests;
