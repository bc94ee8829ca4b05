//! The runs of the program over any host: what is read and written, and the status.
#![tactic(auto)]

mod cutter;
mod framing;
pub mod laws;
mod run;
mod status;
mod stream_fault;
mod unit_lines;

pub use frame_rule::{Codec, FaultKind};
pub use framing::frames;
pub use relay_words::UsageKind;
pub use run::run_plain;
pub use status::Status;
pub use stream_fault::StreamFault;

#[cfg(test)]
mod tests;
