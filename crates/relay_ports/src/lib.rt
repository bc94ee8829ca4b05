//! The outside of a run: sources, sinks and the host that opens them, each with one state, and their forms in memory.
#![tactic(auto)]

mod failures;
mod host;
mod lender;
mod lent;
mod memory;
mod memory_host;
mod name;
mod openings;
mod register;
mod sink;
mod source;
mod tally;

pub use failures::{Failed, NotOpened};
pub use host::Host;
pub use lender::Lender;
pub use lent::Lent;
pub use memory::{MemSink, MemSource};
pub use memory_host::MemHost;
pub use openings::Openings;
pub use sink::Sink;
pub use source::Source;
pub use tally::{Faults, one_more};

#[cfg(test)]
mod tests;
