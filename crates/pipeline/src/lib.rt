//! Stages that change or drop frames, one after another, between a decoder and its readers.
#![tactic(auto)]

mod cut;
mod handler;
pub mod laws;
mod pipeline;
mod stage;
mod step;
#[cfg(test)]
mod tests;
mod upper;
mod windows;

pub use handler::{AnyHandler, Handler};
pub use pipeline::Pipeline;
pub use stage::Stage;
pub use step::Step;
