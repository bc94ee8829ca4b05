//! A hub: batches of frames go from one publisher to many subscribers, each over a queue of its own.
#![tactic(auto)]

mod answers;
mod hub;
mod leaving;
mod members;
mod publishing;
mod sending;
mod subscription;

pub use answers::{PubFault, Published, Sub, SubFault, Unknown};
pub use hub::Hub;
pub use subscription::Standing;

#[cfg(test)]
mod tests;
