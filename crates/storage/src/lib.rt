//! Storages: blocks with a way of release, counted by weight, and the holds on them.
#![tactic(auto)]

mod back;
mod hold;
mod listed;
mod make;
mod managed;
mod release;
mod returns;
mod stored;
#[cfg(test)]
mod tests;
mod untold;

pub use back::{Back, Receipt};
pub use hold::{Barred, Hold};
pub use managed::Managed;
pub use release::{NoOwner, Owner, Release, Told};
pub use returns::Returns;
pub use stored::{Ended, Stored};
