//! Counted units: one word, many holders of one payload, an exact last.
#![tactic(auto)]

mod given;
mod home;
pub mod laws;
mod mint;
mod receipt;
mod standing;
#[cfg(test)]
mod tests;
mod unit;
mod word;

pub use given::Given;
pub use mint::Mint;
pub use receipt::Receipt;
pub use standing::Standing;
pub use unit::{Unit, make};
pub use word::FULL;
