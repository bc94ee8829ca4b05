//! The hub as a machine, and what holds of it after every list of events. Definitions and laws alone: the code that
//! publishes stands above.
#![tactic(auto)]

pub mod laws;
