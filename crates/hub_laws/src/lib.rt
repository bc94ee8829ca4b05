//! The calls of a hub are events of the machine. Definitions and laws alone: a hub with its taps stands for a state of
//! the machine, and what each call says leads to a hub that stands for the state after its events.
#![tactic(auto)]

pub mod laws;
