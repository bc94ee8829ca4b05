//! Kept threads: a crew works on the items of one turn after another, beside its caller.
//!
//! A [`Crew`] keeps its threads asleep between turns. A turn hands a list's items to them by value, in batches of
//! neighbours, and takes them back in place and in order; what no thread can have is the caller's own work. So a turn
//! has the contract of a loop over the list, and costs no start of a thread and no allocation: memory is taken by
//! [`Crew::reserve`] alone.
#![tactic(auto)]

mod batch;
mod kept;
mod plain;
mod size;

pub use handoff::Work;
pub use kept::Crew;
pub use plain::in_turn;
pub use size::threads_for;

#[cfg(test)]
mod tests;
