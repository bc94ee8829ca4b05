//! A relay as a machine over lists, and what each of its turns keeps. Definitions and laws alone: the code that takes
//! turns stands above.
#![tactic(auto)]

pub mod laws;
