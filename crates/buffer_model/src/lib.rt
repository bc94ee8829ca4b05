//! What contracts say of buffers: storages, the windows on them, and what a call has of each storage.
#![tactic(auto)]

pub mod laws;
