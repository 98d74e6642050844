//! Rolls: how many processes and rounds a run has, and which processes are faulty.
#![tactic(auto)]

pub mod fault;
pub mod open;
pub mod rolls;
pub mod sealed;
