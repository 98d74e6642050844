//! Franchises: which sets of processes are tolerable, believed, accepted and closing.
#![tactic(auto)]

pub mod counted;
pub mod fault;
pub mod heads;
pub mod laws;
pub mod members;
pub mod table;
pub mod tally;
pub mod votes;
