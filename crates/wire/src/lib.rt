//! Wires: what holds the messages that are sent and not yet delivered.
#![tactic(auto)]

pub mod bag;
pub mod codes;
pub mod counts;
pub mod fault;
pub mod meaning;
pub mod message;
pub mod ties;
