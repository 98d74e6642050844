//! Sheets: their entries, and what they are refused for.
#![tactic(auto)]

pub mod entry;
pub mod fault;
pub mod header;
pub mod judge;
pub mod kind;
pub mod wire_kind;
