//! The listing of a sheet: its lines, and their text.
#![tactic(auto)]

pub mod line;
pub mod listing;
