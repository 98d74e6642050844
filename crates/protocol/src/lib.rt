//! The subject: what the engine plays, as definitions, and the types that every layer shares.
#![tactic(auto)]

pub mod outcome;
pub mod payload;
pub mod refusal;
pub mod theorems;
pub mod value;
