//! What a step does.
use super::value::{Value, Values};

/// The rule that a step followed, with the numbers that it tells.
#[derive(Clone, Copy, PartialEq, Eq, Debug)]
pub enum Outcome {
    /// it sent on a value that a believed set of processes sent
    Echo {
        round: u8,
        value: Value,
    },
    /// it sent its estimate
    Est {
        round: u8,
        value: Value,
    },
    /// it sent its bin
    Aux {
        round: u8,
        bin: Values,
    },
    /// it closed its round, and perhaps decided there
    Close {
        round: u8,
        values: Values,
        // A flag and no `Option`, since the values say already what was decided.
        decided: bool,
    },
    /// nothing was due
    Idle,
}
