//! What a message says.
use super::value::{Value, Values};

/// An estimate, or the bin of a round.
#[derive(Clone, Copy, PartialEq, Eq, Debug)]
pub enum Payload {
    Est(Value),
    Aux(Values),
}
