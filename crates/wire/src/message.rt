//! A message, in numbers.
ghost use Rattle.std.specs.Prelude.{◌<◌, ◌≤◌};

/// Whether a message tells an estimate or the bin of a round.
#[derive(Clone, Copy, PartialEq, Eq, Debug)]
pub enum MessageKind {
    Est,
    Aux,
}

/// What one process sends to another. Its numbers are in range, so it has a code.
#[derive(Clone, Copy, PartialEq, Eq, Debug)]
pub struct Message {
    pub sender: u8,
    pub receiver: u8,
    pub kind: MessageKind,
    /// from 1 on
    pub round: u8,
    // A number, since every code has a message, also where its content means nothing.
    pub content: u8,
    ghost ranges: { ((sender < 16) × (receiver < 16)) × ((1 ≤ round) × (round ≤ 16)) × (content < 4) },
}
