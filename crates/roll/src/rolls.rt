//! Rolls, and their two states. In neither can a roll be copied or let go: an open one is sealed, and a sealed one is spent.
ghost use Rattle.std.specs.Prelude.{◌≡◌, ◌≤◌};

use std::marker::PhantomData;

/// Faulty processes are being named.
pub struct Open;

/// No process can be named any more.
pub struct Sealed;

/// How many processes and rounds a run has, and which processes are faulty.
// A ghost field and no model, so that whoever has a roll, lent or owned, knows its ranges.
pub struct Roll<State> {
    pub(crate) size: u8,
    pub(crate) rounds: u8,
    /// the faulty processes: process i has the bit of weight 2 to the power i
    pub(crate) faulty: u16,
    pub(crate) state: PhantomData<State>,
    ghost ranges: { (1 ≤ size) × (size ≤ 16) × (1 ≤ rounds) × (rounds ≤ 16) },
}

/// A roll on which faulty processes are named.
pub type OpenRoll = Roll<Open>;

/// A roll from which one run is begun.
pub type SealedRoll = Roll<Sealed>;

impl<State> Roll<State> {
    /// How many processes there are.
    pub fn size(&self) -> u8
        ensures value { result ≡ self.now.size }
        ensures range { (1 ≤ result) × (result ≤ 16) }
    {
        self.size
    }

    /// How many rounds there are.
    pub fn rounds(&self) -> u8
        ensures value { result ≡ self.now.rounds }
        ensures range { (1 ≤ result) × (result ≤ 16) }
    {
        self.rounds
    }
}
