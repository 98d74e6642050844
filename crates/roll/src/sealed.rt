//! What is done with a sealed roll.
ghost use Rattle.std.specs.Prelude.{◌≡◌, ◌≤◌};
ghost use Rattle.protocol.specs.Sets.{bits};
ghost use Rattle.franchise.specs.Marks.{set_of};

use super::rolls::{Roll, SealedRoll};
use franchise::members::Members;
use std::marker::PhantomData;

impl SealedRoll {
    /// The faulty processes.
    pub fn faulty(&self) -> Members
        ensures { set_of result ≡ bits self.now.faulty }
    {
        Members::from_bits(self.faulty)
    }

    /// Ends a roll from which no run is begun, and answers its three numbers.
    // By name, since `from` would not say that the roll ends.
    pub fn into_numbers(self) -> (u8, u8, u16)
        ensures value { result ≡ (self.size, self.rounds, self.faulty) }
        ensures ranges { (1 ≤ result.0) × (result.0 ≤ 16) × (1 ≤ result.1) × (result.1 ≤ 16) }
    {
        let Roll {
            size,
            rounds,
            faulty,
            state: PhantomData,
        } = self;
        (size, rounds, faulty)
    }
}
