//! Opening a roll, naming the faulty processes on it, and sealing it.
ghost use Rattle.std.specs.Prelude.{◌≡◌};
ghost use Rattle.protocol.specs.Refusals.{answer, leaves, told};
ghost use Rattle.protocol.specs.Sets.{bits, joined};
ghost use Rattle.roll.specs.Refused.{open_questions, name_questions, refusal_of};
ghost use Rattle.roll.specs.Views.{terms, opened, named};

use super::fault::RollFault;
use super::rolls::{OpenRoll, Roll, SealedRoll};
use std::marker::PhantomData;

impl OpenRoll {
    /// A roll on which no process is named.
    pub fn open(size: u8, rounds: u8) -> Result<OpenRoll, RollFault>
        ensures { told terms refusal_of result ≡ answer (open_questions size rounds) (opened size rounds) }
    {
        if !(1..=16).contains(&size) {
            return Err(RollFault::Size);
        }
        if !(1..=16).contains(&rounds) {
            return Err(RollFault::Rounds);
        }
        Ok(Roll {
            size,
            rounds,
            faulty: 0,
            state: PhantomData,
        })
    }

    /// Names a process as faulty. Naming one twice is accepted.
    pub fn name(&mut self, process: u8) -> Result<(), RollFault>
        ensures answer { told (λ x. x) refusal_of result ≡ answer (name_questions (terms self.old) process) tt }
        ensures after { terms self.new ≡ leaves (name_questions (terms self.old) process) (terms self.old) (named (terms self.old) process) }
        ensures members { bits self.new.faulty ≡ leaves (name_questions (terms self.old) process) (bits self.old.faulty) (joined (bits self.old.faulty) process) }
    {
        if process >= self.size {
            return Err(RollFault::Process);
        }
        self.faulty |= 1 << process;
        Ok(())
    }

    /// No process can be named any more.
    pub fn seal(self) -> SealedRoll
        ensures { terms result ≡ terms self }
    {
        let Roll {
            size,
            rounds,
            faulty,
            state: PhantomData,
        } = self;
        Roll {
            size,
            rounds,
            faulty,
            state: PhantomData,
        }
    }
}
