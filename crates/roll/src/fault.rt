//! Why a call on a roll is refused.
ghost use Rattle.std.specs.Prelude.{◌≡◌};
ghost use Rattle.roll.specs.Refused.{refusal_of};

use protocol::refusal::{Layer, Refusal};

#[derive(Clone, Copy, PartialEq, Eq, Debug)]
pub enum RollFault {
    /// a process is not below the number of processes
    Process,
    /// the number of processes is not from 1 to 16
    Size,
    /// the number of rounds is not from 1 to 16
    Rounds,
}

/// The number of the fault, and the layer where it arose.
impl From<RollFault> for Refusal {
    ghost from_gives = { λ f r. r ≡ refusal_of f };

    fn from(fault: RollFault) -> Refusal {
        let number = match fault {
            RollFault::Process => 2,
            RollFault::Size => 11,
            RollFault::Rounds => 12,
        };
        Refusal {
            number,
            layer: Layer::Roll,
        }
    }
}
