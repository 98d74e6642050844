//! Why a call on a wire is refused.
ghost use Rattle.std.specs.Prelude.{◌≡◌};
ghost use Rattle.wire.specs.Refused.{refusal_of};

use protocol::refusal::{Layer, Refusal};

#[derive(Clone, Copy, PartialEq, Eq, Debug)]
pub enum WireFault {
    /// the code is not below 32,768
    Code,
    /// no place is free
    Full,
    /// no message waits
    Empty,
}

/// The number of the fault, and the layer where it arose.
impl From<WireFault> for Refusal {
    ghost from_gives = { λ f r. r ≡ refusal_of f };

    fn from(fault: WireFault) -> Refusal {
        let number = match fault {
            WireFault::Code => 19,
            WireFault::Full => 9,
            WireFault::Empty => 10,
        };
        Refusal {
            number,
            layer: Layer::Wire,
        }
    }
}
