//! Why a franchise is refused.
ghost use Rattle.std.specs.Prelude.{◌≡◌};
ghost use Rattle.franchise.specs.Refused.{refusal_of};

use protocol::refusal::{Layer, Refusal};

#[derive(Clone, Copy, PartialEq, Eq, Debug)]
pub enum FranchiseFault {
    /// the number of processes is not from 1 to 16
    Size,
    /// a vote is not from 1 to 1,000
    Vote,
    /// the votes are not above three times the threshold
    Threshold,
}

/// The number of the fault, and the layer where it arose.
impl From<FranchiseFault> for Refusal {
    ghost from_gives = { λ f r. r ≡ refusal_of f };

    fn from(fault: FranchiseFault) -> Refusal {
        let number = match fault {
            FranchiseFault::Size => 11,
            FranchiseFault::Vote => 13,
            FranchiseFault::Threshold => 14,
        };
        Refusal {
            number,
            layer: Layer::Franchise,
        }
    }
}
