//! Why a sheet is refused.
ghost use Rattle.std.specs.Prelude.{◌≡◌};
ghost use Rattle.sheet.specs.Faults.{refusal_of, at_place};
ghost use Rattle.sheet.specs.declared.fault.SheetFault.TheVariants.{Roll as RollCase, Franchise as FranchiseCase, WireByte as WireCase};

use super::wire_kind::UnknownWire;
use franchise::fault::FranchiseFault;
use protocol::refusal::{Layer, Refusal};
use roll::fault::RollFault;

#[derive(Clone, Copy, PartialEq, Eq, Debug)]
pub enum SheetFault {
    /// it has more than 32,768 bytes
    TooLong,
    /// its first entry is no header
    FirstKind,
    /// a later entry is a header
    LaterKind,
    /// an entry has no known kind
    UnknownKind,
    /// an entry's body is not whole
    Short,
    /// the header names no kind of wire
    WireByte,
    /// the header's roll is refused
    Roll(RollFault),
    /// the header's franchise is refused
    Franchise(FranchiseFault),
    /// the header's faulty processes are not tolerable
    Untolerable,
}

/// A fault, and the place in the sheet where it stands.
#[derive(Clone, Copy, PartialEq, Eq, Debug)]
pub struct PlacedFault {
    pub place: usize,
    pub fault: SheetFault,
}

/// The number of the fault, and the layer where it arose.
impl From<SheetFault> for Refusal {
    ghost from_gives = { λ f r. r ≡ refusal_of f };

    fn from(fault: SheetFault) -> Refusal {
        let number = match fault {
            SheetFault::TooLong => 20,
            SheetFault::FirstKind => 21,
            SheetFault::LaterKind => 22,
            SheetFault::UnknownKind => 23,
            SheetFault::Short => 24,
            SheetFault::WireByte => 25,
            SheetFault::Roll(fault) => return Refusal::from(fault),
            SheetFault::Franchise(fault) => return Refusal::from(fault),
            SheetFault::Untolerable => {
                return Refusal {
                    number: 16,
                    layer: Layer::Run,
                };
            }
        };
        Refusal {
            number,
            layer: Layer::Sheet,
        }
    }
}

impl From<RollFault> for SheetFault {
    ghost from_gives = { λ f r. r ≡ RollCase f };

    fn from(fault: RollFault) -> SheetFault {
        SheetFault::Roll(fault)
    }
}

impl From<FranchiseFault> for SheetFault {
    ghost from_gives = { λ f r. r ≡ FranchiseCase f };

    fn from(fault: FranchiseFault) -> SheetFault {
        SheetFault::Franchise(fault)
    }
}

impl From<UnknownWire> for SheetFault {
    ghost from_gives = { λ _ r. r ≡ WireCase };

    fn from(_: UnknownWire) -> SheetFault {
        SheetFault::WireByte
    }
}

/// Adds the place to a fault.
pub fn placed<T>(place: usize, answer: Result<T, SheetFault>) -> Result<T, PlacedFault>
    ensures { result ≡ at_place place answer }
{
    answer.map_err(|fault| PlacedFault { place, fault })
}
