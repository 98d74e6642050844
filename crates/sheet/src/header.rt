//! The header: the first entry of a sheet.
ghost use Rattle.std.specs.Prelude.{◌≡◌, ◌+◌};
ghost use Rattle.protocol.specs.Refusals.{answer, told};
ghost use Rattle.sheet.specs.Bytes.{words};
ghost use Rattle.sheet.specs.Faults.{refusal_of};
ghost use Rattle.sheet.specs.Headers.{first_entry, known_kind, kind_by};
ghost use Rattle.sheet.specs.Entries.{entry_questions};

use super::entry::Entry;
use super::fault::SheetFault;
use super::kind::Kind;
use super::wire_kind::{UnknownWire, WireKind};
use franchise::tally::Threshold;
use franchise::votes::Vote;
use std::array;

/// How the processes vote.
#[derive(Clone, Copy, PartialEq, Eq, Debug)]
pub enum Ballot {
    Heads {
        threshold: u8,
    },
    /// the votes of processes that there are not are skipped
    Votes {
        threshold: Threshold,
        votes: [Vote; 16],
    },
}

#[derive(Clone, Copy, PartialEq, Eq, Debug)]
pub struct Header {
    /// how many processes there are
    pub size: u8,
    pub rounds: u8,
    /// the faulty processes as bits
    pub faulty: u16,
    /// the kind of wire, or the byte that names none
    pub wire: Result<WireKind, UnknownWire>,
    pub ballot: Ballot,
}

impl Header {
    /// The header of a sheet, if the sheet begins with a whole one.
    pub fn read(sheet: &[u8]) -> Result<Header, SheetFault>
        ensures { told known_kind refusal_of result ≡ answer (entry_questions sheet.now 0) (first_entry sheet.now) }
    {
        let entry = Entry::at(sheet, 0);
        let (ballot, rest) = match entry.kind()? {
            Kind::Heads => {
                let threshold = entry.byte(2);
                (Ballot::Heads { threshold }, 3)
            }
            Kind::Votes => {
                let threshold = entry.word(2);
                let votes = votes_of(&entry);
                (Ballot::Votes { threshold, votes }, 4)
            }
            // no other kind may stand there
            _ => return Err(SheetFault::FirstKind),
        };
        Ok(Header {
            size: entry.byte(1),
            rounds: entry.byte(rest),
            faulty: entry.word(rest + 1),
            wire: WireKind::try_from(entry.byte(rest + 3)),
            ballot,
        })
    }

    /// The kind of the entry that the header is.
    pub fn kind(&self) -> Kind
        ensures { result ≡ kind_by self.now.ballot }
    {
        match self.ballot {
            Ballot::Heads { .. } => Kind::Heads,
            Ballot::Votes { .. } => Kind::Votes,
        }
    }
}

/// The votes of sixteen processes.
fn votes_of(header: &Entry) -> [Vote; 16]
    ensures { result ≡ words header.now.sheet.now (header.now.place + 8) 16 }
{
    array::from_fn(|i| header.word(8 + 2 * i))
}
