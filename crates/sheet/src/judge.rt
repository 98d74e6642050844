//! Judging a header: whether a run can be begun as it says.
ghost use Rattle.std.specs.Prelude.{◌≡◌, length, take, if◌then◌else◌, Ok, Err, OnOk};
ghost use Rattle.protocol.specs.Refusals.{answer, told};
ghost use Rattle.protocol.specs.Sets.{bits};
ghost use Rattle.franchise.specs.Marks.{set_of};
ghost use Rattle.franchise.specs.Polls.{votes as votes_poll};
ghost use Rattle.franchise.specs.Tables.{table_poll};
ghost use Rattle.franchise.specs.Refused.{votes_questions, refusal_of as franchise_refusal_of};
ghost use Rattle.roll.specs.Refused.{refusal_of as roll_refusal_of};
ghost use Rattle.roll.specs.Views.{terms};
ghost use Rattle.sheet.specs.declared.fault.SheetFault.TheVariants.{Untolerable};
ghost use Rattle.sheet.specs.Faults.{refusal_of};
ghost use Rattle.sheet.specs.Headers.{header_questions, roll_questions, franchise_questions, naming_questions, roll_at, all_named};

use super::fault::SheetFault;
use super::header::{Ballot, Header};
use franchise::fault::FranchiseFault;
use franchise::heads::Heads;
use franchise::laws::Franchise;
use franchise::members::Members;
use franchise::tally::Threshold;
use franchise::votes::{Vote, Votes};
use roll::fault::RollFault;
use roll::rolls::{OpenRoll, SealedRoll};

impl Header {
    /// Whether a run can be begun as the header says.
    pub fn judge(&self) -> Result<(), SheetFault>
        ensures { told (λ x. x) refusal_of result ≡ answer (header_questions self.now) tt }
    {
        let _kind = self.wire?;
        let roll = self.roll()?;
        let judged = self.ballot.judge(&roll);
        let _ = roll.into_numbers();
        judged
    }

    /// The sealed roll on which the header's faulty processes are named.
    fn roll(&self) -> Result<SealedRoll, RollFault>
        ensures { told terms roll_refusal_of result ≡ answer (roll_questions self.now) (roll_at self.now) }
    {
        let mut roll = OpenRoll::open(self.size, self.rounds)?;
        let named = name_all(&mut roll, self.faulty);
        let roll = roll.seal();
        // No `?` and no combinator, since a roll on which a naming was refused cannot be let go.
        match named {
            Ok(()) => Ok(roll),
            Err(fault) => {
                let _ = roll.into_numbers();
                Err(fault)
            }
        }
    }
}

impl Ballot {
    /// Whether the franchise can be made, and the processes may be faulty together in it.
    fn judge(&self, roll: &SealedRoll) -> Result<(), SheetFault>
        ensures { told (λ x. x) refusal_of result ≡ answer (franchise_questions roll.now.size self.now (bits roll.now.faulty)) tt }
    {
        let size = roll.size();
        let faulty = roll.faulty();
        match *self {
            Ballot::Heads { threshold } => {
                tolerates(&Heads::new(size, Threshold::from(threshold))?, &faulty)
            }
            Ballot::Votes { threshold, votes } => {
                tolerates(&first_votes(&votes, roll, threshold)?, &faulty)
            }
        }
    }
}

/// A franchise by the votes of the processes that there are.
fn first_votes(
    votes: &[Vote; 16],
    roll: &SealedRoll,
    threshold: Threshold,
) -> Result<Votes, FranchiseFault>
    ensures length { length (take roll.now.size votes.now) ≡ roll.now.size }
    ensures answer { told (λ v. table_poll v.table v.threshold) franchise_refusal_of result ≡ answer (votes_questions (take roll.now.size votes.now) threshold) (votes_poll (take roll.now.size votes.now) threshold) }
{
    Votes::new(&votes[..usize::from(roll.size())], threshold)
}

/// Names each process whose bit is set, on a roll that names none.
fn name_all(roll: &mut OpenRoll, faulty: u16) -> Result<(), RollFault>
    requires { roll.old.faulty ≡ 0 }
    ensures answer { told (λ x. x) roll_refusal_of result ≡ answer (naming_questions roll.old.size faulty) tt }
    ensures after { OnOk result (terms roll.new ≡ all_named (terms roll.old) faulty) }
{
    let members = Members::from_bits(faulty);
    // A filter would be no plainer: the number is the process that is named.
    for process in 0..16 {
        if members.contains(process) {
            roll.name(process)?;
        }
    }
    Ok(())
}

/// Whether the processes may be faulty together.
fn tolerates<F: Franchise>(franchise: &F, faulty: &Members) -> Result<(), SheetFault>
    ensures { result ≡ (if (F.Franchise.facts franchise.now).tolerable (set_of faulty.now) then Ok tt else Err Untolerable) }
{
    if franchise.tolerable(faulty) {
        Ok(())
    } else {
        Err(SheetFault::Untolerable)
    }
}
