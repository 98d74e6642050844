//! Votes: a number of votes for each process.
ghost use Rattle.std.specs.Prelude.{◌≡◌, length, is_some, IfSome};
ghost use Rattle.protocol.specs.Refusals.{answer, told, in_range};
ghost use Rattle.franchise.specs.Marks.{set_of};
ghost use Rattle.franchise.specs.Polls.{BelowAThird, votes as votes_poll};
ghost use Rattle.franchise.specs.Refused.{fair_vote, fair, votes_questions, refusal_of};
ghost use Rattle.franchise.specs.Tables.{votes_in, table_poll};
ghost use Rattle.franchise.specs.Weights.{weight, whole, listed};

use super::counted::Counted;
use super::fault::FranchiseFault;
use super::members::Members;
use super::table::Table;
use super::tally::{Tally, Threshold};

/// The votes of one process.
pub type Vote = u16;

impl Table {
    /// As many votes as the list has, if there are from 1 to 16.
    pub(crate) fn new(votes: &[Vote]) -> Option<Table>
        ensures size { is_some result ≡ in_range (length votes.now) }
        ensures votes { IfSome result (λ t. (t.size ≡ length votes.now) × (votes_in t ≡ votes.now)) }
    {
        if votes.is_empty() || votes.len() > 16 {
            return None;
        }
        let mut table = [0; 16];
        table[..votes.len()].copy_from_slice(votes);
        Some(Table {
            // `as`, since `try_from` would have an error arm that never comes
            size: votes.len() as u8,
            votes: table,
            total: votes.iter().map(|&vote| u64::from(vote)).sum(),
        })
    }

    /// How many processes have votes.
    pub(crate) fn size(&self) -> usize
        ensures { result ≡ self.now.size }
    {
        usize::from(self.size)
    }

    /// The votes of all.
    pub(crate) fn total(&self) -> u64
        ensures { result ≡ whole (listed (votes_in self.now)) self.now.size }
    {
        self.total
    }

    /// The votes of the processes in the set.
    pub(crate) fn count(&self, set: &Members) -> u64
        ensures { result ≡ weight (listed (votes_in self.now)) (set_of set.now) self.now.size }
    {
        let mut sum = 0;
        // The project asks for a loop over the votes with their index here. The index is below 16,
        // so `try_from` would have an error arm that never comes.
        for (process, vote) in self.votes[..self.size()].iter().enumerate() {
            if set.contains(process as u8) {
                sum += u64::from(*vote);
            }
        }
        sum
    }
}

#[derive(Clone, Copy, PartialEq, Eq, Debug)]
pub struct Votes {
    table: Table,
    threshold: Threshold,
    ghost below: { BelowAThird (table_poll table threshold) },
}

impl Votes {
    /// As many votes for each process as the list has.
    pub fn new(votes: &[Vote], threshold: Threshold) -> Result<Votes, FranchiseFault>
        ensures { told (λ v. table_poll v.table v.threshold) refusal_of result ≡ answer (votes_questions votes.now threshold) (votes_poll votes.now threshold) }
    {
        let table = Table::new(votes).ok_or(FranchiseFault::Size)?;
        if !all_fair(votes) {
            return Err(FranchiseFault::Vote);
        }
        if table.total() <= 3 * u64::from(threshold) {
            return Err(FranchiseFault::Threshold);
        }
        Ok(Votes { table, threshold })
    }
}

/// Whether a process may have so many votes.
fn is_fair(vote: Vote) -> bool
    ensures { result ≡ fair_vote vote }
{
    (1..=1000).contains(&vote)
}

fn all_fair(votes: &[Vote]) -> bool
    ensures { result ≡ fair votes.now }
{
    votes.iter().all(|&vote| is_fair(vote))
}

impl Counted for Votes {
    ghost poll = { λ v. table_poll v.table v.threshold };

    ghost below = { λ v. v.below };

    fn processes(&self) -> usize {
        self.table.size()
    }

    fn tally(&self, set: &Members) -> Tally {
        Tally {
            votes: self.table.count(set),
            total: self.table.total(),
            threshold: self.threshold,
        }
    }
}
