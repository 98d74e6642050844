//! Franchises by votes: a set is judged by its votes against a threshold.
ghost use Rattle.std.specs.Prelude.{◌≡◌};
ghost use Rattle.franchise.specs.Marks.{set_of};
ghost use Rattle.franchise.specs.Polls.{Poll, BelowAThird, tally as tally_of, facts_of};
ghost use Rattle.franchise.specs.Lawful.{laws};

use super::laws::Franchise;
use super::members::Members;
use super::tally::Tally;

/// Counts the votes of sets. The threshold is below a third of all votes.
pub trait Counted {
    ghost poll: { Self → Poll };

    /// How many processes have votes.
    fn processes(&self) -> usize
        ensures { result ≡ (poll self.now).size };

    /// The votes of a set, with those of all and the threshold.
    fn tally(&self, set: &Members) -> Tally
        ensures { result ≡ tally_of (poll self.now) (set_of set.now) };

    ghost below: { (x : Self) → BelowAThird (poll x) };
}

impl<C: Counted> Franchise for C {
    ghost facts = { λ x. facts_of (C.poll x) };

    ghost laws = { λ x. laws (C.poll x) (C.below x) };

    fn size(&self) -> usize {
        self.processes()
    }

    fn tolerable(&self, set: &Members) -> bool {
        self.tally(set).tolerable()
    }

    fn believed(&self, set: &Members) -> bool {
        self.tally(set).believed()
    }

    fn accepted(&self, set: &Members) -> bool {
        self.tally(set).accepted()
    }

    fn closing(&self, set: &Members) -> bool {
        self.tally(set).closing()
    }
}
