//! Heads: one vote for each process.
ghost use Rattle.std.specs.Prelude.{◌≡◌, ◌*◌, ◌<◌, ◌≤◌};
ghost use Rattle.protocol.specs.Refusals.{answer, told};
ghost use Rattle.franchise.specs.Polls.{heads as heads_poll};
ghost use Rattle.franchise.specs.Refused.{heads_questions, refusal_of};
ghost use Rattle.franchise.specs.Lawful.{heads_below};

use super::counted::Counted;
use super::fault::FranchiseFault;
use super::members::Members;
use super::tally::{Tally, Threshold};

#[derive(Clone, Copy, PartialEq, Eq, Debug)]
pub struct Heads {
    size: u8,
    threshold: Threshold,
    ghost few: { size ≤ 16 },
    ghost below: { 3 * threshold < size },
}

impl Heads {
    /// One vote for each of `size` processes.
    #[tactic(auto, using(crate::specs::Arithmetic::whole_ones))]
    pub fn new(size: u8, threshold: Threshold) -> Result<Heads, FranchiseFault>
        ensures { told (λ h. heads_poll h.size h.threshold) refusal_of result ≡ answer (heads_questions size threshold) (heads_poll size threshold) }
    {
        if !(1..=16).contains(&size) {
            return Err(FranchiseFault::Size);
        }
        if u64::from(size) <= 3 * u64::from(threshold) {
            return Err(FranchiseFault::Threshold);
        }
        Ok(Heads { size, threshold })
    }
}

impl Counted for Heads {
    ghost poll = { λ h. heads_poll h.size h.threshold };

    ghost below = { λ h. heads_below h.size h.threshold h.below };

    fn processes(&self) -> usize {
        usize::from(self.size)
    }

    fn tally(&self, set: &Members) -> Tally {
        Tally {
            // `as`, since `u64` has no `From<usize>`
            votes: set.count_below(self.size) as u64,
            total: u64::from(self.size),
            threshold: self.threshold,
        }
    }
}
