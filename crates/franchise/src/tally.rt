//! The votes of a set against the threshold: the arithmetic that heads and votes share.
ghost use Rattle.std.specs.Prelude.{◌≡◌};
ghost use Rattle.franchise.specs.Polls.{tolerable as is_tolerable, believed as is_believed, accepted as is_accepted, closing as is_closing};

/// How many votes may be faulty together.
pub type Threshold = u16;

/// The votes of a set beside all votes and the threshold.
#[derive(Clone, Copy, PartialEq, Eq, Debug)]
pub struct Tally {
    /// the votes of the set
    pub votes: u64,
    /// the votes of all processes
    pub total: u64,
    pub threshold: Threshold,
}

impl Tally {
    /// Whether the set has at most T votes.
    pub fn tolerable(&self) -> bool
        ensures { result ≡ is_tolerable self.now }
    {
        self.votes <= u64::from(self.threshold)
    }

    /// Whether it has at least T + 1.
    pub fn believed(&self) -> bool
        ensures { result ≡ is_believed self.now }
    {
        self.votes >= u64::from(self.threshold) + 1
    }

    /// Whether it has at least 2 × T + 1.
    pub fn accepted(&self) -> bool
        ensures { result ≡ is_accepted self.now }
    {
        self.votes >= 2 * u64::from(self.threshold) + 1
    }

    /// Whether it has at least all votes but T.
    pub fn closing(&self) -> bool
        ensures { result ≡ is_closing self.now }
    {
        self.votes >= self.total.saturating_sub(u64::from(self.threshold))
    }
}
