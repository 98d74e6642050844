//! The votes of up to 16 processes, in fixed memory.
ghost use Rattle.std.specs.Prelude.{◌≡◌, ◌≤◌, take};
ghost use Rattle.franchise.specs.Weights.{whole, listed};

use super::votes::Vote;

/// A number of votes for each of some processes.
// An array with a length, since nothing here asks for a heap.
#[derive(Clone, Copy, PartialEq, Eq, Debug)]
pub struct Table {
    pub(crate) size: u8,
    /// the first `size` of these are the votes
    pub(crate) votes: [Vote; 16],
    /// the sum of the votes
    pub(crate) total: u64,
    ghost few: { size ≤ 16 },
    ghost sum: { total ≡ whole (listed (take size votes)) size },
}
