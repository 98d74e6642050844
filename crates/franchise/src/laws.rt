//! What every franchise means, and the laws that it keeps.
ghost use Rattle.std.specs.Prelude.{◌≡◌};
ghost use Rattle.protocol.specs.Facts.{Facts};
ghost use Rattle.protocol.specs.Laws.{Laws, IgnoresOthers};
ghost use Rattle.franchise.specs.Marks.{set_of};

use super::members::Members;

/// Answers how many processes there are, and four facts about every set of them.
pub trait Franchise {
    ghost facts: { Self → Facts };

    /// How many processes there are.
    fn size(&self) -> usize
        ensures { result ≡ (facts self.now).n };

    /// Whether all of the set may be faulty together.
    fn tolerable(&self, set: &Members) -> bool
        ensures { result ≡ (facts self.now).tolerable (set_of set.now) };

    /// Whether the set has a correct member.
    fn believed(&self, set: &Members) -> bool
        ensures { result ≡ (facts self.now).believed (set_of set.now) };

    /// Whether the set stays believed when its faulty members leave it.
    fn accepted(&self, set: &Members) -> bool
        ensures { result ≡ (facts self.now).accepted (set_of set.now) };

    /// Whether the set is a quorum: any two share a correct member.
    fn closing(&self, set: &Members) -> bool
        ensures { result ≡ (facts self.now).closing (set_of set.now) };

    /// It keeps all seven laws.
    ghost laws: { (x : Self) → Laws (facts x) };
}

/// Every franchise keeps all seven laws.
pub fn laws_hold<F: Franchise>(franchise: &F)
    ensures { Laws (F.Franchise.facts franchise.now) }
{}

/// Marks in a set at the number of processes or beyond are ignored, by every franchise.
pub fn others_ignored<F: Franchise>(franchise: &F)
    ensures { IgnoresOthers (F.Franchise.facts franchise.now) }
{}
