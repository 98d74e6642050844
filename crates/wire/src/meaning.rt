//! What every wire means, and what its calls answer and leave.
ghost use Rattle.std.specs.Prelude.{◌≡◌};
ghost use Rattle.protocol.specs.Refusals.{answer, leaves, told};
ghost use Rattle.protocol.specs.Wires.{Wire as Kind, WireLaws, waiting as all_waiting, free as free_places};
ghost use Rattle.wire.specs.Refused.{send_questions, take_questions, refusal_of, capped};

use super::codes::CODES;
use super::fault::WireFault;

/// Holds messages by their codes. Which waiting copy a take removes is each kind's own choice.
pub trait Wire {
    /// What the values of this kind mean, and what its calls answer and leave.
    ghost kind: { Kind Self };

    /// The kind keeps the laws of a wire: no message is swallowed, invented or changed.
    fn keeps_laws()
        ensures { WireLaws kind };

    // Each kind answers both for itself, since all its places and copies need not fit an integer.
    /// How many messages wait, at most 65,535.
    fn waiting(&self) -> u16
        ensures { result ≡ capped (all_waiting (kind.copies self.now)) };

    /// How many places are free, at most 65,535.
    fn free(&self) -> u16
        ensures { result ≡ capped (free_places kind self.now) };

    /// Adds one copy of a code.
    fn send(&mut self, code: u16) -> Result<(), WireFault>
        ensures answer { told (λ x. x) refusal_of result ≡ answer (send_questions code (free_places kind self.old)) tt }
        ensures after { self.new ≡ leaves (send_questions code (free_places kind self.old)) self.old (kind.send code self.old) };

    /// Removes one waiting copy, chosen by a number, and answers its code.
    // Each kind asks for itself whether a copy waits: a count wire learns it from its search, far faster than from the sum.
    fn take(&mut self, k: u16) -> Result<u16, WireFault>
        ensures answer { told (λ x. x) refusal_of result ≡ answer (take_questions (all_waiting (kind.copies self.old))) (kind.pick self.old k) }
        ensures after { self.new ≡ leaves (take_questions (all_waiting (kind.copies self.old))) self.old (kind.rest self.old k) };

    /// Whether a send of a code would be accepted.
    fn may_send(&self, code: u16) -> Result<(), WireFault>
        ensures { told (λ x. x) refusal_of result ≡ answer (send_questions code (free_places kind self.now)) tt }
    {
        if code >= CODES {
            return Err(WireFault::Code);
        }
        if self.free() == 0 {
            return Err(WireFault::Full);
        }
        Ok(())
    }
}

/// A number as a wire answers it: any above 65,535 as 65,535.
pub(crate) fn capped(n: usize) -> u16
    ensures { result ≡ capped n }
{
    // `as`, since `try_from` would have an error arm that never comes
    n.min(65535) as u16
}
