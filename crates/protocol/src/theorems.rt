//! The theorems about the subject, each as the contract of a function that does nothing else.
ghost use Rattle.protocol.specs.Companions.{CodesReadBack, EveryCallAnswered, RefusalsExact, EveryWirePlays, EveryPlayKeepsPromise};
ghost use Rattle.protocol.specs.Promise.{CorrectProcessesNeverPart};

/// In every fair setting, every history from a beginning keeps agreement, validity and no deadlock.
pub fn never_part()
    ensures { CorrectProcessesNeverPart }
{}

/// The same of every list of calls that is played over a wire that keeps its laws.
pub fn every_play_keeps_promise<W>()
    ensures { EveryPlayKeepsPromise W }
{}

/// What is played over such a wire is a history.
pub fn every_wire_plays<W>()
    ensures { EveryWirePlays W }
{}

/// Every call has an answer, wherever a run stands.
pub fn every_call_answered()
    ensures { EveryCallAnswered }
{}

/// A call is refused just by its first no, and a refused call changes nothing.
pub fn refusals_exact()
    ensures { RefusalsExact }
{}

/// Messages and codes are got back from each other.
pub fn codes_read_back()
    ensures { CodesReadBack }
{}
