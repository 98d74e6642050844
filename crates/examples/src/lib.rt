//! The worked examples, proved as one list, and two histories, played in full.
#![tactic(auto)]

ghost use Rattle.std.specs.List.{AllByRecursion};
ghost use Rattle.examples.specs.Examples.{examples, Holds};
ghost use Rattle.examples.specs.Histories.{Happens, alone, alone_decides, outvoted, outvoted_decides};

/// Every example of the list holds.
pub fn examples_hold()
    ensures { AllByRecursion Holds examples }
{}

/// The calls of the sample sheet are a history in a fair setting: a process alone decides.
pub fn alone_decides()
    ensures { Happens alone alone_decides }
{}

/// So is this: a faulty process plants lies, and a correct one decides.
pub fn outvoted_decides()
    ensures { Happens outvoted outvoted_decides }
{}
