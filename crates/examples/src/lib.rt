//! Worked examples, each by its name, and one proof that all of them hold.
#![tactic(auto)]

ghost use Rattle.examples.specs.Examples.{AllHold, EachIsIn};
ghost use Rattle.examples.specs.Run.{RunHolds};

/// The worked examples by name.
pub mod example;

use example::Example;

/// All worked examples, none left out. Each of them holds, and one run goes call by call as
/// specs/Run.antt tells it.
#[tactic(auto, using(crate::proofs::Examples::all_hold, crate::proofs::Examples::each_is_in))]
pub fn hold() -> [Example; 11]
    ensures all { AllHold result }
    ensures each { EachIsIn result }
    ensures run { RunHolds }
{
    [
        Example::NoLines,
        Example::NoNewline,
        Example::EightProcessors,
        Example::NineProcessors,
        Example::LeadingZero,
        Example::SlotsEntered,
        Example::SlotsLeft,
        Example::ReadsAndWrite,
        Example::ReadLeft,
        Example::ThreeWrites,
        Example::WorkedRun,
    ]
}
