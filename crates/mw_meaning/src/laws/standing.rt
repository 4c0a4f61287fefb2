// Modules that stand for kernels.

ghost use Rattle.mw_meaning.specs.ShapeLaws.{StandingIsNotStray, LeavesAreCounted};
ghost use Rattle.mw_meaning.specs.ShapeLaws.{PlaysBegin, PlaysGoOn, PlaysEndStray};
ghost use Rattle.mw_meaning.specs.ShapeExamples.{ExamplesHaveTheirShapes, AnswersHaveTheirShape, NoIntegerIsStray};
ghost use Rattle.mw_meaning.specs.ShapeExamples.{TwoIsStrayForTruth, MinusOneIsStrayForPairs};
ghost use Rattle.mw_meaning.specs.ShapeExamples.{ByteFitsUpToTheEnd};
ghost use Rattle.mw_meaning.specs.WrongModule.{TwoParametersStandForNothing};

/// A module that stands for code of its kernel type is not stray.
pub fn standing_is_not_stray()
    ensures { StandingIsNotStray }
{}

/// An argument has as many leaves as its type.
#[tactic(auto, using(crate::proofs::StrayModules::leaves_are_counted))]
pub fn leaves_are_counted()
    ensures { LeavesAreCounted }
{}

/// An `init` that ended with a word begins a play, where the module has a `call`.
#[tactic(auto, using(crate::proofs::Plays::plays_begin))]
pub fn plays_begin()
    ensures { PlaysBegin }
{}

/// A play in which one call more ends with a word goes on.
#[tactic(auto, using(crate::proofs::Plays::plays_on))]
pub fn plays_go_on()
    ensures { PlaysGoOn }
{}

/// A play in which one call more ends as no kernel of the type does makes the module stray.
pub fn plays_end_stray()
    ensures { PlaysEndStray }
{}

/// A module whose `init` has parameters doesn't stand for the code of 7, though with two arguments it answers 7.
#[tactic(auto, using(crate::proofs::WrongModule::two_parameters_stand_for_nothing))]
pub fn two_parameters_stand_for_nothing()
    ensures { TwoParametersStandForNothing }
{}

/// Worked examples by computation.
#[tactic(auto, using(crate::proofs::ShapeExamples::example_laws))]
pub fn shape_examples()
    ensures shapes { ExamplesHaveTheirShapes }
    ensures answers { AnswersHaveTheirShape }
    ensures integers { NoIntegerIsStray }
    ensures truth { TwoIsStrayForTruth }
    ensures pairs { MinusOneIsStrayForPairs }
{}

/// A byte to write fits at the memory's last address and not past it, whatever the type of the constant that says so.
#[tactic(auto, using(crate::proofs::ShapeExamples::byte_fits_up_to_the_end))]
pub fn segment_examples()
    ensures { ByteFitsUpToTheEnd }
{}
