// Worked examples of the meanings, proved by computation.

#![tactic(auto, unfolding(crate::specs::StagedMeaning::evaluation, crate::specs::KernelMeaning::kernel_evaluation, crate::specs::Arithmetic::int_wrap))]

ghost use Rattle.mw_meaning.specs.Examples.{SumIsThree, RunIsSeven, CaptureIsEleven, CubeGivesItsCode};
ghost use Rattle.mw_meaning.specs.Examples.{CubeIsCalledTwice, RecursionCarriesOpenCode, CodeIsNotEvaluated};
ghost use Rattle.mw_meaning.specs.Examples.{DownEndsWithFour, DownNeedsFour, DivisionTraps, UntakenDivisionDoesNotTrap};
ghost use Rattle.mw_meaning.specs.Examples.{ClosureTakesThreeWords, PairTakesTwoWords, ArgumentTakesFourWords};
ghost use Rattle.mw_meaning.specs.Examples.{PairsAreResults, HeapBeforeFuel, NumberIsNoFunction};

/// `1 + 2` is 3.
pub fn sum_is_three()
    ensures { SumIsThree }
{}

/// The run of `close .<7>.` is 7.
pub fn run_is_seven()
    ensures { RunIsSeven }
{}

/// A binder that the program makes captures no other, and three units are spent.
pub fn capture_is_eleven()
    ensures { CaptureIsEleven }
{}

/// The item `cube` gives its code with eight units spent.
pub fn cube_gives_its_code()
    ensures { CubeGivesItsCode }
{}

/// Its calls at 5 and -2 give 125 and -8.
pub fn cube_is_called_twice()
    ensures { CubeIsCalledTwice }
{}

/// A recursive function may carry open code.
pub fn recursion_carries_open_code()
    ensures { RecursionCarriesOpenCode }
{}

/// Code that isn't run isn't evaluated.
pub fn code_is_not_evaluated()
    ensures { CodeIsNotEvaluated }
{}

/// A recursion three deep ends with four units.
pub fn down_ends_with_four()
    ensures { DownEndsWithFour }
{}

/// It is Bound Fuel with three.
pub fn down_needs_four()
    ensures { DownNeedsFour }
{}

/// A division by zero traps where it is evaluated.
pub fn division_traps()
    ensures { DivisionTraps }
{}

/// It doesn't trap in a branch that isn't taken, nor in code that isn't run.
pub fn untaken_division_does_not_trap()
    ensures { UntakenDivisionDoesNotTrap }
{}

/// A closure with two free variables takes three words.
pub fn closure_takes_three_words()
    ensures { ClosureTakesThreeWords }
{}

/// A pair takes two words.
pub fn pair_takes_two_words()
    ensures { PairTakesTwoWords }
{}

/// An argument of two pairs takes four words.
pub fn argument_takes_four_words()
    ensures { ArgumentTakesFourWords }
{}

/// A kernel may give a pair, from a run and from a call.
pub fn pairs_are_results()
    ensures { PairsAreResults }
{}

/// In a call Bound Heap comes before Bound Fuel.
pub fn heap_before_fuel()
    ensures { HeapBeforeFuel }
{}

/// A number applied to a number is stuck, whatever the units.
pub fn number_is_no_function()
    ensures { NumberIsNoFunction }
{}
