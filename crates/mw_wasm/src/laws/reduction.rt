// Reduction.

ghost use Rattle.mw_wasm.specs.ReductionLaws.{ExecutionFollows, OneRule, RunFollows, RunIsExecution};
ghost use Rattle.mw_wasm.specs.ReductionLaws.{MoreUnitsWhereItEnds, MoreUnitsWhereItTraps};

/// An execution is one rule, and then an execution.
pub fn execution_follows()
    ensures { ExecutionFollows }
{}

/// One rule of a state taken apart is one rule of the whole.
pub fn one_rule()
    ensures { OneRule }
{}

/// A run of a state taken apart is one rule, and then a run.
pub fn run_follows()
    ensures { RunFollows }
{}

/// A run of a state taken apart is the execution of the whole.
pub fn run_is_execution()
    ensures { RunIsExecution }
{}

/// More units change nothing of an execution that ends or traps but the units left.
pub fn more_units()
    ensures of_ended { MoreUnitsWhereItEnds }
    ensures of_trapped { MoreUnitsWhereItTraps }
{}
