// What main comes to.

ghost use Rattle.std.specs.Prelude.{◌≡◌, ◌≤◌, ◌+◌, false, IfOk, IfErr};
ghost use Rattle.mw_term.specs.Programs.{program_of};
ghost use Rattle.mw_term.specs.Typable.{Typable};
ghost use Rattle.mw_term.specs.SmallTypes.{HasSmallTypes};
ghost use Rattle.mw_meaning.specs.StagedMeaning.{runs};
ghost use Rattle.mw_meaning.specs.Outcomes.{main_outcome, names_of_main};
ghost use Rattle.mw_meaning.specs.OutcomeLaws.{AreCodesOf};
ghost use Rattle.mw_meaning.specs.GroundValues.{HasGroundType};
ghost use Rattle.mw_machine.specs.CodesInPlace.{expressions_of};
ghost use Rattle.mw_machine.specs.KernelCalls.{AreSound, IsNewlyBad, prices};
ghost use Rattle.mw_tasks.specs.TaskOutcomes.{IsMainOutcome, IfValue};

use crate::evaluation::{Ended, evaluate_with_codes};
use crate::outcome::MainOutcome;
use mw_machine::{KernelFault, Kernels, Outcome};
use mw_term::{Program, Term};
use std::alloc::Global;

/// What main of a program comes to, with so many units, where its kernel items came to these codes, in order.
pub fn evaluate_main<K: Kernels>(
    alloc: Global,
    program: &Program,
    codes: &[&Term],
    fuel: u64,
    kernels: &mut K,
) -> Result<MainOutcome, KernelFault>
    requires typable { Typable (program_of program.now) }
    requires small { HasSmallTypes (program_of program.now) }
    requires codes { AreCodesOf (program_of program.now).items (expressions_of codes.now) }
    requires open { K.stopped kernels.old ≡ false }
    ensures means { let names =
        names_of_main (program_of program.now).items (expressions_of codes.now) in
        AreSound (K.sound kernels.old) (runs (K.mode kernels.old) names fuel (program_of program.now).body)
        → IsMainOutcome result (main_outcome (K.mode kernels.old) names fuel (program_of program.now).body) }
    ensures cost { let names =
        names_of_main (program_of program.now).items (expressions_of codes.now) in
        AreSound (K.sound kernels.old) (runs (K.mode kernels.old) names fuel (program_of program.now).body)
        → IfOk result (λ _. K.cost kernels.new ≤ K.cost kernels.old
        + prices (K.price kernels.old) (runs (K.mode kernels.old) names fuel (program_of program.now).body)) }
    ensures typed { IfValue result (HasGroundType (program_of program.now).result) }
    ensures open { IfValue result (λ _. K.stopped kernels.new ≡ false) }
    ensures bad { IfErr result (λ fault. IsNewlyBad fault (K.bad kernels.old) (K.bad kernels.new)
        (K.digest kernels.new)) }
    ensures count { K.bad kernels.old ≤ K.bad kernels.new }
    ensures hands { K.keeps kernels.old kernels.new }
{
    let Ended { outcome, .. } = evaluate_with_codes(alloc, program, codes, fuel, kernels)?;
    match outcome {
        Outcome::Value(value) => Ok(MainOutcome::Value(value)),
        Outcome::Trap(trap) => Ok(MainOutcome::Trap(trap)),
        Outcome::Bound(limit) => Ok(MainOutcome::Bound(limit)),
        Outcome::Code(_) => unreachable!(),
    }
}
