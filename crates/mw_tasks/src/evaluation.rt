// Whole evaluations of a program's terms.

ghost use Rattle.std.specs.Prelude.{ℕ, ◌≡◌, ◌≤◌, ◌+◌, Ok, false, List, IfOk, IfErr};
ghost use Rattle.mw_term.specs.Terms.{Value, expression_of};
ghost use Rattle.mw_term.specs.Programs.{program_of};
ghost use Rattle.mw_term.specs.Typable.{Typable};
ghost use Rattle.mw_term.specs.SmallTypes.{HasSmallTypes};
ghost use Rattle.mw_meaning.specs.Outcomes.{names_of_main};
ghost use Rattle.mw_meaning.specs.OutcomeLaws.{AreCodesOf};
ghost use Rattle.mw_meaning.specs.StagedMeaning.{staged, runs};
ghost use Rattle.mw_machine.specs.KernelCalls.{AreSound, IsNewlyBad, prices};
ghost use Rattle.mw_machine.specs.Evaluations.{item, main, IsPart, HasNames, term_of};
ghost use Rattle.mw_machine.specs.CodesInPlace.{expressions_of};
ghost use Rattle.mw_machine.specs.TurnAnswers.{IsTypedOutcome, IfOpenEnd};
ghost use Rattle.mw_tasks.specs.Endings.{IsEvaluation};

use mw_machine::{KernelFault, Kernels, Machine, Outcome};
use mw_term::{Program, Term};
use std::alloc::Global;

/// A machine at the end of an evaluation, and how it ended.
#[derive(Drop)]
pub(crate) struct Ended<'c> {
    pub(crate) machine: Machine<'c>,
    pub(crate) outcome: Outcome,
}

/// Evaluates the kernel items of a program that have this term to their end, with so many units.
pub(crate) fn evaluate<K: Kernels>(
    alloc: Global,
    program: &Program,
    body: &Term,
    fuel: u64,
    kernels: &mut K,
) -> Result<Ended<'static>, KernelFault>
    requires typable { Typable (program_of program.now) }
    requires small { HasSmallTypes (program_of program.now) }
    requires body { (i : ℕ) × IsPart (program_of program.now) (item i) (expression_of body.now) }
    requires open { K.stopped kernels.old ≡ false }
    ensures means { let p = program_of program.now in (i : ℕ) (names : List Value)
        → IsPart p (item i) (expression_of body.now) → HasNames p (item i) names
        → AreSound (K.sound kernels.old) (runs (K.mode kernels.old) names fuel (term_of p (item i)))
        → IsEvaluation result (staged (K.mode kernels.old) names fuel (term_of p (item i))) }
    ensures cost { let p = program_of program.now in (i : ℕ) (names : List Value)
        → IsPart p (item i) (expression_of body.now) → HasNames p (item i) names
        → AreSound (K.sound kernels.old) (runs (K.mode kernels.old) names fuel (term_of p (item i)))
        → IfOk result (λ _. K.cost kernels.new ≤ K.cost kernels.old
        + prices (K.price kernels.old) (runs (K.mode kernels.old) names fuel (term_of p (item i)))) }
    ensures typed { let p = program_of program.now in IfOk result (λ ended. (i : ℕ)
        → IsPart p (item i) (expression_of body.now) → IsTypedOutcome p (item i) ended.outcome ended.machine) }
    ensures open { IfOk result
        (λ ended. IfOpenEnd (Ok ended.outcome) (K.stopped kernels.new ≡ false)) }
    ensures bad { IfErr result (λ fault. IsNewlyBad fault (K.bad kernels.old) (K.bad kernels.new)
        (K.digest kernels.new)) }
    ensures count { K.bad kernels.old ≤ K.bad kernels.new }
    ensures hands { K.keeps kernels.old kernels.new }
{
    let mut machine = Machine::start_item(alloc, program, body, fuel)?;
    let outcome = machine.drive(alloc, program, kernels)?;
    Ok(Ended { machine, outcome })
}

/// Evaluates main of a program to its end, with so many units, where its kernel items came to these codes, in order.
pub(crate) fn evaluate_with_codes<'c, K: Kernels>(
    alloc: Global,
    program: &Program,
    codes: &[&'c Term],
    fuel: u64,
    kernels: &mut K,
) -> Result<Ended<'c>, KernelFault>
    requires typable { Typable (program_of program.now) }
    requires small { HasSmallTypes (program_of program.now) }
    requires codes { AreCodesOf (program_of program.now).items (expressions_of codes.now) }
    requires open { K.stopped kernels.old ≡ false }
    ensures means { let names =
        names_of_main (program_of program.now).items (expressions_of codes.now) in
        AreSound (K.sound kernels.old) (runs (K.mode kernels.old) names fuel (program_of program.now).body)
        → IsEvaluation result (staged (K.mode kernels.old) names fuel (program_of program.now).body) }
    ensures cost { let names =
        names_of_main (program_of program.now).items (expressions_of codes.now) in
        AreSound (K.sound kernels.old) (runs (K.mode kernels.old) names fuel (program_of program.now).body)
        → IfOk result (λ _. K.cost kernels.new ≤ K.cost kernels.old
        + prices (K.price kernels.old) (runs (K.mode kernels.old) names fuel (program_of program.now).body)) }
    ensures typed { IfOk result (λ ended.
        IsTypedOutcome (program_of program.now) main ended.outcome ended.machine) }
    ensures open { IfOk result
        (λ ended. IfOpenEnd (Ok ended.outcome) (K.stopped kernels.new ≡ false)) }
    ensures bad { IfErr result (λ fault. IsNewlyBad fault (K.bad kernels.old) (K.bad kernels.new)
        (K.digest kernels.new)) }
    ensures count { K.bad kernels.old ≤ K.bad kernels.new }
    ensures hands { K.keeps kernels.old kernels.new }
{
    let mut machine = Machine::start_main(alloc, program, codes, fuel)?;
    let outcome = machine.drive(alloc, program, kernels)?;
    Ok(Ended { machine, outcome })
}
