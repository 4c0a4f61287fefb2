// What a kernel item comes to.

ghost use Rattle.std.specs.Prelude.{◌≡◌, ◌≤◌, ◌+◌, false, IfOk, IfErr};
ghost use Rattle.mw_term.specs.Terms.{Expression, expression_of};
ghost use Rattle.mw_term.specs.Programs.{program_of};
ghost use Rattle.mw_term.specs.Typable.{Typable};
ghost use Rattle.mw_term.specs.SmallTypes.{HasSmallTypes};
ghost use Rattle.mw_meaning.specs.StagedMeaning.{runs};
ghost use Rattle.mw_meaning.specs.Outcomes.{item_outcome, names_of_items};
ghost use Rattle.mw_machine.specs.KernelCalls.{AreSound, IsNewlyBad, prices};
ghost use Rattle.mw_machine.specs.TurnAnswers.{EndedWithCode, HasCode};
ghost use Rattle.mw_tasks.specs.Endings.{IsMeasured, IsMeasurementOf};
ghost use Rattle.mw_machine.specs.Evaluations.{item, IsPart, term_of};
ghost use Rattle.mw_tasks.specs.TaskOutcomes.{IsKernelItem, IsItemOutcome, IfCode, IsCodeOf};

use crate::evaluation::{Ended, evaluate};
use crate::outcome::Evaluated;
use mw_code::CodeFault;
use mw_machine::{KernelFault, Kernels, Machine, Outcome};
use mw_region::Id;
use mw_term::{ItemKind, Limit, Program, Term};
use std::alloc::{AllocError, Global};

/// What code that was read back is as an outcome: the code, or the bound where it is too large or too deep. Want of
/// memory comes only from the reading.
fn measured(read: Result<Term, CodeFault>) -> Result<Evaluated, AllocError>
    ensures { IsMeasurementOf read result }
{
    match read {
        Ok(term) => Ok(Evaluated::Code(term)),
        Err(CodeFault::TooManyNodes | CodeFault::TooDeepCode) => {
            Ok(Evaluated::Bound(Limit::KernelSize))
        }
        Err(CodeFault::Memory(error)) => Err(error),
    }
}

/// The code that an evaluation ended with, measured.
fn measured_code(alloc: Global, machine: &Machine, id: Id) -> Result<Evaluated, AllocError>
    requires code { EndedWithCode machine.now id }
    ensures { IfOk result
        (λ outcome. (c : Expression) → HasCode machine.now id c → IsMeasured outcome c) }
{
    measured(machine.code(alloc, id))
}

/// The term of the kernel item with this number.
fn kernel_term(program: &Program, number: usize) -> &Term
    requires item { IsKernelItem (program_of program.now) number }
    ensures { IsPart (program_of program.now) (item number) (expression_of result.now) }
{
    match &program.items.get(number).kind {
        ItemKind::Kernel(_, term) => term,
        ItemKind::Value(_) => unreachable!(),
    }
}

/// What the kernel item of a program with this number, counted among all items, comes to, with so many units.
pub fn evaluate_item<K: Kernels>(
    alloc: Global,
    program: &Program,
    number: usize,
    fuel: u64,
    kernels: &mut K,
) -> Result<Evaluated, KernelFault>
    requires typable { Typable (program_of program.now) }
    requires small { HasSmallTypes (program_of program.now) }
    requires item { IsKernelItem (program_of program.now) number }
    requires open { K.stopped kernels.old ≡ false }
    ensures means { let p = program_of program.now in let term = term_of p (item number) in
        AreSound (K.sound kernels.old) (runs (K.mode kernels.old) (names_of_items p.items) fuel term)
        → IsItemOutcome result (item_outcome (K.mode kernels.old) (names_of_items p.items) fuel term) }
    ensures cost { let p = program_of program.now in let term = term_of p (item number) in
        AreSound (K.sound kernels.old) (runs (K.mode kernels.old) (names_of_items p.items) fuel term)
        → IfOk result (λ _. K.cost kernels.new ≤ K.cost kernels.old
        + prices (K.price kernels.old) (runs (K.mode kernels.old) (names_of_items p.items) fuel term)) }
    ensures typed { IfCode result (IsCodeOf (program_of program.now) number) }
    ensures open { IfCode result (λ _. K.stopped kernels.new ≡ false) }
    ensures bad { IfErr result (λ fault. IsNewlyBad fault (K.bad kernels.old) (K.bad kernels.new)
        (K.digest kernels.new)) }
    ensures count { K.bad kernels.old ≤ K.bad kernels.new }
    ensures hands { K.keeps kernels.old kernels.new }
{
    let term = kernel_term(program, number);
    let Ended { machine, outcome } = evaluate(alloc, program, term, fuel, kernels)?;
    match outcome {
        Outcome::Code(id) => Ok(measured_code(alloc, &machine, id)?),
        Outcome::Trap(trap) => Ok(Evaluated::Trap(trap)),
        Outcome::Bound(limit) => Ok(Evaluated::Bound(limit)),
        Outcome::Value(_) => unreachable!(),
    }
}
