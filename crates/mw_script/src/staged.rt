// Programs of the first stage on the machine.

ghost use Rattle.std.specs.Prelude.{◌≡◌, IfOk, IfSome};
ghost use Rattle.mw_term.specs.Programs.{program_of};
ghost use Rattle.mw_term.specs.Typable.{Typable};
ghost use Rattle.mw_term.specs.SmallTypes.{HasSmallTypes};
ghost use Rattle.mw_machine.specs.TurnAnswers.{EndedWithCode, IsReady};
ghost use Rattle.mw_script.specs.Starts.{IsStarted, HasItsCode};

use crate::scripts::{Reply, Script};
use crate::sources::{are_built, checked};
use mw_code::CodeFault;
use mw_machine::{KernelFault, Kernels, Machine, Outcome};
use mw_region::Id;
use mw_term::{BaseValue, GroundValue, ItemKind, Program, Stop};
use std::alloc::{AllocError, Global};

/// A machine at the start of a program's main, or of the definition of the kernel item at a place; none where there is
/// no such item, or where main has kernels that have to be built before.
fn start<'c>(
    alloc: Global,
    program: &'c Program,
    item: Option<usize>,
    fuel: u64,
) -> Result<Option<Machine<'c>>, AllocError>
    requires typable { Typable (program_of program.now) }
    requires small { HasSmallTypes (program_of program.now) }
    ensures { IfOk result (λ o. IfSome o (IsStarted (program_of program.now))) }
{
    match item {
        Some(place) => start_item(alloc, program, place, fuel),
        None if are_built(program.items.as_slice()) => {
            Ok(Some(Machine::start(alloc, program, &program.body, fuel)?))
        }
        None => Ok(None),
    }
}

fn start_item<'c>(
    alloc: Global,
    program: &'c Program,
    place: usize,
    fuel: u64,
) -> Result<Option<Machine<'c>>, AllocError>
    requires typable { Typable (program_of program.now) }
    requires small { HasSmallTypes (program_of program.now) }
    ensures { IfOk result (λ o. IfSome o (IsStarted (program_of program.now))) }
{
    if place >= program.items.len() {
        return Ok(None);
    }
    match &program.items.get(place).kind {
        ItemKind::Value(_) => Ok(None),
        ItemKind::Kernel(_, term) => Ok(Some(Machine::start(alloc, program, term, fuel)?)),
    }
}

/// Drives a machine to its end, and once more after a fault: where memory was refused it goes on, and a fault of the
/// kernels is answered again.
fn driven<K: Kernels>(
    alloc: Global,
    program: &Program,
    machine: &mut Machine,
    kernels: &mut K,
) -> Result<Outcome, KernelFault>
    requires { IsReady (program_of program.now) (K.kept kernels.old) (K.stopped kernels.old)
        machine.old }
    ensures { HasItsCode machine.new result }
{
    match machine.drive(alloc, program, kernels) {
        Err(_) => machine.drive(alloc, program, kernels),
        Ok(outcome) => Ok(outcome),
    }
}

/// A value, as text.
fn value_text(alloc: Global, value: &GroundValue) -> Result<String, AllocError> {
    match value {
        GroundValue::Base(BaseValue::Int(n)) => format!(in alloc; "{n}"),
        GroundValue::Base(BaseValue::Bool(b)) => format!(in alloc; "{b}"),
        GroundValue::Pair(first, second) => {
            let first = value_text(alloc, first)?;
            let second = value_text(alloc, second)?;
            format!(in alloc; "({first}, {second})")
        }
    }
}

/// The code that a machine ended with, as text.
fn code_text(alloc: Global, machine: &Machine, id: Id) -> Result<String, AllocError>
    requires { EndedWithCode machine.now id }
{
    match machine.code(alloc, id) {
        Ok(term) => format!(in alloc; "{term:?}"),
        Err(CodeFault::Memory(error)) => Err(error),
        Err(CodeFault::TooManyNodes) => String::from_str(alloc, "too many nodes"),
        Err(CodeFault::TooDeepCode) => String::from_str(alloc, "too deep"),
    }
}

/// How an evaluation ended, as text, with the units that are left.
fn ending_text(
    alloc: Global,
    machine: &Machine,
    ending: Result<Outcome, KernelFault>,
) -> Result<String, AllocError>
    requires { HasItsCode machine.now ending }
{
    let left = machine.left();
    let text = match ending {
        Ok(Outcome::Value(value)) => value_text(alloc, &value)?,
        Ok(Outcome::Code(id)) => code_text(alloc, machine, id)?,
        Ok(Outcome::Trap(trap)) => return format!(in alloc; "{trap:?}"),
        Ok(Outcome::Bound(limit)) => return format!(in alloc; "{limit:?}"),
        Err(KernelFault::Memory(_)) => return String::from_str(alloc, "no memory"),
        Err(KernelFault::Bad(digest)) => return format!(in alloc; "bad {}", digest[0]),
    };
    format!(in alloc; "{text} left {left}")
}

/// The answer of a program's main, or of the kernel item at a place, over kernels that reply these in turn: what it
/// asks of them, and how it ends.
pub fn answer(
    alloc: Global,
    source: &str,
    item: Option<usize>,
    fuel: u64,
    replies: &[Reply],
) -> Result<String, AllocError> {
    let program = match checked(alloc, source) {
        Ok(program) => program,
        Err(Stop::Memory(error)) => return Err(error),
        Err(Stop::Refused(refusal)) => return format!(in alloc; "{refusal:?}"),
    };
    let Some(mut machine) = start(alloc, &program, item, fuel)? else {
        return String::from_str(alloc, "nothing to start");
    };
    let mut kernels = Script::new(alloc, replies)?;
    let ending = driven(alloc, &program, &mut machine, &mut kernels);
    let ending = ending_text(alloc, &machine, ending)?;
    let asked = kernels.asked();
    format!(in alloc; "{asked}{ending}")
}
