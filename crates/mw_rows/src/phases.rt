// The phases of programs.
//
// Of a row's `source` the kernel items are evaluated by so many `workers` at most (1), over a table of so many empty
// `slots` (1,024), each with so many units of `fuel` (1,000,000), and their code is run as it was built or simplified
// before, as `mode` says (plain). For each item it is printed what it came to, and where the module of its code is: in
// the slot of the first item whose module is in the same, or in none. Then it is printed how many modules were emitted,
// and, where all items gave code, what main comes to.

ghost use Rattle.std.specs.Prelude.{◌≡◌, ◌≤◌, ◌<◌, true, IfOk};
ghost use Rattle.mw_term.specs.Programs.{program_of};
ghost use Rattle.mw_term.specs.SmallTypes.{HasSmallTypes};
ghost use Rattle.mw_term.specs.Typable.{Typable};
ghost use Rattle.mw_infer.specs.Checking.{HasSmallKernels};
ghost use Rattle.mw_tasks.specs.Phases.{AreBuiltAll, AreOutcomesOf};

use crate::fields::{Fault, Row};
use crate::programs::program;
use crate::shown::line;
use mw_cache::{Asked, Cache, Got};
use mw_compile::Steps;
use mw_console::put_answer;
use mw_drive::table;
use mw_infer::check;
use mw_meaning::Mode;
use mw_outside::Pass;
use mw_spread::JobFault;
use mw_store::Load;
use mw_tasks::{ItemOutcome, MainEnd, MainOutcome, Phase, kernels_phase, main_phase};
use mw_term::{GroundValue, Limit, Program, Stop, TrapKind};
use std::alloc::{AllocError, Global};
use std::marker::Brand;
use std::sync::ledger::{Blank, Ledger};
use std::thread::Threads;

/// How a row's program is evaluated.
#[derive(Clone, Copy, Drop)]
struct Plan {
    workers: u32,
    slots: u32,
    mode: Mode,
    fuel: u64,
}

/// The number of workers, 1 to 64.
fn workers(row: &Row) -> Result<u32, Fault>
    ensures { IfOk result (λ workers. 1 ≤ workers) }
{
    let number = row.number("workers", 1)?;
    if number < 1 || number > 64 {
        return Err(Fault::Malformed("no such number of workers"));
    }
    Ok(number as u32)
}

/// The number of slots, from one window on.
fn slots(row: &Row) -> Result<u32, Fault>
    ensures { IfOk result (λ slots. 16 ≤ slots) }
{
    let number = row.number("slots", 1_024)?;
    if number < 16 || number > 1_048_576 {
        return Err(Fault::Malformed("no such number of slots"));
    }
    Ok(number as u32)
}

/// Whether code is run as it was built or simplified before.
fn mode(row: &Row) -> Result<Mode, Fault> {
    if !row.has("mode") {
        return Ok(Mode::Plain);
    }
    match row.text("mode")? {
        "plain" => Ok(Mode::Plain),
        "simple" => Ok(Mode::Simple),
        _ => Err(Fault::Malformed("no such mode")),
    }
}

/// How a row's program is evaluated.
fn plan_of(row: &Row) -> Result<Plan, Fault>
    ensures workers { IfOk result (λ plan. 1 ≤ plan.workers) }
    ensures slots { IfOk result (λ plan. 16 ≤ plan.slots) }
{
    Ok(Plan {
        workers: workers(row)?,
        slots: slots(row)?,
        mode: mode(row)?,
        fuel: row.number("fuel", 1_000_000)?,
    })
}

/// The program of bytes, where its types are right; others are refused.
fn checked(alloc: Global, bytes: &[u8]) -> Result<Program, Stop>
    ensures typable { IfOk result (λ p. Typable (program_of p)) }
    ensures small { IfOk result (λ p. HasSmallTypes (program_of p)) }
    ensures kernels { IfOk result (λ p. HasSmallKernels (program_of p)) }
{
    let program = program(alloc, bytes)?;
    check(alloc, &program)?;
    Ok(program)
}

/// The slot that an item's module is in.
fn slot_of(outcome: &ItemOutcome) -> Option<u32> {
    match outcome {
        ItemOutcome::Code(_, Got::Stored(receipt)) => Some(receipt.slot()),
        _ => None,
    }
}

/// The number of the first item whose module is in this slot.
fn first_in(outcomes: &[ItemOutcome], slot: u32) -> usize {
    let mut number: usize = 0;
    for outcome in outcomes {
        number = number.saturating_add(1);
        if slot_of(outcome) == Some(slot) {
            return number;
        }
    }
    number
}

fn trap_word(trap: TrapKind) -> &'static str {
    match trap {
        TrapKind::Divide => "divide",
        TrapKind::Overflow => "overflow",
    }
}

fn limit_word(limit: Limit) -> &'static str {
    match limit {
        Limit::Fuel => "fuel",
        Limit::KernelSize => "kernel size",
        Limit::Heap => "heap",
    }
}

fn trap_text(alloc: Global, trap: TrapKind) -> Result<String, AllocError> {
    let word = trap_word(trap);
    format!(in alloc; "trap {word}")
}

fn bound_text(alloc: Global, limit: Limit) -> Result<String, AllocError> {
    let word = limit_word(limit);
    format!(in alloc; "bound {word}")
}

/// Where the module of an item's code is.
fn code_text(alloc: Global, outcomes: &[ItemOutcome], got: &Got) -> Result<String, AllocError> {
    match got {
        Got::Stored(receipt) => {
            let first = first_in(outcomes, receipt.slot());
            format!(in alloc; "code, stored, slot of item {first}")
        }
        Got::Loaded(_) => String::from_str(alloc, "code, loaded"),
        Got::Own(_) => String::from_str(alloc, "code, no room"),
    }
}

/// What an item came to, which is one of these.
fn outcome_text(
    alloc: Global,
    outcomes: &[ItemOutcome],
    outcome: &ItemOutcome,
) -> Result<String, AllocError> {
    match outcome {
        ItemOutcome::Code(_, got) => code_text(alloc, outcomes, got),
        ItemOutcome::Trap(trap) => trap_text(alloc, *trap),
        ItemOutcome::Bound(limit) => bound_text(alloc, *limit),
    }
}

/// A line for each item.
fn item_lines(alloc: Global, outcomes: &[ItemOutcome]) -> Result<String, AllocError> {
    let mut text = String::new(alloc);
    let mut number: usize = 0;
    for outcome in outcomes {
        number = number.saturating_add(1);
        let comes = outcome_text(alloc, outcomes, outcome)?;
        text.push_str(format!(in alloc; "item {number}: {comes}\n")?.as_str())?;
    }
    Ok(text)
}

/// Whether all items gave code.
fn all_gave(outcomes: &[ItemOutcome]) -> bool
    ensures { result ≡ true → AreBuiltAll outcomes.now }
{
    match outcomes {
        [] => true,
        [ItemOutcome::Code(_, _), rest @ ..] => all_gave(rest),
        _ => false,
    }
}

/// The answer of a value, as a line.
fn answer_line(alloc: Global, value: &GroundValue) -> Result<String, AllocError> {
    let mut bytes = Vec::new(alloc);
    put_answer(alloc, &mut bytes, value)?;
    String::from_str(alloc, std::str::from_utf8(bytes.as_slice()).unwrap_or(""))
}

/// What main came to, as a line.
fn main_line(alloc: Global, outcome: &MainOutcome) -> Result<String, AllocError> {
    let comes = match outcome {
        MainOutcome::Value(value) => answer_line(alloc, value)?,
        MainOutcome::Trap(trap) => trap_text(alloc, *trap)?,
        MainOutcome::Bound(limit) => bound_text(alloc, *limit)?,
    };
    let comes = comes.trim();
    format!(in alloc; "main: {comes}\n")
}

/// The digest of the loaded record whose module is bad, as a line; want of memory has none.
fn fault_line(alloc: Global, fault: JobFault) -> Result<String, AllocError> {
    match fault {
        JobFault::Memory(error) => Err(error),
        JobFault::Bad(digest) => {
            let digits = hex::encode(alloc, digest)?;
            format!(in alloc; "bad {digits}\n")
        }
    }
}

/// What main comes to after items that all gave code.
fn main_after<R: Threads, L: Ledger>(
    rt: &R,
    alloc: Global,
    program: &Program,
    phase: &Phase,
    plan: &Plan,
    cache: &Cache<'_>,
    blank: Blank,
) -> Result<String, AllocError>
    requires name { blank.name ≡ L.name }
    requires parts { blank.parts ≡ L.parts }
    requires some { 0 < L.parts }
    requires typable { Typable (program_of program.now) }
    requires small { HasSmallTypes (program_of program.now) }
    requires phase { AreOutcomesOf plan.now.mode (program_of program.now) plan.now.fuel cache.now
        phase.now.outcomes }
    requires built { AreBuiltAll phase.now.outcomes }
{
    let mut steps = Steps::<L>::open(rt, blank);
    let mut asked = Asked::start(rt);
    match main_phase(
        alloc, program, phase, plan.fuel, plan.mode, cache, &mut steps, &mut asked,
    ) {
        Ok(MainEnd { outcome, .. }) => main_line(alloc, &outcome),
        Err(fault) => fault_line(alloc, fault),
    }
}

/// Both phases of a program over a table.
fn phases<R: Threads + Sync, L: Ledger>(
    rt: &R,
    alloc: Global,
    program: &Program,
    plan: &Plan,
    cache: &Cache<'_>,
    blank: Blank,
) -> Result<String, AllocError>
    requires name { blank.name ≡ L.name }
    requires parts { blank.parts ≡ L.parts }
    requires some { 0 < L.parts }
    requires workers { 1 ≤ plan.now.workers }
    requires typable { Typable (program_of program.now) }
    requires small { HasSmallTypes (program_of program.now) }
    requires kernels { HasSmallKernels (program_of program.now) }
{
    let Plan {
        workers,
        mode,
        fuel,
        ..
    } = *plan;
    let phase = match kernels_phase(rt, alloc, program, fuel, mode, workers, cache, &Pass) {
        Ok(phase) => phase,
        Err(fault) => return fault_line(alloc, fault),
    };
    let mut text = item_lines(alloc, phase.outcomes.as_slice())?;
    let emitted = phase.emitted;
    text.push_str(format!(in alloc; "emitted {emitted}\n")?.as_str())?;
    if all_gave(phase.outcomes.as_slice()) {
        let main = main_after::<R, L>(rt, alloc, program, &phase, plan, cache, blank)?;
        text.push_str(main.as_str())?;
    }
    Ok(text)
}

/// Both phases of a program over a new table.
fn lines<R: Threads + Sync>(
    rt: &R,
    alloc: Global,
    program: &Program,
    plan: &Plan,
) -> Result<String, AllocError>
    requires workers { 1 ≤ plan.now.workers }
    requires slots { 16 ≤ plan.now.slots }
    requires typable { Typable (program_of program.now) }
    requires small { HasSmallTypes (program_of program.now) }
    requires kernels { HasSmallKernels (program_of program.now) }
{
    let table = table(alloc, plan.slots)?;
    let cache = Cache::new(&table, Load::new(alloc));
    phases::<R, Brand>(rt, alloc, program, plan, &cache, Blank::new(1))
}

/// What the kernel items of a row's program come to, and main, or the refusal.
pub fn carried_out<R: AllocGlobal + Threads + Sync>(rt: &R, row: &Row) -> Result<String, Fault> {
    let alloc = rt.alloc();
    let plan = plan_of(row)?;
    match checked(alloc, row.bytes("source")) {
        Ok(program) => Ok(lines(rt, alloc, &program, &plan)?),
        Err(Stop::Refused(refusal)) => Ok(line(alloc, refusal)?),
        Err(Stop::Memory(error)) => Err(Fault::Memory(error)),
    }
}
