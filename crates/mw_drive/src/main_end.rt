// Main, where all kernel items gave code.

ghost use Rattle.std.specs.Prelude.{◌≡◌, All, Some, IfOk, IfErr};
ghost use Rattle.mw_term.specs.Programs.{program_of};
ghost use Rattle.mw_term.specs.SmallTypes.{HasSmallTypes};
ghost use Rattle.mw_term.specs.Typable.{Typable};
ghost use Rattle.mw_slots.specs.Receipts.{IsOf};
ghost use Rattle.mw_spread.specs.Outputs.{IfBad};
ghost use Rattle.mw_cache.specs.HonestFiles.{IsHonest};
ghost use Rattle.mw_tasks.specs.Phases.{AreBuiltAll, AreOutcomesOf, codes_in};
ghost use Rattle.mw_drive.specs.BadRecords.{IsBadMain};
ghost use Rattle.mw_drive.specs.ProgramMeaning.{main_after};
ghost use Rattle.mw_drive.specs.ProgramRuns.{ending_of};
ghost use Rattle.mw_drive.specs.ItemOutcomes.{ending_in};

use crate::ending::End;
use mw_cache::{Asked, Cache};
use mw_compile::{Entry, Steps};
use mw_meaning::Mode;
use mw_slots::Receipts;
use mw_spread::JobFault;
use mw_tasks::{MainEnd, MainOutcome, Phase, main_phase};
use mw_term::Program;
use std::alloc::Global;
use std::sync::ledger::Ledger;

/// How main ends after the phase of the kernel items, all of which gave code, with so many units; and receipts of the
/// modules that it asked for. The error is want of memory, or a loaded record whose module is stray.
pub fn main_end<L: Ledger>(
    alloc: Global,
    program: &Program,
    phase: &Phase,
    fuel: u64,
    mode: Mode,
    cache: &Cache<'_>,
    steps: &mut Steps<L>,
    asked: &mut Asked,
) -> Result<(End<'static>, Receipts<Entry>), JobFault>
    requires typable { Typable (program_of program.now) }
    requires small { HasSmallTypes (program_of program.now) }
    requires phase { AreOutcomesOf mode (program_of program.now) fuel cache.now phase.now.outcomes }
    requires built { AreBuiltAll phase.now.outcomes }
    ensures end { let p = program_of program.now in let codes = codes_in phase.now.outcomes in
        IsHonest cache.now.load
        → IfOk result (λ r. main_after mode fuel p.items p.body codes ≡ Some (ending_of r.0)) }
    ensures table { IfOk result (λ r. All (IsOf cache.now.cells) r.1) }
    ensures bad { IfErr result (λ fault. IfBad fault
        (IsBadMain mode (program_of program.now) fuel cache.now.load phase.now.outcomes)) }
{
    let MainEnd { outcome, stored } = main_phase(
        alloc, program, phase, fuel, mode, cache, steps, asked,
    )?;
    Ok((end_of(outcome), stored))
}

/// How the program ends whose main came to this.
fn end_of(outcome: MainOutcome) -> End<'static>
    ensures { ending_of result ≡ ending_in outcome }
{
    match outcome {
        MainOutcome::Value(value) => End::Answered(value),
        MainOutcome::Trap(trap) => End::Trapped(trap, b"main"),
        MainOutcome::Bound(limit) => End::Bounded(limit, b"main"),
    }
}
