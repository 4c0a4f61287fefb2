// What a program's kernel items and its main come to, written.

ghost use Rattle.std.specs.Prelude.{◌≡◌, ◌≤◌, ◌<◌, ◌^◌, All, length, IfOk, IfErr};
ghost use Rattle.std.specs.List.{AllByRecursion};
ghost use Rattle.mw_term.specs.Programs.{program_of};
ghost use Rattle.mw_term.specs.SmallTypes.{HasSmallTypes};
ghost use Rattle.mw_term.specs.Typable.{Typable};
ghost use Rattle.mw_meaning.specs.Outcomes.{names_of_main};
ghost use Rattle.mw_meaning.specs.StagedMeaning.{runs};
ghost use Rattle.mw_slots.specs.Receipts.{IsOf};
ghost use Rattle.mw_cache.specs.HonestFiles.{IsHonest};
ghost use Rattle.mw_tasks.specs.Phases.{AreOutcomesOf, codes_in, AreBuiltAll};
ghost use Rattle.mw_tasks.specs.BadItems.{IsBadOfRuns};
ghost use Rattle.mw_reading.specs.NamedPrograms.{named_program_of};
ghost use Rattle.mw_drive.specs.ProgramRuns.{IsWrittenRun, IsRanTo, IsBuilt, HasEnding};
ghost use Rattle.mw_drive.specs.PrintedKernels.{IsPrintedRun};
ghost use Rattle.mw_drive.specs.BadRecords.{IsBadMain};
ghost use Rattle.mw_drive.specs.RunFaults.{BlamesSink, IfBadRecord};
ghost use Rattle.mw_drive.specs.Works.{mode_of};
ghost use Rattle.mw_drive.specs.declared.shown.Shown.TheVariants.{Lines, Totals};
ghost use Rattle.mw_meaning.specs.declared.mode.Mode.{Mode};

use crate::ending::write_end;
use crate::fault::RunFault;
use crate::items::{Built, ItemsEnd, items_end};
use crate::main_end::main_end;
use crate::shown::{Shown, write_kernels};
use mw_cache::{Asked, Cache};
use mw_compile::{Entry, Steps};
use mw_console::Status;
use mw_outside::Sink;
use mw_slots::Receipts;
use mw_tasks::Phase;
use mw_term::Program;
use std::alloc::Global;
use std::sync::ledger::{Blank, Ledger};
use std::thread::Threads;

/// How a run that was written ended: its status, receipts of the modules that main asked for, and the kernels that gave
/// code.
#[derive(Drop)]
pub struct Ran<'p> {
    pub status: Status,
    pub stored: Receipts<Entry>,
    pub built: Vec<Built<'p>>,
}

/// Writes what the phase of a program's kernel items says of them, evaluates main where all of them gave code, and
/// writes the last line.
pub fn write_items<'p, R: Threads, K: Sink, L: Ledger>(
    rt: &R,
    alloc: Global,
    program: &'p Program,
    phase: &'p Phase,
    fuel: u64,
    shown: Shown,
    cache: &Cache<'_>,
    sink: &mut K,
    blank: Blank,
) -> Result<Ran<'p>, RunFault>
    requires name { blank.name ≡ L.name }
    requires parts { blank.parts ≡ L.parts }
    requires some { 0 < L.parts }
    requires typable { Typable (program_of program.now) }
    requires small { HasSmallTypes (program_of program.now) }
    requires few { length program.now.items < 2 ^ 32 }
    requires totals { shown ≡ Totals → IsHonest cache.now.load }
    requires phase { AreOutcomesOf (mode_of shown) (program_of program.now) fuel cache.now
        phase.now.outcomes }
    ensures run { let p = named_program_of program.now in
        IsHonest cache.now.load
        → IsWrittenRun IsRanTo shown fuel p result K.tells (K.written sink.old) (K.written sink.new) }
    ensures printed { (mode : Mode) → shown ≡ Lines mode
        → IfOk result (λ r. IsPrintedRun cache.now r K.tells (K.written sink.old) (K.written sink.new)) }
    ensures ended { IfOk result (λ r. HasEnding r.status) }
    ensures built { IfOk result
        (λ r. AllByRecursion (IsBuilt (mode_of shown) cache.now) r.built.items) }
    ensures table { IfOk result (λ r. All (IsOf cache.now.cells) r.stored) }
    ensures blames { BlamesSink result (K.faults sink.old) (K.faults sink.new) }
    ensures count { K.faults sink.old ≤ K.faults sink.new }
    ensures bad { IfErr result (IfBadRecord
        (IsBadMain (mode_of shown) (program_of program.now) fuel cache.now.load phase.now.outcomes)) }
{
    let mode = shown.mode();
    let ItemsEnd { built, end } = items_end(alloc, program, &phase.outcomes)?;
    write_kernels(alloc, sink, cache, shown, built.as_slice())?;
    if let Some(end) = end {
        let status = write_end(alloc, sink, &end)?;
        let stored = Receipts::new(alloc);
        return Ok(Ran {
            status,
            stored,
            built,
        });
    }
    let mut steps = Steps::<L>::open(rt, blank);
    let mut asked = Asked::start(rt);
    let (end, stored) = main_end(
        alloc, program, phase, fuel, mode, cache, &mut steps, &mut asked,
    )?;
    let status = write_end(alloc, sink, &end)?;
    Ok(Ran {
        status,
        stored,
        built,
    })
}
