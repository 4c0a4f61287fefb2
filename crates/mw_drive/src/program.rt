// The run of a program.

ghost use Rattle.std.specs.Prelude.{◌≡◌, ◌≤◌, ◌<◌, ◌^◌, ℕ, List, [], map, length, IsTrue, Some, IsSome, IsNone, IfOk};
ghost use Rattle.std.specs.Prelude.{IfErr};
ghost use denote.Ref.{Bor};
ghost use Rattle.mw_outside.specs.Count.{Rose};
ghost use Rattle.mw_term.specs.Programs.{program_of};
ghost use Rattle.mw_term.specs.SmallTypes.{HasSmallTypes};
ghost use Rattle.mw_term.specs.Typable.{Typable};
ghost use Rattle.mw_infer.specs.Checking.{HasSmallKernels};
ghost use Rattle.mw_keeping.specs.GrownFiles.{GrowsRight};
ghost use Rattle.mw_console.specs.Texts.{Ending};
ghost use Rattle.mw_console.specs.declared.status.Status.TheVariants.{Cache as Unkept};
ghost use Rattle.mw_drive.specs.Honest.{IsHonestCache};
ghost use Rattle.mw_reading.specs.NamedPrograms.{named_program_of};
ghost use Rattle.mw_link.specs.Linked.{Kernel};
ghost use Rattle.mw_drive.specs.ProgramMeaning.{ended, program_run};
ghost use Rattle.mw_drive.specs.PrintedKernels.{KeepsPrintedAfter};
ghost use Rattle.mw_drive.specs.ProgramRuns.{IsWrittenRun, IsEndOf, IsEnded};
ghost use Rattle.mw_drive.specs.BadRecords.{HasBadRecord};
ghost use Rattle.mw_drive.specs.RunFaults.{BlamesSink, IfBadRecord};
ghost use Rattle.mw_drive.specs.HeldFiles.{IsHeldAfter, IsKeptOf};
ghost use Rattle.mw_drive.specs.OpenedFiles.{IsOpenedAfter};
ghost use Rattle.mw_drive.specs.Works.{mode_of, run_text};
ghost use Rattle.mw_drive.specs.declared.shown.Shown.TheVariants.{Totals};

use crate::fault::RunFault;
use crate::kept::keep_run;
use crate::ran::write_items;
use crate::shown::Shown;
use crate::workplace::Workplace;
use mw_cache::Cache;
use mw_console::Status;
use mw_keeping::{Opened, open_cache};
use mw_outside::{Gate, Keeper, Sink};
use mw_tasks::kernels_phase;
use mw_term::Program;
use std::alloc::Global;
use std::sync::ledger::{Blank, Ledger};
use std::thread::Threads;

/// How a program is run: by how many workers at most, what is shown of its kernels, and with which cache file, if any.
#[derive(Clone, Copy, Debug)]
pub struct RunOptions<'p> {
    pub workers: u32,
    pub shown: Shown,
    pub cache: Option<&'p str>,
}

/// Runs an accepted program with so many units for each item and for main, the kernel items by so many workers at most,
/// and writes what it comes to: what is shown of the kernels once all items were evaluated, and its last line. Where
/// there is a cache file, what counts of it is loaded before, and what wasn't loaded is kept in it afterwards.
pub fn write_run<R: Threads + Sync, K: Sink, C: Keeper, G: Gate, L: Ledger>(
    alloc: Global,
    place: &Workplace<'_, R, G>,
    program: &Program,
    fuel: u64,
    options: RunOptions<'_>,
    sink: &mut K,
    keeper: &mut C,
    blank: Blank,
) -> Result<Status, RunFault>
    requires name { blank.name ≡ L.name }
    requires parts { blank.parts ≡ L.parts }
    requires some { 0 < L.parts }
    requires workers { 1 ≤ options.workers }
    requires totals { options.shown ≡ Totals → IsNone options.cache }
    requires typable { Typable (program_of program.now) }
    requires small { HasSmallTypes (program_of program.now) }
    requires kernels { HasSmallKernels (program_of program.now) }
    requires few { length program.now.items < 2 ^ 32 }
    ensures run { let p = named_program_of program.now in
        IsHonestCache C.tells (C.held keeper.old) options.entry.cache
        → IsWrittenRun (IsEndOf options.entry.cache) options.entry.shown fuel p result K.tells (K.written sink.old)
        (K.written sink.new) }
    ensures ended { IfOk result (IsEnded options.entry.cache) }
    ensures blames { BlamesSink result (K.faults sink.old) (K.faults sink.new) }
    ensures count { K.faults sink.old ≤ K.faults sink.new }
    ensures untouched { IsNone options.entry.cache → keeper.new ≡ keeper.old }
    ensures opened { (path : Bor (List ℕ)) → options.entry.cache ≡ Some path → IsTrue C.tells
        → IsOpenedAfter result path.now (C.opened keeper.old) (C.opened keeper.new) }
    ensures held { IsSome options.entry.cache → IsTrue C.tells
        → IsHeldAfter result (C.held keeper.old) (C.held keeper.new) }
    ensures kept { let p = named_program_of program.now in let mode = mode_of options.entry.shown in
        IsSome options.entry.cache → IsHonestCache C.tells (C.held keeper.old) options.entry.cache
        → (kernels : List Kernel) (e : Ending) → program_run mode fuel p ≡ ended kernels e
        → IsKeptOf (map (run_text mode) kernels) result (C.held keeper.old) (C.held keeper.new) }
    ensures right { IsTrue C.tells → GrowsRight (C.held keeper.old) (C.held keeper.new) }
    ensures printed { IsSome options.entry.cache → IsTrue C.tells
        → KeepsPrintedAfter result K.tells (K.written sink.old) (K.written sink.new)
        (C.held keeper.old) (C.held keeper.new) }
    ensures unkept { IfOk result
        (λ s. s ≡ Unkept → Rose (C.faults keeper.old) (C.faults keeper.new)) }
    ensures unfailed { IfOk result
        (λ s. (s ≡ Unkept → ⊥) → C.faults keeper.new ≡ C.faults keeper.old) }
    ensures rises { C.faults keeper.old ≤ C.faults keeper.new }
    ensures bad { let p = program_of program.now in let mode = mode_of options.entry.shown in
        IfErr result (IfBadRecord (HasBadRecord mode p fuel C.tells (C.held keeper.old))) }
{
    let Opened { load, file } = open_cache(alloc, keeper, options.cache)?;
    let cache = Cache::new(place.table, load);
    let phase = kernels_phase(
        place.rt,
        alloc,
        program,
        fuel,
        options.shown.mode(),
        options.workers,
        &cache,
        place.gate,
    )?;
    let ran = write_items::<R, K, L>(
        place.rt,
        alloc,
        program,
        &phase,
        fuel,
        options.shown,
        &cache,
        sink,
        blank,
    )?;
    Ok(keep_run(alloc, keeper, &cache, file, &phase, &ran)?)
}
