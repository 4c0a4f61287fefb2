// The evaluation of a source.

ghost use Rattle.std.specs.Prelude.{◌≡◌, ◌≤◌, ◌<◌, ℕ, List, map, IsTrue, Some, IsSome, IsNone, IfOk, IfErr};
ghost use denote.Ref.{Bor};
ghost use Rattle.mw_outside.specs.Count.{Rose};
ghost use Rattle.mw_term.specs.declared.program.Item.{Item as PureItem};
ghost use Rattle.mw_term.specs.declared.refusal.Refusal.{Refusal};
ghost use Rattle.mw_console.specs.Texts.{Ending, refusal_line};
ghost use Rattle.mw_console.specs.declared.status.Status.TheVariants.{Refused, Cache as Unkept};
ghost use Rattle.mw_keeping.specs.GrownFiles.{GrowsRight};
ghost use Rattle.mw_drive.specs.declared.shown.Shown.{Shown};
ghost use Rattle.mw_drive.specs.BadRecords.{HasBadRecordOf};
ghost use Rattle.mw_drive.specs.HeldFiles.{IsHeldAfter, IsKeptOf};
ghost use Rattle.mw_drive.specs.OpenedFiles.{IsOpenedAfter};
ghost use Rattle.mw_drive.specs.Honest.{IsHonestCache};
ghost use Rattle.mw_link.specs.Linked.{Kernel};
ghost use Rattle.mw_drive.specs.PrintedKernels.{KeepsPrintedAfter};
ghost use Rattle.mw_drive.specs.ProgramRuns.{evaluated, cache_of, IsPossible, IsUsual, IsWrittenMeaning, IsEndedSource};
ghost use Rattle.mw_drive.specs.RunFaults.{BlamesSink, IfBadRecord};
ghost use Rattle.mw_drive.specs.Works.{IsMeaning, ran, mode_of, run_text};
ghost use Rattle.mw_drive.specs.Written.{Writes};

use crate::erased::write_erased;
use crate::fault::RunFault;
use crate::linked::write_linked;
use crate::program::{RunOptions, write_run};
use crate::workplace::Workplace;
use mw_console::{Status, put_refusal, write_lines};
use mw_infer::ensure_typed;
use mw_outside::{Gate, Keeper, Sink};
use mw_reading::read;
use mw_term::{Item, Refusal, Stop};
use std::alloc::Global;
use std::sync::ledger::{Blank, Ledger};
use std::thread::Threads;

/// What of a source is evaluated and written: the run of its program; its erased program's main; or its kernels, as one
/// module, whose items are evaluated by so many workers at most.
#[derive(Clone, Copy, Debug)]
pub enum Evaluation<'p> {
    Run(RunOptions<'p>),
    Erased,
    Linked(u32),
}

/// Reads and checks a source, evaluates it with so many units for each item and for main, and writes what it means. A
/// refused source leaves the keeper alone.
#[tactic(auto, using(crate::proofs::HeldFiles::right_stays))]
pub fn write_source<R: Threads + Sync, K: Sink, C: Keeper, G: Gate, L: Ledger>(
    alloc: Global,
    place: &Workplace<'_, R, G>,
    bytes: &[u8],
    fuel: u64,
    evaluation: Evaluation<'_>,
    sink: &mut K,
    keeper: &mut C,
    blank: Blank,
) -> Result<Status, RunFault>
    requires name { blank.name ≡ L.name }
    requires parts { blank.parts ≡ L.parts }
    requires some { 0 < L.parts }
    requires possible { IsPossible evaluation }
    ensures meaning { let work = evaluated evaluation.entry bytes.now fuel in
        let path = cache_of evaluation.entry in
        IsHonestCache C.tells (C.held keeper.old) path
        → IsWrittenMeaning path work result K.tells (K.written sink.old) (K.written sink.new) }
    ensures ended { IfOk result (IsEndedSource (cache_of evaluation.entry)) }
    ensures blames { BlamesSink result (K.faults sink.old) (K.faults sink.new) }
    ensures count { K.faults sink.old ≤ K.faults sink.new }
    ensures untouched { IsNone (cache_of evaluation.entry) → keeper.new ≡ keeper.old }
    ensures refused { IfOk result (λ s. (r : Refusal) → s ≡ Refused r → keeper.new ≡ keeper.old) }
    ensures opened { (path : Bor (List ℕ)) → cache_of evaluation.entry ≡ Some path → IsTrue C.tells
        → IsOpenedAfter result path.now (C.opened keeper.old) (C.opened keeper.new) }
    ensures held { IsSome (cache_of evaluation.entry) → IsTrue C.tells
        → IsHeldAfter result (C.held keeper.old) (C.held keeper.new) }
    ensures kept { let path = cache_of evaluation.entry in
        IsSome path → IsHonestCache C.tells (C.held keeper.old) path
        → (shown : Shown) (kernels : List Kernel) (e : Ending)
        → IsMeaning (evaluated evaluation.entry bytes.now fuel) (ran shown kernels e)
        → IsKeptOf (map (run_text (mode_of shown)) kernels) result (C.held keeper.old) (C.held keeper.new) }
    ensures right { IsTrue C.tells → GrowsRight (C.held keeper.old) (C.held keeper.new) }
    ensures printed { IsSome (cache_of evaluation.entry) → IsTrue C.tells
        → KeepsPrintedAfter result K.tells (K.written sink.old) (K.written sink.new)
        (C.held keeper.old) (C.held keeper.new) }
    ensures unkept { IfOk result
        (λ s. s ≡ Unkept → Rose (C.faults keeper.old) (C.faults keeper.new)) }
    ensures unfailed { IfOk result
        (λ s. (s ≡ Unkept → ⊥) → C.faults keeper.new ≡ C.faults keeper.old) }
    ensures rises { C.faults keeper.old ≤ C.faults keeper.new }
    ensures bad { let work = evaluated evaluation.entry bytes.now fuel in
        IfErr result (IfBadRecord (HasBadRecordOf work C.tells (C.held keeper.old))) }
{
    let program = match read(alloc, bytes) {
        Ok(program) => program,
        Err(Stop::Refused(refusal)) => return write_refusal(alloc, sink, refusal, &[]),
        Err(Stop::Memory(error)) => return Err(RunFault::from(error)),
    };
    match ensure_typed(alloc, &program) {
        Ok(()) => {}
        Err(Stop::Refused(refusal)) => {
            return write_refusal(alloc, sink, refusal, program.items.as_slice());
        }
        Err(Stop::Memory(error)) => return Err(RunFault::from(error)),
    }
    match evaluation {
        Evaluation::Run(options) => write_run::<R, K, C, G, L>(
            alloc, place, &program, fuel, options, sink, keeper, blank,
        ),
        Evaluation::Erased => {
            write_erased::<R, K, L>(place.rt, alloc, place.table, &program, fuel, sink, blank)
        }
        Evaluation::Linked(workers) => { write_linked(alloc, place, program, fuel, workers, sink) }
    }
}

/// Writes the line of a refusal, with the items of the program where that was read.
fn write_refusal<K: Sink>(
    alloc: Global,
    sink: &mut K,
    refusal: Refusal,
    items: &[Item],
) -> Result<Status, RunFault>
    ensures status { IfOk result (λ status. status ≡ Refused refusal) }
    ensures usual { IfErr result IsUsual }
    ensures writes { let text = refusal_line (map (λ (i : PureItem). i.name) items.now) refusal in
        Writes result K.tells (K.written sink.old) (K.written sink.new) text }
    ensures blames { BlamesSink result (K.faults sink.old) (K.faults sink.new) }
    ensures count { K.faults sink.old ≤ K.faults sink.new }
{
    let mut text = Vec::new(alloc);
    put_refusal(alloc, &mut text, refusal, items)?;
    write_lines(sink, text.as_slice())?;
    Ok(Status::Refused(refusal))
}
