// The cache file of a run that was written.

ghost use Rattle.std.specs.Prelude.{◌≡◌, ◌≤◌, ◌⊎◌, ◌++◌, ℕ, List, All, map, IsTrue, IfOk};
ghost use Rattle.std.specs.List.{AllByRecursion};
ghost use Rattle.mw_outside.specs.Count.{Rose};
ghost use Rattle.mw_slots.specs.Receipts.{IsOf};
ghost use Rattle.mw_cache.specs.Gots.{CacheState, IsHere, text_in};
ghost use Rattle.mw_console.specs.declared.status.Status.TheVariants.{Cache as Unkept};
ghost use Rattle.mw_keeping.specs.CacheFiles.{IsReadFile};
ghost use Rattle.mw_keeping.specs.KeptFiles.{HasGoodFront};
ghost use Rattle.mw_keeping.specs.GrownFiles.{GrowsRight};
ghost use Rattle.mw_keeping.specs.declared.opening.CacheFile.TheVariants.{Absent, Unread, Read};
ghost use Rattle.mw_drive.specs.ProgramRuns.{HasModuleHere};
ghost use Rattle.mw_drive.specs.HeldFiles.{CoversAll, IsStatusAfter, texts_built};

use crate::items::Built;
use crate::ran::Ran;
use mw_cache::{Cache, Got, KeptReceipts};
use mw_compile::Entry;
use mw_console::Status;
use mw_keeping::{CacheFile, keep};
use mw_outside::{KeepFault, Keeper};
use mw_slots::Receipts;
use mw_tasks::Phase;
use std::alloc::{AllocError, Global};

/// Keeps what was emitted for a run in the cache file, where that was read. The status is the run's, unless the keeper
/// failed, before the run or now. The error is want of memory.
#[tactic(auto, using(crate::proofs::HeldFiles::right_stays))]
pub fn keep_run<C: Keeper>(
    alloc: Global,
    keeper: &mut C,
    cache: &Cache<'_>,
    file: CacheFile,
    phase: &Phase,
    ran: &Ran<'_>,
) -> Result<Status, AllocError>
    requires read { (count : ℕ) → file ≡ Read count → IsTrue C.tells
        → IsReadFile (C.held keeper.old) count cache.now.load }
    requires phase { All (IsOf cache.now.cells) phase.now.stored }
    requires table { All (IsOf cache.now.cells) ran.now.stored }
    requires built { AllByRecursion (HasModuleHere cache.now) ran.now.built.items }
    ensures status { IfOk result (λ s. IsStatusAfter file ran.now.status s) }
    ensures untouched { file ≡ Absent → keeper.new ≡ keeper.old }
    ensures unread { file ≡ Unread → keeper.new ≡ keeper.old }
    ensures kept { (count : ℕ) → file ≡ Read count
        → IfOk result (λ s. (s ≡ Unkept → ⊥) → IsTrue C.tells
        → CoversAll (texts_built cache.now ran.now.built.items) (C.held keeper.old) (C.held keeper.new)) }
    ensures front { (count : ℕ) → file ≡ Read count → IsTrue C.tells
        → HasGoodFront (C.held keeper.old) (C.held keeper.new) }
    ensures right { IsTrue C.tells → GrowsRight (C.held keeper.old) (C.held keeper.new) }
    ensures same_names { IsTrue C.tells → C.opened keeper.new ≡ C.opened keeper.old }
    ensures unkept { IfOk result (λ s. s ≡ Unkept → (ran.now.status ≡ Unkept) ⊎ (file ≡ Unread)
        ⊎ Rose (C.faults keeper.old) (C.faults keeper.new)) }
    ensures unfailed { IfOk result
        (λ s. (s ≡ Unkept → ⊥) → C.faults keeper.new ≡ C.faults keeper.old) }
    ensures rises { C.faults keeper.old ≤ C.faults keeper.new }
{
    match file {
        CacheFile::Absent => Ok(ran.status),
        CacheFile::Unread => Ok(Status::Cache),
        CacheFile::Read(count) => {
            let receipts = receipts_of(alloc, phase, ran)?;
            let gots = gots_of(alloc, ran.built.as_slice())?;
            match keep(
                alloc,
                keeper,
                cache,
                count,
                receipts.as_slice(),
                gots.as_slice(),
            ) {
                Ok(()) => Ok(ran.status),
                Err(KeepFault::Failed) => Ok(Status::Cache),
                Err(KeepFault::Memory(error)) => Err(error),
            }
        }
    }
}

/// Receipts of the modules that the kernel items and main asked for, one for each slot.
fn receipts_of(alloc: Global, phase: &Phase, ran: &Ran<'_>) -> Result<Receipts<Entry>, AllocError>
    ensures { (cells : List ℕ) → All (IsOf cells) phase.now.stored → All (IsOf cells) ran.now.stored
        → IfOk result (λ receipts. All (IsOf cells) receipts) }
{
    let mut kept = KeptReceipts::new(alloc);
    kept.keep_each(alloc, &phase.stored)?;
    kept.keep_each(alloc, &ran.stored)?;
    Ok(kept.into_receipts())
}

/// Where the modules of the kernels are.
fn gots_of<'b>(alloc: Global, built: &[Built<'b>]) -> Result<Vec<&'b Got>, AllocError>
    ensures texts { (cache : CacheState)
        → IfOk result (λ gots. map (λ g. text_in cache g.now) gots.items ≡ texts_built cache built.now) }
    ensures here { (cache : CacheState) → AllByRecursion (HasModuleHere cache) built.now
        → IfOk result (λ gots. All (λ g. IsHere cache g.now) gots.items) }
{
    let mut gots = Vec::new(alloc);
    for kernel in built {
        gots.push(kernel.got)?;
    }
    Ok(gots)
}
