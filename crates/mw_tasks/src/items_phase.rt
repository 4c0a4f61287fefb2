// The phase of the kernel items.

ghost use Rattle.std.specs.Prelude.{◌≡◌, ◌≤◌, ◌+◌, All, IfOk, IfErr, min};
ghost use Rattle.std.specs.List.{range_with_len};
ghost use Rattle.mw_term.specs.Programs.{program_of};
ghost use Rattle.mw_term.specs.SmallTypes.{HasSmallTypes};
ghost use Rattle.mw_term.specs.Typable.{Typable};
ghost use Rattle.mw_meaning.specs.Outcomes.{names_of_items};
ghost use Rattle.mw_slots.specs.Receipts.{IsOf};
ghost use Rattle.mw_spread.specs.Outputs.{IfBad};
ghost use Rattle.mw_cache.specs.Received.{IsReceived, AreAllReceived};
ghost use Rattle.mw_tasks.specs.Phases.{HasSmallKernels, AreOutcomesOf, IfBuilt, AllHaveOneModule};
ghost use Rattle.mw_tasks.specs.Phases.{unloaded_among, kernel_numbers};
ghost use Rattle.mw_tasks.specs.BadItems.{IsBadOfItems};
ghost use Rattle.mw_tasks.specs.RightRuns.{AreRightItems, price_of_items};

use crate::agreeing::agree_all;
use crate::gathering::gathered;
use crate::job::Evaluation;
use crate::laws::{evaluations_cross, taken_crosses};
use crate::outcome::Outcomes;
use crate::places::in_order;
use mw_cache::{Asked, Cache};
use mw_compile::Entry;
use mw_meaning::Mode;
use mw_outside::Gate;
use mw_slots::Receipts;
use mw_spread::{JobFault, spread};
use mw_term::{ItemKind, Program};
use std::alloc::{AllocError, Global};
use std::sync::atomic::AtomicU64;
use std::thread::Threads;

/// What the kernel items of a program came to, all of them, in order; receipts of the modules that were asked for, one
/// for each slot; how many emissions there were, or the greatest number where they were more; and what was asked for.
#[derive(Drop)]
pub struct Phase {
    pub outcomes: Outcomes,
    pub stored: Receipts<Entry>,
    pub emitted: u64,
    pub asked: Asked,
}

/// Evaluates each kernel item of a program, with so many units, by so many workers at most, over a cache. A worker that
/// is free takes the next item. The error is want of memory, or the digest of a loaded record whose module is stray.
pub fn kernels_phase<R: Threads + Sync, G: Gate>(
    rt: &R,
    alloc: Global,
    program: &Program,
    fuel: u64,
    mode: Mode,
    workers: u32,
    cache: &Cache<'_>,
    gate: &G,
) -> Result<Phase, JobFault>
    requires workers { 1 ≤ workers }
    requires typable { Typable (program_of program.now) }
    requires small { HasSmallTypes (program_of program.now) }
    requires kernels { HasSmallKernels (program_of program.now) }
    // The outcome of every kernel item, in order, whoever evaluated it and whatever stood in the table.
    ensures outcomes { IfOk result
        (λ phase. AreOutcomesOf mode (program_of program.now) fuel cache.now phase.outcomes) }
    ensures slots { IfOk result (λ phase. AllHaveOneModule phase.outcomes) }
    ensures stored { IfOk result
        (λ phase. All (λ o. IfBuilt o (λ c got. IsReceived phase.stored got)) phase.outcomes) }
    ensures received { IfOk result (λ phase. AreAllReceived phase.stored phase.asked) }
    ensures table { IfOk result (λ phase. All (IsOf cache.now.cells) phase.stored) }
    ensures emitted { let items = (program_of program.now).items in
        AreRightItems mode (program_of program.now) fuel cache.now.load
        → IfOk result (λ phase. phase.emitted
        ≤ price_of_items mode (names_of_items items) fuel cache.now.load items + unloaded_among phase.outcomes) }
    ensures bad { IfErr result
        (λ fault. IfBad fault (IsBadOfItems mode (program_of program.now) fuel cache.now.load)) }
{
    taken_crosses();
    evaluations_cross();
    let numbers = kernel_numbers(alloc, program)?;
    let at_work = worker_numbers(alloc, workers, numbers.len())?;
    let next = AtomicU64::new(0);
    let job = Evaluation {
        program,
        numbers: numbers.as_slice(),
        next: &next,
        fuel,
        mode,
        cache,
    };
    let taken = spread(rt, alloc, workers, at_work.as_slice(), &job, gate)?;
    let all = in_order(rt, alloc, &job, taken)?;
    let phase = gathered(rt, alloc, all)?;
    agree_all(cache, phase.outcomes.as_slice());
    Ok(phase)
}

/// The numbers of the kernel items among all items, in order.
fn kernel_numbers(alloc: Global, program: &Program) -> Result<Vec<usize>, AllocError>
    ensures { IfOk result
        (λ numbers. numbers.items ≡ kernel_numbers 0 (program_of program.now).items) }
{
    let mut numbers = Vec::new(alloc);
    for at in 0..program.items.len() {
        match program.items.get(at).kind {
            ItemKind::Kernel(_, _) => numbers.push(at)?,
            ItemKind::Value(_) => {}
        }
    }
    Ok(numbers)
}

/// The numbers of the workers that are needed, from 0 on: of these workers at most, and never more than items.
fn worker_numbers(alloc: Global, workers: u32, items: usize) -> Result<Vec<usize>, AllocError>
    ensures { IfOk result (λ numbers. numbers.items ≡ range_with_len 0 (min items workers)) }
{
    let mut numbers = Vec::new(alloc);
    for number in 0..items.min(workers as usize) {
        numbers.push(number)?;
    }
    Ok(numbers)
}
