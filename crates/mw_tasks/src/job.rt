// A worker's part of the evaluation: the kernel items that it takes.

ghost use Rattle.std.specs.Prelude.{◌≡◌, ◌+◌, ◌≤◌, ◌<◌, [], ◌∷◌, ◌++◌, true, false, All, IfOk, IfErr, OnOk};
ghost use Rattle.mw_term.specs.Terms.{kernel_type_of};
ghost use Rattle.mw_term.specs.Programs.{program_of};
ghost use Rattle.mw_term.specs.SmallTypes.{HasSmallTypes};
ghost use Rattle.mw_term.specs.Typable.{Typable};
ghost use Rattle.mw_meaning.specs.StagedMeaning.{runs};
ghost use Rattle.mw_meaning.specs.Outcomes.{item_outcome, names_of_items};
ghost use Rattle.mw_machine.specs.Evaluations.{item, term_of};
ghost use Rattle.mw_machine.specs.KernelCalls.{prices};
ghost use Rattle.mw_spread.specs.Outputs.{IfBad};
ghost use Rattle.mw_cache.specs.Gots.{loaded_texts};
ghost use Rattle.mw_cached.specs.Following.{Follows, standing};
ghost use Rattle.mw_tasks.specs.TaskOutcomes.{IsKernelItem, IsItemAnswer, IfItsCode, IsCodeOf, HasKind};
ghost use Rattle.mw_tasks.specs.Phases.{IsTask, IsDoneAt};
ghost use Rattle.mw_tasks.specs.BadItems.{IsBadOfItems};
ghost use Rattle.mw_tasks.specs.RightRuns.{AreRightRuns, unloaded_price};
ghost use Rattle.mw_tasks.specs.Taking.{IsTakenIn};

use crate::kernel_item::evaluate_item;
use crate::outcome::{Evaluated, ItemOutcome};
use mw_cache::{Asked, Cache, HintedCache};
use mw_cached::{CachedKernels, KernelState};
use mw_compile::{Entry, Steps};
use mw_machine::KernelFault;
use mw_meaning::Mode;
use mw_slots::Receipts;
use mw_spread::{Job, JobFault};
use mw_term::{ItemKind, KType, Program};
use std::alloc::{AllocError, Global};
use std::marker::Brand;
use std::sync::atomic::{AtomicU64, Ordering};
use std::sync::ledger::{Blank, Ledger};
use std::thread::Threads;

/// The evaluation of a program's kernel items over a cache. `numbers` are those of the kernel items among all items;
/// `next` is how many of them have been taken by workers, or more.
#[derive(Drop)]
pub struct Evaluation<'a, 't> {
    pub program: &'a Program,
    pub numbers: &'a [usize],
    pub next: &'a AtomicU64,
    pub fuel: u64,
    pub mode: Mode,
    pub cache: &'a Cache<'t>,
}

/// What a kernel item came to, with the receipts of the modules that its evaluation asked for, its emissions, and what
/// it asked for.
#[derive(Drop)]
pub struct Done {
    pub outcome: ItemOutcome,
    pub stored: Receipts<Entry>,
    pub emitted: u64,
    pub asked: Asked,
}

/// What the kernel item that a worker took came to, and its place among the kernel items.
#[derive(Drop)]
pub struct Taken {
    pub at: usize,
    pub done: Done,
}

impl<'a, 't> Job<usize> for Evaluation<'a, 't> {
    type Out = Vec<Taken>;

    ghost takes = { λ job _. All (IsTask (program_of job.program.now)) job.numbers.now };

    ghost gives = { λ job _ taken. All (IsTakenIn job) taken.items };

    ghost bad = { λ job _.
        IsBadOfItems job.mode (program_of job.program.now) job.fuel job.cache.now.load };

    fn work<R: Threads + Sync>(
        &self,
        rt: &R,
        alloc: Global,
        _worker: &usize,
    ) -> Result<Vec<Taken>, JobFault> {
        taken_by_one(rt, alloc, self)
    }
}

/// Takes kernel items one after the other, for as long as one is left, and evaluates each.
fn taken_by_one<R: Threads>(
    rt: &R,
    alloc: Global,
    job: &Evaluation<'_, '_>,
) -> Result<Vec<Taken>, JobFault>
    requires { All (IsTask (program_of job.now.program.now)) job.now.numbers.now }
    ensures gives { IfOk result (λ taken. All (IsTakenIn job.now) taken.items) }
    ensures bad { IfErr result (λ fault. IfBad fault
        (IsBadOfItems job.now.mode (program_of job.now.program.now) job.now.fuel job.now.cache.now.load)) }
{
    let mut taken = Vec::new(alloc);
    for _turn in 0..job.numbers.len() {
        let at = job.next.fetch_add(1, Ordering::SeqCst) as usize;
        let Some(number) = job.numbers.get(at) else {
            break;
        };
        let done = evaluated_alone(rt, alloc, job, *number)?;
        add_taken(&mut taken, at, done)?;
    }
    Ok(taken)
}

/// Adds what the item at a place came to.
fn add_taken(taken: &mut Vec<Taken>, at: usize, done: Done) -> Result<(), AllocError>
    ensures { OnOk result
        (taken.new.items ≡ taken.old.items ++ record { at = at; done = done } ∷ []) }
{
    taken.push(Taken { at, done })?;
    Ok(())
}

/// Evaluates a kernel item, where nobody else counts its emissions.
pub(crate) fn evaluated_alone<R: Threads>(
    rt: &R,
    alloc: Global,
    job: &Evaluation<'_, '_>,
    number: usize,
) -> Result<Done, JobFault>
    requires task { IsTask (program_of job.now.program.now) number }
    ensures done { IfOk result (IsDoneAt job.now.mode
        (program_of job.now.program.now) job.now.fuel job.now.cache.now number) }
    ensures bad { IfErr result (λ fault. IfBad fault
        (IsBadOfItems job.now.mode (program_of job.now.program.now) job.now.fuel job.now.cache.now.load)) }
{
    evaluated::<R, Brand>(rt, alloc, job, number, Blank::new(1))
}

/// Evaluates a kernel item, asks for the module of its code, and counts the emissions. Its machine is its own, and is
/// given up at its end.
fn evaluated<R: Threads, L: Ledger>(
    rt: &R,
    alloc: Global,
    job: &Evaluation<'_, '_>,
    number: usize,
    blank: Blank,
) -> Result<Done, JobFault>
    requires name { blank.name ≡ L.name }
    requires parts { blank.parts ≡ L.parts }
    requires some { 0 < L.parts }
    requires task { IsTask (program_of job.now.program.now) number }
    ensures done { IfOk result (IsDoneAt job.now.mode
        (program_of job.now.program.now) job.now.fuel job.now.cache.now number) }
    ensures bad { IfErr result (λ fault. IfBad fault
        (IsBadOfItems job.now.mode (program_of job.now.program.now) job.now.fuel job.now.cache.now.load)) }
{
    let hints = Receipts::new(alloc);
    let cache = HintedCache::new(job.cache, &hints);
    let mut steps: Steps<L> = Steps::open(rt, blank);
    let mut asked = Asked::start(rt);
    let mut state = KernelState::new(alloc, job.mode, &cache);
    let outcome = outcome_over(
        alloc,
        job.program,
        number,
        job.fuel,
        &mut steps,
        &mut asked,
        &mut state,
    )?;
    let whole = state.whole;
    if !whole {
        return Err(JobFault::Memory(AllocError));
    }
    Ok(finished(state, asked, outcome))
}

/// What a kernel item comes to over new kernels of a cache that count on these steps and note here what they ask for,
/// and where the module of its code is.
fn outcome_over<L: Ledger>(
    alloc: Global,
    program: &Program,
    number: usize,
    fuel: u64,
    steps: &mut Steps<L>,
    asked: &mut Asked,
    state: &mut KernelState<'_, '_>,
) -> Result<ItemOutcome, JobFault>
    requires task { IsTask (program_of program.now) number }
    requires open { state.old.functions.functions.stopped ≡ false }
    requires unhinted { let cache = state.old.functions.cache in
        cache.hinted ≡ loaded_texts cache.cache.load }
    requires none { state.old.stored ≡ [] }
    requires uncounted { state.old.emitted ≡ 0 }
    requires unspent { steps.old ≡ 0 }
    requires unasked { asked.old ≡ [] }
    requires unnoted { state.old.bad ≡ 0 }
    ensures done { let own = state.old.functions in state.new.whole ≡ true → IfOk result (λ o.
        IsDoneAt own.functions.mode (program_of program.now) fuel own.cache.cache number
        record {
          outcome = o;
          stored = state.new.stored;
          emitted = state.new.emitted;
          asked = asked.new;
        }) }
    ensures bad { let own = state.old.functions in IfErr result (λ fault. IfBad fault
        (IsBadOfItems own.functions.mode (program_of program.now) fuel own.cache.cache.load)) }
{
    placed_outcome(
        alloc,
        program,
        number,
        fuel,
        &mut CachedKernels {
            alloc,
            steps,
            asked,
            state,
        },
    )
}

/// What a kernel item comes to over new kernels of a cache, and where the module of its code is.
fn placed_outcome<L: Ledger>(
    alloc: Global,
    program: &Program,
    number: usize,
    fuel: u64,
    kernels: &mut CachedKernels<'_, '_, '_, L>,
) -> Result<ItemOutcome, JobFault>
    requires task { IsTask (program_of program.now) number }
    requires open { kernels.old.state.now.functions.functions.stopped ≡ false }
    requires unhinted { let cache = kernels.old.state.now.functions.cache in
        cache.hinted ≡ loaded_texts cache.cache.load }
    requires none { kernels.old.state.now.stored ≡ [] }
    requires uncounted { kernels.old.state.now.emitted ≡ 0 }
    requires unspent { kernels.old.steps.now ≡ 0 }
    requires unasked { kernels.old.asked.now ≡ [] }
    requires unnoted { kernels.old.state.now.bad ≡ 0 }
    ensures done { let own = kernels.old.state.now.functions in
        kernels.new.state.now.whole ≡ true → IfOk result (λ o.
        IsDoneAt own.functions.mode (program_of program.now) fuel own.cache.cache number
        record {
          outcome = o;
          stored = kernels.new.state.now.stored;
          emitted = kernels.new.state.now.emitted;
          asked = kernels.new.asked.now;
        }) }
    ensures bad { let own = kernels.old.state.now.functions in IfErr result (λ fault. IfBad fault
        (IsBadOfItems own.functions.mode (program_of program.now) fuel own.cache.cache.load)) }
    ensures lent { (kernels.new.steps.ghost_name ≡ kernels.old.steps.ghost_name)
        × (kernels.new.state.ghost_name ≡ kernels.old.state.ghost_name)
        × (kernels.new.asked.ghost_name ≡ kernels.old.asked.ghost_name) }
{
    match evaluated_in(alloc, program, number, fuel, kernels)? {
        Evaluated::Code(code) => {
            let got = kernels.obtain(&code, kernel_kind(program, number))?;
            Ok(ItemOutcome::Code(code, got))
        }
        Evaluated::Trap(trap) => Ok(ItemOutcome::Trap(trap)),
        Evaluated::Bound(limit) => Ok(ItemOutcome::Bound(limit)),
    }
}

/// The type of the kernel item with this number.
fn kernel_kind(program: &Program, number: usize) -> &KType
    requires item { IsKernelItem (program_of program.now) number }
    ensures { HasKind (program_of program.now) number (kernel_type_of result.now) }
{
    match &program.items.get(number).kind {
        ItemKind::Kernel(kind, _) => kind,
        ItemKind::Value(_) => unreachable!(),
    }
}

/// What a kernel item comes to over kernels of a cache.
fn evaluated_in<L: Ledger>(
    alloc: Global,
    program: &Program,
    number: usize,
    fuel: u64,
    kernels: &mut CachedKernels<'_, '_, '_, L>,
) -> Result<Evaluated, JobFault>
    requires typable { Typable (program_of program.now) }
    requires small { HasSmallTypes (program_of program.now) }
    requires item { IsKernelItem (program_of program.now) number }
    requires open { kernels.old.state.now.functions.functions.stopped ≡ false }
    requires unhinted { let cache = kernels.old.state.now.functions.cache in
        cache.hinted ≡ loaded_texts cache.cache.load }
    requires unnoted { kernels.old.state.now.bad ≡ 0 }
    ensures outcome { let p = program_of program.now in let own = kernels.old.state.now.functions in
        let mode = own.functions.mode in
        let names = names_of_items p.items in let e = term_of p (item number) in
        AreRightRuns mode own.cache.cache.load (runs mode names fuel e)
        → IfOk result (λ o. IsItemAnswer o (item_outcome mode names fuel e)) }
    ensures typed { IfOk result (λ o. IfItsCode o (IsCodeOf (program_of program.now) number)) }
    ensures cost { let p = program_of program.now in let own = kernels.old.state.now.functions in
        let mode = own.functions.mode in
        let names = names_of_items p.items in let e = term_of p (item number) in
        AreRightRuns mode own.cache.cache.load (runs mode names fuel e)
        → IfOk result (λ _. kernels.new.steps.now ≤ kernels.old.steps.now
        + prices (unloaded_price mode own.cache.cache.load) (runs mode names fuel e)) }
    ensures bad { let own = kernels.old.state.now.functions in IfErr result (λ fault. IfBad fault
        (IsBadOfItems own.functions.mode (program_of program.now) fuel own.cache.cache.load)) }
    ensures lent { (kernels.new.steps.ghost_name ≡ kernels.old.steps.ghost_name)
        × (kernels.new.state.ghost_name ≡ kernels.old.state.ghost_name)
        × (kernels.new.asked.ghost_name ≡ kernels.old.asked.ghost_name) }
    ensures follows { Follows
        (standing kernels.old.state.now kernels.old.steps.now kernels.old.asked.now)
        (standing kernels.new.state.now kernels.new.steps.now kernels.new.asked.now) }
{
    match evaluate_item(alloc, program, number, fuel, kernels) {
        Ok(outcome) => Ok(outcome),
        Err(KernelFault::Memory(error)) => Err(JobFault::Memory(error)),
        Err(KernelFault::Bad(digest)) => Err(JobFault::Bad(digest)),
    }
}

/// What an item came to, with what its kernels kept and counted, and what they asked for.
fn finished(state: KernelState<'_, '_>, asked: Asked, outcome: ItemOutcome) -> Done
    ensures outcome { result.outcome ≡ outcome }
    ensures stored { result.stored ≡ state.entry.stored }
    ensures emitted { result.emitted ≡ state.entry.emitted }
    ensures asked { result.asked ≡ asked }
{
    let KernelState {
        stored,
        emitted,
        ..
    } = state;
    Done {
        outcome,
        stored: stored.into_receipts(),
        emitted,
        asked,
    }
}
