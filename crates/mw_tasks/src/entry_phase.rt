// The phase of main.

ghost use Rattle.std.specs.Prelude.{◌≡◌, ◌≤◌, ◌+◌, false, [], ◌∷◌, ◌++◌, All, IfOk, IfErr};
ghost use Rattle.mw_term.specs.Programs.{program_of};
ghost use Rattle.mw_term.specs.SmallTypes.{HasSmallTypes};
ghost use Rattle.mw_term.specs.Typable.{Typable};
ghost use Rattle.mw_meaning.specs.Outcomes.{main_outcome, names_of_main};
ghost use Rattle.mw_meaning.specs.OutcomeLaws.{AreCodesOf};
ghost use Rattle.mw_meaning.specs.GroundValues.{HasGroundType};
ghost use Rattle.mw_meaning.specs.StagedMeaning.{runs};
ghost use Rattle.mw_machine.specs.CodesInPlace.{expressions_of};
ghost use Rattle.mw_machine.specs.KernelCalls.{prices};
ghost use Rattle.mw_slots.specs.Receipts.{IsOf, IsFetched};
ghost use Rattle.mw_key.specs.CanonicalText.{home};
ghost use Rattle.mw_spread.specs.Outputs.{IfBad};
ghost use Rattle.mw_cache.specs.Gots.{IsAnswered, entry_text, texts_of};
ghost use Rattle.mw_cache.specs.Received.{ReceivesSince};
ghost use Rattle.mw_cached.specs.Following.{Follows, standing, price_in};
ghost use Rattle.mw_tasks.specs.TaskOutcomes.{IsMainAnswer, IfGiven};
ghost use Rattle.mw_tasks.specs.BadItems.{IsBadOfRuns};
ghost use Rattle.mw_tasks.specs.RightRuns.{AreRightRuns};
ghost use Rattle.mw_tasks.specs.Phases.{AreOutcomesOf, AreBuiltAll, IfBuilt, codes_in};
ghost use Rattle.mw_tasks.specs.Phases.{stored_text, stored_texts, main_price};

use crate::entry::evaluate_main;
use crate::items_phase::Phase;
use crate::outcome::{ItemOutcome, MainOutcome};
use mw_cache::{Asked, Cache, Got, HintedCache};
use mw_cached::{CachedKernels, KernelState};
use mw_compile::{Entry, Steps};
use mw_machine::KernelFault;
use mw_meaning::Mode;
use mw_slots::Receipts;
use mw_spread::JobFault;
use mw_term::{Program, Term};
use std::alloc::{AllocError, Global};
use std::sync::ledger::Ledger;

/// What main came to, with receipts of the modules that it asked for, one for each slot.
#[derive(Drop)]
pub struct MainEnd {
    pub outcome: MainOutcome,
    pub stored: Receipts<Entry>,
}

/// Evaluates main of a program, with so many units, after the phase of its kernel items, all of which gave code. The
/// codes stand in place of the items' terms. A run of code whose text was loaded, or that a kernel item has in the
/// table, spends no step, and another run at most one. What the runs ask for is noted, and its receipts are given. The
/// error is want of memory, or the digest of a loaded record whose module is stray.
pub fn main_phase<L: Ledger>(
    alloc: Global,
    program: &Program,
    phase: &Phase,
    fuel: u64,
    mode: Mode,
    cache: &Cache<'_>,
    steps: &mut Steps<L>,
    asked: &mut Asked,
) -> Result<MainEnd, JobFault>
    requires typable { Typable (program_of program.now) }
    requires small { HasSmallTypes (program_of program.now) }
    requires phase { AreOutcomesOf mode (program_of program.now) fuel cache.now phase.now.outcomes }
    requires built { AreBuiltAll phase.now.outcomes }
    ensures means { let p = program_of program.now in
        let names = names_of_main p.items (codes_in phase.now.outcomes) in
        AreRightRuns mode cache.now.load (runs mode names fuel p.body)
        → IfOk result (λ end. IsMainAnswer end.outcome (main_outcome mode names fuel p.body)) }
    ensures typed { IfOk result
        (λ end. IfGiven end.outcome (HasGroundType (program_of program.now).result)) }
    ensures spent { let p = program_of program.now in
        let names = names_of_main p.items (codes_in phase.now.outcomes) in
        AreRightRuns mode cache.now.load (runs mode names fuel p.body)
        → IfOk result (λ _. steps.new ≤ steps.old
        + prices (main_price mode cache.now.load phase.now.outcomes) (runs mode names fuel p.body)) }
    ensures rises { IfOk result (λ _. steps.old ≤ steps.new) }
    ensures table { IfOk result (λ end. All (IsOf cache.now.cells) end.stored) }
    ensures stored { IfOk result (λ end. ReceivesSince end.stored asked.old asked.new) }
    ensures bad { let p = program_of program.now in
        let names = names_of_main p.items (codes_in phase.now.outcomes) in
        IfErr result
        (λ fault. IfBad fault (IsBadOfRuns mode cache.now.load (runs mode names fuel p.body))) }
{
    let codes = codes_in(alloc, phase.outcomes.as_slice())?;
    let hints = stored_receipts(alloc, cache, phase.outcomes.as_slice())?;
    let cache = HintedCache::new(cache, &hints);
    let mut state = KernelState::new(alloc, mode, &cache);
    let outcome = evaluated_over(
        alloc,
        program,
        codes.as_slice(),
        fuel,
        steps,
        asked,
        &mut state,
    )?;
    let KernelState { stored, whole, .. } = state;
    if !whole {
        return Err(JobFault::Memory(AllocError));
    }
    Ok(MainEnd {
        outcome,
        stored: stored.into_receipts(),
    })
}

/// What main comes to over kernels of a cache that count on these steps and note here what they ask for.
fn evaluated_over<L: Ledger>(
    alloc: Global,
    program: &Program,
    codes: &[&Term],
    fuel: u64,
    steps: &mut Steps<L>,
    asked: &mut Asked,
    state: &mut KernelState<'_, '_>,
) -> Result<MainOutcome, JobFault>
    requires typable { Typable (program_of program.now) }
    requires small { HasSmallTypes (program_of program.now) }
    requires codes { AreCodesOf (program_of program.now).items (expressions_of codes.now) }
    requires open { state.old.functions.functions.stopped ≡ false }
    requires unnoted { state.old.bad ≡ 0 }
    ensures outcome { let p = program_of program.now in
        let names = names_of_main p.items (expressions_of codes.now) in
        let own = state.old.functions in let mode = own.functions.mode in
        AreRightRuns mode own.cache.cache.load (runs mode names fuel p.body)
        → IfOk result (λ o. IsMainAnswer o (main_outcome mode names fuel p.body)) }
    ensures typed { IfOk result (λ o. IfGiven o (HasGroundType (program_of program.now).result)) }
    ensures cost { let p = program_of program.now in
        let names = names_of_main p.items (expressions_of codes.now) in
        let own = state.old.functions in let mode = own.functions.mode in
        AreRightRuns mode own.cache.cache.load (runs mode names fuel p.body)
        → IfOk result (λ _. steps.new ≤ steps.old
        + prices (price_in own.cache mode) (runs mode names fuel p.body)) }
    ensures bad { let p = program_of program.now in
        let names = names_of_main p.items (expressions_of codes.now) in
        let own = state.old.functions in let mode = own.functions.mode in
        IfErr result (λ fault. IfBad fault
        (IsBadOfRuns mode own.cache.cache.load (runs mode names fuel p.body))) }
    ensures follows { Follows (standing state.old steps.old asked.old)
        (standing state.new steps.new asked.new) }
{
    let kernels = &mut CachedKernels {
        alloc,
        steps,
        asked,
        state,
    };
    match evaluate_main(alloc, program, codes, fuel, kernels) {
        Ok(outcome) => Ok(outcome),
        Err(KernelFault::Memory(error)) => Err(JobFault::Memory(error)),
        Err(KernelFault::Bad(digest)) => Err(JobFault::Bad(digest)),
    }
}

/// The codes, where they are.
fn codes_in<'a>(alloc: Global, outcomes: &'a [ItemOutcome]) -> Result<Vec<&'a Term>, AllocError>
    ensures { IfOk result (λ codes. expressions_of codes.items ≡ codes_in outcomes.now) }
{
    let mut codes = Vec::new(alloc);
    for outcome in outcomes {
        if let ItemOutcome::Code(code, _) = outcome {
            codes.push(code)?;
        }
    }
    Ok(codes)
}

/// Receipts of the modules that stand in the table.
fn stored_receipts(
    alloc: Global,
    cache: &Cache<'_>,
    outcomes: &[ItemOutcome],
) -> Result<Receipts<Entry>, AllocError>
    requires { All (λ o. IfBuilt o (λ c got. IsAnswered cache.now got)) outcomes.now }
    ensures texts { IfOk result (λ stored. texts_of stored ≡ stored_texts outcomes.now) }
    ensures fetched { IfOk result (All (IsFetched entry_text home cache.now.cells)) }
{
    let mut stored = Receipts::new(alloc);
    for at in 0..outcomes.len() {
        add_stored(alloc, cache, &outcomes[at], &mut stored)?;
    }
    Ok(stored)
}

/// Adds a receipt of an outcome's module, where that stands in the table.
fn add_stored(
    alloc: Global,
    cache: &Cache<'_>,
    outcome: &ItemOutcome,
    stored: &mut Receipts<Entry>,
) -> Result<(), AllocError>
    requires { IfBuilt outcome.now (λ c got. IsAnswered cache.now got) }
    ensures texts { IfOk result
        (λ _. texts_of stored.new ≡ texts_of stored.old ++ stored_texts (outcome.now ∷ [])) }
    ensures fetched { All (IsFetched entry_text home cache.now.cells) stored.old
        → IfOk result (λ _. All (IsFetched entry_text home cache.now.cells) stored.new) }
{
    match outcome {
        ItemOutcome::Code(_, got) => add_receipt(alloc, cache, got, stored),
        ItemOutcome::Trap(_) => Ok(()),
        ItemOutcome::Bound(_) => Ok(()),
    }
}

/// Adds a receipt of a module, where that stands in the table.
fn add_receipt(
    alloc: Global,
    cache: &Cache<'_>,
    got: &Got,
    stored: &mut Receipts<Entry>,
) -> Result<(), AllocError>
    requires { IsAnswered cache.now got.now }
    ensures texts { IfOk result
        (λ _. texts_of stored.new ≡ texts_of stored.old ++ stored_text got.now) }
    ensures fetched { All (IsFetched entry_text home cache.now.cells) stored.old
        → IfOk result (λ _. All (IsFetched entry_text home cache.now.cells) stored.new) }
{
    let _ = cache;
    match got {
        Got::Stored(receipt) => stored.push(receipt.again(alloc)?),
        Got::Loaded(_) | Got::Own(_) => Ok(()),
    }
}
