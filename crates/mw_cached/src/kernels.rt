// Kernels over a cache.

ghost use Rattle.std.specs.Prelude.{◌≡◌, ◌≤◌, ◌+◌, ◌↔◌, ℕ, true, false, [], length, replicate, All, IfOk, OnOk, OnErr};
ghost use Rattle.mw_term.specs.Terms.{expression_of, kernel_type_of};
ghost use Rattle.mw_meaning.specs.Simplification.{in_mode};
ghost use Rattle.mw_key.specs.CanonicalText.{IsTextOf, canonical_text};
ghost use Rattle.mw_key.specs.declared.version.Version.TheVariants.{Two};
ghost use Rattle.mw_cache.specs.Gots.{IsHere, IsAnswered, IsLoadedGot, IsLoadedText, text_in};
ghost use Rattle.mw_slots.specs.Receipts.{IsOf};
ghost use Rattle.mw_cache.specs.Gots.{CacheState};
ghost use Rattle.mw_cache.specs.Received.{HasSlot, IsReceived};
ghost use Rattle.mw_machine.specs.KernelCalls.{IsRunnable, IsRunAt, LeavesAtMost, AnswersRun, kept_after};
ghost use Rattle.mw_cached.specs.Following.{Follows, IsNoted, standing, price_in};
ghost use Rattle.mw_cached.specs.FunctionStates.{functions_of};
ghost use Rattle.mw_cached.specs.Links.{IsRightIn};
ghost use Rattle.mw_cached.specs.StrayRecords.{BadIsStrayRecord};

use crate::linked::CachedFunctions;
use crate::obtaining::obtain_in;
use mw_cache::{Asked, Got, HintedCache, KeptReceipts};
use mw_compile::Steps;
use mw_machine::{KernelFault, Kernels, Ran};
use mw_meaning::Mode;
use mw_term::{GroundValue, KType, Term};
use std::alloc::{AllocError, Global};
use std::sync::ledger::Ledger;

/// Kernels that run code by the modules of a cache. They count emissions on the steps that they are lent, and note what
/// they ask for on the list that they are lent. What they have of their own is lent to them too.
#[derive(Drop)]
pub struct CachedKernels<'s, 'a, 't, L: Ledger> {
    pub alloc: Global,
    pub steps: &'s mut Steps<L>,
    pub asked: &'s mut Asked,
    pub state: &'s mut KernelState<'a, 't>,
}

/// What kernels over a cache have of their own: the functions that runs gave, with the cache; receipts of the modules
/// that were asked for; and what bad answers there were.
#[derive(Drop)]
pub struct KernelState<'a, 't> {
    pub functions: CachedFunctions<'a, 't>,
    pub stored: KeptReceipts,
    /// Whether the receipts are kept of all that was asked for: else memory ran out for one of them.
    pub whole: bool,
    /// How many emissions there were, or the greatest number where they are more.
    pub emitted: u64,
    /// How often an answer was bad, or the greatest number where that is more.
    pub bad: u64,
    /// The digest of the last bad answer, and zeros before any.
    pub digest: [u8; 32],
}

impl<'a, 't> KernelState<'a, 't> {
    /// That of kernels that run code in the mode over the cache, before any run. Takes no memory.
    pub fn new(alloc: Global, mode: Mode, cache: &'a HintedCache<'a, 't>) -> KernelState<'a, 't>
        ensures cache { result.functions.cache ≡ cache.now }
        ensures functions { result.functions.functions
            ≡ record { mode = mode; functions = []; stopped = false } }
        ensures stored { result.stored ≡ [] }
        ensures whole { result.whole ≡ true }
        ensures emitted { result.emitted ≡ 0 }
        ensures bad { result.bad ≡ 0 }
        ensures digest { result.digest ≡ replicate 32 0 }
    {
        KernelState {
            functions: CachedFunctions::new(alloc, mode, cache),
            stored: KeptReceipts::new(alloc),
            whole: true,
            emitted: 0,
            bad: 0,
            digest: [0; 32],
        }
    }

    /// Counts a bad answer, and keeps its digest.
    fn note(&mut self, answer: &Result<Ran, KernelFault>)
        ensures noted { IsNoted answer.now self.old.bad self.new.bad self.old.digest
            self.new.digest }
        ensures functions { self.new.functions ≡ self.old.functions }
        ensures stored { self.new.stored ≡ self.old.stored }
        ensures whole { self.new.whole ≡ self.old.whole }
        ensures emitted { self.new.emitted ≡ self.old.emitted }
    {
        if let Err(KernelFault::Bad(digest)) = answer {
            self.bad = self.bad.saturating_add(1);
            self.digest = *digest;
        }
    }

    /// Keeps the receipts of where a module is, or notes that there was no memory for one.
    fn keep(&mut self, alloc: Global, got: &Got) -> Result<(), AllocError>
        ensures kept { IfOk result (λ _. IsReceived self.new.stored got.now) }
        ensures whole { OnOk result (self.new.whole ≡ self.old.whole) }
        ensures lacking { OnErr result (self.new.whole ≡ false) }
        ensures stay { (slot : ℕ) → HasSlot self.old.stored slot → HasSlot self.new.stored slot }
        ensures table { (cache : CacheState) → IsHere cache got.now
            → All (IsOf cache.cells) self.old.stored
            → All (IsOf cache.cells) self.new.stored }
        ensures functions { self.new.functions ≡ self.old.functions }
        ensures emitted { self.new.emitted ≡ self.old.emitted }
        ensures unnoted { (self.new.bad ≡ self.old.bad) × (self.new.digest ≡ self.old.digest) }
    {
        match self.stored.keep_got(alloc, got) {
            Ok(()) => Ok(()),
            Err(error) => {
                self.whole = false;
                Err(error)
            }
        }
    }
}

impl<'s, 'a, 't, L: Ledger> CachedKernels<'s, 'a, 't, L> {
    /// Where the module is of what is run of code. It is counted whether it was emitted, and its receipts are kept.
    pub fn obtain(&mut self, code: &Term, kind: &KType) -> Result<Got, AllocError>
        requires { IsRunnable (expression_of code.now) (kernel_type_of kind.now) }
        ensures text { let state = self.old.state.now.functions in
            IfOk result (λ got. IsTextOf (text_in state.cache.cache got) Two
            (in_mode state.functions.mode (expression_of code.now)) (kernel_type_of kind.now)) }
        ensures here { IfOk result (λ got. IsHere self.old.state.now.functions.cache.cache got) }
        ensures loaded { let state = self.old.state.now.functions in
            let code = in_mode state.functions.mode (expression_of code.now) in
            let text = canonical_text Two code (kernel_type_of kind.now) in
            IfOk result (λ got. IsLoadedGot got ↔ IsLoadedText state.cache.cache.load text) }
        ensures answered { IfOk result
            (λ got. IsAnswered self.old.state.now.functions.cache.cache got) }
        ensures kept { IfOk result (λ got. IsReceived self.new.state.now.stored got) }
        ensures functions { self.new.state.now.functions ≡ self.old.state.now.functions }
        ensures unnoted { (self.new.state.now.bad ≡ self.old.state.now.bad)
            × (self.new.state.now.digest ≡ self.old.state.now.digest) }
        ensures price { let state = self.old.state.now.functions in
            self.new.steps.now ≤ self.old.steps.now
            + price_in state.cache state.functions.mode (expression_of code.now)
            (kernel_type_of kind.now) }
        ensures lent { (self.new.steps.ghost_name ≡ self.old.steps.ghost_name)
            × (self.new.state.ghost_name ≡ self.old.state.ghost_name)
            × (self.new.asked.ghost_name ≡ self.old.asked.ghost_name) }
        ensures follows { Follows
            (standing self.old.state.now self.old.steps.now self.old.asked.now)
            (standing self.new.state.now self.new.steps.now self.new.asked.now) }
    {
        let mode = self.state.functions.mode();
        let cache = self.state.functions.cache();
        let (got, spent) = obtain_in(self.alloc, mode, cache, code, kind, self.steps, self.asked)?;
        self.state.emitted = self.state.emitted.saturating_add(u64::from(spent));
        self.state.keep(self.alloc, &got)?;
        Ok(got)
    }

    /// The answer to a run, whose function is kept.
    fn answer(&mut self, code: &Term, kind: &KType, fuel: u64) -> Result<Ran, KernelFault>
        requires { IsRunnable (expression_of code.now) (kernel_type_of kind.now) }
        ensures types { IsRunAt result (kernel_type_of kind.now)
            (length self.old.state.now.functions.functions.functions) }
        ensures left { LeavesAtMost result fuel }
        ensures means { let state = self.old.state.now.functions in
            let mode = state.functions.mode in
            let code = expression_of code.now in
            let kind = kernel_type_of kind.now in
            IsRightIn state.cache.cache.load mode code kind
            → AnswersRun mode result code kind fuel }
        ensures stray { BadIsStrayRecord self.old.state.now.functions.cache.cache.load result }
        ensures functions { functions_of self.new.state.now.functions.functions
            ≡ kept_after result (expression_of code.now) (kernel_type_of kind.now)
            (functions_of self.old.state.now.functions.functions) }
        ensures stopped { self.new.state.now.functions.functions.stopped
            ≡ self.old.state.now.functions.functions.stopped }
        ensures unnoted { (self.new.state.now.bad ≡ self.old.state.now.bad)
            × (self.new.state.now.digest ≡ self.old.state.now.digest) }
        ensures price { let state = self.old.state.now.functions in
            self.new.steps.now ≤ self.old.steps.now
            + price_in state.cache state.functions.mode (expression_of code.now)
            (kernel_type_of kind.now) }
        ensures lent { (self.new.steps.ghost_name ≡ self.old.steps.ghost_name)
            × (self.new.state.ghost_name ≡ self.old.state.ghost_name)
            × (self.new.asked.ghost_name ≡ self.old.asked.ghost_name) }
        ensures follows { Follows
            (standing self.old.state.now self.old.steps.now self.old.asked.now)
            (standing self.new.state.now self.new.steps.now self.new.asked.now) }
    {
        let got = self.obtain(code, kind)?;
        self.state.functions.run(self.alloc, &got, code, kind, fuel)
    }
}

impl<'s, 'a, 't, L: Ledger> Kernels for CachedKernels<'s, 'a, 't, L> {
    ghost use Rattle.std.specs.Prelude.{◌≡◌, [], refl};
    ghost use Rattle.std.proofs.Common.{◌∙◌};
    ghost use Rattle.mw_cached.specs.FunctionStates.{functions_of};
    ghost use Rattle.mw_cached.specs.Links.{IsRightIn};
    ghost use Rattle.mw_cached.specs.Following.{Follows, standing, price_in, follows_itself, follows_through};
    ghost use Rattle.mw_cached.specs.Following.{price_stays, right_stays, right_stayed};

    ghost mode = { λ k. k.state.now.functions.functions.mode };

    ghost kept = { λ k. functions_of k.state.now.functions.functions };

    ghost stopped = { λ k. k.state.now.functions.functions.stopped };

    ghost bad = { λ k. k.state.now.bad };

    ghost digest = { λ k. k.state.now.digest };

    ghost sound = { λ k c t. IsRightIn k.state.now.functions.cache.cache.load
        k.state.now.functions.functions.mode c t };

    ghost price = { λ k c t. price_in k.state.now.functions.cache k.state.now.functions.functions.mode c t };

    ghost cost = { λ k. k.steps.now };

    ghost keeps = { λ a b. (b.steps.ghost_name ≡ a.steps.ghost_name) × (b.state.ghost_name ≡ a.state.ghost_name)
        × (b.asked.ghost_name ≡ a.asked.ghost_name)
        × Follows (standing a.state.now a.steps.now a.asked.now) (standing b.state.now b.steps.now b.asked.now) };

    fn run(&mut self, code: &Term, kind: &KType, fuel: u64) -> Result<Ran, KernelFault> {
        let answer = self.answer(code, kind, fuel);
        self.state.functions.stop_after(&answer);
        self.state.note(&answer);
        answer
    }

    fn call(
        &mut self,
        which: usize,
        argument: &GroundValue,
        fuel: u64,
    ) -> Result<Ran, KernelFault> {
        let answer = self.state.functions.call(self.alloc, which, argument, fuel);
        self.state.note(&answer);
        answer
    }

    ghost keeps_itself = { λ _. (refl, refl, refl, follows_itself _) };

    ghost keeps_through = { λ _ _ _ p q. (q.0 ∙ p.0, q.1 ∙ p.1, q.2 ∙ p.2, follows_through _ _ _ p.3 q.3) };

    ghost keeps_mode = { λ _ _ p. p.3.mode_is };

    ghost keeps_sound = { λ _ _ p c t. (right_stays _ _ p.3 c t, right_stayed _ _ p.3 c t) };

    ghost keeps_price = { λ _ _ p c t. price_stays _ _ p.3 c t };
}
