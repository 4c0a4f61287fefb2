// The functions that runs over a cache gave.

ghost use Rattle.std.specs.Prelude.{◌≡◌, ◌||◌, ◌↔◌, false, [], length, Some, slice_get};
ghost use Rattle.mw_term.specs.Terms.{Expression, KernelType, expression_of, kernel_type_of, ground_value_of};
ghost use Rattle.mw_meaning.specs.Simplification.{in_mode};
ghost use Rattle.mw_key.specs.CanonicalText.{IsTextOf, canonical_text};
ghost use Rattle.mw_key.specs.declared.version.Version.TheVariants.{Two};
ghost use Rattle.mw_cache.specs.Gots.{text_in, IsHere, IsLoadedGot, IsLoadedText};
ghost use Rattle.mw_machine.specs.KernelCalls.{IsRunnable, IsCallable, IsRunAt, IsCallAt, LeavesAtMost, AnswersRun};
ghost use Rattle.mw_machine.specs.KernelCalls.{AnswersCall, kept_after, ends_all};
ghost use Rattle.mw_cached.specs.FunctionStates.{functions_of};
ghost use Rattle.mw_cached.specs.Links.{IsRightIn, loaded_from};
ghost use Rattle.mw_cached.specs.StrayRecords.{BadIsStrayRecord, TellsRecord, told_over};

use crate::fault::FunctionFault;
use crate::functions::Functions;
use mw_cache::{Got, HintedCache};
use mw_key::digest;
use mw_machine::{KernelFault, Ran};
use mw_meaning::Mode;
use mw_term::{GroundValue, KType, Term};
use std::alloc::Global;
use std::marker::Model;

/// Kept functions whose modules are of a cache: emissions, and modules of loaded records. Contracts see the cache and
/// the functions.
#[derive(Drop)]
pub struct CachedFunctions<'a, 't> {
    cache: &'a HintedCache<'a, 't>,
    functions: Functions,
}

impl<'a, 't> Model for CachedFunctions<'a, 't> {
    ghost use Rattle.std.specs.Prelude.{All};
    ghost use Rattle.std.specs.Coded.{codes};
    ghost use Rattle.mw_term.specs.contracts.term.Ground as ground;
    ghost use Rattle.mw_term.specs.contracts.term.Term as term;
    ghost use Rattle.mw_wasm.specs.contracts.instructions.Instr as instr;
    ghost use Rattle.mw_cached.specs.Links.{CachedState, IsLinked};

    ghost Value = { CachedState };

    ghost coded = { Prim.hlevel (codes, ground.the_row.coded, term.the_row.coded, instr.the_row.coded) };

    ghost view = { λ s. record { cache = s.cache.now; functions = s.functions } };

    ghost invariant = { λ s. All (IsLinked s.cache.now.cache.load s.functions.mode) s.functions.functions };
}

impl<'a, 't> CachedFunctions<'a, 't> {
    /// No functions, of runs in the mode over the cache. Takes no memory.
    pub fn new(alloc: Global, mode: Mode, cache: &'a HintedCache<'a, 't>) -> CachedFunctions<'a, 't>
        ensures cache { result.cache ≡ cache.now }
        ensures functions { result.functions
            ≡ record { mode = mode; functions = []; stopped = false } }
    {
        CachedFunctions {
            cache,
            functions: Functions::new(alloc, mode),
        }
    }

    /// The cache.
    pub fn cache(&self) -> &'a HintedCache<'a, 't>
        ensures { result.now ≡ self.now.cache }
    {
        self.cache
    }

    /// How code is run.
    pub fn mode(&self) -> Mode
        ensures { result ≡ self.now.functions.mode }
    {
        self.functions.mode()
    }

    /// The answer to a run of code by the module of what is run, whose function is kept. Bad where the module was
    /// loaded and gives what no kernel of the type gives: then with the digest of the record's text.
    pub fn run(
        &mut self,
        alloc: Global,
        got: &Got,
        code: &Term,
        kind: &KType,
        fuel: u64,
    ) -> Result<Ran, KernelFault>
        requires runnable { IsRunnable (expression_of code.now) (kernel_type_of kind.now) }
        requires here { IsHere self.old.cache.cache got.now }
        requires text { IsTextOf (text_in self.old.cache.cache got.now) Two
            (in_mode self.old.functions.mode (expression_of code.now)) (kernel_type_of kind.now) }
        requires loaded { let code = in_mode self.old.functions.mode (expression_of code.now) in
            let text = canonical_text Two code (kernel_type_of kind.now) in
            IsLoadedGot got.now ↔ IsLoadedText self.old.cache.cache.load text }
        ensures types { IsRunAt result (kernel_type_of kind.now)
            (length self.old.functions.functions) }
        ensures left { LeavesAtMost result fuel }
        ensures means { let mode = self.old.functions.mode in
            let code = expression_of code.now in
            let kind = kernel_type_of kind.now in
            IsRightIn self.old.cache.cache.load mode code kind
            → AnswersRun mode result code kind fuel }
        ensures stray { BadIsStrayRecord self.old.cache.cache.load result }
        ensures functions { functions_of self.new.functions
            ≡ kept_after result (expression_of code.now) (kernel_type_of kind.now)
            (functions_of self.old.functions) }
        ensures stopped { self.new.functions.stopped ≡ self.old.functions.stopped }
        ensures mode { self.new.functions.mode ≡ self.old.functions.mode }
        ensures cache { self.new.cache ≡ self.old.cache }
    {
        let wasm = self.cache.cache().module(alloc, got)?;
        let answer = self
            .functions
            .run(alloc, &wasm, record_of(got), code, kind, fuel);
        self.tell(answer)
    }

    /// No more calls after an answer that is no value and no function.
    pub fn stop_after(&mut self, answer: &Result<Ran, KernelFault>)
        ensures functions { self.new.functions.functions ≡ self.old.functions.functions }
        ensures mode { self.new.functions.mode ≡ self.old.functions.mode }
        ensures cache { self.new.cache ≡ self.old.cache }
        ensures stopped { self.new.functions.stopped
            ≡ (self.old.functions.stopped || ends_all answer.now) }
    {
        self.functions.stop_after(answer);
    }

    /// Calls the kept function of a number. Bad where its module was loaded and gives what no kernel of its type gives:
    /// then with the digest of the record's text.
    pub fn call(
        &mut self,
        alloc: Global,
        which: usize,
        argument: &GroundValue,
        fuel: u64,
    ) -> Result<Ran, KernelFault>
        requires function { IsCallable (functions_of self.old.functions) which
            (ground_value_of argument.now) }
        requires open { self.old.functions.stopped ≡ false }
        ensures types { (c : Expression) (k : KernelType)
            → slice_get (functions_of self.old.functions) which ≡ Some (c, k) → IsCallAt result k }
        ensures left { LeavesAtMost result fuel }
        ensures means { (c : Expression) (k : KernelType)
            → slice_get (functions_of self.old.functions) which ≡ Some (c, k)
            → IsRightIn self.old.cache.cache.load self.old.functions.mode c k
            → AnswersCall self.old.functions.mode result c k (ground_value_of argument.now) fuel }
        ensures stray { BadIsStrayRecord self.old.cache.cache.load result }
        ensures functions { self.new.functions.functions ≡ self.old.functions.functions }
        ensures stopped { self.new.functions.stopped ≡ ends_all result }
        ensures mode { self.new.functions.mode ≡ self.old.functions.mode }
        ensures cache { self.new.cache ≡ self.old.cache }
    {
        let answer = self.functions.call(alloc, which, argument, fuel);
        self.tell(answer)
    }

    /// The answer as the machine is told it: Bad with the digest of the record's text.
    fn tell(&self, answer: Result<Ran, FunctionFault>) -> Result<Ran, KernelFault>
        requires { TellsRecord self.now.cache.cache.load answer }
        ensures { result ≡ told_over self.now.cache.cache.load answer }
    {
        match answer {
            Ok(ran) => Ok(ran),
            Err(FunctionFault::Memory(error)) => Err(KernelFault::Memory(error)),
            Err(FunctionFault::Bad(at)) => {
                Err(KernelFault::Bad(digest(self.cache.cache().load().text(at))))
            }
        }
    }
}

/// The number of the record that a module was loaded from, if it was.
fn record_of(got: &Got) -> Option<u32>
    ensures { result ≡ loaded_from got.now }
{
    match got {
        Got::Loaded(at) => Some(*at),
        Got::Stored(_) | Got::Own(_) => None,
    }
}
