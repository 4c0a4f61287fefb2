// The cache.

ghost use Rattle.std.specs.Prelude.{◌≡◌, ◌+◌, ◌≤◌, [], ◌∷◌, ◌++◌, true, false, IfSome, IfOk, OnErr, MatchBool, ◌≢◌, ◌↔◌};
ghost use Rattle.std.specs.Prelude.{if◌then◌else◌};
ghost use Rattle.std.specs.Arc.{arc_value};
ghost use Rattle.sha2.specs.Sha256.{sha256};
ghost use Rattle.mw_term.specs.Terms.{Expression, KernelType, expression_of, kernel_type_of};
ghost use Rattle.mw_term.specs.Closed.{IsClosed, IsCode};
ghost use Rattle.mw_term.specs.Limits.{within_limits, kernel_nodes};
ghost use Rattle.mw_slots.specs.Receipts.{IsOf, IsFetched};
ghost use Rattle.mw_key.specs.CanonicalText.{IsTextOf, canonical_text, home};
ghost use Rattle.mw_key.specs.declared.version.Version.TheVariants.{Two};
ghost use Rattle.mw_compile.specs.Emission.{IsEmissionOf};
ghost use Rattle.mw_cache.specs.Gots.{text_in, entry_text, IsHere, IsAnswered, HaveOneSlot, IsLoadedGot, IsLoadedText};
ghost use Rattle.mw_cache.specs.Gots.{IsRight, HasBytes, HasWasm};
ghost use Rattle.mw_meaning.specs.Shapes.{HasShape};
ghost use Rattle.mw_meaning.specs.StandingFor.{StandsFor};
ghost use Rattle.mw_key.specs.declared.version.Version.{Version};
ghost use Rattle.mw_wasm.specs.Views.{module_of};

use crate::asked::Asked;
use crate::emitter::Emitter;
use crate::got::Got;
use mw_compile::{Entry, Steps};
use mw_key::{digest, start_in, text_of};
use mw_slots::laws::one_slot;
use mw_slots::{Named, Receipt, Refused, Table};
use mw_store::Load;
use mw_term::{KType, Term};
use mw_validate::Valid;
use std::alloc::{AllocError, Global};
use std::marker::Model;
use std::sync::Arc;
use std::sync::ledger::Ledger;

/// Modules by their text: those that were loaded, and others in a table that threads share. What a call answers depends
/// neither on what stands in the table nor on who put it there.
#[derive(Drop)]
pub struct Cache<'t> {
    table: &'t Table<Entry>,
    load: Load,
}

impl<'t> Model for Cache<'t> {
    ghost use Rattle.std.specs.Coded.{codes};
    ghost use Rattle.mw_wasm.specs.contracts.instructions.Instr as instr;
    ghost use Rattle.mw_cache.specs.Gots.{CacheState};

    ghost Value = { CacheState };

    ghost coded = { Prim.hlevel (codes, instr.the_row.coded) };

    ghost view = { λ c. record { cells = c.table.now; load = c.load } };
}

impl<'t> Cache<'t> {
    /// A cache that stores in a table, beside what was loaded. Takes no memory.
    pub fn new(table: &'t Table<Entry>, load: Load) -> Cache<'t>
        ensures { result ≡ record { cells = table.now; load = load } }
    {
        Cache { table, load }
    }

    /// What was loaded.
    pub fn load(&self) -> &Load
        ensures { result.now ≡ self.now.load }
    {
        &self.load
    }

    /// Where the module is of closed code at a type: a loaded record of its text serves, and else the module is
    /// emitted, where the table has none of this text. The hint is a receipt that may be of this text. At most one step
    /// is spent, and the truth value says whether it was; for a loaded text, and for a hint of the same text, it
    /// wasn't. The answer is noted.
    pub fn obtain<L: Ledger>(
        &self,
        alloc: Global,
        code: &Term,
        kind: &KType,
        hint: Option<&Receipt<Entry>>,
        steps: &mut Steps<L>,
        asked: &mut Asked,
    ) -> Result<(Got, bool), AllocError>
        requires code { IsCode (expression_of code.now) }
        requires closed { IsClosed (expression_of code.now) }
        requires limits { within_limits (expression_of code.now) ≡ true }
        requires nodes { kernel_nodes (kernel_type_of kind.now) ≤ 10000 }
        requires hint { IfSome hint (λ h. IsOf self.now.cells h.now) }
        ensures text { IfOk result
            (λ r. IsTextOf (text_in self.now r.0) Two (expression_of code.now)
            (kernel_type_of kind.now)) }
        ensures here { IfOk result (λ r. IsHere self.now r.0) }
        ensures loaded { let text =
            canonical_text Two (expression_of code.now) (kernel_type_of kind.now) in
            IfOk result (λ r. IsLoadedGot r.0 ↔ IsLoadedText self.now.load text) }
        ensures answered { IfSome hint.entry (λ h. IsFetched entry_text home self.now.cells h.now)
            → IfOk result (λ r. IsAnswered self.now r.0) }
        ensures spent { IfOk result (λ r. steps.new ≡ steps.old + (if r.1 then 1 else 0)) }
        ensures free { IfOk result (λ r. IsLoadedGot r.0 → r.1 ≡ false) }
        ensures hinted { IfSome hint.entry
            (λ h. h.now.entry.text ≡ canonical_text Two (expression_of code.now) (kernel_type_of kind.now)
            → IfOk result (λ r. r.1 ≡ false)) }
        ensures most { (steps.old ≤ steps.new) × (steps.new ≤ steps.old + 1) }
        ensures asked { IfOk result (λ r. asked.new ≡ asked.old ++ r.0 ∷ []) }
        ensures unasked { OnErr result (asked.new ≡ asked.old) }
    {
        let text = text_of(alloc, code, kind)?;
        self.obtain_written(alloc, text.as_slice(), code, kind, hint, steps, asked)
    }

    /// The same, of code whose text was written before.
    pub fn obtain_written<L: Ledger>(
        &self,
        alloc: Global,
        text: &[u8],
        code: &Term,
        kind: &KType,
        hint: Option<&Receipt<Entry>>,
        steps: &mut Steps<L>,
        asked: &mut Asked,
    ) -> Result<(Got, bool), AllocError>
        requires written { IsTextOf text.now Two (expression_of code.now)
            (kernel_type_of kind.now) }
        requires hint { IfSome hint (λ h. IsOf self.now.cells h.now) }
        ensures text { IfOk result (λ r. text_in self.now r.0 ≡ text.now) }
        ensures here { IfOk result (λ r. IsHere self.now r.0) }
        ensures loaded { IfOk result (λ r. IsLoadedGot r.0 ↔ IsLoadedText self.now.load text.now) }
        ensures answered { IfSome hint.entry (λ h. IsFetched entry_text home self.now.cells h.now)
            → IfOk result (λ r. IsAnswered self.now r.0) }
        ensures spent { IfOk result (λ r. steps.new ≡ steps.old + (if r.1 then 1 else 0)) }
        ensures free { IsLoadedText self.now.load text.now
            → (steps.new ≡ steps.old) × IfOk result (λ r. r.1 ≡ false) }
        ensures hinted { IfSome hint.entry
            (λ h. h.now.entry.text ≡ text.now → (steps.new ≡ steps.old) × IfOk result (λ r. r.1 ≡ false)) }
        ensures most { (steps.old ≤ steps.new) × (steps.new ≤ steps.old + 1) }
        ensures asked { IfOk result (λ r. asked.new ≡ asked.old ++ r.0 ∷ []) }
        ensures unasked { OnErr result (asked.new ≡ asked.old) }
    {
        let (got, spent) = self.found(alloc, text, code, kind, hint, steps)?;
        asked.add(&got);
        Ok((got, spent))
    }

    /// The same, where the answer isn't noted.
    fn found<L: Ledger>(
        &self,
        alloc: Global,
        text: &[u8],
        code: &Term,
        kind: &KType,
        hint: Option<&Receipt<Entry>>,
        steps: &mut Steps<L>,
    ) -> Result<(Got, bool), AllocError>
        requires written { IsTextOf text.now Two (expression_of code.now)
            (kernel_type_of kind.now) }
        requires hint { IfSome hint (λ h. IsOf self.now.cells h.now) }
        ensures text { IfOk result (λ r. text_in self.now r.0 ≡ text.now) }
        ensures here { IfOk result (λ r. IsHere self.now r.0) }
        ensures loaded { IfOk result (λ r. IsLoadedGot r.0 ↔ IsLoadedText self.now.load text.now) }
        ensures answered { IfSome hint.entry (λ h. IsFetched entry_text home self.now.cells h.now)
            → IfOk result (λ r. IsAnswered self.now r.0) }
        ensures spent { IfOk result (λ r. steps.new ≡ steps.old + (if r.1 then 1 else 0)) }
        ensures free { IsLoadedText self.now.load text.now
            → (steps.new ≡ steps.old) × IfOk result (λ r. r.1 ≡ false) }
        ensures hinted { IfSome hint.entry
            (λ h. h.now.entry.text ≡ text.now → (steps.new ≡ steps.old) × IfOk result (λ r. r.1 ≡ false)) }
        ensures most { (steps.old ≤ steps.new) × (steps.new ≤ steps.old + 1) }
    {
        if let Some(at) = self.load.find(text) {
            return Ok((Got::Loaded(at), false));
        }
        if let Some(receipt) = hint {
            if self.table.read(receipt).name() == text {
                return Ok((Got::Stored(receipt.again(alloc)?), false));
            }
        }
        self.fetch(alloc, text, code, kind, steps)
    }

    /// Where the table has the module of a text, or the module beside the table.
    fn fetch<L: Ledger>(
        &self,
        alloc: Global,
        text: &[u8],
        code: &Term,
        kind: &KType,
        steps: &mut Steps<L>,
    ) -> Result<(Got, bool), AllocError>
        requires { IsTextOf text.now Two (expression_of code.now) (kernel_type_of kind.now) }
        ensures text { IfOk result (λ r. text_in self.now r.0 ≡ text.now) }
        ensures unloaded { IfOk result (λ r. IsLoadedGot r.0 → ⊥) }
        ensures here { IfOk result (λ r. IsHere self.now r.0) }
        ensures answered { IfOk result (λ r. IsAnswered self.now r.0) }
        ensures spent { IfOk result (λ r. steps.new ≡ steps.old + (if r.1 then 1 else 0)) }
        ensures most { (steps.old ≤ steps.new) × (steps.new ≤ steps.old + 1) }
    {
        let digest = digest(text);
        let mut emitter = Emitter {
            digest: &digest,
            code,
            kind,
            steps,
            spent: false,
        };
        match self
            .table
            .fetch(alloc, text, start_in(&digest), &mut emitter)
        {
            Ok(receipt) => Ok((Got::Stored(receipt), emitter.spent)),
            Err(Refused::NoRoom(none)) => Ok((Got::Own(none), emitter.spent)),
            Err(Refused::Memory(error)) => Err(error),
        }
    }

    /// Where both are in the table and are of one text, they are in one slot. Takes no memory.
    pub fn agree(&self, one: &Got, other: &Got)
        requires one { IsAnswered self.now one.now }
        requires other { IsAnswered self.now other.now }
        ensures { HaveOneSlot one.now other.now }
    {
        if let Got::Stored(a) = one {
            if let Got::Stored(b) = other {
                self.agree_stored(a, b);
            }
        }
    }

    /// Receipts of one text have one slot. Texts are compared only where the slots differ.
    fn agree_stored(&self, one: &Receipt<Entry>, other: &Receipt<Entry>)
        requires one { IsFetched entry_text home self.now.cells one.now }
        requires other { IsFetched entry_text home self.now.cells other.now }
        ensures { one.now.entry.text ≡ other.now.entry.text → one.now.slot ≡ other.now.slot }
    {
        if one.slot() == other.slot() {
            return;
        }
        if self.table.read(one).name() == self.table.read(other).name() {
            one_slot(self.table, one, other);
        }
    }

    /// The entry that a receipt knows.
    pub(crate) fn entry_of<'a>(&'a self, receipt: &Receipt<Entry>) -> &'a Entry
        requires { IsOf self.now.cells receipt.now }
        ensures { result.now ≡ receipt.now.entry }
    {
        self.table.read(receipt)
    }

    /// Whether a receipt is of a text. Takes no memory.
    pub fn is_of_text(&self, receipt: &Receipt<Entry>, text: &[u8]) -> bool
        requires { IsOf self.now.cells receipt.now }
        ensures { MatchBool result (receipt.now.entry.text ≡ text.now)
            (receipt.now.entry.text ≢ text.now) }
    {
        self.table.read(receipt).name() == text
    }

    /// The text. Takes no memory.
    pub fn text<'a>(&'a self, got: &'a Got) -> &'a [u8]
        requires { IsHere self.now got.now }
        ensures { result.now ≡ text_in self.now got.now }
    {
        match got {
            Got::Loaded(at) => self.load.text(*at),
            Got::Stored(receipt) => self.table.read(receipt).text(),
            Got::Own(none) => (*none.own).text(),
        }
    }

    /// The text's SHA-256. Takes no memory.
    pub fn digest(&self, got: &Got) -> [u8; 32]
        requires { IsHere self.now got.now }
        ensures { result ≡ sha256 (text_in self.now got.now) }
    {
        match got {
            Got::Loaded(at) => digest(self.load.text(*at)),
            Got::Stored(receipt) => *self.table.read(receipt).digest(),
            Got::Own(none) => *(*none.own).digest(),
        }
    }

    /// The module's bytes: the emission of the text, unless a record was loaded that has other ones. Takes no memory.
    pub fn bytes<'a>(&'a self, got: &'a Got) -> &'a [u8]
        requires { IsHere self.now got.now }
        ensures bytes { HasBytes self.now got.now result.now }
        ensures emission { IsRight self.now.load (text_in self.now got.now)
            → IsEmissionOf result.now (text_in self.now got.now) }
    {
        match got {
            Got::Loaded(at) => self.load.bytes(*at),
            Got::Stored(receipt) => self.table.read(receipt).bytes(),
            Got::Own(none) => (*none.own).bytes(),
        }
    }

    /// The module. It is valid and has the shape that a run at the text's type needs, and stands for the text's code,
    /// unless a record was loaded that has another module. That of a loaded record is decoded when it is first asked
    /// for. The error is want of memory.
    pub fn module(&self, alloc: Global, got: &Got) -> Result<Arc<Valid>, AllocError>
        requires { IsHere self.now got.now }
        ensures wasm { IfOk result (λ m. HasWasm self.now got.now (arc_value m)) }
        ensures shape { IfOk result (λ m. (v : Version) (c : Expression) (k : KernelType)
            → IsTextOf (text_in self.now got.now) v c k → HasShape (module_of (arc_value m)) k) }
        ensures stands { IfOk result (λ m. (c : Expression) (k : KernelType)
            → IsTextOf (text_in self.now got.now) Two c k → IsRight self.now.load (text_in self.now got.now)
            → StandsFor (module_of (arc_value m)) c k) }
    {
        match got {
            Got::Loaded(at) => self.load.module(alloc, *at),
            Got::Stored(receipt) => Arc::try_clone(self.table.read(receipt).module()),
            Got::Own(none) => Arc::try_clone((*none.own).module()),
        }
    }
}
