// A cache with receipts that it answered before.

ghost use Rattle.std.specs.Prelude.{◌≡◌, ◌+◌, ◌≤◌, [], ◌∷◌, ◌++◌, ◌↔◌, true, All, IfSome, IfOk, OnErr, IsNone};
ghost use Rattle.std.specs.Prelude.{if◌then◌else◌};
ghost use Rattle.mw_term.specs.Terms.{expression_of, kernel_type_of};
ghost use Rattle.mw_term.specs.Closed.{IsClosed, IsCode};
ghost use Rattle.mw_term.specs.Limits.{within_limits, kernel_nodes};
ghost use Rattle.mw_slots.specs.Receipts.{IsFetched};
ghost use Rattle.mw_key.specs.CanonicalText.{IsTextOf, canonical_text, home};
ghost use Rattle.mw_key.specs.declared.version.Version.TheVariants.{Two};
ghost use Rattle.mw_cache.specs.Gots.{text_in, entry_text, texts_of, loaded_texts, IsHere, IsAnswered, IsLoadedGot};
ghost use Rattle.mw_cache.specs.Gots.{IsLoadedText};
ghost use Rattle.mw_cache.specs.Hints.{price_beside};

use crate::asked::Asked;
use crate::cache::Cache;
use crate::got::Got;
use mw_compile::{Entry, Steps};
use mw_key::text_of;
use mw_slots::{Receipt, Receipts};
use mw_term::{KType, Term};
use std::alloc::{AllocError, Global};
use std::marker::Model;
use std::sync::ledger::Ledger;

/// A cache with receipts that it answered: no text of theirs is emitted again.
#[derive(Drop)]
pub struct HintedCache<'a, 't> {
    cache: &'a Cache<'t>,
    hints: &'a Receipts<Entry>,
}

impl<'a, 't> Model for HintedCache<'a, 't> {
    ghost use Rattle.std.specs.Prelude.{All, ◌++◌};
    ghost use Rattle.std.specs.Coded.{codes};
    ghost use Rattle.mw_wasm.specs.contracts.instructions.Instr as instr;
    ghost use Rattle.mw_slots.specs.Receipts.{IsFetched};
    ghost use Rattle.mw_key.specs.CanonicalText.{home};
    ghost use Rattle.mw_cache.specs.Gots.{entry_text, texts_of, loaded_texts};
    ghost use Rattle.mw_cache.specs.Hints.{HintedState};

    ghost Value = { HintedState };

    ghost coded = { Prim.hlevel (codes, instr.the_row.coded) };

    ghost view = { λ c. record {
      cache = c.cache.now;
      hinted = texts_of c.hints.now ++ loaded_texts c.cache.now.load;
    } };

    ghost invariant = { λ c. All (IsFetched entry_text home c.cache.now.cells) c.hints.now };
}

impl<'a, 't> HintedCache<'a, 't> {
    /// A cache with receipts that it answered. Takes no memory.
    pub fn new(cache: &'a Cache<'t>, hints: &'a Receipts<Entry>) -> HintedCache<'a, 't>
        requires { All (IsFetched entry_text home cache.now.cells) hints.now }
        ensures { result ≡ record {
          cache = cache.now;
          hinted = texts_of hints.now ++ loaded_texts cache.now.load;
        } }
    {
        HintedCache { cache, hints }
    }

    /// The cache. Takes no memory.
    pub fn cache(&self) -> &Cache<'t>
        ensures { result.now ≡ self.now.cache }
    {
        self.cache
    }

    /// Where the module is of closed code at a type. A loaded text and one of a hint spend no step, and another one at
    /// most one; the truth value says whether it was spent. The answer is noted.
    pub fn obtain<L: Ledger>(
        &self,
        alloc: Global,
        code: &Term,
        kind: &KType,
        steps: &mut Steps<L>,
        asked: &mut Asked,
    ) -> Result<(Got, bool), AllocError>
        requires code { IsCode (expression_of code.now) }
        requires closed { IsClosed (expression_of code.now) }
        requires limits { within_limits (expression_of code.now) ≡ true }
        requires nodes { kernel_nodes (kernel_type_of kind.now) ≤ 10000 }
        ensures text { IfOk result
            (λ r. IsTextOf (text_in self.now.cache r.0) Two (expression_of code.now)
            (kernel_type_of kind.now)) }
        ensures here { IfOk result (λ r. IsHere self.now.cache r.0) }
        ensures loaded { let text =
            canonical_text Two (expression_of code.now) (kernel_type_of kind.now) in
            IfOk result (λ r. IsLoadedGot r.0 ↔ IsLoadedText self.now.cache.load text) }
        ensures answered { IfOk result (λ r. IsAnswered self.now.cache r.0) }
        ensures spent { IfOk result (λ r. steps.new ≡ steps.old + (if r.1 then 1 else 0)) }
        ensures price { steps.new ≤ steps.old + price_beside self.now.hinted
            (canonical_text Two (expression_of code.now) (kernel_type_of kind.now)) }
        ensures rises { steps.old ≤ steps.new }
        ensures asked { IfOk result (λ r. asked.new ≡ asked.old ++ r.0 ∷ []) }
        ensures unasked { OnErr result (asked.new ≡ asked.old) }
    {
        let text = text_of(alloc, code, kind)?;
        let hint = self.hint(text.as_slice());
        self.cache
            .obtain_written(alloc, text.as_slice(), code, kind, hint, steps, asked)
    }

    /// The first hint that is of a text.
    fn hint(&self, text: &[u8]) -> Option<&Receipt<Entry>>
        ensures some { IfSome result (λ h. IsFetched entry_text home self.now.cache.cells h.now
            × (h.now.entry.text ≡ text.now)) }
        ensures none { IsNone result → price_beside self.now.hinted text.now
            ≡ price_beside (loaded_texts self.now.cache.load) text.now }
    {
        for at in 0..self.hints.len() {
            let receipt = self.hints.get(at);
            if self.cache.is_of_text(receipt, text) {
                return Some(receipt);
            }
        }
        None
    }
}
