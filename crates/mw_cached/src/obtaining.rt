// Modules of code in a mode.

ghost use Rattle.std.specs.Prelude.{◌≡◌, ◌≤◌, ◌+◌, ◌↔◌, [], ◌∷◌, ◌++◌, true, IfOk, OnErr, if◌then◌else◌};
ghost use Rattle.mw_term.specs.Terms.{expression_of, kernel_type_of};
ghost use Rattle.mw_term.specs.Closed.{IsClosed, IsCode};
ghost use Rattle.mw_term.specs.Limits.{within_limits, kernel_nodes};
ghost use Rattle.mw_meaning.specs.Simplification.{in_mode};
ghost use Rattle.mw_key.specs.CanonicalText.{IsTextOf, canonical_text};
ghost use Rattle.mw_key.specs.declared.version.Version.TheVariants.{Two};
ghost use Rattle.mw_cache.specs.Gots.{text_in, IsHere, IsAnswered, IsLoadedGot, IsLoadedText};
ghost use Rattle.mw_cache.specs.Hints.{price_beside};

use mw_cache::{Asked, Got, HintedCache};
use mw_compile::Steps;
use mw_meaning::Mode;
use mw_simplify::simplify;
use mw_term::{KType, Term};
use std::alloc::{AllocError, Global};
use std::sync::ledger::Ledger;

/// Where the module is of what is run of code: of the code as it was built, or of its simplification. The answer is
/// noted.
#[tactic(auto, using(crate::proofs::SimplifiedLemmas::few_nodes, crate::proofs::SimplifiedLemmas::simplified_within))]
pub fn obtain_in<L: Ledger>(
    alloc: Global,
    mode: Mode,
    cache: &HintedCache<'_, '_>,
    code: &Term,
    kind: &KType,
    steps: &mut Steps<L>,
    asked: &mut Asked,
) -> Result<(Got, bool), AllocError>
    requires code { IsCode (expression_of code.now) }
    requires closed { IsClosed (expression_of code.now) }
    requires limits { within_limits (expression_of code.now) ≡ true }
    requires nodes { kernel_nodes (kernel_type_of kind.now) ≤ 10000 }
    ensures text { IfOk result (λ r. IsTextOf (text_in cache.now.cache r.0) Two
        (in_mode mode (expression_of code.now)) (kernel_type_of kind.now)) }
    ensures here { IfOk result (λ r. IsHere cache.now.cache r.0) }
    ensures loaded { let code = in_mode mode (expression_of code.now) in
        let text = canonical_text Two code (kernel_type_of kind.now) in
        IfOk result (λ r. IsLoadedGot r.0 ↔ IsLoadedText cache.now.cache.load text) }
    ensures answered { IfOk result (λ r. IsAnswered cache.now.cache r.0) }
    ensures spent { IfOk result (λ r. steps.new ≡ steps.old + (if r.1 then 1 else 0)) }
    ensures price { steps.new ≤ steps.old
        + price_beside cache.now.hinted
        (canonical_text Two (in_mode mode (expression_of code.now)) (kernel_type_of kind.now)) }
    ensures rises { steps.old ≤ steps.new }
    ensures asked { IfOk result (λ r. asked.new ≡ asked.old ++ r.0 ∷ []) }
    ensures unasked { OnErr result (asked.new ≡ asked.old) }
{
    match mode {
        Mode::Plain => cache.obtain(alloc, code, kind, steps, asked),
        Mode::Simple => {
            let simple = simplify(alloc, code)?;
            cache.obtain(alloc, &simple, kind, steps, asked)
        }
    }
}
