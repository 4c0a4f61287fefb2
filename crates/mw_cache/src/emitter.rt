// What makes the entry of code for the table.

ghost use Rattle.std.specs.Prelude.{◌≡◌, ◌+◌, true};
ghost use Rattle.sha2.specs.Sha256.{sha256};
ghost use Rattle.mw_term.specs.Terms.{expression_of, kernel_type_of};
ghost use Rattle.mw_key.specs.CanonicalText.{IsTextOf};
ghost use Rattle.mw_key.specs.declared.version.Version.TheVariants.{Two};

use mw_compile::{Entry, Steps, emit_named};
use mw_slots::Make;
use mw_term::{KType, Term};
use std::alloc::{AllocError, Global};
use std::sync::Arc;
use std::sync::ledger::Ledger;

/// Emits code whose text is written and has this digest, and remembers whether it did.
#[derive(Drop)]
pub(crate) struct Emitter<'a, L: Ledger> {
    pub(crate) digest: &'a [u8; 32],
    pub(crate) code: &'a Term,
    pub(crate) kind: &'a KType,
    pub(crate) steps: &'a mut Steps<L>,
    pub(crate) spent: bool,
}

impl<'a, L: Ledger> Make<Entry> for Emitter<'a, L> {
    ghost takes = { λ m name. IsTextOf name Two (expression_of m.code.now) (kernel_type_of m.kind.now)
        × (m.digest.now ≡ sha256 name) };

    ghost gives = { λ _ name entry. entry.text ≡ name };

    ghost leaves = { λ m _ n. (n.steps.ghost_name ≡ m.steps.ghost_name) × (n.steps.now ≡ m.steps.now + 1)
        × (n.spent ≡ true) };

    fn make(&mut self, alloc: Global, name: &[u8]) -> Result<Arc<Entry>, AllocError> {
        self.spent = true;
        let entry = emit_named(alloc, name, self.digest, self.code, self.kind, self.steps)?;
        Ok(Arc::new(alloc, entry)?)
    }
}
