// Emission.

ghost use Rattle.std.specs.Prelude.{◌≡◌, ◌+◌, ◌≤◌, true, IfOk};
ghost use Rattle.sha2.specs.Sha256.{sha256};
ghost use Rattle.mw_term.specs.Terms.{expression_of, kernel_type_of};
ghost use Rattle.mw_term.specs.Closed.{IsClosed, IsCode};
ghost use Rattle.mw_term.specs.Limits.{within_limits, kernel_nodes};
ghost use Rattle.mw_key.specs.CanonicalText.{IsTextOf};
ghost use Rattle.mw_key.specs.declared.version.Version.TheVariants.{Two};
ghost use Rattle.mw_compile.specs.Entries.{IsEntryOf};

use crate::entry::Entry;
use crate::steps::Steps;
use mw_conv::convert;
use mw_encode::encode;
use mw_gen::generate;
use mw_key::{digest, text_of};
use mw_term::{KType, Term};
use mw_validate::Valid;
use std::alloc::{AllocError, Global};
use std::sync::Arc;
use std::sync::ledger::Ledger;

/// The entry of a kernel's closed code, within the limits of kernels, at a type of at most 10,000 nodes: its text of
/// the second version, its module and the module's bytes. One emission is counted.
pub fn emit<L: Ledger>(
    alloc: Global,
    code: &Term,
    kind: &KType,
    steps: &mut Steps<L>,
) -> Result<Entry, AllocError>
    requires code { IsCode (expression_of code.now) }
    requires closed { IsClosed (expression_of code.now) }
    requires limits { within_limits (expression_of code.now) ≡ true }
    requires nodes { kernel_nodes (kernel_type_of kind.now) ≤ 10000 }
    ensures entry { IfOk result
        (λ entry. IsEntryOf entry (expression_of code.now) (kernel_type_of kind.now)) }
    ensures step { steps.new ≡ steps.old + 1 }
{
    steps.tick();
    let text = text_of(alloc, code, kind)?;
    let digest = digest(text.as_slice());
    entry_of(alloc, text, digest, code, kind)
}

/// The same entry, where its text was written before and its digest is known: they are copied. One emission is counted.
pub fn emit_named<L: Ledger>(
    alloc: Global,
    text: &[u8],
    digest: &[u8; 32],
    code: &Term,
    kind: &KType,
    steps: &mut Steps<L>,
) -> Result<Entry, AllocError>
    requires text { IsTextOf text.now Two (expression_of code.now) (kernel_type_of kind.now) }
    requires digest { digest.now ≡ sha256 text.now }
    ensures entry { IfOk result
        (λ entry. IsEntryOf entry (expression_of code.now) (kernel_type_of kind.now)) }
    ensures step { steps.new ≡ steps.old + 1 }
{
    steps.tick();
    let mut copy = Vec::with_capacity(alloc, text.len())?;
    copy.extend_from_slice(text)?;
    entry_of(alloc, copy, *digest, code, kind)
}

/// The entry of code whose text this is, with its digest.
fn entry_of(
    alloc: Global,
    text: Vec<u8>,
    digest: [u8; 32],
    code: &Term,
    kind: &KType,
) -> Result<Entry, AllocError>
    requires text { IsTextOf text.items Two (expression_of code.now) (kernel_type_of kind.now) }
    requires digest { digest ≡ sha256 text.items }
    ensures { IfOk result
        (λ entry. IsEntryOf entry (expression_of code.now) (kernel_type_of kind.now)) }
{
    let converted = convert(alloc, code)?;
    let wasm = generate(alloc, &converted, kind)?;
    let bytes = encode(alloc, &wasm)?;
    Ok(Entry {
        text,
        digest,
        bytes,
        module: Arc::new(alloc, Valid::sure(wasm))?,
    })
}
