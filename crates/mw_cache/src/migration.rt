// The records of version Two for loaded texts of version One.

ghost use Rattle.std.specs.Prelude.{◌≡◌, ◌+◌, ◌≤◌, IfOk, OnOk, length};
ghost use Rattle.mw_term.specs.Terms.{expression_of, kernel_type_of};
ghost use Rattle.mw_key.specs.CanonicalText.{IsKernel};
ghost use Rattle.mw_cache.specs.Migrating.{AddsAnew, IsMigrationOf};

use crate::records::{RecordBytes, Records};
use mw_compile::{Steps, emit_named};
use mw_key::{Version, digest, text_of};
use mw_store::{Load, record_of};
use mw_term::{KType, Term};
use std::alloc::{AllocError, Global};
use std::sync::ledger::Ledger;

/// What becomes of loaded texts of version One.
#[derive(Drop)]
pub struct Migration {
    /// How many texts of version One were loaded.
    pub old: u32,
    /// The records that are added for them.
    pub records: Records,
}

/// How many loaded texts are of version One, and, in file order, the record of the same code and type in version Two
/// for each of them of which this text wasn't loaded. Each of these records is one step. The error is want of memory.
pub fn migration_of<L: Ledger>(
    alloc: Global,
    load: &Load,
    steps: &mut Steps<L>,
) -> Result<Migration, AllocError>
    ensures migrated { IfOk result (λ m. IsMigrationOf load.now m.old m.records) }
    ensures spent { IfOk result (λ m. steps.new ≡ steps.old + length m.records) }
    ensures most { (steps.old ≤ steps.new) × (steps.new ≤ steps.old + length load.now.records) }
{
    let mut old = 0;
    let mut records = Records::new(alloc);
    for at in 0..load.count() {
        let (version, code, kind) = load.kernel(alloc, at)?;
        match version {
            Version::One => {
                old += 1;
                add_anew(alloc, load, &code, &kind, &mut records, steps)?;
            }
            Version::Two => {}
        }
    }
    Ok(Migration { old, records })
}

/// Adds the record of code at a type in version Two, with its emission, unless its text was loaded.
fn add_anew<L: Ledger>(
    alloc: Global,
    load: &Load,
    code: &Term,
    kind: &KType,
    records: &mut Records,
    steps: &mut Steps<L>,
) -> Result<(), AllocError>
    requires { IsKernel (expression_of code.now) (kernel_type_of kind.now) }
    ensures added { OnOk result (AddsAnew load.now
        (expression_of code.now) (kernel_type_of kind.now) records.old records.new) }
    ensures spent { OnOk result (steps.new + length records.old ≡ steps.old + length records.new) }
    ensures most { (steps.old ≤ steps.new) × (steps.new ≤ steps.old + 1) }
{
    let text = text_of(alloc, code, kind)?;
    if load.find(text.as_slice()).is_some() {
        return Ok(());
    }
    let digest = digest(text.as_slice());
    let entry = emit_named(alloc, text.as_slice(), &digest, code, kind, steps)?;
    let items = record_of(alloc, entry.text(), entry.bytes())?;
    records.push(RecordBytes { items })
}
