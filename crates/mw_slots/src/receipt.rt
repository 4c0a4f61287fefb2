// Receipts of a table's slots.

ghost use Rattle.std.specs.Prelude.{◌≡◌, ℕ, [], ◌∷◌, ◌++◌, ◌<◌, length, IfOk, OnOk, OnErr, slice_get, Some};
ghost use Rattle.std.specs.Arc.{arc_value};
ghost use Rattle.mw_slots.specs.Witnesses.{all_shown};

use crate::witness::Witness;
use std::alloc::{AllocError, Global};
use std::marker::Model;
use std::sync::Arc;

/// Shows for good which entry a slot holds, and which ones the slots that were passed over before it.
#[derive(Drop)]
pub struct Receipt<E> {
    pub(crate) slot: u32,
    pub(crate) own: Witness<Arc<E>>,
    pub(crate) passed: Vec<Witness<Arc<E>>>,
}

impl<E> Model for Receipt<E> {
    ghost use Rattle.mw_slots.specs.Receipts.{Known};
    ghost use Rattle.mw_slots.specs.Witnesses.{known};

    ghost Value = { Known E };

    ghost view = { λ r. known r.slot r.own r.passed.items };
}

impl<E> Receipt<E> {
    /// The slot's number. Takes no memory.
    pub fn slot(&self) -> u32
        ensures { result ≡ self.now.slot }
    {
        self.slot
    }

    /// A receipt that knows the same.
    pub fn again(&self, alloc: Global) -> Result<Receipt<E>, AllocError>
        ensures { IfOk result (λ copy. copy ≡ self.now) }
    {
        Ok(Receipt {
            slot: self.slot,
            own: self.own.again(),
            passed: copies(alloc, &self.passed)?,
        })
    }
}

/// Witnesses of the same.
fn copies<E>(alloc: Global, from: &Vec<Witness<Arc<E>>>) -> Result<Vec<Witness<Arc<E>>>, AllocError>
    ensures { IfOk result (λ all. all_shown all.items ≡ all_shown from.now.items) }
{
    let mut all = Vec::new(alloc);
    for at in 0..from.len() {
        all.push(from[at].again())?;
    }
    Ok(all)
}

/// A list of receipts.
#[derive(Drop)]
pub struct Receipts<E> {
    pub(crate) items: Vec<Receipt<E>>,
}

impl<E> Model for Receipts<E> {
    ghost use Rattle.std.specs.Prelude.{List};
    ghost use Rattle.mw_slots.specs.Receipts.{Known};

    ghost Value = { List (Known E) };

    ghost view = { λ list. list.items.items };
}

impl<E> Receipts<E> {
    /// No receipts. Takes no memory; the list grows by `alloc`.
    pub fn new(alloc: Global) -> Receipts<E>
        ensures { result ≡ [] }
    {
        Receipts {
            items: Vec::new(alloc),
        }
    }

    /// How many receipts there are.
    pub fn len(&self) -> usize
        ensures { result ≡ length self.now }
    {
        self.items.len()
    }

    /// The receipt at a place below the length.
    pub fn get(&self, at: usize) -> &Receipt<E>
        requires { at < length self.now }
        ensures { slice_get self.now at ≡ Some result.now }
    {
        &self.items[at]
    }

    /// All of them, in order.
    pub fn as_slice(&self) -> &[Receipt<E>]
        ensures { result.now ≡ self.now }
    {
        self.items.as_slice()
    }

    /// Adds a receipt at the end. The error is want of memory, and leaves the list unchanged.
    pub fn push(&mut self, receipt: Receipt<E>) -> Result<(), AllocError>
        ensures ok { OnOk result (self.new ≡ self.old ++ receipt ∷ []) }
        ensures err { OnErr result (self.new ≡ self.old) }
    {
        self.items.push(receipt)?;
        Ok(())
    }
}
