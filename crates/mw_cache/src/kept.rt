// Receipts that are kept, one for each slot.

ghost use Rattle.std.specs.Prelude.{◌≡◌, ◌⊎◌, ℕ, List, [], ◌∷◌, ◌++◌, All, true, IfOk};
ghost use Rattle.mw_slots.specs.Receipts.{IsOf};
ghost use Rattle.mw_cache.specs.Gots.{CacheState, IsHere};
ghost use Rattle.mw_cache.specs.Received.{HasSlot, AreReceived, IsReceived};

use crate::got::Got;
use mw_compile::Entry;
use mw_slots::{Receipt, Receipts};
use std::alloc::{AllocError, Global};
use std::marker::Model;

/// Receipts, one for each slot of which one was given. For a slot it is known where its receipt stands, so that no
/// receipt is kept twice, however often it is given.
#[derive(Drop)]
pub struct KeptReceipts {
    receipts: Receipts<Entry>,
    /// For each slot up to the highest of the receipts: the place of its receipt, or any number where there is none.
    places: Vec<usize>,
}

impl Model for KeptReceipts {
    ghost use Rattle.std.specs.Prelude.{List};
    ghost use Rattle.std.specs.Coded.{codes};
    ghost use Rattle.mw_slots.specs.Receipts.{Known};
    ghost use Rattle.mw_compile.specs.Entries.{Emitted};
    ghost use Rattle.mw_compile.specs.contracts.entry.Entry as entry;

    ghost Value = { List (Known Emitted) };

    ghost coded = { Prim.hlevel (codes, entry.the_row.coded) };

    ghost view = { λ kept. kept.receipts };
}

impl KeptReceipts {
    /// No receipts. Takes no memory.
    pub fn new(alloc: Global) -> KeptReceipts
        ensures { result ≡ [] }
    {
        KeptReceipts {
            receipts: Receipts::new(alloc),
            places: Vec::new(alloc),
        }
    }

    /// The receipts. Takes no memory.
    pub fn into_receipts(self) -> Receipts<Entry>
        ensures { result ≡ self }
    {
        let KeptReceipts { receipts, .. } = self;
        receipts
    }

    /// Keeps the receipts of where a module is: that of its slot, or those of the window that had no room. A loaded
    /// record has none.
    pub fn keep_got(&mut self, alloc: Global, got: &Got) -> Result<(), AllocError>
        ensures kept { IfOk result (λ _. IsReceived self.new got.now) }
        ensures stay { (slot : ℕ) → HasSlot self.old slot → HasSlot self.new slot }
        ensures table { (cache : CacheState) → IsHere cache got.now
            → All (IsOf cache.cells) self.old
            → All (IsOf cache.cells) self.new }
    {
        match got {
            Got::Loaded(_) => Ok(()),
            Got::Stored(receipt) => self.keep(alloc, receipt),
            Got::Own(none) => self.keep_each(alloc, &none.seen),
        }
    }

    /// Keeps each of some receipts.
    pub fn keep_each(&mut self, alloc: Global, more: &Receipts<Entry>) -> Result<(), AllocError>
        ensures kept { IfOk result (λ _. AreReceived self.new more.now) }
        ensures stay { (slot : ℕ) → HasSlot self.old slot → HasSlot self.new slot }
        ensures table { (cells : List ℕ) → All (IsOf cells) more.now → All (IsOf cells) self.old
            → All (IsOf cells) self.new }
    {
        for at in 0..more.len() {
            self.keep(alloc, more.get(at))?;
        }
        Ok(())
    }

    /// Keeps a receipt, unless there is one of its slot.
    fn keep(&mut self, alloc: Global, receipt: &Receipt<Entry>) -> Result<(), AllocError>
        ensures kept { IfOk result (λ _. HasSlot self.new receipt.now.slot) }
        ensures added { (self.new ≡ self.old) ⊎ (self.new ≡ self.old ++ receipt.now ∷ []) }
    {
        if self.has(receipt.slot()) {
            return Ok(());
        }
        self.place(receipt.slot())?;
        self.receipts.push(receipt.again(alloc)?)
    }

    /// Whether there is a receipt of a slot.
    fn has(&self, slot: u32) -> bool
        ensures { result ≡ true → HasSlot self.now slot }
    {
        match self.places.get(slot as usize) {
            Some(at) => self.is_of(*at, slot),
            None => false,
        }
    }

    /// Whether the receipt at a place is there, and is of a slot.
    fn is_of(&self, at: usize, slot: u32) -> bool
        ensures { result ≡ true → HasSlot self.now slot }
    {
        at < self.receipts.len() && self.receipts.get(at).slot() == slot
    }

    /// Notes that the next receipt is of a slot.
    fn place(&mut self, slot: u32) -> Result<(), AllocError>
        ensures { self.new ≡ self.old }
    {
        let slot = slot as usize;
        let next = self.receipts.len();
        if slot >= self.places.len() {
            self.places.resize(slot + 1, next)?;
        }
        self.places[slot] = next;
        Ok(())
    }
}
