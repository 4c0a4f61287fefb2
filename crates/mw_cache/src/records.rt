// The records of what is to be kept.

ghost use Rattle.std.specs.Prelude.{◌≡◌, ◌<◌, ◌++◌, ℕ, List, [], ◌∷◌, All, length, map, slice_get, Some, IfOk, OnOk};
ghost use Rattle.std.specs.Prelude.{OnErr};
ghost use Rattle.std.specs.List.{AllByRecursion};
ghost use Rattle.mw_slots.specs.Receipts.{IsOf};
ghost use Rattle.mw_cache.specs.Gots.{texts_of, text_in, IsHere};
ghost use Rattle.mw_cache.specs.Keeping.{AreRecordsOf};
ghost use Rattle.mw_cache.specs.Gathering.{kept_at, IsShort, IsGathered};
ghost use Rattle.mw_store.specs.Records.{record_bytes};
ghost use Rattle.std.specs.Cmp.Lexicographic.{slice_cmp};
ghost use Rattle.std.specs.Ordering.{nat_cmp};
ghost use Rattle.std.specs.List.Sorted.{IsStrictlySortedBy};

use crate::cache::Cache;
use crate::got::Got;
use mw_compile::Entry;
use mw_slots::Receipt;
use mw_store::record_of;
use std::alloc::{AllocError, Global};
use std::collections::BTreeMap;
use std::marker::Model;

/// The bytes of a record.
#[derive(Drop)]
pub struct RecordBytes {
    pub(crate) items: Vec<u8>,
}

impl Model for RecordBytes {
    ghost use Rattle.std.specs.Prelude.{List, ℕ};

    ghost Value = { List ℕ };

    ghost view = { λ record_bytes. record_bytes.items.items };
}

impl RecordBytes {
    /// How many bytes there are.
    pub fn len(&self) -> usize
        ensures { result ≡ length self.now }
    {
        self.items.len()
    }

    /// All of them, in order.
    pub fn as_slice(&self) -> &[u8]
        ensures { result.now ≡ self.now }
    {
        self.items.as_slice()
    }
}

/// A list of records.
#[derive(Drop)]
pub struct Records {
    items: Vec<RecordBytes>,
}

impl Model for Records {
    ghost use Rattle.std.specs.Prelude.{List, ℕ};

    ghost Value = { List (List ℕ) };

    ghost view = { λ list. list.items.items };
}

impl Records {
    /// No records. Takes no memory; the list grows by `alloc`.
    pub fn new(alloc: Global) -> Records
        ensures { result ≡ [] }
    {
        Records {
            items: Vec::new(alloc),
        }
    }

    /// How many records there are.
    pub fn len(&self) -> usize
        ensures { result ≡ length self.now }
    {
        self.items.len()
    }

    /// The record at a place below the length.
    pub fn get(&self, at: usize) -> &RecordBytes
        requires { at < length self.now }
        ensures { slice_get self.now at ≡ Some result.now }
    {
        &self.items[at]
    }

    /// All of them, in order.
    pub fn as_slice(&self) -> &[RecordBytes]
        ensures { result.now ≡ self.now }
    {
        self.items.as_slice()
    }

    /// Adds a record at the end. The error is want of memory, and leaves the list unchanged.
    pub fn push(&mut self, record_bytes: RecordBytes) -> Result<(), AllocError>
        ensures ok { OnOk result (self.new ≡ self.old ++ record_bytes ∷ []) }
        ensures err { OnErr result (self.new ≡ self.old) }
    {
        self.items.push(record_bytes)?;
        Ok(())
    }
}

impl Cache<'_> {
    /// The records of those of the receipts' entries, and of these modules, whose texts weren't loaded: of each text
    /// once, in the order of the texts' bytes. The error is want of memory.
    pub fn records<'e>(
        &'e self,
        alloc: Global,
        receipts: &'e [Receipt<Entry>],
        gots: &'e [&'e Got],
    ) -> Result<Records, AllocError>
        requires table { All (IsOf self.now.cells) receipts.now }
        requires here { All (λ g. IsHere self.now g.now) gots.now }
        ensures { IfOk result (λ records. AreRecordsOf self.now.load
            (texts_of receipts.now ++ map (λ g. text_in self.now g.now) gots.now) records) }
    {
        let mut modules = BTreeMap::new(alloc);
        for receipt in receipts {
            self.gather(&mut modules, self.entry_of(receipt))?;
        }
        for got in gots {
            self.gather_got(&mut modules, got)?;
        }
        records_of(alloc, &modules)
    }

    /// Adds a module, unless it was loaded.
    fn gather_got<'e>(
        &'e self,
        modules: &mut BTreeMap<&'e [u8], &'e [u8]>,
        got: &'e Got,
    ) -> Result<(), AllocError>
        requires { IsHere self.now got.now }
        ensures { OnOk result ((texts : List (List ℕ))
            → IsGathered self.now.load texts (map kept_at modules.old.entries)
            → IsGathered self.now.load (texts ++ text_in self.now got.now ∷ []) (map kept_at modules.new.entries)) }
    {
        match got {
            Got::Loaded(_) => Ok(()),
            Got::Stored(receipt) => self.gather(modules, self.entry_of(receipt)),
            Got::Own(none) => self.gather(modules, &*none.own),
        }
    }

    /// Adds the module of an entry, unless its text was loaded.
    fn gather<'e>(
        &self,
        modules: &mut BTreeMap<&'e [u8], &'e [u8]>,
        entry: &'e Entry,
    ) -> Result<(), AllocError>
        ensures { OnOk result ((texts : List (List ℕ))
            → IsGathered self.now.load texts (map kept_at modules.old.entries)
            → IsGathered self.now.load (texts ++ entry.now.text ∷ []) (map kept_at modules.new.entries)) }
    {
        if self.load().find(entry.text()).is_none() {
            modules.insert(entry.text(), entry.bytes())?;
        }
        Ok(())
    }
}

/// The records of modules, in the order of their texts.
fn records_of(alloc: Global, modules: &BTreeMap<&[u8], &[u8]>) -> Result<Records, AllocError>
    requires { AllByRecursion IsShort (map kept_at modules.now.entries) }
    ensures written { IfOk result
        (λ records. records ≡ map record_bytes (map kept_at modules.now.entries)) }
    ensures rise { IfOk result (λ _. IsStrictlySortedBy (slice_cmp nat_cmp)
        (map (λ k. k.text) (map kept_at modules.now.entries))) }
{
    let mut records = Records::new(alloc);
    for (text, bytes) in modules {
        let items = record_of(alloc, text, bytes)?;
        records.push(RecordBytes { items })?;
    }
    Ok(records)
}
