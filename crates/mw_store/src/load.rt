// What is loaded from a cache file.

ghost use Rattle.std.specs.Prelude.{◌≡◌, ◌≤◌, ◌<◌, ◌++◌, ◌∷◌, ℕ, [], length, map, position, slice_get, Some, None};
ghost use Rattle.std.specs.Prelude.{IfOk, OnOk, false, true};
ghost use Rattle.std.specs.Arc.{arc_value};
ghost use Rattle.std.specs.Str.{bytes_eq};
ghost use Rattle.mw_term.specs.Terms.{expression_of, kernel_type_of};
ghost use Rattle.mw_key.specs.CanonicalText.{IsTextOf};
ghost use Rattle.mw_wasm.specs.Profile.{IsWithinFileLimit};
ghost use Rattle.mw_wasm.specs.Views.{module_of};
ghost use Rattle.mw_store.specs.Records.{IsWhole};
ghost use Rattle.mw_store.specs.Loads.{Loaded, IsLoadOf, kept_of, file_limit};
ghost use Rattle.mw_store.specs.Loading.{IsLoadedTo, NoneBegins, TakesFound, LoadsUpTo};
ghost use Rattle.mw_store.specs.Whole.{kept_in, IsKernelModule};

use crate::loaded::LoadedModule;
use crate::whole::{WholeRecord, whole_record};
use indexmap::IndexMap;
use mw_key::{TextFault, Version, read_text};
use mw_term::{KType, Term};
use mw_validate::Valid;
use std::alloc::{AllocError, Global};
use std::marker::Model;
use std::sync::Arc;

/// A cache file has at most so many bytes that are read.
pub const FILE_LIMIT: usize = 67_108_864;

/// The records of a cache file that count, the first of each text, in file order.
#[derive(Drop)]
pub struct Load {
    records: IndexMap<Vec<u8>, LoadedModule>,
    good: usize,
}

impl Model for Load {
    ghost use Rattle.std.specs.Prelude.{◌≤◌, length, All, map};
    ghost use Rattle.std.specs.Coded.{codes};
    ghost use Rattle.mw_wasm.specs.contracts.instructions.Instr as instr;
    ghost use Rattle.mw_store.specs.Entries.{record_in};
    ghost use Rattle.mw_store.specs.Loads.{LoadState, IsLoaded, file_limit};

    ghost Value = { LoadState };

    ghost coded = { Prim.hlevel (codes, instr.the_row.coded) };

    ghost view = { λ l. record {
      records = map record_in l.records.entries;
      good = l.good;
    } };

    ghost invariant = { λ l. All (λ e. IsLoaded (record_in e)) l.records.entries
        × (length l.records.entries ≤ l.good) × (l.good ≤ file_limit) };
}

impl Load {
    /// Nothing. Takes no memory.
    pub fn new(alloc: Global) -> Load
        ensures { result ≡ record { records = []; good = 0 } }
    {
        Load {
            records: IndexMap::new(alloc),
            good: 0,
        }
    }

    /// How many bytes the records that count take. Takes no memory.
    pub fn good(&self) -> usize
        ensures good { result ≡ self.now.good }
        ensures limit { result ≤ file_limit }
    {
        self.good
    }

    /// How many different texts there are. Takes no memory.
    pub fn count(&self) -> u32
        ensures { result ≡ length self.now.records }
    {
        self.records.len() as u32
    }

    /// The place of a text, if it was loaded. Takes no memory.
    pub fn find(&self, text: &[u8]) -> Option<u32>
        ensures { result ≡ position (λ l. bytes_eq text.now l.text) self.now.records }
    {
        if self.records.is_empty() {
            return None;
        }
        let at = self.records.get_index_of(text)?;
        Some(at as u32)
    }

    /// The text at a place, in file order. Takes no memory.
    pub fn text(&self, at: u32) -> &[u8]
        requires { at < length self.now.records }
        ensures { (l : Loaded) × (slice_get self.now.records at ≡ Some l) × (result.now ≡ l.text) }
    {
        match self.records.get_index(at as usize) {
            Some((text, _)) => text.as_slice(),
            None => unreachable!(),
        }
    }

    /// The bytes of the module of the text at a place: of the first record that has the text. Takes no memory.
    pub fn bytes(&self, at: u32) -> &[u8]
        requires { at < length self.now.records }
        ensures { (l : Loaded) × (slice_get self.now.records at ≡ Some l) × (result.now ≡ l.bytes) }
    {
        match self.records.get_index(at as usize) {
            Some((_, loaded)) => loaded.bytes(),
            None => unreachable!(),
        }
    }

    /// The module of the text at a place, which its bytes spell. It is valid, and has the shape that a run at the
    /// text's type needs. It is decoded when it is first asked for, and kept from then on. The error is want of memory.
    pub fn module(&self, alloc: Global, at: u32) -> Result<Arc<Valid>, AllocError>
        requires { at < length self.now.records }
        ensures { (l : Loaded) × (slice_get self.now.records at ≡ Some l)
            × IfOk result (λ m. IsKernelModule l.text l.bytes (module_of (arc_value m))) }
    {
        match self.records.get_index(at as usize) {
            Some((_, loaded)) => loaded.module(alloc),
            None => unreachable!(),
        }
    }

    /// The version, code and type that the text at a place says. The error is want of memory.
    pub fn kernel(&self, alloc: Global, at: u32) -> Result<(Version, Term, KType), AllocError>
        requires { at < length self.now.records }
        ensures { (l : Loaded) × (slice_get self.now.records at ≡ Some l)
            × IfOk result (λ k. IsTextOf l.text k.0 (expression_of k.1) (kernel_type_of k.2)) }
    {
        let Some((text, _)) = self.records.get_index(at as usize) else {
            unreachable!()
        };
        match read_text(alloc, text.as_slice()) {
            Ok(kernel) => Ok(kernel),
            Err(TextFault::Memory(error)) => Err(error),
            Err(TextFault::BadText) => unreachable!(),
        }
    }

    /// Takes the next record of the file, after those that were taken, if it counts.
    fn take_next(&mut self, alloc: Global, bytes: &[u8]) -> Result<bool, AllocError>
        requires { IsLoadedTo bytes.now self.old }
        ensures more { IfOk result (λ more. IsLoadedTo bytes.now self.new) }
        ensures longer { IfOk result (λ more. more ≡ true
            → (self.old.good < self.new.good) × (self.new.good ≤ length bytes.now)) }
        ensures last { IfOk result (λ more. more ≡ false
            → (self.new ≡ self.old) × NoneBegins bytes.now self.old.good) }
    {
        match whole_record(alloc, &bytes[self.good..], FILE_LIMIT - self.good)? {
            None => Ok(false),
            Some(found) => {
                self.keep(alloc, found)?;
                Ok(true)
            }
        }
    }

    /// Counts a whole record, and keeps it where its text is new.
    fn keep(&mut self, alloc: Global, found: WholeRecord<'_>) -> Result<(), AllocError>
        requires { LoadsUpTo found self.old.good }
        ensures { OnOk result (TakesFound (kept_in found.entry) self.old self.new) }
    {
        self.good += found.len();
        match self.find(found.text) {
            Some(_) => Ok(()),
            None => self.insert(alloc, found),
        }
    }

    /// Keeps a record of a new text.
    fn insert(&mut self, alloc: Global, found: WholeRecord<'_>) -> Result<(), AllocError>
        requires more { length self.old.records < self.old.good }
        requires other { position (λ l. bytes_eq found.text.now l.text) self.old.records ≡ None }
        requires whole { IsWhole (kept_in found) }
        requires within { IsWithinFileLimit found.bytes.now }
        ensures records { OnOk result (map kept_of self.new.records
            ≡ map kept_of self.old.records ++ kept_in found.entry ∷ []) }
        ensures good { self.new.good ≡ self.old.good }
    {
        let text = Vec::from_slice(alloc, found.text)?;
        let loaded = LoadedModule::new(alloc, found.bytes)?;
        self.records.insert(text, loaded)?;
        Ok(())
    }
}

/// What is loaded from a cache file of these bytes. The error is want of memory.
pub fn load_of(alloc: Global, bytes: &[u8]) -> Result<Load, AllocError>
    ensures { IfOk result (λ load. IsLoadOf bytes.now load) }
{
    let mut load = Load::new(alloc);
    let mut more = true;
    while more {
        more = load.take_next(alloc, bytes)?;
    }
    Ok(load)
}
