// The table.

ghost use Rattle.std.specs.Prelude.{◌≡◌, ℕ, ◌+◌, ◌<◌, ◌≤◌, ◌%◌, ◌⊎◌, ◌^◌, ◌≢◌, length, IfOk, IfErr, slice_get, Some};
ghost use Rattle.std.specs.Prelude.{IsNone, IfSome, vec_len, vec_capacity, map, [], ◌∷◌, ◌++◌};
ghost use Rattle.once_cell.specs.Once.{cell_name};
ghost use Rattle.mw_slots.specs.Receipts.{IsOf, IsFirst, IsFetched, IsFull, window};
ghost use Rattle.mw_slots.specs.Refusals.{IfNoRoom, HasNoRoom};
ghost use Rattle.mw_slots.specs.Witnesses.{IsAt, Tells, Passes, IsEnd, IfFound};

use crate::named::{Make, Named};
use crate::receipt::{Receipt, Receipts};
use crate::refused::{NoRoom, Refused};
use crate::witness::Witness;
use once_cell::race::OnceBox;
use std::alloc::{AllocError, Global};
use std::marker::Model;
use std::sync::Arc;

/// How many slots a window has.
const WINDOW: usize = 16;

/// Slots that are filled once and never change. Contracts see the names of its cells, one for each slot.
#[derive(Drop)]
pub struct Table<E> {
    cells: Vec<OnceBox<Arc<E>>>,
}

impl<E> Model for Table<E> {
    ghost use Rattle.std.specs.Prelude.{List, ℕ, map, length, ◌≤◌, ◌<◌, ◌^◌};
    ghost use Rattle.once_cell.specs.Once.{cell_name};

    ghost Value = { List ℕ };

    ghost view = { λ t. map cell_name t.cells.items };

    ghost invariant = { λ t. (16 ≤ length t.cells.items) × (length t.cells.items < 2 ^ 32) };
}

impl<E: Named + Drop> Table<E> {
    /// A table of empty slots.
    pub fn new(alloc: Global, slots: u32) -> Result<Table<E>, AllocError>
        requires { 16 ≤ slots }
        ensures { IfOk result (λ table. length table ≡ slots) }
    {
        let mut cells = Vec::with_capacity(alloc, slots as usize)?;
        for _ in 0..slots {
            cells.push_reserved(OnceBox::new(alloc));
        }
        Ok(Table { cells })
    }

    /// The slot at a place of a window, which goes round the table's end.
    fn place(&self, start: u32, place: usize) -> usize
        requires { place ≤ 16 }
        ensures is { result ≡ window self.now start place }
        ensures bound { result < length self.now }
        ensures small { result < 2 ^ 32 }
    {
        (start as usize + place) % self.cells.len()
    }

    /// What a slot holds, and whether that has this name; nothing where the slot is empty.
    fn look(&self, at: usize, name: &[u8]) -> Option<(Witness<Arc<E>>, bool)>
        requires { at < length self.now }
        ensures cell { IfSome result (λ found. IsAt self.now at found.0) }
        ensures same { IfSome result (λ found. Tells E.name_of name.now found.0 found.1) }
    {
        let cell = &self.cells[at];
        let mut note = cell.note();
        let found = cell.get_as(&mut note)?;
        let same = (**found).name() == name;
        Some((Witness::of(&mut note), same))
    }

    /// Fills a slot, if it is empty. Answers what it holds then, and whether that has this name. The memory is taken
    /// first, so a refusal leaves the slot as it is.
    fn fill(
        &self,
        alloc: Global,
        at: usize,
        name: &[u8],
        mine: &Arc<E>,
    ) -> Result<(Witness<Arc<E>>, bool), AllocError>
        requires { at < length self.now }
        ensures cell { IfOk result (λ found. IsAt self.now at found.0) }
        ensures same { IfOk result (λ found. Tells E.name_of name.now found.0 found.1) }
    {
        let cell = &self.cells[at];
        let mut note = cell.note();
        let boxed = Box::new(alloc, Arc::try_clone(mine)?)?;
        let found = cell.get_or_try_init_as(
            move || -> Result<Box<Arc<E>>, AllocError> { Ok(boxed) },
            &mut note,
        )?;
        let same = (**found).name() == name;
        Ok((Witness::of(&mut note), same))
    }

    /// Goes through a window from its start. Passes over slots of other names, up to a slot of this name, an empty one
    /// or the end, and answers what the slot of this name holds.
    fn seek(
        &self,
        start: u32,
        name: &[u8],
        passed: &mut Vec<Witness<Arc<E>>>,
    ) -> Option<Witness<Arc<E>>>
        requires none { passed.old.items ≡ [] }
        requires room { 16 ≤ vec_capacity passed.old }
        ensures room { 16 ≤ vec_capacity passed.new }
        ensures count { vec_len passed.new ≤ 16 }
        ensures others { Passes E.name_of self.now start name.now passed.new.items }
        ensures found { IfFound E.name_of self.now start name.now passed.new.items result }
    {
        'slots: while passed.len() < WINDOW {
            let (witness, same) = self.look(self.place(start, passed.len()), name)?;
            if same {
                return Some(witness);
            }
            passed.push_reserved(witness);
        }
        None
    }

    /// Goes on through the window. Passes over slots of other names, up to a slot of this name, an empty one, which is
    /// filled, or the end, and answers what the slot of this name holds.
    fn settle(
        &self,
        alloc: Global,
        start: u32,
        name: &[u8],
        mine: &Arc<E>,
        passed: &mut Vec<Witness<Arc<E>>>,
    ) -> Result<Option<Witness<Arc<E>>>, AllocError>
        requires count { vec_len passed.old ≤ 16 }
        requires room { 16 ≤ vec_capacity passed.old }
        requires others { Passes E.name_of self.now start name.now passed.old.items }
        ensures others { Passes E.name_of self.now start name.now passed.new.items }
        ensures found { IfOk result (IfFound E.name_of self.now start name.now passed.new.items) }
        ensures full { IfOk result (λ found. IsNone found → vec_len passed.new ≡ 16) }
    {
        'slots: while passed.len() < WINDOW {
            let (witness, same) = self.fill(alloc, self.place(start, passed.len()), name, mine)?;
            if same {
                return Ok(Some(witness));
            }
            passed.push_reserved(witness);
        }
        Ok(None)
    }

    /// The receipt of the slot at which a window ended.
    fn receipt(
        &self,
        start: u32,
        own: Witness<Arc<E>>,
        passed: Vec<Witness<Arc<E>>>,
        name: &[u8],
    ) -> Receipt<E>
        requires others { Passes E.name_of self.now start name.now passed.items }
        requires found { IsEnd E.name_of self.now start name.now passed.items own }
        ensures { IsFirst E.name_of self.now start name.now result }
    {
        let slot = self.place(start, passed.len()) as u32;
        Receipt { slot, own, passed }
    }

    /// Receipts of all slots of a window that has no room.
    fn receipts(
        &self,
        alloc: Global,
        start: u32,
        name: &[u8],
        passed: Vec<Witness<Arc<E>>>,
        seen: Vec<Receipt<E>>,
    ) -> Receipts<E>
        requires sixteen { vec_len passed ≡ 16 }
        requires others { Passes E.name_of self.now start name.now passed.items }
        requires none { seen.items ≡ [] }
        requires room { 16 ≤ vec_capacity seen }
        ensures { IsFull E.name_of self.now start name.now result }
    {
        let mut items = seen;
        for at in 0..passed.len() {
            let slot = self.place(start, at) as u32;
            let own = passed[at].again();
            items.push_reserved(Receipt {
                slot,
                own,
                passed: Vec::new(alloc),
            });
        }
        Receipts { items }
    }

    /// The first slot of the window that has this name, or that is empty and is filled by the entry that `make` gives.
    /// Takes the memory for the receipts before it looks at a slot, and calls `make` at most once. Want of memory
    /// leaves every slot as it is.
    pub fn fetch<M: Make<E>>(
        &self,
        alloc: Global,
        name: &[u8],
        start: u32,
        make: &mut M,
    ) -> Result<Receipt<E>, Refused<E>>
        requires home { start ≡ E.home name.now }
        requires takes { M.takes make.old name.now }
        requires make { (entry : E) → M.gives make.old name.now entry → E.name_of entry ≡ name.now }
        ensures receipt { IfOk result (λ r. IsFirst E.name_of self.now start name.now r) }
        ensures fetched { IfOk result (λ r. IsFetched E.name_of E.home self.now r) }
        ensures refused { IfErr result
            (λ e. IfNoRoom e (HasNoRoom E.name_of self.now start name.now)) }
        ensures maker { (make.new ≡ make.old) ⊎ M.leaves make.old name.now make.new }
    {
        let mut passed = Vec::with_capacity(alloc, WINDOW)?;
        let seen = Vec::with_capacity(alloc, WINDOW)?;
        if let Some(own) = self.seek(start, name, &mut passed) {
            return Ok(self.receipt(start, own, passed, name));
        }
        let own = make.make(alloc, name)?;
        match self.settle(alloc, start, name, &own, &mut passed)? {
            Some(found) => Ok(self.receipt(start, found, passed, name)),
            None => {
                let seen = self.receipts(alloc, start, name, passed, seen);
                Err(Refused::NoRoom(NoRoom { own, seen }))
            }
        }
    }

    /// The entry that a receipt of this table knows. Takes no memory.
    pub fn read<'a>(&'a self, receipt: &Receipt<E>) -> &'a E
        requires { IsOf self.now receipt.now }
        ensures { result.now ≡ receipt.now.entry }
    {
        let cell = &self.cells[receipt.slot as usize];
        let mut note = cell.note();
        receipt.own.tell(&mut note);
        match cell.get_as(&mut note) {
            Some(entry) => entry,
            None => unreachable!(),
        }
    }
}
