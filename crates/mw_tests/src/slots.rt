// Small tables, with one thread and with two.

ghost use Rattle.std.specs.Prelude.{◌≡◌, ◌≤◌, ℕ, List, [], ◌∷◌, IfOk, slice_index};
ghost use Rattle.mw_slots.specs.Receipts.{IsOf};

use mw_slots::{Make, Named, NoRoom, Receipt, Receipts, Refused, Table};
use std::alloc::{AllocError, Global};
use std::sync::{Arc, Wait};
use std::thread;
use std::thread::Threads;

/// An entry that is only a name, whose window begins at the number of its first byte.
#[derive(Drop)]
struct Word {
    text: Vec<u8>,
}

impl Named for Word {
    ghost name_of = { λ word. word.text.items };

    ghost home = { λ name. slice_index name 0 };

    fn name(&self) -> &[u8] {
        self.text.as_slice()
    }
}

/// Makes words, and counts them.
#[derive(Drop)]
struct Maker {
    made: u64,
}

impl Make<Word> for Maker {
    ghost takes = { λ _ _. Unit {0} };

    ghost gives = { λ _ name word. word.text.items ≡ name };

    ghost leaves = { λ _ _ _. Unit {0} };

    fn make(&mut self, alloc: Global, name: &[u8]) -> Result<Arc<Word>, AllocError> {
        self.made = self.made.wrapping_add(1);
        let text = Vec::from_slice(alloc, name)?;
        Ok(Arc::new(alloc, Word { text })?)
    }
}

/// Finds no memory.
#[derive(Drop)]
struct NoMaker;

impl Make<Word> for NoMaker {
    ghost takes = { λ _ _. Unit {0} };

    ghost gives = { λ _ _ _. ⊥ };

    ghost leaves = { λ _ _ _. Unit {0} };

    fn make(&mut self, _alloc: Global, _name: &[u8]) -> Result<Arc<Word>, AllocError> {
        Err(AllocError)
    }
}

/// A number of slots, the home of sixteen names, and the slots that they get one after another.
struct Window {
    slots: u32,
    home: u8,
    places: [u32; 16],
}

const WINDOWS: &[Window] = &[
    Window {
        slots: 16,
        home: 0,
        places: [0, 1, 2, 3, 4, 5, 6, 7, 8, 9, 10, 11, 12, 13, 14, 15],
    },
    Window {
        slots: 16,
        home: 12,
        places: [12, 13, 14, 15, 0, 1, 2, 3, 4, 5, 6, 7, 8, 9, 10, 11],
    },
    Window {
        slots: 20,
        home: 15,
        places: [15, 16, 17, 18, 19, 0, 1, 2, 3, 4, 5, 6, 7, 8, 9, 10],
    },
    Window {
        slots: 17,
        home: 255,
        places: [0, 1, 2, 3, 4, 5, 6, 7, 8, 9, 10, 11, 12, 13, 14, 15],
    },
];

/// The receipt of a name.
fn fetched<M: Make<Word>>(
    alloc: Global,
    table: &Table<Word>,
    home: u8,
    number: u8,
    maker: &mut M,
) -> Result<Receipt<Word>, Refused<Word>>
    requires takes { M.takes maker.old (home ∷ number ∷ []) }
    requires gives { (word : _) → M.gives maker.old (home ∷ number ∷ []) word
        → word.text.items ≡ home ∷ number ∷ [] }
    ensures { IfOk result (λ receipt. IsOf table.now receipt) }
{
    table.fetch(alloc, &[home, number], u32::from(home), maker)
}

/// Whether a receipt is of this slot, and it and its copy read this name.
fn is_at(
    alloc: Global,
    table: &Table<Word>,
    receipt: &Receipt<Word>,
    slot: u32,
    name: &[u8],
) -> Result<bool, AllocError>
    requires { IsOf table.now receipt.now }
{
    let copy = receipt.again(alloc)?;
    let slots = receipt.slot() == slot && copy.slot() == slot;
    Ok(slots && table.read(receipt).name() == name && table.read(&copy).name() == name)
}

/// Whether these are receipts of the slots of a window, and the entry has this name.
fn is_full(none: &NoRoom<Word>, window: &Window, name: &[u8]) -> bool {
    let mut fine = none.seen.len() == 16 && (*none.own).name() == name;
    for (receipt, place) in none.seen.as_slice().iter().zip(window.places.iter()) {
        fine = fine && receipt.slot() == *place;
    }
    fine
}

/// Whether there is no receipt, for want of room.
fn has_no_room(
    answer: &Result<Receipt<Word>, Refused<Word>>,
    window: &Window,
    name: &[u8],
) -> bool {
    match answer {
        Ok(_) => false,
        Err(refused) => match refused {
            Refused::NoRoom(none) => is_full(none, window, name),
            Refused::Memory(_) => false,
        },
    }
}

/// Whether there is no receipt, for want of memory.
fn has_no_memory(answer: &Result<Receipt<Word>, Refused<Word>>) -> bool {
    match answer {
        Ok(_) => false,
        Err(refused) => match refused {
            Refused::NoRoom(_) => false,
            Refused::Memory(_) => true,
        },
    }
}

/// Whether a maker's word of this name gets this slot, and is read there.
fn is_made_at(
    alloc: Global,
    table: &Table<Word>,
    home: u8,
    number: u8,
    slot: u32,
    maker: &mut Maker,
) -> Result<bool, Refused<Word>> {
    let receipt = fetched(alloc, table, home, number, maker)?;
    Ok(is_at(alloc, table, &receipt, slot, &[home, number])?)
}

/// Whether a word of this name is in this slot, and is read there.
fn is_found_at(
    alloc: Global,
    table: &Table<Word>,
    home: u8,
    number: u8,
    slot: u32,
) -> Result<bool, Refused<Word>> {
    let receipt = fetched(alloc, table, home, number, &mut NoMaker)?;
    Ok(is_at(alloc, table, &receipt, slot, &[home, number])?)
}

/// Whether sixteen names get the slots of their window.
fn are_made(
    alloc: Global,
    table: &Table<Word>,
    window: &Window,
    maker: &mut Maker,
) -> Result<bool, Refused<Word>> {
    let mut fine = true;
    for number in 0..16u8 {
        let slot = window.places[number as usize];
        fine = fine && is_made_at(alloc, table, window.home, number, slot, maker)?;
    }
    Ok(fine)
}

/// Whether they are there afterwards.
fn are_found(alloc: Global, table: &Table<Word>, window: &Window) -> Result<bool, Refused<Word>> {
    let mut fine = true;
    for number in 0..16u8 {
        let slot = window.places[number as usize];
        fine = fine && is_found_at(alloc, table, window.home, number, slot)?;
    }
    Ok(fine)
}

/// Whether a name more finds no room.
fn is_too_many(alloc: Global, table: &Table<Word>, window: &Window, maker: &mut Maker) -> bool {
    let answer = fetched(alloc, table, window.home, 16, maker);
    has_no_room(&answer, window, &[window.home, 16])
}

/// Whether sixteen names get the slots of their window, a name more finds no room, and the sixteen are read as before.
fn fills(alloc: Global, window: &Window) -> Result<bool, Refused<Word>>
    requires { 16 ≤ window.now.slots }
{
    let table = Table::new(alloc, window.slots)?;
    let mut maker = Maker { made: 0 };
    let made = are_made(alloc, &table, window, &mut maker)? && maker.made == 16;
    let full = is_too_many(alloc, &table, window, &mut maker) && maker.made == 17;
    Ok(made && full && are_found(alloc, &table, window)?)
}

#[test]
fn full_window_has_no_room(rt: HostRuntime) -> Result<(), AllocError> {
    for window in WINDOWS {
        assert!(rt; window.slots >= 16);
        assert!(rt;
            matches!(fills(rt.alloc(), window), Ok(true)),
            "home {}",
            window.home
        );
    }
    Ok(())
}

/// Whether want of memory leaves the first slot of a window empty, for another name of the same home.
fn refused(alloc: Global) -> Result<bool, Refused<Word>> {
    let table: Table<Word> = Table::new(alloc, 16)?;
    let none = fetched(alloc, &table, 5, 1, &mut NoMaker);
    let memory = has_no_memory(&none);
    let receipt = fetched(alloc, &table, 5, 2, &mut Maker { made: 0 })?;
    Ok(memory && is_at(alloc, &table, &receipt, 5, &[5, 2])?)
}

#[test]
fn refused_memory_fills_nothing(rt: HostRuntime) -> Result<(), AllocError> {
    assert!(rt; matches!(refused(rt.alloc()), Ok(true)));
    Ok(())
}

/// Fetches eight names of one home, each of which is read back.
fn ask(alloc: Global, table: &Table<Word>) -> Result<Receipts<Word>, Refused<Word>> {
    let mut all = Receipts::new(alloc);
    let mut maker = Maker { made: 0 };
    for number in 0..8u8 {
        let receipt = fetched(alloc, table, 200, number, &mut maker)?;
        if table.read(&receipt).name() == [200, number].as_slice() {
            all.push(receipt)?;
        }
    }
    Ok(all)
}

/// What two threads get that ask for the same names at once.
fn two_ask<R: Threads + Wait>(
    rt: &R,
    alloc: Global,
    table: &Table<Word>,
) -> Result<(Receipts<Word>, Receipts<Word>), Refused<Word>> {
    thread::scope(thread::scope_env(), rt, |scope| {
        let one = scope.spawn(move || ask(alloc, table));
        let two = scope.spawn(move || ask(alloc, table));
        match (one, two) {
            (Ok(one), Ok(two)) => Ok((one.join(rt)?, two.join(rt)?)),
            _ => Err(Refused::Memory(AllocError)),
        }
    })
}

/// Whether a name's slot is that of its receipt in both lists, and the name is read there.
fn is_in_both(
    alloc: Global,
    table: &Table<Word>,
    one: &Receipts<Word>,
    two: &Receipts<Word>,
    number: u8,
) -> Result<bool, Refused<Word>> {
    let receipt = fetched(alloc, table, 200, number, &mut NoMaker)?;
    let at = number as usize;
    let listed = at < one.len() && at < two.len();
    let same = listed
        && one.get(at).slot() == receipt.slot()
        && two.get(at).slot() == receipt.slot();
    Ok(same && table.read(&receipt).name() == [200, number].as_slice())
}

/// Whether both lists have one slot for each of the eight names.
fn are_in_both(
    alloc: Global,
    table: &Table<Word>,
    one: &Receipts<Word>,
    two: &Receipts<Word>,
) -> Result<bool, Refused<Word>> {
    let mut fine = one.len() == 8 && two.len() == 8;
    for number in 0..8u8 {
        fine = fine && is_in_both(alloc, table, one, two, number)?;
    }
    Ok(fine)
}

/// Whether two threads get one slot for each name, and each name is read afterwards.
fn agree<R: Threads + Wait>(rt: &R, alloc: Global) -> Result<bool, Refused<Word>> {
    let table = Table::new(alloc, 1024)?;
    let (one, two) = two_ask(rt, alloc, &table)?;
    are_in_both(alloc, &table, &one, &two)
}

#[test]
fn two_threads_have_one_slot(rt: HostRuntime) -> Result<(), AllocError> {
    for round in 0..100u32 {
        assert!(rt; matches!(agree(&rt, rt.alloc()), Ok(true)), "round {round}");
    }
    Ok(())
}
