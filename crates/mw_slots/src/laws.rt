//! Laws of the table, which no program calls.

ghost use Rattle.std.specs.Prelude.{◌≡◌};
ghost use Rattle.mw_slots.specs.Core.{TableCore};
ghost use Rattle.mw_slots.specs.CoreExamples.{ThreeAskersOfTwoNames};
ghost use Rattle.mw_slots.specs.Receipts.{IsOf, IsFetched};

use crate::named::Named;
use crate::receipt::Receipt;
use crate::table::Table;

pub mod threads;

/// Whatever askers do: a filled slot never changes, a name stands in at most one slot, and an asker ends with a slot
/// that holds its name, or with sixteen slots that hold other names.
pub fn table_core()
    ensures { TableCore }
{}

/// Three askers of two names, whose windows go round the table's end.
pub fn three_askers_of_two_names()
    ensures { ThreeAskersOfTwoNames }
{}

/// Receipts of one slot know one entry.
pub fn one_entry<E: Named>(table: &Table<E>, one: &Receipt<E>, other: &Receipt<E>)
    requires one { IsOf table.now one.now }
    requires other { IsOf table.now other.now }
    requires slot { one.now.slot ≡ other.now.slot }
    ensures { one.now.entry ≡ other.now.entry }
{
    let _ = table;
    one.own.agrees(&other.own);
}

/// Receipts that `fetch` answered, of entries of one name, have one slot.
pub fn one_slot<E: Named>(table: &Table<E>, one: &Receipt<E>, other: &Receipt<E>)
    requires one { IsFetched E.name_of E.home table.now one.now }
    requires other { IsFetched E.name_of E.home table.now other.now }
    requires name { E.name_of one.now.entry ≡ E.name_of other.now.entry }
    ensures { one.now.slot ≡ other.now.slot }
{
    let _ = table;
    let (mine, theirs) = (one.passed.len(), other.passed.len());
    if mine < theirs {
        other.passed[mine].agrees(&one.own);
        unreachable!()
    }
    if theirs < mine {
        one.passed[theirs].agrees(&other.own);
        unreachable!()
    }
}
