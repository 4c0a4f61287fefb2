// What may go to other threads.

ghost use denote.Param.Send.{IsSend, IsSync};
ghost use Rattle.mw_slots.specs.contracts.receipt.Receipt as receipt;
ghost use Rattle.mw_slots.specs.contracts.receipt.Receipts as receipts;
ghost use Rattle.mw_slots.specs.contracts.refused.NoRoom as no_room;
ghost use Rattle.mw_slots.specs.contracts.table.Table as table;

use crate::receipt::{Receipt, Receipts};
use crate::refused::NoRoom;
use crate::table::Table;

/// What may be sent to other threads may.
fn sends<T: Send>()
    ensures { IsSend T.row }
{}

/// What may be shared with other threads may.
fn shares<T: Sync>()
    ensures { IsSync T.row }
{}

/// A table may be shared with other threads, and sent to them, where its entries may.
pub fn tables_cross<E: Send + Sync>()
    ensures send { IsSend (table.the_row E.row) }
    ensures sync { IsSync (table.the_row E.row) }
{
    sends::<Table<E>>();
    shares::<Table<E>>();
}

/// Receipts may be sent to other threads, and shared with them, whatever the entries are.
pub fn receipts_cross<E>()
    ensures send { IsSend (receipt.the_row E.row) }
    ensures sync { IsSync (receipt.the_row E.row) }
    ensures list_send { IsSend (receipts.the_row E.row) }
    ensures list_sync { IsSync (receipts.the_row E.row) }
{
    sends::<Receipt<E>>();
    shares::<Receipt<E>>();
    sends::<Receipts<E>>();
    shares::<Receipts<E>>();
}

/// What is answered where there is no room may be sent to other threads, and shared with them, where entries may.
pub fn refusals_cross<E: Send + Sync>()
    ensures send { IsSend (no_room.the_row E.row) }
    ensures sync { IsSync (no_room.the_row E.row) }
{
    sends::<NoRoom<E>>();
    shares::<NoRoom<E>>();
}
