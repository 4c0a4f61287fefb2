// Why a table has no receipt.

ghost use Rattle.std.specs.Prelude.{◌≡◌};
ghost use Rattle.mw_slots.specs.declared.refused.Refused.TheVariants.{Memory};

use crate::receipt::Receipts;
use std::alloc::AllocError;
use std::sync::Arc;

/// An entry that found no room, with receipts of all slots of its window.
#[derive(Drop)]
pub struct NoRoom<E> {
    pub own: Arc<E>,
    pub seen: Receipts<E>,
}

/// Why there is no receipt: the window is full of other names, or want of memory.
#[derive(Drop)]
pub enum Refused<E> {
    NoRoom(NoRoom<E>),
    Memory(AllocError),
}

impl<E> From<AllocError> for Refused<E> {
    ghost from_gives = { λ error refused. refused ≡ Memory error };

    fn from(error: AllocError) -> Refused<E> {
        Refused::Memory(error)
    }
}
