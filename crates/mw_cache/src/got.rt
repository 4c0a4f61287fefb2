// Where the module of a text is.

use mw_compile::Entry;
use mw_slots::{NoRoom, Receipt};

/// Where the module of a text is: in a loaded record, by its number; in a slot of the cache's table; or beside the
/// table, which had no room.
#[derive(Drop)]
pub enum Got {
    Loaded(u32),
    Stored(Receipt<Entry>),
    Own(NoRoom<Entry>),
}
