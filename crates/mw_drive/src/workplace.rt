// Where kernel items are evaluated.

ghost use Rattle.std.specs.Prelude.{◌≡◌, ◌≤◌, length, IfOk};

use mw_compile::Entry;
use mw_slots::Table;
use std::alloc::{AllocError, Global};

/// What the evaluation of kernel items takes from outside: threads, the gate that each piece of work passes, and the
/// table of modules.
#[derive(Drop)]
pub struct Workplace<'w, R, G> {
    pub rt: &'w R,
    pub gate: &'w G,
    pub table: &'w Table<Entry>,
}

/// A table of so many empty slots.
pub fn table(alloc: Global, slots: u32) -> Result<Table<Entry>, AllocError>
    requires { 16 ≤ slots }
    ensures { IfOk result (λ table. length table ≡ slots) }
{
    Table::new(alloc, slots)
}
