// What kernel items and main come to.

use mw_cache::Got;
use mw_list::Sequence;
use mw_term::{GroundValue, Limit, Term, TrapKind};

/// What a kernel item's term came to on the machine.
#[derive(Debug, Drop)]
pub enum Evaluated {
    /// Its code.
    Code(Term),
    /// A trap.
    Trap(TrapKind),
    /// A bound, of the fuel, of a kernel's heap, or of how large and how deep code is.
    Bound(Limit),
}

/// What a kernel item came to.
#[derive(Drop)]
pub enum ItemOutcome {
    /// Its code, and where the module is of what is run of it.
    Code(Term, Got),
    /// A trap.
    Trap(TrapKind),
    /// A bound, of the fuel, of a kernel's heap, or of how large and how deep code is.
    Bound(Limit),
}

/// Outcomes in order, which contracts see as a list.
pub type Outcomes = Sequence<ItemOutcome>;

/// What main came to.
#[derive(Debug, Drop)]
pub enum MainOutcome {
    /// Its value.
    Value(GroundValue),
    /// A trap.
    Trap(TrapKind),
    /// A bound.
    Bound(Limit),
}
