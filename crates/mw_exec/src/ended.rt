// How invocations end, and why a module has no instance.

ghost use Rattle.std.specs.Prelude.{◌≡◌};
ghost use Rattle.mw_exec.specs.declared.ended.InstanceFault.TheVariants.{Memory};

use mw_wasm::{Trap, Value};
use std::alloc::{AllocError, AllocFailed};

/// How an invocation ends.
#[derive(Clone, Copy, Debug, PartialEq, Eq)]
pub enum Ended {
    /// With the function's result, where it has one, and the units left.
    Ended(Option<Value>, u64),
    /// By a trap.
    Trapped(Trap),
    /// Where one more unit is needed and none is left.
    Spent,
}

/// Why a module has no instance.
#[derive(Clone, Copy, Debug, PartialEq, Eq)]
pub enum InstanceFault {
    /// This element segment is the first segment that doesn't fit.
    Element(u32),
    /// All element segments fit, and this data segment is the first that doesn't.
    Segment(u32),
    /// There was no memory.
    Memory(AllocError),
}

impl From<AllocError> for InstanceFault {
    ghost from_gives = { λ e fault. fault ≡ Memory e };

    fn from(e: AllocError) -> InstanceFault {
        InstanceFault::Memory(e)
    }
}

impl<T: Drop> From<AllocFailed<T>> for InstanceFault {
    ghost use Rattle.std.specs.Prelude.{alloc_error};

    ghost from_gives = { λ _ fault. fault ≡ Memory alloc_error };

    fn from(e: AllocFailed<T>) -> InstanceFault {
        InstanceFault::Memory(AllocError::from(e))
    }
}
