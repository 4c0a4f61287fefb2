// Why a run or a call has no answer.

ghost use Rattle.std.specs.Prelude.{◌≡◌};
ghost use Rattle.mw_kernel.specs.declared.fault.RunFault.TheVariants.{Memory};

use std::alloc::{AllocError, AllocFailed};

/// Why a run or a call has no answer.
#[derive(Clone, Copy, Debug, PartialEq, Eq)]
pub enum RunFault {
    /// There was no memory.
    Memory(AllocError),
    /// The module gave what no kernel of the type gives: a trap that no kernel has, or a word that is no value's.
    Bad,
}

impl From<AllocError> for RunFault {
    ghost from_gives = { λ e fault. fault ≡ Memory e };

    fn from(e: AllocError) -> RunFault {
        RunFault::Memory(e)
    }
}

impl<T: Drop> From<AllocFailed<T>> for RunFault {
    ghost use Rattle.std.specs.Prelude.{alloc_error};

    ghost from_gives = { λ _ fault. fault ≡ Memory alloc_error };

    fn from(e: AllocFailed<T>) -> RunFault {
        RunFault::Memory(AllocError::from(e))
    }
}
