// Why code is not read back.

ghost use Rattle.std.specs.Prelude.{◌≡◌};
ghost use Rattle.mw_code.specs.declared.fault.CodeFault.TheVariants.{Memory};

use std::alloc::{AllocError, AllocFailed};

/// Why a node has no term within the limits of kernels, or want of memory.
#[derive(Clone, Copy, Debug, PartialEq, Eq)]
pub enum CodeFault {
    /// It has more than 20,000 nodes.
    TooManyNodes,
    /// It has at most 20,000 nodes, and is deeper than 400.
    TooDeepCode,
    Memory(AllocError),
}

impl From<AllocError> for CodeFault {
    ghost from_gives = { λ e fault. fault ≡ Memory e };

    fn from(e: AllocError) -> CodeFault {
        CodeFault::Memory(e)
    }
}

impl<T: Drop> From<AllocFailed<T>> for CodeFault {
    ghost use Rattle.std.specs.Prelude.{alloc_error};

    ghost from_gives = { λ _ fault. fault ≡ Memory alloc_error };

    fn from(e: AllocFailed<T>) -> CodeFault {
        CodeFault::Memory(AllocError::from(e))
    }
}
