// Why a certificate isn't followed further.

ghost use Rattle.std.specs.Prelude.{◌≡◌};
ghost use Rattle.mw_recheck.specs.declared.stop.Stop.TheVariants.{Memory};

use std::alloc::{AllocError, AllocFailed};

/// Why the lines of a certificate aren't followed further.
#[derive(Clone, Copy, Debug)]
pub enum Stop {
    /// They don't certify.
    Wrong,
    /// Memory ran out, and nothing is said of them.
    Memory(AllocError),
}

impl From<AllocError> for Stop {
    ghost from_gives = { λ e s. s ≡ Memory e };

    fn from(e: AllocError) -> Stop {
        Stop::Memory(e)
    }
}

impl<T: Drop> From<AllocFailed<T>> for Stop {
    ghost use Rattle.std.specs.Prelude.{alloc_error};

    ghost from_gives = { λ _ s. s ≡ Memory alloc_error };

    fn from(e: AllocFailed<T>) -> Stop {
        Stop::Memory(AllocError::from(e))
    }
}
