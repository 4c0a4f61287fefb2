// Why a text isn't read.

ghost use Rattle.std.specs.Prelude.{◌≡◌};

use std::alloc::AllocError;

/// Why `read_wat` has no module.
#[derive(Debug, Drop)]
pub enum WatFault {
    /// The bytes are no text within the limit, and this is their first bad place: the index of a byte, or the length.
    Bad(u32),
    /// Memory ran out, and nothing is said of the bytes.
    Memory(AllocError),
}

impl From<AllocError> for WatFault {
    ghost use Rattle.mw_wat.specs.declared.fault.WatFault.TheVariants.{Memory};

    ghost from_gives = { λ e f. f ≡ Memory e };

    fn from(e: AllocError) -> WatFault {
        WatFault::Memory(e)
    }
}
