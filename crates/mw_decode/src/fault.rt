// Why bytes spell no module of the profile.

ghost use Rattle.std.specs.Prelude.{◌≡◌};
ghost use Rattle.mw_decode.specs.declared.fault.DecodeFault.TheVariants.{Memory};

use std::alloc::AllocError;

/// The first fault that a reader finds from left to right. Its place is the index of a byte, from 0 on.
#[derive(Clone, Copy, Debug, PartialEq, Eq)]
pub enum BadModule {
    /// The first eight bytes aren't those of each module, or there are fewer.
    Magic,
    /// At a section's identity that may not stand there; at the count of bodies where as many functions aren't
    /// declared; or at the file's end where functions are declared and there are no bodies.
    Section(u32),
    /// At a size whose stated end isn't where its content ends, or lies behind the section that holds it.
    Size(u32),
    /// At a number with too many bytes, or with wrong unused bits.
    Number(u32),
    /// At a byte that no module of version 1.0 can have there.
    Opcode(u32),
    /// At something of version 1.0 that the profile leaves out.
    OutsideProfile(u32),
    /// At the file's end, which stands inside the module.
    Short(u32),
}

/// Why `decode` has no module.
#[derive(Debug, Drop)]
pub enum DecodeFault {
    /// The bytes have this first fault.
    Bad(BadModule),
    /// Memory ran out, and nothing is said of the bytes.
    Memory(AllocError),
}

impl From<AllocError> for DecodeFault {
    ghost from_gives = { λ e f. f ≡ Memory e };

    fn from(e: AllocError) -> DecodeFault {
        DecodeFault::Memory(e)
    }
}

/// Why nothing was read.
#[derive(Debug, Drop)]
pub enum Fault {
    /// The bytes end inside: whoever knows what ends there says which fault that is.
    Ended,
    /// A fault stands before they end.
    Bad(BadModule),
    /// Memory ran out.
    Memory(AllocError),
}

/// What was read, and the bytes behind it.
pub type Read<'a, T> = Result<(T, &'a [u8]), Fault>;

impl From<AllocError> for Fault {
    ghost use Rattle.mw_decode.specs.declared.fault.Fault.TheVariants.{Memory as OutOfMemory};

    ghost from_gives = { λ e f. f ≡ OutOfMemory e };

    fn from(e: AllocError) -> Fault {
        Fault::Memory(e)
    }
}
