// Why a file has no module.

ghost use Rattle.std.specs.Prelude.{◌≡◌};

use mw_decode::{BadModule, DecodeFault};
use mw_wat::WatFault;
use std::alloc::AllocError;

/// The first fault of a file's bytes.
#[derive(Clone, Copy, Debug, PartialEq, Eq)]
pub enum BadFile {
    /// They spell no module of the profile.
    Module(BadModule),
    /// They are no text of a module, and this is their first bad place: the index of a byte, or the length.
    Text(u32),
}

/// Why there is no answer about a file.
#[derive(Debug, Drop)]
pub enum FileFault {
    /// The bytes have this first fault.
    Bad(BadFile),
    /// Memory ran out, and nothing is said of the bytes.
    Memory(AllocError),
}

impl From<AllocError> for FileFault {
    ghost use Rattle.mw_judge.specs.declared.fault.FileFault.TheVariants.{Memory};

    ghost from_gives = { λ e f. f ≡ Memory e };

    fn from(e: AllocError) -> FileFault {
        FileFault::Memory(e)
    }
}

impl From<DecodeFault> for FileFault {
    ghost use Rattle.mw_judge.specs.FileAnswers.{of_decoding};

    ghost from_gives = { λ e f. f ≡ of_decoding e };

    fn from(e: DecodeFault) -> FileFault {
        match e {
            DecodeFault::Bad(fault) => FileFault::Bad(BadFile::Module(fault)),
            DecodeFault::Memory(error) => FileFault::Memory(error),
        }
    }
}

impl From<WatFault> for FileFault {
    ghost use Rattle.mw_judge.specs.FileAnswers.{of_reading};

    ghost from_gives = { λ e f. f ≡ of_reading e };

    fn from(e: WatFault) -> FileFault {
        match e {
            WatFault::Bad(at) => FileFault::Bad(BadFile::Text(at)),
            WatFault::Memory(error) => FileFault::Memory(error),
        }
    }
}
