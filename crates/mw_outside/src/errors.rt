// Why a call on the outside gave no answer.

ghost use Rattle.std.specs.Prelude.{◌≡◌, alloc_error};
ghost use Rattle.mw_outside.specs.declared.errors.WriteFault.TheVariants.{Memory as WriteMemory};
ghost use Rattle.mw_outside.specs.declared.errors.KeepFault.TheVariants.{Memory as KeepMemory};
ghost use Rattle.mw_outside.specs.declared.errors.ReadStop.TheVariants.{Memory as StopMemory};

use std::alloc::{AllocError, AllocFailed};

/// Why a file wasn't started: there is none of that name, or the outside failed.
#[derive(Clone, Copy, Debug, PartialEq, Eq)]
pub enum StartFault {
    Missing,
    Failed,
}

/// Why nothing was read: the outside failed.
#[derive(Clone, Copy, Debug, PartialEq, Eq)]
pub enum ReadFault {
    Failed,
}

/// Why nothing was written: the outside failed, or there was no memory.
#[derive(Clone, Copy, Debug, PartialEq, Eq)]
pub enum WriteFault {
    Failed,
    Memory(AllocError),
}

/// Why a kept file gave no answer: the outside failed, or there was no memory.
#[derive(Clone, Copy, Debug, PartialEq, Eq)]
pub enum KeepFault {
    Failed,
    Memory(AllocError),
}

/// Why a file wasn't read to its end: the outside has no such file or failed, or there was no memory.
#[derive(Clone, Copy, Debug, PartialEq, Eq)]
pub enum ReadStop {
    Failed,
    Memory(AllocError),
}

impl From<AllocError> for WriteFault {
    ghost from_gives = { λ error fault. fault ≡ WriteMemory error };

    fn from(error: AllocError) -> WriteFault {
        WriteFault::Memory(error)
    }
}

impl<T: Drop> From<AllocFailed<T>> for WriteFault {
    ghost from_gives = { λ _ fault. fault ≡ WriteMemory alloc_error };

    fn from(_: AllocFailed<T>) -> WriteFault {
        WriteFault::Memory(AllocError)
    }
}

impl From<AllocError> for KeepFault {
    ghost from_gives = { λ error fault. fault ≡ KeepMemory error };

    fn from(error: AllocError) -> KeepFault {
        KeepFault::Memory(error)
    }
}

impl<T: Drop> From<AllocFailed<T>> for KeepFault {
    ghost from_gives = { λ _ fault. fault ≡ KeepMemory alloc_error };

    fn from(_: AllocFailed<T>) -> KeepFault {
        KeepFault::Memory(AllocError)
    }
}

impl From<AllocError> for ReadStop {
    ghost from_gives = { λ error stop. stop ≡ StopMemory error };

    fn from(error: AllocError) -> ReadStop {
        ReadStop::Memory(error)
    }
}

impl<T: Drop> From<AllocFailed<T>> for ReadStop {
    ghost from_gives = { λ _ stop. stop ≡ StopMemory alloc_error };

    fn from(_: AllocFailed<T>) -> ReadStop {
        ReadStop::Memory(AllocError)
    }
}

impl From<ReadFault> for ReadStop {
    ghost use Rattle.mw_outside.specs.declared.errors.ReadStop.TheVariants.{Failed};

    ghost from_gives = { λ _ stop. stop ≡ Failed };

    fn from(_: ReadFault) -> ReadStop {
        ReadStop::Failed
    }
}

impl From<StartFault> for ReadStop {
    ghost use Rattle.mw_outside.specs.declared.errors.ReadStop.TheVariants.{Failed};

    ghost from_gives = { λ _ stop. stop ≡ Failed };

    fn from(_: StartFault) -> ReadStop {
        ReadStop::Failed
    }
}
