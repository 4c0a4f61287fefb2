// Why a run wasn't written whole.

ghost use Rattle.std.specs.Prelude.{◌≡◌};
ghost use Rattle.mw_outside.specs.declared.errors.WriteFault.TheVariants.{Memory as WriteMemory};
ghost use Rattle.mw_drive.specs.declared.fault.RunFault.TheVariants.{Unwritten};
ghost use Rattle.mw_drive.specs.RunFaults.{fault_of_job};

use mw_outside::WriteFault;
use mw_spread::JobFault;
use std::alloc::AllocError;

/// Why a run wasn't written whole: the sink failed or there was no memory, or the module of a loaded record, whose text
/// has this digest, gave what no kernel gives.
#[derive(Clone, Copy, Debug)]
pub enum RunFault {
    Unwritten(WriteFault),
    Bad([u8; 32]),
}

impl From<WriteFault> for RunFault {
    ghost from_gives = { λ error fault. fault ≡ Unwritten error };

    fn from(error: WriteFault) -> RunFault {
        RunFault::Unwritten(error)
    }
}

impl From<AllocError> for RunFault {
    ghost from_gives = { λ error fault. fault ≡ Unwritten (WriteMemory error) };

    fn from(error: AllocError) -> RunFault {
        RunFault::Unwritten(WriteFault::Memory(error))
    }
}

impl From<JobFault> for RunFault {
    ghost from_gives = { λ error fault. fault ≡ fault_of_job error };

    fn from(error: JobFault) -> RunFault {
        match error {
            JobFault::Memory(error) => RunFault::Unwritten(WriteFault::Memory(error)),
            JobFault::Bad(digest) => RunFault::Bad(digest),
        }
    }
}
