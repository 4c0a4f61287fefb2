// Why a run or a call of a kept function has no answer.

ghost use Rattle.std.specs.Prelude.{◌≡◌};
ghost use Rattle.mw_cached.specs.declared.fault.FunctionFault.TheVariants.{Memory};
ghost use Rattle.mw_cached.specs.Answers.{MayFault, IsFaultOf, told};

use mw_kernel::RunFault;
use mw_machine::{KernelFault, Ran};
use std::alloc::AllocError;

/// Why a run or a call has no answer.
#[derive(Clone, Copy, Debug)]
pub enum FunctionFault {
    /// Want of memory.
    Memory(AllocError),
    /// The module that was loaded from the record of this number gave what no kernel of its type gives.
    Bad(u32),
}

impl From<AllocError> for FunctionFault {
    ghost from_gives = { λ e fault. fault ≡ Memory e };

    fn from(e: AllocError) -> FunctionFault {
        FunctionFault::Memory(e)
    }
}

/// The fault of a module, which was loaded from a record, or was emitted.
pub fn fault_of(fault: RunFault, loaded: Option<u32>) -> FunctionFault
    requires { MayFault fault loaded }
    ensures { IsFaultOf result fault loaded }
{
    match (fault, loaded) {
        (RunFault::Memory(error), _) => FunctionFault::Memory(error),
        (RunFault::Bad, Some(record)) => FunctionFault::Bad(record),
        (RunFault::Bad, None) => unreachable!(),
    }
}
