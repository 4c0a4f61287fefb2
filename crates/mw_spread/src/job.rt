// Work on items.

ghost use Rattle.std.specs.Prelude.{◌≡◌, ℕ, List, IfOk, IfErr};
ghost use Rattle.mw_spread.specs.declared.job.JobFault.TheVariants.{Memory};
ghost use Rattle.mw_spread.specs.Outputs.{IfBad};

use std::alloc::{AllocError, Global};
use std::thread::Threads;

/// Why work has no output: want of memory, or bytes that are bad, whose text has this digest.
#[derive(Debug, Drop)]
pub enum JobFault {
    Memory(AllocError),
    Bad([u8; 32]),
}

impl From<AllocError> for JobFault {
    ghost from_gives = { λ error fault. fault ≡ Memory error };

    fn from(error: AllocError) -> JobFault {
        JobFault::Memory(error)
    }
}

/// Work on an item, which threads share.
pub trait Job<I>: Sync {
    type Out: Send + Drop;

    /// What it asks of an item, which outputs it may give for one, and with which digests it may answer `Bad`.
    ghost takes: { Self → I → Type 0 };

    ghost gives: { Self → I → Self.Out → Type 0 };

    ghost bad: { Self → I → List ℕ → Type 0 };

    /// The output of an item. It is made with the runtime's handle.
    fn work<R: Threads + Sync>(
        &self,
        rt: &R,
        alloc: Global,
        item: &I,
    ) -> Result<Self::Out, JobFault>
        requires { takes self.now item.now }
        ensures gives { IfOk result (λ out. gives self.now item.now out) }
        ensures bad { IfErr result (λ fault. IfBad fault (bad self.now item.now)) };
}
