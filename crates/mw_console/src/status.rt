// How a command ends.

ghost use Rattle.std.specs.Prelude.{◌≡◌};
ghost use Rattle.mw_console.specs.Codes.{code_of};

use mw_term::{Limit, Refusal, TrapKind};
use std::alloc::AllocError;

/// How a command ended.
#[derive(Clone, Copy, Debug, PartialEq, Eq)]
pub enum Status {
    /// All of the output was written, and it ends with an answer.
    Answer,
    /// All of it was written, and it ends with this trap.
    Trap(TrapKind),
    /// The words are of no command's form; nothing was written.
    Usage,
    /// All of the output was written, and it is this refusal.
    Refused(Refusal),
    /// All of it was written, and it ends with this bound.
    Bound(Limit),
    /// The source failed, or has no file of the name; nothing was written.
    Read,
    /// The sink failed; a prefix of the output was written.
    Write,
    /// All of the output was written, but the cache could not be kept.
    Cache,
    /// There was no memory; a prefix of the output was written.
    Memory(AllocError),
    /// A record of the cache, whose text has this digest, held no module of its kernel.
    BadCache([u8; 32]),
    /// All of the output was written: the first fault of a file that is no module.
    BadModule,
    /// All of it was written, and it says that the module isn't valid.
    Invalid,
    /// All of the output was written, and it says that the certificate isn't one of the source.
    NotTyped,
}

impl Status {
    /// The exit code, from 0 to 12.
    pub fn code(&self) -> u8
        ensures { result ≡ code_of self.now }
    {
        match self {
            Status::Answer => 0,
            Status::Trap(_) => 1,
            Status::Usage => 2,
            Status::Refused(_) => 3,
            Status::Bound(_) => 4,
            Status::Read => 5,
            Status::Write => 6,
            Status::Cache => 7,
            Status::Memory(_) => 8,
            Status::BadCache(_) => 9,
            Status::BadModule => 10,
            Status::Invalid => 11,
            Status::NotTyped => 12,
        }
    }
}
