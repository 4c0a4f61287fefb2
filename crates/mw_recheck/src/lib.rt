//! Certificates of the typing of programs, judged by following their lines. Nothing is solved, and no type is expanded.
#![tactic(auto)]

ghost use Rattle.std.specs.Prelude.{◌↔◌, IsTrue, IfOk};
ghost use Rattle.mw_term.specs.Parts.{IsResolved};
ghost use Rattle.mw_term.specs.Programs.{program_of};
ghost use Rattle.mw_recheck.specs.Certificates.{Certifies};

mod agree;
mod kinds;
pub mod laws;
mod lines;
mod names;
mod program;
mod scope;
mod section;
mod stop;
mod text;
mod walk;

use crate::program::follow;
pub use crate::section::NodeLine;
use crate::stop::Stop;
use mw_term::Program;
use std::alloc::{AllocError, Global};

/// Whether the bytes certify the typing of a program, whose names are bound and whose levels are right. Any certificate
/// that is right is taken, in whatever numbers and order of lines. The error is want of memory.
pub fn holds(alloc: Global, cert: &[u8], program: &Program) -> Result<bool, AllocError>
    requires { IsResolved (program_of program.now) }
    ensures { IfOk result (λ yes. IsTrue yes ↔ Certifies cert.now (program_of program.now)) }
{
    match follow(alloc, cert, program) {
        Ok(()) => Ok(true),
        Err(Stop::Wrong) => Ok(false),
        Err(Stop::Memory(error)) => Err(error),
    }
}
