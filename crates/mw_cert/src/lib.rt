//! Written certificates: the typing of a program, written down for `holds` to judge.
#![tactic(auto)]

ghost use Rattle.std.specs.Prelude.{IfOk};
ghost use Rattle.mw_term.specs.Parts.{IsResolved};
ghost use Rattle.mw_term.specs.Programs.{program_of};
ghost use Rattle.mw_recheck.specs.Certificates.{Certifies};
ghost use Rattle.mw_infer.specs.Nodes.{AreNodesOf};
ghost use Rattle.mw_infer.specs.Typings.{facts_of};
ghost use Rattle.mw_written.specs.Written.{IsCertificateOf};

pub mod laws;
mod node;
mod part;

use crate::part::certificate;
use mw_infer::Typed;
pub use mw_recheck::holds;
use mw_term::Program;
use std::alloc::{AllocError, Global};

/// The written certificate of a program whose typing this is, as `check` answers it. The error is want of memory.
pub fn write_cert(alloc: Global, program: &Program, typed: &Typed) -> Result<Vec<u8>, AllocError>
    requires resolved { IsResolved (program_of program.now) }
    requires nodes { AreNodesOf (program_of program.now) (facts_of typed.now) }
    ensures written { IfOk result (λ bytes. IsCertificateOf (program_of program.now) bytes.items) }
    ensures right { IfOk result (λ bytes. Certifies bytes.items (program_of program.now)) }
{
    certificate(alloc, typed, program.items.len() + 1)
}
