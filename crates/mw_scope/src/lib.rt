//! Resolves names: a surface program to the nameless program, or its first fault of scope or level.
//!
//! `specs/` has the nameless program as a relation of two trees, and the faults of a surface program as a list.
#![tactic(auto)]

ghost use Rattle.std.specs.Prelude.{◌≡◌, ◌<◌, ◌≤◌, ◌^◌, IfOk, IfErr};
ghost use Rattle.mw_term.specs.Stops.{IfRefused, IsRefusalOrMemory};
ghost use Rattle.mw_term.specs.Programs.{PureProgram, program_of, program_size};
ghost use Rattle.mw_grammar.specs.SurfaceTrees.{surface_of};
ghost use Rattle.mw_grammar.specs.SurfaceDepth.{IsShallow};
ghost use Rattle.mw_grammar.specs.SurfaceSize.{surface_size};
ghost use Rattle.mw_scope.specs.declared.fault.Fault.{Fault};
ghost use Rattle.mw_scope.specs.Nameless.{IsNameless};
ghost use Rattle.mw_scope.specs.Faults.{IsFirst, faults_of, refusal_of};
ghost use Rattle.mw_scope.specs.Resolving.{IsOfFirstFault, IsProgramOrMemory, KeepsNames};

mod binders;
pub mod fault;
mod items;
mod keeping;
pub mod laws;
pub mod level;
mod names;
mod program;
mod top_names;
mod walk;

use crate::program::{answer, whole};
use mw_grammar::Surface;
use mw_term::{Program, Stop};
use std::alloc::Global;

/// The nameless program of a surface program within the bounds that reading keeps, or its first fault.
pub fn resolve(alloc: Global, surface: &Surface) -> Result<Program, Stop>
    requires shallow { IsShallow (surface_of surface.now) }
    requires nodes { surface_size (surface_of surface.now) ≤ 3145728 }
    ensures found { IfOk result (λ p. IsNameless (surface_of surface.now) (program_of p)) }
    ensures names { IfOk result (KeepsNames (surface_of surface.now)) }
    ensures nodes { IfOk result (λ p. program_size (program_of p) < 2 ^ 31) }
    ensures only { (p : PureProgram) → IsNameless (surface_of surface.now) p
        → IsProgramOrMemory result p }
    ensures refused { IfErr result (IfRefused (IsOfFirstFault (surface_of surface.now))) }
    ensures first { (f : Fault) → IsFirst (faults_of (surface_of surface.now)) f
        → IsRefusalOrMemory result (refusal_of f) }
{
    let mut first = None;
    let program = whole(alloc, surface, &mut first)?;
    answer(first, program)
}
