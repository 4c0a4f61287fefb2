// The walk of a program.

ghost use Rattle.std.specs.Prelude.{◌≡◌, Err, IfOk, MatchOption, None, Ok, OnOk};
ghost use Rattle.mw_term.specs.Programs.{program_of};
ghost use Rattle.mw_term.specs.declared.refusal.Stop.TheVariants.{Refused};
ghost use Rattle.mw_grammar.specs.SurfaceTrees.{surface_of};
ghost use Rattle.mw_grammar.specs.SurfaceDepth.{IsShallow};
ghost use Rattle.mw_scope.specs.Faults.{faults_of, refusal_of};
ghost use Rattle.mw_scope.specs.Keeping.{kept};
ghost use Rattle.mw_scope.specs.Named.{named_program};
ghost use Rattle.mw_scope.specs.Resolving.{KeepsNames};

use crate::fault::Fault;
use crate::items::{items, outer_term};
use crate::keeping::refusal;
use crate::names::Names;
use mw_grammar::Surface;
use mw_term::{Program, Stop, copied_ground};
use std::alloc::{AllocError, Global};

/// The program that is the nameless one where no fault is found, and the first fault.
pub fn whole(
    alloc: Global,
    surface: &Surface,
    first: &mut Option<Fault>,
) -> Result<Program, AllocError>
    requires shallow { IsShallow (surface_of surface.now) }
    requires none { first.old ≡ None }
    ensures program { IfOk result (λ p. program_of p ≡ named_program (surface_of surface.now)) }
    ensures names { IfOk result (KeepsNames (surface_of surface.now)) }
    ensures faults { OnOk result (first.new ≡ kept None (faults_of (surface_of surface.now))) }
{
    let mut names = Names::new(alloc);
    let items = items(alloc, &mut names, surface.items.as_slice(), first)?;
    let body = outer_term(alloc, &names.all, &surface.body, first)?;
    Ok(Program {
        items,
        result: copied_ground(alloc, &surface.result)?,
        body,
    })
}

/// The program, unless there is a fault.
pub fn answer(first: Option<Fault>, program: Program) -> Result<Program, Stop>
    ensures { MatchOption first (result ≡ Ok program) (λ f. result ≡ Err (Refused (refusal_of f))) }
{
    match first {
        Some(fault) => Err(Stop::Refused(refusal(fault))),
        None => Ok(program),
    }
}
