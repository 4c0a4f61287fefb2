//! Types of programs: each item's most general type, or the first item that has none.
//!
//! `specs/` has the equations of an item, and what their solutions say of its types.
#![tactic(auto)]

ghost use Rattle.std.specs.Prelude.{map, IfErr, IfOk};
ghost use Rattle.mw_term.specs.Programs.{program_of};
ghost use Rattle.mw_term.specs.SmallTypes.{HasSmallTypes};
ghost use Rattle.mw_term.specs.Stops.{IfRefused, IsAnswerOrMemory, IsRefusalOrMemory};
ghost use Rattle.mw_term.specs.Typable.{Typable};
ghost use Rattle.mw_term.specs.declared.refusal.Refusal.{Refusal};
ghost use Rattle.mw_types.specs.Types.{type_of};
ghost use Rattle.mw_infer.specs.Checking.{AreTypesOf, IsFirstRefusal, NoneTooBig, HasSmallKernels};
ghost use Rattle.mw_infer.specs.Nodes.{AreNodesOf};
ghost use Rattle.mw_infer.specs.Typings.{facts_of};
ghost use Rattle.mw_term.specs.Parts.{IsResolved};

mod build;
mod emit;
mod failing;
mod faults;
mod fresh;
mod judge;
mod known;
pub mod laws;
mod names;
mod nodes;
mod occurring;
mod output;
mod own;
mod owners;
mod program;
mod renumber;
mod scope;
mod sharing;
pub mod typed;

pub use crate::failing::FailingPart;
pub use crate::faults::{OpenClose, PartFault, first_fault};
use crate::program::{Checked, types_of, whole};
pub use crate::typed::{NodeTypes, PartNodes, Typed};
use mw_term::{Program, Stop};
use std::alloc::Global;

/// The most general types of a program's items and of main, and what is known of each node of their terms, where the
/// program is typable and no type is too big; else its first refusal.
pub fn check(alloc: Global, program: &Program) -> Result<Typed, Stop>
    requires { IsResolved (program_of program.now) }
    ensures typable { IfOk result (λ _. Typable (program_of program.now)) }
    ensures small { IfOk result (λ _. NoneTooBig (program_of program.now)) }
    ensures runs { IfOk result (λ _. HasSmallTypes (program_of program.now)) }
    ensures kernels { IfOk result (λ _. HasSmallKernels (program_of program.now)) }
    ensures types { IfOk result
        (λ typed. AreTypesOf (program_of program.now) (map type_of typed.types)) }
    ensures nodes { IfOk result (λ typed. AreNodesOf (program_of program.now) (facts_of typed)) }
    ensures only { Typable (program_of program.now) → NoneTooBig (program_of program.now)
        → IsAnswerOrMemory result }
    ensures refused { IfErr result (IfRefused (IsFirstRefusal (program_of program.now))) }
    ensures first { (r : Refusal) → IsFirstRefusal (program_of program.now) r
        → IsRefusalOrMemory result r }
{
    match whole(alloc, program, true) {
        Ok(found) => {
            let Checked { names, parts } = found;
            let types = types_of(alloc, names.as_slice(), &program.result)?;
            Ok(Typed { types, parts })
        }
        Err(stop) => Err(stop),
    }
}

/// Whether a program is typable and no type is too big; else its first refusal. As `check`, without the types.
pub fn ensure_typed(alloc: Global, program: &Program) -> Result<(), Stop>
    requires { IsResolved (program_of program.now) }
    ensures typable { IfOk result (λ _. Typable (program_of program.now)) }
    ensures small { IfOk result (λ _. NoneTooBig (program_of program.now)) }
    ensures runs { IfOk result (λ _. HasSmallTypes (program_of program.now)) }
    ensures kernels { IfOk result (λ _. HasSmallKernels (program_of program.now)) }
    ensures only { Typable (program_of program.now) → NoneTooBig (program_of program.now)
        → IsAnswerOrMemory result }
    ensures refused { IfErr result (IfRefused (IsFirstRefusal (program_of program.now))) }
    ensures first { (r : Refusal) → IsFirstRefusal (program_of program.now) r
        → IsRefusalOrMemory result r }
{
    match whole(alloc, program, false) {
        Ok(_) => Ok(()),
        Err(stop) => Err(stop),
    }
}
