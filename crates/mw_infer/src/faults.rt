// The first fault of a program's types, and where it is.

ghost use Rattle.std.specs.Prelude.{◌≡◌, ◌≤◌, ◌^◌, [], IfOk, IfSome};
ghost use Rattle.mw_term.specs.Programs.{definition_of, program_of};
ghost use Rattle.mw_term.specs.Terms.{expression_of, ground_of, size};
ghost use Rattle.mw_term.specs.Parts.{IsResolved, main_place, part_of_item};
ghost use Rattle.mw_term.specs.declared.refusal.Refusal.{Refusal};
ghost use Rattle.mw_infer.specs.Checking.{IsFirstRefusal};
ghost use Rattle.mw_infer.specs.Faults.{FaultyAt, IsFaultOfProgram, IsFaultOrMemory};
ghost use Rattle.mw_infer.specs.Judging.{CanJudge, place_of};
ghost use Rattle.mw_infer.specs.Owners.{item_owners};
ghost use Rattle.mw_infer.specs.Views.{tops_of};

use crate::failing::FailingPart;
use crate::fresh::first_open_close;
use crate::judge::emitted;
use crate::names::TopScheme;
use crate::output::Output;
use crate::own::Asked;
use crate::owners::owners_of;
use crate::program::{reveal, step};
use crate::sharing::in_full;
use mw_term::{Item, ItemKind, Program, Stop, Term};
use mw_types::{Equations, SolveFault, solve};
use std::alloc::{AllocError, Global};

/// What is wrong with the types of a part.
#[derive(Debug, Drop)]
pub enum PartFault {
    /// Its equations have no solution, or too big a one.
    Equations(FailingPart),
    /// A `close` whose classifier stands in its environment.
    Close(OpenClose),
}

/// A `close` whose classifier stands in its environment.
#[derive(Clone, Copy, Debug)]
pub struct OpenClose {
    /// The index of the item, or of main, which comes after the items.
    pub part: u32,
    /// The offset of the `close` in the source.
    pub at: u32,
    /// A binder in whose type or level it stands, by the number of binders between: the nearest of those that are named
    /// in the code, or the nearest of all where none of them is.
    pub binder: usize,
}

/// The fault for which a program is refused for its types, if it is.
pub fn first_fault(alloc: Global, program: &Program) -> Result<Option<PartFault>, AllocError>
    requires { IsResolved (program_of program.now) }
    ensures found { IfOk result
        (λ found. IfSome found (IsFaultOfProgram (program_of program.now))) }
    ensures first { (r : Refusal) → IsFirstRefusal (program_of program.now) r
        → IsFaultOrMemory r result }
{
    let items = program.items.as_slice();
    let mut names = Vec::new(alloc);
    let mut marks = Vec::new(alloc);
    for item in items {
        let index = names.len() as u32;
        match step(alloc, &mut names, item, index, &mut marks, false) {
            Ok(_) => {}
            Err(Stop::Memory(error)) => return Err(error),
            Err(Stop::Refused(_)) => return item_fault(alloc, names.as_slice(), item, index),
        }
    }
    let index = names.len() as u32;
    reveal(&mut names, items);
    main_fault(alloc, names.as_slice(), program, index)
}

/// An item's fault.
fn item_fault(
    alloc: Global,
    names: &[TopScheme],
    item: &Item,
    part: u32,
) -> Result<Option<PartFault>, AllocError>
    requires { CanJudge (tops_of names.now) (part_of_item [] (definition_of item.now.kind)).term }
    ensures { IfOk result
        (FaultyAt (tops_of names.now) (part_of_item [] (definition_of item.now.kind)).place
        (part_of_item [] (definition_of item.now.kind)).term part) }
{
    match &item.kind {
        ItemKind::Value(term) => part_fault(alloc, names, &Asked::Anything, term, part),
        ItemKind::Kernel(kind, term) => part_fault(alloc, names, &Asked::Kernel(kind), term, part),
    }
}

/// Main's fault.
fn main_fault(
    alloc: Global,
    names: &[TopScheme],
    program: &Program,
    part: u32,
) -> Result<Option<PartFault>, AllocError>
    requires { CanJudge (tops_of names.now) (expression_of program.now.body) }
    ensures { IfOk result (FaultyAt (tops_of names.now) (main_place (ground_of program.now.result))
        (expression_of program.now.body) part) }
{
    part_fault(
        alloc,
        names,
        &Asked::Main(&program.result),
        &program.body,
        part,
    )
}

/// The fault of a term at its place, if it has one.
fn part_fault(
    alloc: Global,
    names: &[TopScheme],
    asked: &Asked,
    term: &Term,
    part: u32,
) -> Result<Option<PartFault>, AllocError>
    requires { CanJudge (tops_of names.now) (expression_of term.now) }
    ensures { IfOk result
        (FaultyAt (tops_of names.now) (place_of asked.now) (expression_of term.now) part) }
{
    let Output {
        unknowns,
        classifiers,
        equations,
        closes,
        ..
    } = emitted(alloc, names, asked, term)?;
    let pairs = in_full(alloc, names, equations)?;
    let equations = Equations {
        unknowns,
        classifiers,
        pairs,
    };
    match solve(alloc, &equations) {
        Ok(solved) => match first_open_close(alloc, closes.as_slice(), term, &solved)? {
            None => Ok(None),
            Some((at, binder)) => Ok(Some(PartFault::Close(OpenClose { part, at, binder }))),
        },
        Err(SolveFault::Memory(error)) => Err(error),
        Err(SolveFault::Unsolvable(front)) => {
            let failing = failing_part(alloc, asked, term, part, equations, front)?;
            Ok(Some(PartFault::Equations(failing)))
        }
        Err(SolveFault::TooBig(front)) => {
            let failing = failing_part(alloc, asked, term, part, equations, front)?;
            Ok(Some(PartFault::Equations(failing)))
        }
    }
}

/// The part whose equations fail with this front.
fn failing_part(
    alloc: Global,
    asked: &Asked,
    term: &Term,
    part: u32,
    equations: Equations,
    front: u64,
) -> Result<FailingPart, AllocError>
    requires { size (expression_of term.now) ≤ 2 ^ 63 }
    ensures part { IfOk result (λ failing. failing.part ≡ part) }
    ensures equations { IfOk result (λ failing. failing.equations ≡ equations) }
    ensures owners { IfOk result
        (λ failing. failing.owners.items ≡ item_owners (place_of asked.now) (expression_of term.now)) }
    ensures front { IfOk result (λ failing. failing.front ≡ front) }
{
    let owners = owners_of(alloc, asked, term)?;
    Ok(FailingPart {
        part,
        equations,
        owners,
        front: front as usize,
    })
}
