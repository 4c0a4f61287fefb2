// A type's numbers in the order in which it names them.

ghost use Rattle.std.specs.Prelude.{◌≡◌, ◌<◌, ◌≤◌, length, IfOk};
ghost use Rattle.mw_types.specs.Types.{Within, nodes, type_of};
ghost use Rattle.mw_infer.specs.Numbering.{CanRenumber, IsOrder, IsRenumbering, Places, Renumbers};
ghost use Rattle.mw_infer.specs.Views.{scheme_of};

use crate::names::LetType;
use mw_types::Ty;
use std::alloc::{AllocError, Global};

/// New numbers: of each number the new one, or `u64::MAX` where it was not seen, and how many were seen.
#[derive(Drop)]
pub struct Numbering {
    pub places: Vec<u64>,
    pub count: u64,
}

/// No number of so many was seen.
pub fn unseen(alloc: Global, numbers: u64) -> Result<Numbering, AllocError>
    ensures order { IfOk result IsOrder }
    ensures count { IfOk result (λ x. x.count ≡ 0) }
    ensures places { IfOk result (λ x. length x.places.items ≡ numbers) }
{
    let mut places = Vec::with_capacity(alloc, numbers as usize)?;
    for _number in 0..numbers {
        places.push(u64::MAX)?;
    }
    Ok(Numbering { places, count: 0 })
}

/// The new number of a number.
fn place(numbering: &mut Numbering, number: u64) -> u64
    requires order { IsOrder numbering.old }
    requires inside { number < length numbering.old.places.items }
    requires room { numbering.old.count < 10000 }
    ensures { Places numbering.old numbering.new number result }
{
    let known = numbering.places[number as usize];
    if known != u64::MAX {
        return known;
    }
    let next = numbering.count;
    numbering.places[number as usize] = next;
    numbering.count = next + 1;
    next
}

/// A type with new numbers.
#[cycle(renumbering)]
#[tactic(auto, using(crate::proofs::Renumbering::renumbers))]
pub fn renumber(
    alloc: Global,
    ty: &Ty,
    unknowns: &mut Numbering,
    classifiers: &mut Numbering,
) -> Result<Ty, AllocError>
    requires { CanRenumber unknowns.old classifiers.old (type_of ty.now) }
    ensures { IfOk result
        (λ r. Renumbers unknowns.old classifiers.old unknowns.new classifiers.new (type_of ty.now)
        (type_of r)) }
{
    match ty {
        Ty::Int => Ok(Ty::Int),
        Ty::Bool => Ok(Ty::Bool),
        Ty::Unknown(u) => Ok(Ty::Unknown(place(unknowns, *u))),
        Ty::Pair(s, t) => {
            let left = boxed(alloc, s, unknowns, classifiers)?;
            let right = boxed(alloc, t, unknowns, classifiers)?;
            Ok(Ty::Pair(left, right))
        }
        Ty::Arrow(s, t) => {
            let from = boxed(alloc, s, unknowns, classifiers)?;
            let to = boxed(alloc, t, unknowns, classifiers)?;
            Ok(Ty::Arrow(from, to))
        }
        Ty::Code(c, t) => {
            let c = place(classifiers, *c);
            let below = boxed(alloc, t, unknowns, classifiers)?;
            Ok(Ty::Code(c, below))
        }
        Ty::Closed(t) => {
            let below = boxed(alloc, t, unknowns, classifiers)?;
            Ok(Ty::Closed(below))
        }
    }
}

/// The same, in a box.
#[cycle(renumbering)]
fn boxed(
    alloc: Global,
    ty: &Ty,
    unknowns: &mut Numbering,
    classifiers: &mut Numbering,
) -> Result<Box<Ty>, AllocError>
    requires { CanRenumber unknowns.old classifiers.old (type_of ty.now) }
    ensures { IfOk result
        (λ r. Renumbers unknowns.old classifiers.old unknowns.new classifiers.new (type_of ty.now)
        (type_of r.value)) }
{
    let ty = renumber(alloc, ty, unknowns, classifiers)?;
    Ok(Box::new(alloc, ty)?)
}

/// A type as a let's, its numbers in order.
pub fn let_type(
    alloc: Global,
    ty: &Ty,
    unknowns: u64,
    classifiers: u64,
) -> Result<LetType, AllocError>
    requires within { Within unknowns classifiers (type_of ty.now) }
    requires small { nodes (type_of ty.now) ≤ 10000 }
    ensures { IfOk result (λ l. IsRenumbering (type_of ty.now) (scheme_of l)) }
{
    let mut unknowns = unseen(alloc, unknowns)?;
    let mut classifiers = unseen(alloc, classifiers)?;
    let ty = renumber(alloc, ty, &mut unknowns, &mut classifiers)?;
    Ok(LetType {
        unknowns: unknowns.count,
        classifiers: classifiers.count,
        ty,
    })
}
