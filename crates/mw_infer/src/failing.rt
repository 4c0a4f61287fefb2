// A part of a program whose equations fail, and where.

ghost use Rattle.std.specs.Prelude.{◌≡◌, ◌≤◌, ◌-◌, ◌↔◌, ℕ, IfOk, IsTrue, Some, length, slice_get, take};
ghost use Rattle.mw_types.specs.Types.{Within, apply, type_of};
ghost use Rattle.mw_types.specs.Equations.{AreFine, AreWithin, Fine, equation_of, equations_of};
ghost use Rattle.mw_types.specs.Solutions.{substitution_of};
ghost use Rattle.mw_infer.specs.Failing.{AreSides, IsWhole, is_among as among, without};

use crate::program::copied;
use mw_types::{Equation, Equations, Pairs, SolveFault, Solved, Ty, solve};
use std::alloc::{AllocError, Global};

/// A part of a program whose equations fail: they have no solution, or too big a one.
#[derive(Debug, Drop)]
pub struct FailingPart {
    /// The index of the item, or of main, which comes after the items.
    pub part: u32,
    pub equations: Equations,
    /// The node of each equation, by its place in pre-order. What the part's place asks of its type is no node's.
    pub owners: Vec<Option<usize>>,
    /// So many equations, from the first on, fail, and no fewer.
    pub front: usize,
}

impl FailingPart {
    /// The node whose equation fails, if it is one's.
    pub fn node(&self) -> Option<usize>
        requires { IsWhole self.now }
        ensures { slice_get self.now.owners.items (self.now.front - 1) ≡ Some result }
    {
        self.owners[self.front - 1]
    }

    /// The types of the two sides of the equation that fails, on a most general solution of those before it.
    pub fn sides(&self, alloc: Global) -> Result<(Ty, Ty), AllocError>
        requires { IsWhole self.now }
        ensures { IfOk result (λ sides. AreSides self.now (type_of sides.0) (type_of sides.1)) }
    {
        let last = self.front - 1;
        let pairs = &self.equations.pairs;
        let before = Equations {
            unknowns: self.equations.unknowns,
            classifiers: self.equations.classifiers,
            pairs: front_copied(alloc, pairs.as_slice(), last)?,
        };
        match solve(alloc, &before) {
            Ok(solved) => applied_sides(alloc, &solved, pairs.get(last)),
            Err(SolveFault::Memory(error)) => Err(error),
            Err(_) => unreachable!(),
        }
    }

    /// Whether the equations are fine without those of the nodes from `first` to the one before `end`.
    pub fn is_fine_without(
        &self,
        alloc: Global,
        first: usize,
        end: usize,
    ) -> Result<bool, AllocError>
        requires { IsWhole self.now }
        ensures { IfOk result
            (λ fine. IsTrue fine ↔ Fine self.now.equations.unknowns self.now.equations.classifiers
            (without first end self.now.owners.items (equations_of self.now.equations.pairs))) }
    {
        let pairs = self.equations.pairs.as_slice();
        let rest = Equations {
            unknowns: self.equations.unknowns,
            classifiers: self.equations.classifiers,
            pairs: rest_copied(alloc, pairs, self.owners.as_slice(), first, end)?,
        };
        is_fine(alloc, &rest)
    }
}

/// Whether equations have a solution, and no too big one.
fn is_fine(alloc: Global, equations: &Equations) -> Result<bool, AllocError>
    requires { AreWithin equations.now }
    ensures { IfOk result (λ fine. IsTrue fine ↔ AreFine equations.now) }
{
    match solve(alloc, equations) {
        Ok(_) => Ok(true),
        Err(SolveFault::Memory(error)) => Err(error),
        Err(_) => Ok(false),
    }
}

/// Copies of the first so many equations.
fn front_copied(alloc: Global, pairs: &[Equation], count: usize) -> Result<Pairs, AllocError>
    requires { count ≤ length pairs.now }
    ensures { IfOk result (λ front. equations_of front ≡ take count (equations_of pairs.now)) }
{
    let mut front = Pairs::new(alloc);
    for at in 0..count {
        front.push(copied_equation(alloc, &pairs[at])?)?;
    }
    Ok(front)
}

/// Copies of the equations that are of none of the nodes from `first` to the one before `end`.
fn rest_copied(
    alloc: Global,
    pairs: &[Equation],
    owners: &[Option<usize>],
    first: usize,
    end: usize,
) -> Result<Pairs, AllocError>
    requires { length owners.now ≡ length pairs.now }
    ensures { IfOk result
        (λ rest. equations_of rest ≡ without first end owners.now (equations_of pairs.now)) }
{
    let mut rest = Pairs::new(alloc);
    for at in 0..pairs.len() {
        if !is_among(first, end, owners[at]) {
            rest.push(copied_equation(alloc, &pairs[at])?)?;
        }
    }
    Ok(rest)
}

/// Whether an equation is of one of the nodes from `first` to the one before `end`.
fn is_among(first: usize, end: usize, owner: Option<usize>) -> bool
    ensures { result ≡ among first end owner }
{
    match owner {
        None => false,
        Some(node) => first <= node && node < end,
    }
}

/// The same equation.
fn copied_equation(alloc: Global, equation: &Equation) -> Result<Equation, AllocError>
    ensures { IfOk result (λ copy. equation_of copy ≡ equation_of equation.now) }
{
    let left = copied(alloc, &equation.left)?;
    Ok(Equation {
        left,
        right: copied(alloc, &equation.right)?,
    })
}

/// What a solution makes of both sides of an equation.
fn applied_sides(
    alloc: Global,
    solved: &Solved,
    equation: &Equation,
) -> Result<(Ty, Ty), AllocError>
    requires left { Within (length solved.now.types) (length solved.now.classifiers)
        (type_of equation.now.left) }
    requires right { Within (length solved.now.types) (length solved.now.classifiers)
        (type_of equation.now.right) }
    ensures left { IfOk result
        (λ sides. type_of sides.0 ≡ apply (substitution_of solved.now) (type_of equation.now.left)) }
    ensures right { IfOk result
        (λ sides. type_of sides.1 ≡ apply (substitution_of solved.now) (type_of equation.now.right)) }
{
    let left = applied(alloc, solved, &equation.left)?;
    Ok((left, applied(alloc, solved, &equation.right)?))
}

/// What a solution makes of a type.
#[cycle(applying)]
fn applied(alloc: Global, solved: &Solved, ty: &Ty) -> Result<Ty, AllocError>
    requires { Within (length solved.now.types) (length solved.now.classifiers) (type_of ty.now) }
    ensures { IfOk result
        (λ made. type_of made ≡ apply (substitution_of solved.now) (type_of ty.now)) }
{
    match ty {
        Ty::Int => Ok(Ty::Int),
        Ty::Bool => Ok(Ty::Bool),
        Ty::Unknown(u) => copied(alloc, solved.ty(*u)),
        Ty::Pair(s, t) => {
            let left = boxed_applied(alloc, solved, s)?;
            Ok(Ty::Pair(left, boxed_applied(alloc, solved, t)?))
        }
        Ty::Arrow(s, t) => {
            let from = boxed_applied(alloc, solved, s)?;
            Ok(Ty::Arrow(from, boxed_applied(alloc, solved, t)?))
        }
        Ty::Code(c, t) => {
            let classifier = solved.classifier(*c);
            Ok(Ty::Code(classifier, boxed_applied(alloc, solved, t)?))
        }
        Ty::Closed(t) => Ok(Ty::Closed(boxed_applied(alloc, solved, t)?)),
    }
}

/// The same, in a box.
#[cycle(applying)]
fn boxed_applied(alloc: Global, solved: &Solved, ty: &Ty) -> Result<Box<Ty>, AllocError>
    requires { Within (length solved.now.types) (length solved.now.classifiers) (type_of ty.now) }
    ensures { IfOk result
        (λ made. type_of made.value ≡ apply (substitution_of solved.now) (type_of ty.now)) }
{
    let made = applied(alloc, solved, ty)?;
    Ok(Box::new(alloc, made)?)
}
