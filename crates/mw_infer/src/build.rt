// Types with unknowns from their parts, from kernel types and from other types.

ghost use Rattle.std.specs.Prelude.{◌≡◌, ◌≤◌, ◌^◌, IfOk};
ghost use Rattle.mw_term.specs.Terms.{ground_of, kernel_type_of};
ghost use Rattle.mw_types.specs.Types.{type_of, Within, pair_ty, function_ty, code_ty, closed_ty};
ghost use Rattle.mw_types.specs.Expressions.{base_expression, ground_expression, kernel_expression};
ghost use Rattle.mw_infer.specs.Schemes.{shifted};

use mw_term::{Base, Ground, KType};
use mw_types::Ty;
use std::alloc::{AllocError, Global};

/// The type of pairs.
#[inline(always)]
pub fn pair(alloc: Global, left: Ty, right: Ty) -> Result<Ty, AllocError>
    ensures { IfOk result (λ ty. type_of ty ≡ pair_ty (type_of left) (type_of right)) }
{
    Ok(Ty::Pair(Box::new(alloc, left)?, Box::new(alloc, right)?))
}

/// The type of functions.
#[inline(always)]
pub fn function(alloc: Global, from: Ty, to: Ty) -> Result<Ty, AllocError>
    ensures { IfOk result (λ ty. type_of ty ≡ function_ty (type_of from) (type_of to)) }
{
    Ok(Ty::Arrow(Box::new(alloc, from)?, Box::new(alloc, to)?))
}

/// The type of code, with a classifier.
pub fn code(alloc: Global, classifier: u64, ty: Ty) -> Result<Ty, AllocError>
    ensures { IfOk result (λ code. type_of code ≡ code_ty classifier (type_of ty)) }
{
    Ok(Ty::Code(classifier, Box::new(alloc, ty)?))
}

/// The type of closed code.
pub fn closed(alloc: Global, ty: Ty) -> Result<Ty, AllocError>
    ensures { IfOk result (λ code. type_of code ≡ closed_ty (type_of ty)) }
{
    Ok(Ty::Closed(Box::new(alloc, ty)?))
}

/// A base type.
pub fn base_ty(base: Base) -> Ty
    ensures { type_of result ≡ base_expression base }
{
    match base {
        Base::Int => Ty::Int,
        Base::Bool => Ty::Bool,
    }
}

/// A ground type.
#[cycle(grounds)]
pub fn ground_ty(alloc: Global, ground: &Ground) -> Result<Ty, AllocError>
    ensures { IfOk result (λ ty. type_of ty ≡ ground_expression (ground_of ground.now)) }
{
    match ground {
        Ground::Base(base) => Ok(base_ty(*base)),
        Ground::Pair(a, b) => {
            let left = boxed_ground(alloc, a)?;
            Ok(Ty::Pair(left, boxed_ground(alloc, b)?))
        }
    }
}

/// The same, in a box.
#[cycle(grounds)]
fn boxed_ground(alloc: Global, ground: &Ground) -> Result<Box<Ty>, AllocError>
    ensures { IfOk result (λ ty. type_of ty.value ≡ ground_expression (ground_of ground.now)) }
{
    let ty = ground_ty(alloc, ground)?;
    Ok(Box::new(alloc, ty)?)
}

/// A kernel type.
pub fn kernel_ty(alloc: Global, kind: &KType) -> Result<Ty, AllocError>
    ensures { IfOk result (λ ty. type_of ty ≡ kernel_expression (kernel_type_of kind.now)) }
{
    match kind {
        KType::Ground(ground) => ground_ty(alloc, ground),
        KType::Fun(from, to) => {
            let from = boxed_ground(alloc, from)?;
            Ok(Ty::Arrow(from, boxed_ground(alloc, to)?))
        }
    }
}

/// A type on the unknowns and classifier unknowns from these numbers on.
#[cycle(shifting)]
pub fn shift(alloc: Global, ty: &Ty, unknowns: u64, classifiers: u64) -> Result<Ty, AllocError>
    requires within { Within (2 ^ 63) (2 ^ 63) (type_of ty.now) }
    requires unknowns { unknowns ≤ 2 ^ 63 }
    requires classifiers { classifiers ≤ 2 ^ 63 }
    ensures { IfOk result (λ moved. type_of moved ≡ shifted unknowns classifiers (type_of ty.now)) }
{
    match ty {
        Ty::Int => Ok(Ty::Int),
        Ty::Bool => Ok(Ty::Bool),
        Ty::Unknown(u) => Ok(Ty::Unknown(unknowns + *u)),
        Ty::Pair(s, t) => {
            let left = boxed_shift(alloc, s, unknowns, classifiers)?;
            Ok(Ty::Pair(left, boxed_shift(alloc, t, unknowns, classifiers)?))
        }
        Ty::Arrow(s, t) => {
            let from = boxed_shift(alloc, s, unknowns, classifiers)?;
            Ok(Ty::Arrow(from, boxed_shift(alloc, t, unknowns, classifiers)?))
        }
        Ty::Code(c, t) => {
            let below = boxed_shift(alloc, t, unknowns, classifiers)?;
            Ok(Ty::Code(classifiers + *c, below))
        }
        Ty::Closed(t) => Ok(Ty::Closed(boxed_shift(alloc, t, unknowns, classifiers)?)),
    }
}

/// The same, in a box.
#[inline(always)]
#[cycle(shifting)]
fn boxed_shift(
    alloc: Global,
    ty: &Ty,
    unknowns: u64,
    classifiers: u64,
) -> Result<Box<Ty>, AllocError>
    requires within { Within (2 ^ 63) (2 ^ 63) (type_of ty.now) }
    requires unknowns { unknowns ≤ 2 ^ 63 }
    requires classifiers { classifiers ≤ 2 ^ 63 }
    ensures { IfOk result
        (λ moved. type_of moved.value ≡ shifted unknowns classifiers (type_of ty.now)) }
{
    let moved = shift(alloc, ty, unknowns, classifiers)?;
    Ok(Box::new(alloc, moved)?)
}
