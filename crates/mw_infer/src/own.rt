// The equations of one node, after which those of its parts come.

ghost use Rattle.std.specs.Prelude.{◌≡◌, ◌↔◌, [], ◌∷◌, IsTrue, OnOk, Some, slice_get};
ghost use Rattle.std.specs.Option.{option_map};
ghost use Rattle.mw_term.specs.Terms.{kernel_type_of};
ghost use Rattle.mw_types.specs.Types.{type_of};
ghost use Rattle.mw_types.specs.Expressions.{primitive_expression};
ghost use Rattle.mw_infer.specs.ItemEquations.{application_equations, bracket_equations, close_equations};
ghost use Rattle.mw_infer.specs.ItemEquations.{condition_equations, escape_equations};
ghost use Rattle.mw_infer.specs.ItemEquations.{first_equations, function_equations, let_equations, lift_equations};
ghost use Rattle.mw_infer.specs.ItemEquations.{open_equations, pair_equations};
ghost use Rattle.mw_infer.specs.ItemEquations.{primitive_equations, recursion_equations, run_equations};
ghost use Rattle.mw_infer.specs.ItemEquations.{second_equations, variable_equations};
ghost use Rattle.mw_infer.specs.Emitting.{Adds, AddsName, AreLow, HasRoom, HasRoomForName};
ghost use Rattle.mw_infer.specs.Schemes.{AreOwn};
ghost use Rattle.mw_infer.specs.Sharing.{IsWhole};
ghost use Rattle.mw_infer.specs.Views.{level_at, slot_of, top_of, tops_of};

use crate::build::{base_ty, closed, code, function, kernel_ty, pair, shift};
use crate::names::TopScheme;
use crate::output::{Output, equate, equate_use};
use crate::scope::{Binder, Level};
use mw_term::{Base, Ground, KType, Prim};
use mw_types::Ty;
use std::alloc::{AllocError, Global};

/// What the place of an item asks of its type.
#[derive(Drop)]
pub enum Asked<'p> {
    Anything,
    /// Closed code of a kernel type.
    Kernel(&'p KType),
    /// Main's ground type.
    Main(&'p Ground),
}

/// Makes so many numbers taken.
fn take(out: &mut Output, unknowns: u64, classifiers: u64)
    requires { HasRoom out.old unknowns classifiers }
    ensures { Adds out.old out.new unknowns classifiers [] [] }
{
    out.unknowns += unknowns;
    out.classifiers += classifiers;
}

/// A function of type `own`.
pub fn lambda(alloc: Global, out: &mut Output, own: u64) -> Result<(), AllocError>
    requires { HasRoom out.old 2 0 }
    ensures { OnOk result (Adds out.old out.new 2 0 (function_equations own out.old.unknowns) []) }
{
    let o = out.unknowns;
    take(out, 2, 0);
    let ty = function(alloc, Ty::Unknown(o), Ty::Unknown(o + 1))?;
    equate(out, Ty::Unknown(own), ty)
}

/// A recursive function of type `own`.
pub fn recursive(alloc: Global, out: &mut Output, own: u64) -> Result<(), AllocError>
    requires { HasRoom out.old 3 0 }
    ensures { OnOk result (Adds out.old out.new 3 0 (recursion_equations own out.old.unknowns) []) }
{
    let o = out.unknowns;
    take(out, 3, 0);
    let ty = function(alloc, Ty::Unknown(o), Ty::Unknown(o + 2))?;
    equate(out, Ty::Unknown(o + 1), ty)?;
    equate(out, Ty::Unknown(own), Ty::Unknown(o + 1))
}

/// An application of type `own`.
pub fn application(alloc: Global, out: &mut Output, own: u64) -> Result<(), AllocError>
    requires { HasRoom out.old 2 0 }
    ensures { OnOk result
        (Adds out.old out.new 2 0 (application_equations own out.old.unknowns) []) }
{
    let o = out.unknowns;
    take(out, 2, 0);
    let ty = function(alloc, Ty::Unknown(o + 1), Ty::Unknown(own))?;
    equate(out, Ty::Unknown(o), ty)
}

/// A let of type `own`.
pub fn binding(out: &mut Output, own: u64) -> Result<(), AllocError>
    requires { HasRoom out.old 3 0 }
    ensures { OnOk result (Adds out.old out.new 3 0 (let_equations own out.old.unknowns) []) }
{
    let o = out.unknowns;
    take(out, 3, 0);
    equate(out, Ty::Unknown(o), Ty::Unknown(o + 1))?;
    equate(out, Ty::Unknown(own), Ty::Unknown(o + 2))
}

/// An `if` of type `own`.
pub fn condition(out: &mut Output, own: u64) -> Result<(), AllocError>
    requires { HasRoom out.old 3 0 }
    ensures { OnOk result (Adds out.old out.new 3 0 (condition_equations own out.old.unknowns) []) }
{
    let o = out.unknowns;
    take(out, 3, 0);
    equate(out, Ty::Unknown(o), Ty::Bool)?;
    equate(out, Ty::Unknown(o + 1), Ty::Unknown(own))?;
    equate(out, Ty::Unknown(o + 2), Ty::Unknown(own))
}

/// A pair of type `own`.
pub fn pairing(alloc: Global, out: &mut Output, own: u64) -> Result<(), AllocError>
    requires { HasRoom out.old 2 0 }
    ensures { OnOk result (Adds out.old out.new 2 0 (pair_equations own out.old.unknowns) []) }
{
    let o = out.unknowns;
    take(out, 2, 0);
    let ty = pair(alloc, Ty::Unknown(o), Ty::Unknown(o + 1))?;
    equate(out, Ty::Unknown(own), ty)
}

/// The first part, of type `own`, of a pair.
pub fn first_part(alloc: Global, out: &mut Output, own: u64) -> Result<(), AllocError>
    requires { HasRoom out.old 2 0 }
    ensures { OnOk result (Adds out.old out.new 2 0 (first_equations own out.old.unknowns) []) }
{
    let o = out.unknowns;
    take(out, 2, 0);
    let ty = pair(alloc, Ty::Unknown(own), Ty::Unknown(o))?;
    equate(out, Ty::Unknown(o + 1), ty)
}

/// The second part, of type `own`, of a pair.
pub fn second_part(alloc: Global, out: &mut Output, own: u64) -> Result<(), AllocError>
    requires { HasRoom out.old 2 0 }
    ensures { OnOk result (Adds out.old out.new 2 0 (second_equations own out.old.unknowns) []) }
{
    let o = out.unknowns;
    take(out, 2, 0);
    let ty = pair(alloc, Ty::Unknown(o), Ty::Unknown(own))?;
    equate(out, Ty::Unknown(o + 1), ty)
}

/// The type of what a primitive gives.
fn primitive_ty(prim: Prim) -> Ty
    ensures { type_of result ≡ primitive_expression prim }
{
    match prim {
        Prim::Add | Prim::Sub | Prim::Mul | Prim::Div | Prim::Mod => Ty::Int,
        Prim::Eq | Prim::Lt | Prim::Le => Ty::Bool,
    }
}

/// A primitive of type `own`.
pub fn operation(out: &mut Output, own: u64, prim: Prim) -> Result<(), AllocError>
    requires { HasRoom out.old 2 0 }
    ensures { OnOk result
        (Adds out.old out.new 2 0 (primitive_equations own out.old.unknowns prim) []) }
{
    let o = out.unknowns;
    take(out, 2, 0);
    equate(out, Ty::Unknown(o), Ty::Int)?;
    equate(out, Ty::Unknown(o + 1), Ty::Int)?;
    equate(out, Ty::Unknown(own), primitive_ty(prim))
}

/// A bracket of type `own`.
pub fn bracket(alloc: Global, out: &mut Output, own: u64) -> Result<(), AllocError>
    requires { HasRoom out.old 1 1 }
    ensures { OnOk result
        (Adds out.old out.new 1 1 (bracket_equations own out.old.unknowns out.old.classifiers) []) }
{
    let o = out.unknowns;
    let c = out.classifiers;
    take(out, 1, 1);
    let ty = code(alloc, c, Ty::Unknown(o))?;
    equate(out, Ty::Unknown(own), ty)
}

/// An escape of type `own` under a classifier unknown.
pub fn escape(alloc: Global, out: &mut Output, own: u64, classifier: u64) -> Result<(), AllocError>
    requires { HasRoom out.old 1 0 }
    ensures { OnOk result
        (Adds out.old out.new 1 0 (escape_equations own out.old.unknowns classifier) []) }
{
    let o = out.unknowns;
    take(out, 1, 0);
    let ty = code(alloc, classifier, Ty::Unknown(own))?;
    equate(out, Ty::Unknown(o), ty)
}

/// A run of type `own` at a kernel type.
pub fn run(alloc: Global, out: &mut Output, own: u64, kind: &KType) -> Result<(), AllocError>
    requires { HasRoom out.old 1 0 }
    ensures { OnOk result
        (Adds out.old out.new 1 0 (run_equations own out.old.unknowns (kernel_type_of kind.now)) []) }
{
    let o = out.unknowns;
    take(out, 1, 0);
    let inner = kernel_ty(alloc, kind)?;
    let ty = closed(alloc, inner)?;
    equate(out, Ty::Unknown(o), ty)?;
    let ty = kernel_ty(alloc, kind)?;
    equate(out, Ty::Unknown(own), ty)
}

/// A `close` of type `own`.
pub fn close(alloc: Global, out: &mut Output, own: u64) -> Result<(), AllocError>
    requires { HasRoom out.old 2 1 }
    ensures { OnOk result
        (Adds out.old out.new 2 1 (close_equations own out.old.unknowns out.old.classifiers) []) }
{
    let o = out.unknowns;
    let c = out.classifiers;
    take(out, 2, 1);
    let ty = code(alloc, c, Ty::Unknown(o))?;
    equate(out, Ty::Unknown(o + 1), ty)?;
    let ty = closed(alloc, Ty::Unknown(o))?;
    equate(out, Ty::Unknown(own), ty)
}

/// An `open` of type `own`.
pub fn open(alloc: Global, out: &mut Output, own: u64) -> Result<(), AllocError>
    requires { HasRoom out.old 2 1 }
    ensures { OnOk result
        (Adds out.old out.new 2 1 (open_equations own out.old.unknowns out.old.classifiers) []) }
{
    let o = out.unknowns;
    let c = out.classifiers;
    take(out, 2, 1);
    let ty = closed(alloc, Ty::Unknown(o))?;
    equate(out, Ty::Unknown(o + 1), ty)?;
    let ty = code(alloc, c, Ty::Unknown(o))?;
    equate(out, Ty::Unknown(own), ty)
}

/// A `lift` or `liftb` of type `own`, at a base type.
pub fn lift(alloc: Global, out: &mut Output, own: u64, base: Base) -> Result<(), AllocError>
    requires { HasRoom out.old 1 1 }
    ensures { OnOk result
        (Adds out.old out.new 1 1 (lift_equations own out.old.unknowns out.old.classifiers base) []) }
{
    let o = out.unknowns;
    let c = out.classifiers;
    take(out, 1, 1);
    equate(out, Ty::Unknown(o), base_ty(base))?;
    let ty = code(alloc, c, base_ty(base))?;
    equate(out, Ty::Unknown(own), ty)
}

/// A variable of type `own`.
pub fn variable(
    alloc: Global,
    out: &mut Output,
    own: u64,
    level: Level,
    binder: Option<Binder>,
) -> Result<(), AllocError>
    ensures { OnOk result
        (Adds out.old out.new 0 0 (variable_equations own (level_at level) (option_map slot_of binder)) []) }
{
    match (level, binder) {
        (Level::Live, Some(Binder::Plain(x))) => equate(out, Ty::Unknown(own), Ty::Unknown(x)),
        (Level::Under(a), Some(Binder::Quoted(b, x))) => {
            equate(out, Ty::Unknown(own), Ty::Unknown(x))?;
            let left = code(alloc, a, Ty::Int)?;
            let right = code(alloc, b, Ty::Int)?;
            equate(out, left, right)
        }
        _ => equate(out, Ty::Int, Ty::Bool),
    }
}

/// A name of type `own` that has a scheme, or is out of scope.
fn named_scheme(
    alloc: Global,
    named: &TopScheme,
    out: &mut Output,
    own: u64,
) -> Result<(), AllocError>
    requires room { HasRoomForName out.old (Some (top_of named.now)) }
    requires low { AreLow (top_of named.now ∷ []) }
    ensures { OnOk result (AddsName out.old out.new own (Some (top_of named.now))) }
{
    match named {
        TopScheme::Let(scheme) => {
            let o = out.unknowns;
            let c = out.classifiers;
            take(out, scheme.unknowns, scheme.classifiers);
            let ty = shift(alloc, &scheme.ty, o, c)?;
            equate(out, Ty::Unknown(own), ty)
        }
        TopScheme::Kernel(kind) => {
            let inner = kernel_ty(alloc, kind)?;
            let ty = closed(alloc, inner)?;
            equate(out, Ty::Unknown(own), ty)
        }
        TopScheme::OutOfScope => equate(out, Ty::Int, Ty::Bool),
    }
}

/// Whether nothing is left open in what a name has.
fn is_whole(named: &TopScheme) -> bool
    ensures { IsTrue result ↔ IsWhole (top_of named.now) }
{
    match named {
        TopScheme::Let(scheme) => scheme.unknowns == 0 && scheme.classifiers == 0,
        TopScheme::Kernel(_) => true,
        TopScheme::OutOfScope => false,
    }
}

/// A name of type `own`, by its number.
fn used(
    alloc: Global,
    named: &TopScheme,
    out: &mut Output,
    own: u64,
    name: u32,
) -> Result<(), AllocError>
    requires room { HasRoomForName out.old (Some (top_of named.now)) }
    requires low { AreLow (top_of named.now ∷ []) }
    requires own { AreOwn (top_of named.now ∷ []) }
    requires name { Some (top_of named.now) ≡ slice_get (tops_of out.old.names.now) name }
    ensures { OnOk result (AddsName out.old out.new own (Some (top_of named.now))) }
{
    if is_whole(named) {
        return equate_use(out, own, name);
    }
    named_scheme(alloc, named, out, own)
}

/// What the name at a place has.
pub fn lookup<'n, 'p>(names: &'n [TopScheme<'p>], index: u32) -> Option<&'n TopScheme<'p>>
    ensures { option_map (λ scheme. top_of scheme.now) result
        ≡ slice_get (tops_of names.now) index }
{
    names.get(index as usize)
}

/// A top-level name of type `own`.
pub fn name(
    alloc: Global,
    names: &[TopScheme],
    out: &mut Output,
    own: u64,
    index: u32,
) -> Result<(), AllocError>
    requires room { HasRoomForName out.old (slice_get (tops_of names.now) index) }
    requires low { AreLow (tops_of names.now) }
    requires own { AreOwn (tops_of names.now) }
    requires names { tops_of out.old.names.now ≡ tops_of names.now }
    ensures { OnOk result (AddsName out.old out.new own (slice_get (tops_of names.now) index)) }
{
    match lookup(names, index) {
        Some(scheme) => used(alloc, scheme, out, own, index),
        None => equate(out, Ty::Int, Ty::Bool),
    }
}
