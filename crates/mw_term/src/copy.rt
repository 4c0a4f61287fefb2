// Copies.

ghost use Rattle.std.specs.Prelude.{◌≡◌, IfOk};
ghost use Rattle.mw_term.specs.Terms.{expression_of, ground_of, kernel_type_of};

use crate::name::Name;
use crate::term::{Ground, KType, Term};
use std::alloc::{AllocError, Global};

/// A name of the same bytes.
pub fn copied_name(alloc: Global, name: &Name) -> Result<Name, AllocError>
    ensures { IfOk result (λ copy. copy ≡ name.now) }
{
    let mut copy = Name::new(alloc);
    let bytes = name.as_slice();
    for byte in bytes {
        copy.push(*byte)?;
    }
    Ok(copy)
}

/// The same ground type.
pub fn copied_ground(alloc: Global, ground: &Ground) -> Result<Ground, AllocError>
    ensures { IfOk result (λ copy. ground_of copy ≡ ground_of ground.now) }
{
    match ground {
        Ground::Base(base) => Ok(Ground::Base(*base)),
        Ground::Pair(a, b) => {
            let a = copied_ground(alloc, a)?;
            let b = copied_ground(alloc, b)?;
            Ok(Ground::Pair(Box::new(alloc, a)?, Box::new(alloc, b)?))
        }
    }
}

/// The same kernel type.
pub fn copied_kernel_type(alloc: Global, kind: &KType) -> Result<KType, AllocError>
    ensures { IfOk result (λ copy. kernel_type_of copy ≡ kernel_type_of kind.now) }
{
    match kind {
        KType::Ground(ground) => Ok(KType::Ground(copied_ground(alloc, ground)?)),
        KType::Fun(argument, result) => {
            let argument = copied_ground(alloc, argument)?;
            Ok(KType::Fun(argument, copied_ground(alloc, result)?))
        }
    }
}

/// The same term.
#[cycle(terms)]
pub fn copied_term(alloc: Global, term: &Term) -> Result<Term, AllocError>
    ensures { IfOk result (λ copy. expression_of copy ≡ expression_of term.now) }
{
    match term {
        Term::Int(n) => Ok(Term::Int(*n)),
        Term::Bool(b) => Ok(Term::Bool(*b)),
        Term::Var(i) => Ok(Term::Var(*i)),
        Term::Glob(i) => Ok(Term::Glob(*i)),
        Term::Fun(e) => Ok(Term::Fun(boxed_copy(alloc, e)?)),
        Term::Rec(e) => Ok(Term::Rec(boxed_copy(alloc, e)?)),
        Term::App(f, a) => {
            let (f, a) = boxed_copies(alloc, f, a)?;
            Ok(Term::App(f, a))
        }
        Term::Let(d, e) => {
            let (d, e) = boxed_copies(alloc, d, e)?;
            Ok(Term::Let(d, e))
        }
        Term::If(c, a, b) => {
            let c = boxed_copy(alloc, c)?;
            let (a, b) = boxed_copies(alloc, a, b)?;
            Ok(Term::If(c, a, b))
        }
        Term::Pair(a, b) => {
            let (a, b) = boxed_copies(alloc, a, b)?;
            Ok(Term::Pair(a, b))
        }
        Term::Fst(e) => Ok(Term::Fst(boxed_copy(alloc, e)?)),
        Term::Snd(e) => Ok(Term::Snd(boxed_copy(alloc, e)?)),
        Term::Prim(p, a, b) => {
            let (a, b) = boxed_copies(alloc, a, b)?;
            Ok(Term::Prim(*p, a, b))
        }
        Term::Run(kind, e) => {
            let e = boxed_copy(alloc, e)?;
            Ok(Term::Run(copied_kernel_type(alloc, kind)?, e))
        }
        Term::Bracket(e) => Ok(Term::Bracket(boxed_copy(alloc, e)?)),
        Term::Escape(e) => Ok(Term::Escape(boxed_copy(alloc, e)?)),
        Term::CloseCode(at, e) => Ok(Term::CloseCode(*at, boxed_copy(alloc, e)?)),
        Term::OpenCode(e) => Ok(Term::OpenCode(boxed_copy(alloc, e)?)),
        Term::Lift(e) => Ok(Term::Lift(boxed_copy(alloc, e)?)),
        Term::LiftB(e) => Ok(Term::LiftB(boxed_copy(alloc, e)?)),
    }
}

/// The same term, in a box.
#[cycle(terms)]
fn boxed_copy(alloc: Global, term: &Term) -> Result<Box<Term>, AllocError>
    ensures { IfOk result (λ copy. expression_of copy.value ≡ expression_of term.now) }
{
    let copy = copied_term(alloc, term)?;
    Ok(Box::new(alloc, copy)?)
}

/// The same two terms, each in a box.
#[cycle(terms)]
fn boxed_copies(
    alloc: Global,
    first: &Term,
    second: &Term,
) -> Result<(Box<Term>, Box<Term>), AllocError>
    ensures first { IfOk result (λ copies. expression_of copies.0.value ≡ expression_of first.now) }
    ensures second { IfOk result
        (λ copies. expression_of copies.1.value ≡ expression_of second.now) }
{
    let first = boxed_copy(alloc, first)?;
    let second = boxed_copy(alloc, second)?;
    Ok((first, second))
}
