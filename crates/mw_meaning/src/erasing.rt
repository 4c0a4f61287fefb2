// Erasure of terms.

ghost use Rattle.std.specs.Prelude.{◌≡◌, ◌≤◌, ◌+◌, IfOk};
ghost use Rattle.mw_term.specs.Terms.{expression_of, size};
ghost use Rattle.mw_meaning.specs.PlainTerms.{PlainTerm};
ghost use Rattle.mw_meaning.specs.Erasure.{plain, term_of, erased};
ghost use Rattle.mw_meaning.specs.ErasedPrograms.{renamed};
ghost use Rattle.mw_meaning.specs.NewNames.{naming_of, HasRoom};

use mw_term::Term;
use std::alloc::{AllocError, Global};

/// What a top-level name becomes.
#[derive(Clone, Copy, Debug, PartialEq, Eq)]
pub enum NewName {
    /// A let's name: its number among the lets.
    Let(u32),
    /// A kernel's name: the number of kernels behind it.
    Kernel(u32),
}

/// So many binders more. Where there are no names the depth doesn't matter, and stays.
fn deeper(names: &[NewName], depth: u32, binders: u32) -> u32
    requires binds { binders ≤ 2 }
    requires room { HasRoom names.now depth 1 }
    ensures same { (x : PlainTerm) → renamed (naming_of names.now) result x
        ≡ renamed (naming_of names.now)
        (depth + binders) x }
    ensures most { result ≤ depth + binders }
{
    if names.is_empty() {
        depth
    } else {
        depth + binders
    }
}

/// The term for a top-level name under so many binders.
fn renamed_item(names: &[NewName], item: u32, depth: u32) -> Term
    requires { HasRoom names.now depth 1 }
    ensures { expression_of result ≡ term_of (naming_of names.now depth item) }
{
    match names.get(item as usize) {
        None => Term::Glob(item),
        Some(NewName::Let(number)) => Term::Glob(*number),
        Some(NewName::Kernel(number)) => Term::Var(depth + *number),
    }
}

/// The term without staging, with its names renamed, under so many binders.
#[cycle(erasing)]
pub fn erased_under(
    alloc: Global,
    term: &Term,
    names: &[NewName],
    depth: u32,
) -> Result<Term, AllocError>
    requires { HasRoom names.now depth (size (expression_of term.now)) }
    ensures { IfOk result
        (λ t. expression_of t ≡ term_of (renamed (naming_of names.now) depth (plain (expression_of term.now)))) }
{
    match term {
        Term::Int(n) => Ok(Term::Int(*n)),
        Term::Bool(b) => Ok(Term::Bool(*b)),
        Term::Var(i) => Ok(Term::Var(*i)),
        Term::Glob(i) => Ok(renamed_item(names, *i, depth)),
        Term::Fun(e) => Ok(Term::Fun(boxed(alloc, e, names, deeper(names, depth, 1))?)),
        Term::Rec(e) => Ok(Term::Rec(boxed(alloc, e, names, deeper(names, depth, 2))?)),
        Term::App(f, a) => {
            let (f, a) = both(alloc, f, a, names, depth)?;
            Ok(Term::App(f, a))
        }
        Term::Let(d, e) => {
            let d = boxed(alloc, d, names, depth)?;
            Ok(Term::Let(d, boxed(alloc, e, names, deeper(names, depth, 1))?))
        }
        Term::If(c, a, b) => {
            let c = boxed(alloc, c, names, depth)?;
            let (a, b) = both(alloc, a, b, names, depth)?;
            Ok(Term::If(c, a, b))
        }
        Term::Pair(a, b) => {
            let (a, b) = both(alloc, a, b, names, depth)?;
            Ok(Term::Pair(a, b))
        }
        Term::Fst(e) => Ok(Term::Fst(boxed(alloc, e, names, depth)?)),
        Term::Snd(e) => Ok(Term::Snd(boxed(alloc, e, names, depth)?)),
        Term::Prim(p, a, b) => {
            let (a, b) = both(alloc, a, b, names, depth)?;
            Ok(Term::Prim(*p, a, b))
        }
        Term::Bracket(e)
        | Term::Escape(e)
        | Term::Run(_, e)
        | Term::CloseCode(_, e)
        | Term::OpenCode(e)
        | Term::Lift(e)
        | Term::LiftB(e) => erased_under(alloc, e, names, depth),
    }
}

/// The same, in a box.
#[cycle(erasing)]
pub(crate) fn boxed(
    alloc: Global,
    term: &Term,
    names: &[NewName],
    depth: u32,
) -> Result<Box<Term>, AllocError>
    requires { HasRoom names.now depth (size (expression_of term.now)) }
    ensures { IfOk result
        (λ t. expression_of t.value ≡ term_of (renamed (naming_of names.now) depth (plain (expression_of term.now)))) }
{
    let term = erased_under(alloc, term, names, depth)?;
    Ok(Box::new(alloc, term)?)
}

/// The same of two terms.
#[cycle(erasing)]
fn both(
    alloc: Global,
    first: &Term,
    second: &Term,
    names: &[NewName],
    depth: u32,
) -> Result<(Box<Term>, Box<Term>), AllocError>
    requires room_first { HasRoom names.now depth (size (expression_of first.now)) }
    requires room_second { HasRoom names.now depth (size (expression_of second.now)) }
    ensures first { IfOk result
        (λ t. expression_of t.0.value
        ≡ term_of (renamed (naming_of names.now) depth (plain (expression_of first.now)))) }
    ensures second { IfOk result
        (λ t. expression_of t.1.value
        ≡ term_of (renamed (naming_of names.now) depth (plain (expression_of second.now)))) }
{
    let first = boxed(alloc, first, names, depth)?;
    Ok((first, boxed(alloc, second, names, depth)?))
}

/// The term without brackets, escapes, `run`, `close`, `open`, `lift` and `liftb`. The one error is want of memory.
pub fn erase(alloc: Global, term: &Term) -> Result<Term, AllocError>
    ensures { IfOk result (λ t. expression_of t ≡ erased (expression_of term.now)) }
{
    erased_under(alloc, term, &[], 0)
}
