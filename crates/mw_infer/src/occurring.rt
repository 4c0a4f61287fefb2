// The code of a close, and the binders that are named in it.

ghost use Rattle.std.specs.Prelude.{◌≡◌, ◌<◌, ◌==◌, false, length, replicate, slice_get, IfOk, Some};
ghost use Rattle.mw_term.specs.Terms.{expression_of};
ghost use Rattle.mw_infer.specs.CloseContents.{close_contents, occurs_in};
ghost use Rattle.mw_infer.specs.Occurring.{CanCount, Seeks, marked};

use mw_term::Term;
use std::alloc::{AllocError, Global};

/// A close's code, or how many closes further on it is.
pub enum Sought<'a> {
    Found(&'a Term),
    Beyond(usize),
}

/// The code of a term's close, by the close's place in pre-order.
fn seek(term: &Term, at: usize) -> Sought<'_>
    ensures { Seeks (close_contents (expression_of term.now)) at result }
{
    match term {
        Term::Int(_) | Term::Bool(_) | Term::Var(_) | Term::Glob(_) => Sought::Beyond(at),
        Term::Fun(e)
        | Term::Rec(e)
        | Term::Fst(e)
        | Term::Snd(e)
        | Term::Bracket(e)
        | Term::Escape(e)
        | Term::Run(_, e)
        | Term::OpenCode(e)
        | Term::Lift(e)
        | Term::LiftB(e) => seek(e, at),
        Term::CloseCode(_, e) => if at == 0 {
            Sought::Found(e)
        } else {
            seek(e, at - 1)
        },
        Term::App(a, b) | Term::Let(a, b) | Term::Pair(a, b) | Term::Prim(_, a, b) => {
            match seek(a, at) {
                Sought::Found(code) => Sought::Found(code),
                Sought::Beyond(left) => seek(b, left),
            }
        }
        Term::If(c, a, b) => match seek(c, at) {
            Sought::Found(code) => Sought::Found(code),
            Sought::Beyond(left) => match seek(a, left) {
                Sought::Found(code) => Sought::Found(code),
                Sought::Beyond(left) => seek(b, left),
            },
        },
    }
}

/// The code of a term's close that is there.
pub fn code_of(term: &Term, at: usize) -> &Term
    requires { at < length (close_contents (expression_of term.now)) }
    ensures { slice_get (close_contents (expression_of term.now)) at
        ≡ Some (expression_of result.now) }
{
    match seek(term, at) {
        Sought::Found(code) => code,
        Sought::Beyond(_) => unreachable!(),
    }
}

/// Marks the binder of a variable that stands in so many further binders, if there is a mark for it.
fn mark(number: u32, depth: usize, marks: &mut [bool])
    ensures { marks.new ≡ marked (λ n. number == n) depth marks.old }
{
    let number = number as usize;
    if number < depth || marks.len() <= number - depth {
        return;
    }
    marks[number - depth] = true;
}

/// Marks the binders that are named in a term that stands in so many further binders.
fn mark_all(term: &Term, depth: usize, marks: &mut [bool])
    requires { CanCount depth (expression_of term.now) }
    ensures { marks.new ≡ marked (λ n. occurs_in n (expression_of term.now)) depth marks.old }
{
    match term {
        Term::Int(_) | Term::Bool(_) | Term::Glob(_) => {}
        Term::Var(number) => mark(*number, depth, marks),
        Term::Fun(e) => mark_all(e, depth + 1, marks),
        Term::Rec(e) => mark_all(e, depth + 2, marks),
        Term::App(a, b) | Term::Pair(a, b) | Term::Prim(_, a, b) => {
            mark_all(a, depth, marks);
            mark_all(b, depth, marks);
        }
        Term::Let(d, e) => {
            mark_all(d, depth, marks);
            mark_all(e, depth + 1, marks);
        }
        Term::If(c, a, b) => {
            mark_all(c, depth, marks);
            mark_all(a, depth, marks);
            mark_all(b, depth, marks);
        }
        Term::Fst(e)
        | Term::Snd(e)
        | Term::Bracket(e)
        | Term::Escape(e)
        | Term::Run(_, e)
        | Term::CloseCode(_, e)
        | Term::OpenCode(e)
        | Term::Lift(e)
        | Term::LiftB(e) => mark_all(e, depth, marks),
    }
}

/// For each of so many binders around a term whether it is named in the term, the nearest first.
pub fn occurring(alloc: Global, term: &Term, count: usize) -> Result<Vec<bool>, AllocError>
    requires { CanCount 0 (expression_of term.now) }
    ensures { IfOk result (λ marks. marks.items
        ≡ marked (λ n. occurs_in n (expression_of term.now)) 0 (replicate count false)) }
{
    let mut marks = Vec::new(alloc);
    for _ in 0..count {
        marks.push(false)?;
    }
    mark_all(term, 0, marks.as_mut_slice());
    Ok(marks)
}
