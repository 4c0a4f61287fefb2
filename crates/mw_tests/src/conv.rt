// Conversions that were worked out by hand.

ghost use Rattle.std.specs.Prelude.{◌≡◌, true, IfOk};
ghost use Rattle.mw_term.specs.Terms.{expression_of, var, fun, fix, app, bind, prim};
ghost use Rattle.mw_term.specs.Closed.{IsClosed};
ghost use Rattle.mw_term.specs.Limits.{within_limits};

use mw_conv::convert;
use mw_term::{Prim, Term};
use std::alloc::{AllocError, Global};

fn function(alloc: Global, body: Term) -> Result<Term, AllocError>
    ensures { IfOk result (λ code. expression_of code ≡ fun (expression_of body)) }
{
    Ok(Term::Fun(Box::new(alloc, body)?))
}

fn recursive(alloc: Global, body: Term) -> Result<Term, AllocError>
    ensures { IfOk result (λ code. expression_of code ≡ fix (expression_of body)) }
{
    Ok(Term::Rec(Box::new(alloc, body)?))
}

fn applied(alloc: Global, f: Term, a: Term) -> Result<Term, AllocError>
    ensures { IfOk result (λ code. expression_of code ≡ app (expression_of f) (expression_of a)) }
{
    Ok(Term::App(Box::new(alloc, f)?, Box::new(alloc, a)?))
}

fn bound(alloc: Global, d: Term, e: Term) -> Result<Term, AllocError>
    ensures { IfOk result (λ code. expression_of code ≡ bind (expression_of d) (expression_of e)) }
{
    Ok(Term::Let(Box::new(alloc, d)?, Box::new(alloc, e)?))
}

fn computed(alloc: Global, p: Prim, a: Term, b: Term) -> Result<Term, AllocError>
    ensures { IfOk result
        (λ code. expression_of code ≡ prim p (expression_of a) (expression_of b)) }
{
    Ok(Term::Prim(p, Box::new(alloc, a)?, Box::new(alloc, b)?))
}

/// `fun x -> fun y -> let rec f n = f (y - n) + x in f`, as nameless code.
fn nested(alloc: Global) -> Result<Term, AllocError>
    ensures closed { IfOk result (λ code. IsClosed (expression_of code)) }
    ensures limits { IfOk result (λ code. within_limits (expression_of code) ≡ true) }
{
    let rest = computed(alloc, Prim::Sub, Term::Var(2), Term::Var(0))?;
    let call = applied(alloc, Term::Var(1), rest)?;
    let sum = computed(alloc, Prim::Add, call, Term::Var(3))?;
    function(alloc, function(alloc, recursive(alloc, sum)?)?)
}

/// `let a = (let b = 1 in b) in let c = a in (fun z -> c) a`.
fn lets(alloc: Global) -> Result<Term, AllocError>
    ensures closed { IfOk result (λ code. IsClosed (expression_of code)) }
    ensures limits { IfOk result (λ code. within_limits (expression_of code) ≡ true) }
{
    let definition = bound(alloc, Term::Int(1), Term::Var(0))?;
    let call = applied(alloc, function(alloc, Term::Var(1))?, Term::Var(1))?;
    bound(alloc, definition, bound(alloc, Term::Var(0), call)?)
}

/// A conversion as it is printed for debugging.
fn printed(alloc: Global, code: &Term) -> Result<String, AllocError>
    requires closed { IsClosed (expression_of code.now) }
    requires limits { within_limits (expression_of code.now) ≡ true }
{
    let converted = convert(alloc, code)?;
    format!(in alloc; "{converted:?}")
}

/// The functions are numbered as they stand. A closure has its free variables, the outermost first, and no own name.
const NESTED: &str = "Converted { funcs: Sequence { items: [\
    IrFunc { free: 0, slots: 0, body: Closure(1, Sequence { items: [Argument] }) }, \
    IrFunc { free: 1, slots: 0, body: Closure(2, Sequence { items: [Free(0), Argument] }) }, \
    IrFunc { free: 2, slots: 0, body: Prim(Add, App(Get(Own), Prim(Sub, Get(Free(1)), Get(Argument))), Get(Free(0))) }\
    ] }, body: IrFunc { free: 0, slots: 0, body: Closure(0, Sequence { items: [] }) } }";

/// A let in another let's definition has the same slot.
const LETS: &str = "Converted { funcs: Sequence { items: [\
    IrFunc { free: 1, slots: 0, body: Get(Free(0)) }\
    ] }, body: IrFunc { free: 0, slots: 2, body: \
    Let(0, Let(0, Int(1), Get(Slot(0))), \
    Let(1, Get(Slot(0)), App(Closure(0, Sequence { items: [Slot(1)] }), Get(Slot(0))))) } }";

fn nested_printed(alloc: Global) -> Result<String, AllocError> {
    let code = nested(alloc)?;
    printed(alloc, &code)
}

fn lets_printed(alloc: Global) -> Result<String, AllocError> {
    let code = lets(alloc)?;
    printed(alloc, &code)
}

#[test]
fn conversions(rt: HostRuntime) -> Result<(), AllocError> {
    let text = nested_printed(rt.alloc())?;
    assert_eq!(rt; text.as_str(), NESTED);
    let text = lets_printed(rt.alloc())?;
    assert_eq!(rt; text.as_str(), LETS);
    Ok(())
}
