// A simplification that was worked out by hand.

ghost use Rattle.std.specs.Prelude.{◌≡◌, ◌<◌, ◌^◌, IfOk, pos};
ghost use Rattle.mw_term.specs.Closed.{IsClosed, IsCode};
ghost use Rattle.mw_term.specs.Terms.{expression_of, size, num, var, bind, cond, pair, prim};
ghost use Rattle.mw_term.specs.declared.term.Primitive.TheVariants.{Mul, Div, Eq};

use mw_simplify::simplify;
use mw_term::{Prim, Term};
use std::alloc::{AllocError, Global};

/// A term in a box.
fn boxed(alloc: Global, term: Term) -> Result<Box<Term>, AllocError>
    ensures { IfOk result (λ code. code.value ≡ term) }
{
    Ok(Box::new(alloc, term)?)
}

fn computed(alloc: Global, p: Prim, a: Term, b: Term) -> Result<Box<Term>, AllocError>
    ensures { IfOk result
        (λ code. expression_of code.value ≡ prim p (expression_of a) (expression_of b)) }
{
    let a = boxed(alloc, a)?;
    let b = boxed(alloc, b)?;
    boxed(alloc, Term::Prim(p, a, b))
}

/// `if a = 5 then x * a else 1 / 0`.
fn choice(alloc: Global) -> Result<Box<Term>, AllocError>
    ensures { IfOk result (λ code. expression_of code.value
        ≡ cond (prim Eq (var 1) (num (pos 5))) (prim Mul (var 2) (var 1)) (prim Div (num (pos 1)) (num (pos 0)))) }
{
    let test = computed(alloc, Prim::Eq, Term::Var(1), Term::Int(5))?;
    let product = computed(alloc, Prim::Mul, Term::Var(2), Term::Var(1))?;
    let trap = computed(alloc, Prim::Div, Term::Int(1), Term::Int(0))?;
    boxed(alloc, Term::If(test, product, trap))
}

/// `(x, x)`.
fn both(alloc: Global) -> Result<Box<Term>, AllocError>
    ensures { IfOk result (λ code. expression_of code.value ≡ pair (var 1) (var 1)) }
{
    let first = boxed(alloc, Term::Var(1))?;
    let second = boxed(alloc, Term::Var(1))?;
    boxed(alloc, Term::Pair(first, second))
}

/// `let b = (x, x) in if a = 5 then x * a else 1 / 0`.
fn inner(alloc: Global) -> Result<Box<Term>, AllocError>
    ensures { IfOk result
        (λ code. expression_of code.value ≡ bind (pair (var 1) (var 1))
        (cond (prim Eq (var 1) (num (pos 5))) (prim Mul (var 2) (var 1)) (prim Div (num (pos 1)) (num (pos 0))))) }
{
    let definition = both(alloc)?;
    let rest = choice(alloc)?;
    boxed(alloc, Term::Let(definition, rest))
}

/// `fun x -> let a = 2 + 3 in let b = (x, x) in if a = 5 then x * a else 1 / 0`.
fn five_times(alloc: Global) -> Result<Box<Term>, AllocError>
    ensures code { IfOk result (λ code. IsCode (expression_of code.value)) }
    ensures closed { IfOk result (λ code. IsClosed (expression_of code.value)) }
    ensures small { IfOk result (λ code. size (expression_of code.value) < 2 ^ 31) }
{
    let sum = computed(alloc, Prim::Add, Term::Int(2), Term::Int(3))?;
    let body = boxed(alloc, Term::Let(sum, inner(alloc)?))?;
    boxed(alloc, Term::Fun(body))
}

/// Its simplification, as text.
fn simplified_text(alloc: Global) -> Result<String, AllocError> {
    let code = five_times(alloc)?;
    let simple = boxed(alloc, simplify(alloc, &code)?)?;
    format!(in alloc; "{simple:?}")
}

#[test]
fn five_times_is_simplified(rt: HostRuntime) -> Result<(), AllocError> {
    let text = simplified_text(rt.alloc())?;
    assert_eq!(rt; text.as_str(), "Fun(Prim(Mul, Var(0), Int(5)))");
    Ok(())
}
