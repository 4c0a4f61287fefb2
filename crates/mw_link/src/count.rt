// The functions of code.

ghost use Rattle.std.specs.Prelude.{◌≡◌, ◌≤◌, true};
ghost use Rattle.mw_term.specs.Terms.{expression_of, size};
ghost use Rattle.mw_term.specs.Limits.{within_limits};
ghost use Rattle.mw_conv.specs.Convert.{funs};

use mw_term::Term;

/// The number of functions of code within the limits of kernels, which is how many its kernel adds to the table of a
/// linked module. It goes through the code once, and takes no memory.
#[tactic(auto, using(mw_conv::proofs::Ranges::size_small))]
pub fn functions(code: &Term) -> u32
    requires limits { within_limits (expression_of code.now) ≡ true }
    ensures count { result ≡ funs (expression_of code.now) }
{
    count(code)
}

/// The functions of code of at most 20,000 nodes.
fn count(code: &Term) -> u32
    requires small { size (expression_of code.now) ≤ 20000 }
    ensures count { result ≡ funs (expression_of code.now) }
    ensures few { result ≤ size (expression_of code.now) }
{
    match code {
        Term::Fun(body) | Term::Rec(body) => count(body) + 1,
        Term::App(function, argument) => count(function) + count(argument),
        Term::Let(definition, rest) => count(definition) + count(rest),
        Term::If(condition, then, otherwise) => count(condition) + (count(then) + count(otherwise)),
        Term::Pair(first, second) => count(first) + count(second),
        Term::Fst(pair) | Term::Snd(pair) => count(pair),
        Term::Prim(_, first, second) => count(first) + count(second),
        _ => 0,
    }
}
