// How large and how deep a term is.

ghost use Rattle.std.specs.Prelude.{◌≡◌, ◌+◌, ◌-◌, ◌^◌, min};
ghost use Rattle.mw_term.specs.Terms.{expression_of, size, depth_of};

use crate::term::Term;

/// The number of a term's nodes, each form being one, or the greatest number of the type where it is above that.
/// It takes no memory.
pub fn nodes(term: &Term) -> u64
    ensures { result ≡ min (size (expression_of term.now)) (2 ^ 64 - 1) }
{
    match term {
        Term::Int(_) | Term::Bool(_) | Term::Var(_) | Term::Glob(_) => 1,
        Term::Fun(e) | Term::Rec(e) => nodes(e).saturating_add(1),
        Term::App(a, b) | Term::Let(a, b) | Term::Pair(a, b) | Term::Prim(_, a, b) => {
            nodes(a).saturating_add(nodes(b)).saturating_add(1)
        }
        Term::If(c, a, b) => nodes(c)
            .saturating_add(nodes(a))
            .saturating_add(nodes(b))
            .saturating_add(1),
        Term::Fst(e) | Term::Snd(e) | Term::Bracket(e) | Term::Escape(e) => {
            nodes(e).saturating_add(1)
        }
        Term::Run(_, e) | Term::CloseCode(_, e) => nodes(e).saturating_add(1),
        Term::OpenCode(e) | Term::Lift(e) | Term::LiftB(e) => nodes(e).saturating_add(1),
    }
}

/// The number of nodes on a term's longest path, a leaf having depth 1, or the greatest number of the type where it is
/// above that. It takes no memory.
pub fn depth(term: &Term) -> u32
    ensures { result ≡ min (depth_of (expression_of term.now)) (2 ^ 32 - 1) }
{
    match term {
        Term::Var(_) | Term::Glob(_) | Term::Int(_) | Term::Bool(_) => 1,
        Term::Fun(e) | Term::Rec(e) => depth(e).saturating_add(1),
        Term::App(a, b) | Term::Let(a, b) | Term::Pair(a, b) | Term::Prim(_, a, b) => {
            depth(a).max(depth(b)).saturating_add(1)
        }
        Term::If(c, a, b) => depth(c).max(depth(a)).max(depth(b)).saturating_add(1),
        Term::Fst(e) | Term::Snd(e) | Term::Bracket(e) | Term::Escape(e) => {
            depth(e).saturating_add(1)
        }
        Term::Run(_, e) | Term::CloseCode(_, e) => depth(e).saturating_add(1),
        Term::OpenCode(e) | Term::Lift(e) | Term::LiftB(e) => depth(e).saturating_add(1),
    }
}
