// The walk of an expression: its term, and the first fault in it.

ghost use Rattle.std.specs.Prelude.{◌≡◌, IfOk, OnOk};
ghost use Rattle.mw_term.specs.Terms.{expression_of};
ghost use Rattle.mw_grammar.specs.SurfaceTrees.{tree_of, used};
ghost use Rattle.mw_scope.specs.Keeping.{kept};
ghost use Rattle.mw_scope.specs.Views.{Binds, HasRoom, IsStaging, SameBinders, faults_here, named_here};

use crate::binders::Binders;
use crate::fault::Fault;
use crate::keeping::{keep, keep_at, keep_if_live, keep_if_quoted};
use crate::level::Level;
use crate::top_names::TopNames;
use mw_grammar::{Placed, Tree};
use mw_term::{Term, copied_kernel_type};
use std::alloc::{AllocError, Global};

/// The term of a name in use, whose fault is kept.
fn used_name(
    tops: &TopNames,
    binders: &Binders,
    level: Level,
    name: &Placed,
    first: &mut Option<Fault>,
) -> Term
    ensures term { expression_of result
        ≡ named_here tops.now binders.now level (used name.now.name name.now.at) }
    ensures faults { first.new
        ≡ kept first.old (faults_here tops.now binders.now level (used name.now.name name.now.at)) }
{
    match binders.find(&name.name) {
        Some((number, bound)) => {
            keep_at(first, bound, level, name.at);
            Term::Var(binders.count.saturating_sub(number).saturating_sub(1))
        }
        None => match tops.find(&name.name) {
            Some(item) => {
                keep_if_quoted(first, level, name.at);
                Term::Glob(item)
            }
            None => {
                keep(first, Fault::Unbound(name.at));
                Term::Var(0)
            }
        },
    }
}

/// The term of a tree, which is the nameless expression where no fault is found, with its faults kept.
#[cycle(walk)]
pub fn term(
    alloc: Global,
    tops: &TopNames,
    binders: &mut Binders,
    level: Level,
    tree: &Tree,
    first: &mut Option<Fault>,
) -> Result<Term, AllocError>
    requires { HasRoom binders.old (tree_of tree.now) }
    ensures term { IfOk result
        (λ t. expression_of t ≡ named_here tops.now binders.old level (tree_of tree.now)) }
    ensures faults { OnOk result
        (first.new ≡ kept first.old (faults_here tops.now binders.old level (tree_of tree.now))) }
    ensures binders { OnOk result (SameBinders binders.old binders.new) }
{
    match tree {
        Tree::Int(n) => Ok(Term::Int(*n)),
        Tree::Bool(b) => Ok(Term::Bool(*b)),
        Tree::Used(name) => Ok(used_name(tops, binders, level, name, first)),
        Tree::App(f, a) => {
            let f = boxed(alloc, tops, binders, level, f, first)?;
            Ok(Term::App(f, boxed(alloc, tops, binders, level, a, first)?))
        }
        Tree::If(c, a, b) => {
            let c = boxed(alloc, tops, binders, level, c, first)?;
            let a = boxed(alloc, tops, binders, level, a, first)?;
            Ok(Term::If(c, a, boxed(alloc, tops, binders, level, b, first)?))
        }
        Tree::Pair(a, b) => {
            let a = boxed(alloc, tops, binders, level, a, first)?;
            Ok(Term::Pair(a, boxed(alloc, tops, binders, level, b, first)?))
        }
        Tree::Fst(e) => Ok(Term::Fst(boxed(alloc, tops, binders, level, e, first)?)),
        Tree::Snd(e) => Ok(Term::Snd(boxed(alloc, tops, binders, level, e, first)?)),
        Tree::Prim(operation, a, b) => {
            let a = boxed(alloc, tops, binders, level, a, first)?;
            Ok(Term::Prim(*operation, a, boxed(alloc, tops, binders, level, b, first)?))
        }
        Tree::Fun(..) | Tree::Rec(..) | Tree::Let(..) => {
            binding(alloc, tops, binders, level, tree, first)
        }
        _ => staged(alloc, tops, binders, level, tree, first),
    }
}

/// The same, in a box.
#[cycle(walk)]
fn boxed(
    alloc: Global,
    tops: &TopNames,
    binders: &mut Binders,
    level: Level,
    tree: &Tree,
    first: &mut Option<Fault>,
) -> Result<Box<Term>, AllocError>
    requires { HasRoom binders.old (tree_of tree.now) }
    ensures term { IfOk result
        (λ t. expression_of t.value ≡ named_here tops.now binders.old level (tree_of tree.now)) }
    ensures faults { OnOk result
        (first.new ≡ kept first.old (faults_here tops.now binders.old level (tree_of tree.now))) }
    ensures binders { OnOk result (SameBinders binders.old binders.new) }
{
    let term = term(alloc, tops, binders, level, tree, first)?;
    Ok(Box::new(alloc, term)?)
}

/// The same, of a function or a let.
#[cycle(walk)]
fn binding(
    alloc: Global,
    tops: &TopNames,
    binders: &mut Binders,
    level: Level,
    tree: &Tree,
    first: &mut Option<Fault>,
) -> Result<Term, AllocError>
    requires room { HasRoom binders.old (tree_of tree.now) }
    requires form { Binds (tree_of tree.now) }
    ensures term { IfOk result
        (λ t. expression_of t ≡ named_here tops.now binders.old level (tree_of tree.now)) }
    ensures faults { OnOk result
        (first.new ≡ kept first.old (faults_here tops.now binders.old level (tree_of tree.now))) }
    ensures binders { OnOk result (SameBinders binders.old binders.new) }
{
    match tree {
        Tree::Fun(x, e) => {
            let hidden = binders.enter(alloc, x, level)?;
            let e = boxed(alloc, tops, binders, level, e, first)?;
            binders.leave(alloc, x, hidden)?;
            Ok(Term::Fun(e))
        }
        Tree::Rec(f, x, e) => {
            let own = binders.enter(alloc, f, level)?;
            let argument = binders.enter(alloc, x, level)?;
            let e = boxed(alloc, tops, binders, level, e, first)?;
            binders.leave(alloc, x, argument)?;
            binders.leave(alloc, f, own)?;
            Ok(Term::Rec(e))
        }
        Tree::Let(x, d, e) => {
            let d = boxed(alloc, tops, binders, level, d, first)?;
            let shadowed = binders.enter(alloc, x, level)?;
            let e = boxed(alloc, tops, binders, level, e, first)?;
            binders.leave(alloc, x, shadowed)?;
            Ok(Term::Let(d, e))
        }
        _ => unreachable!(),
    }
}

/// The same, of a form of staging.
#[cycle(walk)]
fn staged(
    alloc: Global,
    tops: &TopNames,
    binders: &mut Binders,
    level: Level,
    tree: &Tree,
    first: &mut Option<Fault>,
) -> Result<Term, AllocError>
    requires room { HasRoom binders.old (tree_of tree.now) }
    requires form { IsStaging (tree_of tree.now) }
    ensures term { IfOk result
        (λ t. expression_of t ≡ named_here tops.now binders.old level (tree_of tree.now)) }
    ensures faults { OnOk result
        (first.new ≡ kept first.old (faults_here tops.now binders.old level (tree_of tree.now))) }
    ensures binders { OnOk result (SameBinders binders.old binders.new) }
{
    match tree {
        Tree::Bracket(at, e) => {
            keep_if_quoted(first, level, *at);
            Ok(Term::Bracket(boxed(alloc, tops, binders, Level::Quoted, e, first)?))
        }
        Tree::Escape(at, e) => {
            keep_if_live(first, level, *at);
            Ok(Term::Escape(boxed(alloc, tops, binders, Level::Live, e, first)?))
        }
        Tree::Run(at, kind, e) => {
            keep_if_quoted(first, level, *at);
            let kind = copied_kernel_type(alloc, kind)?;
            Ok(Term::Run(kind, boxed(alloc, tops, binders, level, e, first)?))
        }
        Tree::CloseCode(at, e) => {
            keep_if_quoted(first, level, *at);
            Ok(Term::CloseCode(*at, boxed(alloc, tops, binders, level, e, first)?))
        }
        Tree::OpenCode(at, e) => {
            keep_if_quoted(first, level, *at);
            Ok(Term::OpenCode(boxed(alloc, tops, binders, level, e, first)?))
        }
        Tree::Lift(at, e) => {
            keep_if_quoted(first, level, *at);
            Ok(Term::Lift(boxed(alloc, tops, binders, level, e, first)?))
        }
        Tree::LiftB(at, e) => {
            keep_if_quoted(first, level, *at);
            Ok(Term::LiftB(boxed(alloc, tops, binders, level, e, first)?))
        }
        _ => unreachable!(),
    }
}
