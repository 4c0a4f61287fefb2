// The equations of a term, in pre-order.

ghost use Rattle.std.specs.Prelude.{◌≡◌, [], ◌∷◌, IsTrue, OnOk};
ghost use Rattle.mw_term.specs.Terms.{expression_of};
ghost use Rattle.mw_infer.specs.ItemEquations.{slot, close_equations};
ghost use Rattle.mw_term.specs.Types.{under};
ghost use Rattle.mw_infer.specs.Scoped.{is_quoted};
ghost use Rattle.mw_infer.specs.Emitting.{Adds, AddsTerm, CanEmit, HasRoom};
ghost use Rattle.mw_infer.specs.OwnParts.{AddsOwn};
ghost use Rattle.mw_infer.specs.Views.{level_at, slot_of, slots_of, tops_of};

use crate::names::TopScheme;
use crate::output::{Output, Spot, equate};
use crate::own;
use crate::scope::{Binder, Level, Scope, find, listed};
use mw_term::{Base, Term};
use mw_types::Ty;
use std::alloc::{AllocError, Global};

/// What all parts of a term share: where memory comes from, and what top-level names have.
#[derive(Clone, Copy)]
pub struct Setting<'a> {
    pub alloc: Global,
    pub names: &'a [TopScheme<'a>],
}

/// A binder at the level where it stands.
fn bound(level: Level, unknown: u64) -> Binder
    ensures { slot_of result ≡ slot (level_at level) unknown }
{
    match level {
        Level::Live => Binder::Plain(unknown),
        Level::Under(classifier) => Binder::Quoted(classifier, unknown),
    }
}

/// The equations and closes of a term of type `own`.
pub fn emit(
    term: &Term,
    setting: &Setting,
    scope: &Scope,
    level: Level,
    own: u64,
    out: &mut Output,
) -> Result<(), AllocError>
    requires { CanEmit out.old (tops_of setting.now.names.now) (slots_of scope.now) (level_at level)
        (expression_of term.now) }
    ensures { OnOk result
        (AddsTerm out.old out.new (tops_of setting.now.names.now) own (slots_of scope.now)
        (level_at level) (expression_of term.now)) }
{
    let o = out.unknowns;
    let classifier = out.classifiers;
    emit_own(term, setting, scope, level, own, out)?;
    match term {
        Term::Int(_) | Term::Bool(_) | Term::Var(_) | Term::Glob(_) => Ok(()),
        Term::Fun(e) => {
            let inner = Scope::Bound(bound(level, o), &*scope);
            emit(e, setting, &inner, level, o + 1, out)
        }
        Term::Rec(e) => {
            let outer = Scope::Bound(bound(level, o + 1), &*scope);
            let inner = Scope::Bound(bound(level, o), &outer);
            emit(e, setting, &inner, level, o + 2, out)
        }
        Term::Let(d, e) => {
            emit(d, setting, scope, level, o + 1, out)?;
            let inner = Scope::Bound(bound(level, o), &*scope);
            emit(e, setting, &inner, level, o + 2, out)
        }
        Term::App(a, b) | Term::Pair(a, b) | Term::Prim(_, a, b) => {
            emit(a, setting, scope, level, o, out)?;
            emit(b, setting, scope, level, o + 1, out)
        }
        Term::If(p, a, b) => {
            emit(p, setting, scope, level, o, out)?;
            emit(a, setting, scope, level, o + 1, out)?;
            emit(b, setting, scope, level, o + 2, out)
        }
        Term::Fst(e) | Term::Snd(e) | Term::CloseCode(_, e) | Term::OpenCode(e) => {
            emit(e, setting, scope, level, o + 1, out)
        }
        Term::Bracket(e) => emit(e, setting, scope, Level::Under(classifier), o, out),
        Term::Escape(e) => emit(e, setting, scope, Level::Live, o, out),
        Term::Run(_, e) | Term::Lift(e) | Term::LiftB(e) => {
            emit(e, setting, scope, level, o, out)
        }
    }
}

/// The equations and closes that a node has of its own, which come before those of its parts.
#[inline(always)]
fn emit_own(
    term: &Term,
    setting: &Setting,
    scope: &Scope,
    level: Level,
    own: u64,
    out: &mut Output,
) -> Result<(), AllocError>
    requires { CanEmit out.old (tops_of setting.now.names.now) (slots_of scope.now) (level_at level)
        (expression_of term.now) }
    ensures { OnOk result
        (AddsOwn out.old out.new (tops_of setting.now.names.now) own (slots_of scope.now)
        (level_at level) (expression_of term.now)) }
{
    let alloc = setting.alloc;
    match term {
        Term::Int(_) => equate(out, Ty::Unknown(own), Ty::Int),
        Term::Bool(_) => equate(out, Ty::Unknown(own), Ty::Bool),
        Term::Var(number) => own::variable(alloc, out, own, level, find(scope, *number)),
        Term::Glob(index) => own::name(alloc, setting.names, out, own, *index),
        Term::Fun(_) => own::lambda(alloc, out, own),
        Term::Rec(_) => own::recursive(alloc, out, own),
        Term::App(_, _) => own::application(alloc, out, own),
        Term::Let(_, _) => own::binding(out, own),
        Term::If(_, _, _) => own::condition(out, own),
        Term::Pair(_, _) => own::pairing(alloc, out, own),
        Term::Fst(_) => own::first_part(alloc, out, own),
        Term::Snd(_) => own::second_part(alloc, out, own),
        Term::Prim(prim, _, _) => own::operation(out, own, *prim),
        Term::Bracket(_) => own::bracket(alloc, out, own),
        Term::Escape(_) => own::escape(alloc, out, own, classifier_of(level)),
        Term::Run(kind, _) => own::run(alloc, out, own, kind),
        Term::CloseCode(at, _) => close(alloc, out, own, *at, scope),
        Term::OpenCode(_) => own::open(alloc, out, own),
        Term::Lift(_) => own::lift(alloc, out, own, Base::Int),
        Term::LiftB(_) => own::lift(alloc, out, own, Base::Bool),
    }
}

/// The classifier unknown of level 1.
fn classifier_of(level: Level) -> u64
    ensures { IsTrue (is_quoted (level_at level)) → level_at level ≡ under result }
{
    match level {
        Level::Live => 0,
        Level::Under(classifier) => classifier,
    }
}

/// A `close` of type `own`, in these binders.
fn close(
    alloc: Global,
    out: &mut Output,
    own: u64,
    at: u32,
    scope: &Scope,
) -> Result<(), AllocError>
    requires { HasRoom out.old 2 1 }
    ensures { OnOk result
        (Adds out.old out.new 2 1 (close_equations own out.old.unknowns out.old.classifiers)
        (record { at = at; classifier = out.old.classifiers; scope = slots_of scope.now } ∷ [])) }
{
    let classifier = out.classifiers;
    own::close(alloc, out, own)?;
    close_here(alloc, out, at, classifier, scope)
}

/// A close in these binders.
fn close_here(
    alloc: Global,
    out: &mut Output,
    at: u32,
    classifier: u64,
    scope: &Scope,
) -> Result<(), AllocError>
    ensures { OnOk result
        (Adds out.old out.new 0 0 [] (record { at = at; classifier = classifier; scope = slots_of scope.now } ∷ [])) }
{
    let scope = listed(alloc, scope)?;
    out.closes.push(Spot {
        at,
        classifier,
        scope,
    })?;
    Ok(())
}
