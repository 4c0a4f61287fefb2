// Whether a `close`'s classifier stands in its environment.

ghost use Rattle.std.specs.Prelude.{◌≡◌, ◌<◌, ◌↔◌, IfOk, IsTrue, MatchOption, length, map};
ghost use Rattle.mw_term.specs.Types.{IsAbsent, IsAbsentAt, IsAbsentIn};
ghost use Rattle.mw_types.specs.Types.{type_of, value};
ghost use Rattle.mw_types.specs.Solutions.{substitution_of};
ghost use Rattle.mw_infer.specs.Inferring.{AreFresh, entry_of, least};
ghost use Rattle.mw_infer.specs.Emitting.{closes_of};
ghost use Rattle.mw_term.specs.Terms.{expression_of};
ghost use Rattle.mw_infer.specs.CloseContents.{close_contents};
ghost use Rattle.mw_infer.specs.Faults.{IsOpenHeld, IsToldBinder};
ghost use Rattle.mw_infer.specs.Occurring.{CanCount, IsNearest};
ghost use Rattle.mw_infer.specs.Below.{ClosesBelow, SlotBelow, SlotsBelow};
ghost use Rattle.mw_infer.specs.Judging.{IsFirstOpenAt, least_of};
ghost use Rattle.mw_infer.specs.Known.{Knows};
ghost use Rattle.mw_infer.specs.Views.{slot_of};

use crate::known::{is_known_absent, learn_all, nothing_known};
use crate::occurring::{code_of, occurring};
use crate::output::Spot;
use crate::scope::Binder;
use mw_term::Term;
use mw_types::{Solved, Ty};
use std::alloc::{AllocError, Global};
use std::collections::BTreeSet;

/// Whether a classifier unknown stands nowhere in a type.
fn is_absent(ty: &Ty, classifier: u64) -> bool
    ensures { IsTrue result ↔ IsAbsentIn classifier (value least (type_of ty.now)) }
{
    match ty {
        Ty::Int | Ty::Bool | Ty::Unknown(_) => true,
        Ty::Pair(s, t) | Ty::Arrow(s, t) => is_absent(s, classifier) && is_absent(t, classifier),
        Ty::Code(c, t) => *c != classifier && is_absent(t, classifier),
        Ty::Closed(t) => is_absent(t, classifier),
    }
}

/// Whether it stands nowhere in an unknown's type.
fn is_absent_in(
    unknown: u64,
    solved: &Solved,
    known: &[Option<BTreeSet<u64>>],
    classifier: u64,
) -> bool
    requires inside { unknown < length solved.now.types }
    requires known { Knows solved.now known.now }
    ensures { IsTrue result ↔ IsAbsentIn classifier ((least_of solved.now).ty unknown) }
{
    is_known_absent(unknown, solved, known, classifier) || is_absent(solved.ty(unknown), classifier)
}

/// Whether it stands nowhere in what is known of a binder.
fn is_absent_at(
    binder: Binder,
    solved: &Solved,
    known: &[Option<BTreeSet<u64>>],
    classifier: u64,
) -> bool
    requires inside { SlotBelow (length solved.now.types) (length solved.now.classifiers)
        (slot_of binder) }
    requires known { Knows solved.now known.now }
    ensures { IsTrue result
        ↔ IsAbsentAt classifier (entry_of (least_of solved.now) (slot_of binder)) }
{
    match binder {
        Binder::Plain(u) => is_absent_in(u, solved, known, classifier),
        Binder::Quoted(c, u) => {
            solved.classifier(c) != classifier && is_absent_in(u, solved, known, classifier)
        }
    }
}

/// Whether it stands nowhere in the environment.
fn is_absent_from(
    scope: &[Binder],
    solved: &Solved,
    known: &[Option<BTreeSet<u64>>],
    classifier: u64,
) -> bool
    requires inside { SlotsBelow (length solved.now.types) (length solved.now.classifiers)
        (map slot_of scope.now) }
    requires known { Knows solved.now known.now }
    ensures { IsTrue result
        ↔ IsAbsent classifier (map (entry_of (least_of solved.now)) (map slot_of scope.now)) }
{
    for binder in scope {
        if !is_absent_at(*binder, solved, known, classifier) {
            return false;
        }
    }
    true
}

/// The offset of the first `close` whose classifier stands in its environment. The classifiers of a type are looked for
/// once, where the types are in so many trees.
pub fn first_open(
    alloc: Global,
    closes: &[Spot],
    solved: &Solved,
    trees: u64,
) -> Result<Option<u32>, AllocError>
    requires { ClosesBelow (length solved.now.types) (length solved.now.classifiers)
        (closes_of closes.now) }
    ensures { IfOk result
        (λ found. MatchOption found (AreFresh (least_of solved.now) (closes_of closes.now))
        (IsFirstOpenAt (substitution_of solved.now) (closes_of closes.now))) }
{
    let trees = if closes.is_empty() { 0 } else { trees };
    let mut known = nothing_known(alloc, trees as usize)?;
    for spot in closes {
        let classifier = solved.classifier(spot.classifier);
        let scope = spot.scope.as_slice();
        learn_all(alloc, scope, solved, &mut known)?;
        if !is_absent_from(scope, solved, known.as_slice(), classifier) {
            return Ok(Some(spot.at));
        }
    }
    Ok(None)
}

/// The nearest binder in whose entry it stands, by the number of binders between, if there is one.
fn holder(scope: &[Binder], solved: &Solved, classifier: u64) -> Option<usize>
    requires { SlotsBelow (length solved.now.types) (length solved.now.classifiers)
        (map slot_of scope.now) }
    ensures { MatchOption result
        (IsAbsent classifier (map (entry_of (least_of solved.now)) (map slot_of scope.now)))
        (IsNearest (substitution_of solved.now) classifier (map slot_of scope.now)) }
{
    for binder in 0..scope.len() {
        if !is_absent_at(scope[binder], solved, &[], classifier) {
            return Some(binder);
        }
    }
    None
}

/// The nearest of the binders that hold it and are named in this code, or the nearest of all that hold it where none of
/// them is.
fn told_binder(
    alloc: Global,
    scope: &[Binder],
    solved: &Solved,
    classifier: u64,
    code: &Term,
    nearest: usize,
) -> Result<usize, AllocError>
    requires below { SlotsBelow (length solved.now.types) (length solved.now.classifiers)
        (map slot_of scope.now) }
    requires count { CanCount 0 (expression_of code.now) }
    requires nearest { IsNearest (substitution_of solved.now) classifier (map slot_of scope.now)
        nearest }
    ensures { IfOk result (IsToldBinder (substitution_of solved.now) classifier
        (map slot_of scope.now) (expression_of code.now)) }
{
    let marks = occurring(alloc, code, scope.len())?;
    let named = marks.as_slice();
    for binder in 0..scope.len() {
        if named[binder] {
            if !is_absent_at(scope[binder], solved, &[], classifier) {
                return Ok(binder);
            }
        }
    }
    Ok(nearest)
}

/// The first `close` of a term whose classifier stands in its environment: its offset, and the binder that is told of
/// it.
pub fn first_open_close(
    alloc: Global,
    closes: &[Spot],
    term: &Term,
    solved: &Solved,
) -> Result<Option<(u32, usize)>, AllocError>
    requires below { ClosesBelow (length solved.now.types) (length solved.now.classifiers)
        (closes_of closes.now) }
    requires codes { length closes.now ≡ length (close_contents (expression_of term.now)) }
    requires count { CanCount 0 (expression_of term.now) }
    ensures { IfOk result
        (λ found. MatchOption found (AreFresh (least_of solved.now) (closes_of closes.now))
        (λ first. IsOpenHeld (substitution_of solved.now) (closes_of closes.now)
        (close_contents (expression_of term.now)) first.0 first.1)) }
{
    for at in 0..closes.len() {
        let spot = &closes[at];
        let classifier = solved.classifier(spot.classifier);
        let scope = spot.scope.as_slice();
        if let Some(nearest) = holder(scope, solved, classifier) {
            let code = code_of(term, at);
            let binder = told_binder(alloc, scope, solved, classifier, code, nearest)?;
            return Ok(Some((spot.at, binder)));
        }
    }
    Ok(None)
}
