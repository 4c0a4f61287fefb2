// The classifiers that types name, kept by the trees that hold the types.

ghost use Rattle.std.specs.Prelude.{◌<◌, IfOk, IsTrue, OnOk, length, map};
ghost use Rattle.mw_term.specs.Types.{IsAbsentIn};
ghost use Rattle.mw_types.specs.Solutions.{Solution};
ghost use Rattle.mw_types.specs.Types.{type_of};
ghost use Rattle.mw_infer.specs.Below.{SlotBelow, SlotsBelow};
ghost use Rattle.mw_infer.specs.Judging.{least_of};
ghost use Rattle.mw_infer.specs.Known.{Collects, HoldsAll, Knows};
ghost use Rattle.mw_infer.specs.Views.{slot_of};

use crate::scope::Binder;
use mw_types::{Solved, Ty};
use std::alloc::{AllocError, Global};
use std::collections::BTreeSet;

/// Nothing is known of so many trees.
pub fn nothing_known(alloc: Global, trees: usize) -> Result<Vec<Option<BTreeSet<u64>>>, AllocError>
    ensures { IfOk result (λ known. (s : Solution) → Knows s known.items) }
{
    let mut known = Vec::new(alloc);
    for _tree in 0..trees {
        known.push(None)?;
    }
    Ok(known)
}

/// Adds the classifiers of a type.
fn collect(ty: &Ty, set: &mut BTreeSet<u64>) -> Result<(), AllocError>
    ensures { OnOk result (Collects set.old set.new (type_of ty.now)) }
{
    match ty {
        Ty::Int | Ty::Bool | Ty::Unknown(_) => Ok(()),
        Ty::Pair(s, t) | Ty::Arrow(s, t) => {
            collect(s, set)?;
            collect(t, set)
        }
        Ty::Code(c, t) => {
            set.insert(*c)?;
            collect(t, set)
        }
        Ty::Closed(t) => collect(t, set),
    }
}

/// The classifiers of a type.
fn classifiers_of(alloc: Global, ty: &Ty) -> Result<BTreeSet<u64>, AllocError>
    ensures { IfOk result (λ set. HoldsAll set (type_of ty.now)) }
{
    let mut set = BTreeSet::new(alloc);
    collect(ty, &mut set)?;
    Ok(set)
}

/// Makes the classifiers of a binder's type known.
fn learn(
    alloc: Global,
    binder: Binder,
    solved: &Solved,
    known: &mut Vec<Option<BTreeSet<u64>>>,
) -> Result<(), AllocError>
    requires inside { SlotBelow (length solved.now.types) (length solved.now.classifiers)
        (slot_of binder) }
    requires known { Knows solved.now known.old.items }
    ensures { OnOk result (Knows solved.now known.new.items) }
{
    let unknown = match binder {
        Binder::Plain(u) => u,
        Binder::Quoted(_, u) => u,
    };
    let tree = solved.root(unknown) as usize;
    if tree < known.len() && known[tree].is_none() {
        let set = classifiers_of(alloc, solved.ty(unknown))?;
        known[tree] = Some(set);
    }
    Ok(())
}

/// Makes the classifiers of all types in scope known.
pub fn learn_all(
    alloc: Global,
    scope: &[Binder],
    solved: &Solved,
    known: &mut Vec<Option<BTreeSet<u64>>>,
) -> Result<(), AllocError>
    requires inside { SlotsBelow (length solved.now.types) (length solved.now.classifiers)
        (map slot_of scope.now) }
    requires known { Knows solved.now known.old.items }
    ensures { OnOk result (Knows solved.now known.new.items) }
{
    for binder in scope {
        learn(alloc, *binder, solved, known)?;
    }
    Ok(())
}

/// Whether it is known that a classifier unknown stands nowhere in an unknown's type.
pub fn is_known_absent(
    unknown: u64,
    solved: &Solved,
    known: &[Option<BTreeSet<u64>>],
    classifier: u64,
) -> bool
    requires inside { unknown < length solved.now.types }
    requires known { Knows solved.now known.now }
    ensures { IsTrue result → IsAbsentIn classifier ((least_of solved.now).ty unknown) }
{
    match known.get(solved.root(unknown) as usize) {
        Some(Some(set)) => !set.contains(&classifier),
        _ => false,
    }
}
