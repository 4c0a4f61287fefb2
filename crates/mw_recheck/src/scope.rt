// The binders in scope inside a term, by the places of their types' lines.

ghost use Rattle.std.specs.Prelude.{◌≡◌, true, slice_get, IfOk};
ghost use Rattle.std.specs.Option.{option_map};
ghost use Rattle.mw_recheck.specs.Judging.{placed, same_binder};
ghost use Rattle.mw_recheck.specs.Views.{level_at, binder_of, binders_of, places_of, is_named};

use std::alloc::{AllocError, Global};

/// The level of a term: 0, or 1 under a classifier.
#[derive(Clone, Copy)]
pub enum Level {
    Live,
    Under(u64),
}

/// A binder: the place of its type's line, at level 1 after its classifier.
#[derive(Clone, Copy)]
pub enum Binder {
    Plain(usize),
    Quoted(u64, usize),
}

/// The binders in scope, the nearest first.
#[derive(Clone, Copy)]
pub enum Scope<'a> {
    Empty,
    Bound(Binder, &'a Scope<'a>),
}

/// A binder at the level where it stands.
pub fn bound(level: Level, place: usize) -> Binder
    ensures { binder_of result ≡ placed (level_at level) place }
{
    match level {
        Level::Live => Binder::Plain(place),
        Level::Under(classifier) => Binder::Quoted(classifier, place),
    }
}

/// The binder of a variable, by the number of binders between.
fn find(scope: &Scope, number: u32) -> Option<Binder>
    ensures { option_map binder_of result ≡ slice_get (binders_of scope.now) number }
{
    match scope {
        Scope::Empty => None,
        Scope::Bound(nearest, outer) => {
            if number == 0 {
                Some(*nearest)
            } else {
                find(outer, number - 1)
            }
        }
    }
}

/// Whether a variable's binder stands at this level, and its type at this place.
pub fn is_bound(scope: &Scope, number: u32, level: Level, place: usize) -> bool
    ensures { result
        ≡ same_binder (slice_get (binders_of scope.now) number) (placed (level_at level) place) }
{
    match (find(scope, number), level) {
        (Some(Binder::Plain(own)), Level::Live) => own == place,
        (Some(Binder::Quoted(classifier, own)), Level::Under(under)) => {
            classifier == under && own == place
        }
        _ => false,
    }
}

/// The places of the binders' types.
pub fn places(alloc: Global, scope: &Scope) -> Result<Vec<usize>, AllocError>
    ensures { IfOk result (λ places. places.items ≡ places_of (binders_of scope.now)) }
{
    let mut places = Vec::new(alloc);
    let mut rest = scope;
    while let Scope::Bound(nearest, outer) = rest {
        match nearest {
            Binder::Plain(place) | Binder::Quoted(_, place) => places.push(*place)?,
        }
        rest = outer;
    }
    Ok(places)
}

/// Whether a binder stands under the classifier.
pub fn is_named(scope: &Scope, classifier: u64) -> bool
    ensures { result ≡ is_named classifier (binders_of scope.now) }
{
    let mut rest = scope;
    while let Scope::Bound(nearest, outer) = rest {
        if matches!(nearest, Binder::Quoted(other, _) if *other == classifier) {
            return true;
        }
        rest = outer;
    }
    false
}
