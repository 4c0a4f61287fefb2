// The binders in scope inside a term.

ghost use Rattle.std.specs.Prelude.{◌≡◌, map, slice_get, IfOk};
ghost use Rattle.std.specs.Option.{option_map};
ghost use Rattle.mw_infer.specs.Views.{slot_of, slots_of};

use std::alloc::{AllocError, Global};

/// The level of a term: 0, or 1 under a classifier unknown.
#[derive(Clone, Copy)]
pub enum Level {
    Live,
    Under(u64),
}

/// A binder: its unknown, after the classifier unknown of one at level 1.
#[derive(Clone, Copy)]
pub enum Binder {
    Plain(u64),
    Quoted(u64, u64),
}

/// The binders in scope, the nearest first.
#[derive(Clone, Copy)]
pub enum Scope<'a> {
    Empty,
    Bound(Binder, &'a Scope<'a>),
}

/// The binder of a variable, by the number of binders between.
pub fn find(scope: &Scope, number: u32) -> Option<Binder>
    ensures { option_map slot_of result ≡ slice_get (slots_of scope.now) number }
{
    match scope {
        Scope::Empty => None,
        Scope::Bound(nearest, outer) => {
            if number == 0 {
                Some(*nearest)
            } else {
                find(outer, number - 1)
            }
        }
    }
}

/// The binders as a list.
pub fn listed(alloc: Global, scope: &Scope) -> Result<Vec<Binder>, AllocError>
    ensures { IfOk result (λ list. map slot_of list.items ≡ slots_of scope.now) }
{
    let mut list = Vec::new(alloc);
    let mut rest = scope;
    while let Scope::Bound(nearest, outer) = rest {
        list.push(*nearest)?;
        rest = outer;
    }
    Ok(list)
}
