// The first of the faults that a walk meets.

ghost use Rattle.std.specs.Prelude.{◌≡◌, [], ◌∷◌};
ghost use Rattle.mw_scope.specs.Faults.{
  number_of,
  only_at,
  only_quoted,
  only_live,
  place_of,
  refusal_of,
};
ghost use Rattle.mw_scope.specs.Keeping.{is_before, kept};

use crate::fault::Fault;
use crate::level::Level;
use mw_term::Refusal;

/// The refusal for a fault.
pub fn refusal(fault: Fault) -> Refusal
    ensures { result ≡ refusal_of fault }
{
    match fault {
        Fault::Unbound(at) => Refusal::Unbound(at),
        Fault::Twice(at) => Refusal::Twice(at),
        Fault::NotValue(at) => Refusal::NotValue(at),
        Fault::WrongLevel(at) => Refusal::Level(at),
    }
}

/// The offset of a fault.
fn place(fault: Fault) -> u32
    ensures { result ≡ place_of fault }
{
    match fault {
        Fault::Unbound(at) | Fault::Twice(at) | Fault::NotValue(at) | Fault::WrongLevel(at) => at,
    }
}

/// The number of a fault among the refusals.
fn number(fault: Fault) -> u8
    ensures { result ≡ number_of fault }
{
    match fault {
        Fault::Unbound(_) => 8,
        Fault::Twice(_) => 9,
        Fault::NotValue(_) => 10,
        Fault::WrongLevel(_) => 11,
    }
}

/// Whether a fault stands at a smaller offset than another, or at the same one with a smaller number.
fn comes_before(fault: Fault, other: Fault) -> bool
    ensures { result ≡ is_before fault other }
{
    let here = place(fault);
    let there = place(other);
    here < there || here == there && number(fault) < number(other)
}

/// Keeps a fault in place of none and of one that it comes before.
pub fn keep(first: &mut Option<Fault>, fault: Fault)
    ensures { first.new ≡ kept first.old (fault ∷ []) }
{
    match *first {
        None => *first = Some(fault),
        Some(other) => {
            if comes_before(fault, other) {
                *first = Some(fault);
            }
        }
    }
}

/// Keeps the fault of what stands at level 1 and belongs at level 0, if it does.
pub fn keep_if_quoted(first: &mut Option<Fault>, level: Level, at: u32)
    ensures { first.new ≡ kept first.old (only_live level at) }
{
    match level {
        Level::Live => {}
        Level::Quoted => keep(first, Fault::WrongLevel(at)),
    }
}

/// Keeps the fault of what stands at level 0 and belongs at level 1, if it does.
pub fn keep_if_live(first: &mut Option<Fault>, level: Level, at: u32)
    ensures { first.new ≡ kept first.old (only_quoted level at) }
{
    match level {
        Level::Live => keep(first, Fault::WrongLevel(at)),
        Level::Quoted => {}
    }
}

/// Keeps the fault of a name that isn't used at its binder's level, if it isn't.
pub fn keep_at(first: &mut Option<Fault>, bound: Level, level: Level, at: u32)
    ensures { first.new ≡ kept first.old (only_at bound level at) }
{
    match bound {
        Level::Live => keep_if_quoted(first, level, at),
        Level::Quoted => keep_if_live(first, level, at),
    }
}
