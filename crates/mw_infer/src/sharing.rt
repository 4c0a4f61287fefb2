// An item's equations as they are solved. A name whose type has nothing open may be used often: then the type stands in
// the equation of one use, and the others are made one with that.

ghost use Rattle.std.specs.Prelude.{◌≡◌, ◌∷◌, [], ◌++◌, map, IfOk, IfSome, Some, slice_get};
ghost use Rattle.mw_types.specs.Types.{type_of, unknown};
ghost use Rattle.mw_types.specs.Equations.{equation_of, equations_of};
ghost use Rattle.mw_infer.specs.ItemEquations.{equation};
ghost use Rattle.mw_infer.specs.Sharing.{Alike, IsUseIn, SharesUse, meaning, use_equation};
ghost use Rattle.mw_infer.specs.Views.{tops_of};

use crate::names::TopScheme;
use crate::output::Emitted;
use crate::own::lookup;
use crate::program::scheme_ty;
use mw_types::{Equation, Pairs, Ty};
use std::alloc::{AllocError, Global};

/// A use of a name, whose equation has the name's type.
#[derive(Clone, Copy)]
pub struct FirstUse {
    pub name: u32,
    pub own: u64,
}

/// The equation of a use of a name.
fn use_in_full(
    alloc: Global,
    names: &[TopScheme],
    own: u64,
    name: u32,
) -> Result<Equation, AllocError>
    ensures { IfOk result (λ e. equation_of e ≡ use_equation (tops_of names.now) own name) }
{
    let right = match lookup(names, name) {
        Some(named) => scheme_ty(alloc, named)?,
        None => Ty::Int,
    };
    Ok(Equation {
        left: Ty::Unknown(own),
        right,
    })
}

/// The unknown of a name's first use, if the mark is right.
fn first_use(firsts: &[FirstUse], marks: &[usize], name: u32) -> Option<u64>
    ensures { IfSome result (IsUseIn firsts.now name) }
{
    let mark = marks.get(name as usize)?;
    let first = firsts.get(*mark)?;
    if first.name == name {
        Some(first.own)
    } else {
        None
    }
}

/// Adds a first use, and marks its place.
fn mark_use(
    firsts: &mut Vec<FirstUse>,
    marks: &mut Vec<usize>,
    name: u32,
    own: u64,
) -> Result<(), AllocError>
    ensures { IfOk result
        (λ _. firsts.new.items ≡ firsts.old.items ++ (record { name = name; own = own } ∷ [])) }
{
    let place = firsts.len();
    firsts.push(FirstUse { name, own })?;
    if (name as usize) < marks.len() {
        marks[name as usize] = place;
    }
    Ok(())
}

/// The equation of a use of a name: in full, or where there was a use before as one with that.
fn use_shared(
    alloc: Global,
    names: &[TopScheme],
    firsts: &mut Vec<FirstUse>,
    marks: &mut Vec<usize>,
    own: u64,
    name: u32,
) -> Result<Equation, AllocError>
    ensures { IfOk result
        (SharesUse (tops_of names.now) firsts.old.items firsts.new.items own name) }
{
    if let Some(first) = first_use(firsts.as_slice(), marks.as_slice(), name) {
        return Ok(Equation {
            left: Ty::Unknown(own),
            right: Ty::Unknown(first),
        });
    }
    mark_use(firsts, marks, name, own)?;
    use_in_full(alloc, names, own, name)
}

/// Equations with the solutions of those that were emitted, front by front. The marks have for each name the place of
/// its first use where it was last used; a mark that is wrong is found out.
pub fn shared(
    alloc: Global,
    names: &[TopScheme],
    emitted: Vec<Emitted>,
    marks: &mut Vec<usize>,
) -> Result<Pairs, AllocError>
    ensures { IfOk result
        (λ pairs. Alike (map (meaning (tops_of names.now)) emitted.items) (equations_of pairs)) }
{
    let mut pairs = Pairs::new(alloc);
    let mut firsts = Vec::new(alloc);
    for one in emitted {
        let equation = match one {
            Emitted::Written(equation) => equation,
            Emitted::NameUse(own, name) => {
                use_shared(alloc, names, &mut firsts, marks, own, name)?
            }
        };
        pairs.push(equation)?;
    }
    Ok(pairs)
}

/// The equations that were emitted.
pub fn in_full(
    alloc: Global,
    names: &[TopScheme],
    emitted: Vec<Emitted>,
) -> Result<Pairs, AllocError>
    ensures { IfOk result
        (λ pairs. equations_of pairs ≡ map (meaning (tops_of names.now)) emitted.items) }
{
    let mut pairs = Pairs::new(alloc);
    for one in emitted {
        let equation = match one {
            Emitted::Written(equation) => equation,
            Emitted::NameUse(own, name) => use_in_full(alloc, names, own, name)?,
        };
        pairs.push(equation)?;
    }
    Ok(pairs)
}
