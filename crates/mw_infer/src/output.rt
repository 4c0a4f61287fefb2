// Equations and closes as they are emitted.

ghost use Rattle.std.specs.Prelude.{[], ◌∷◌, OnOk};
ghost use Rattle.mw_types.specs.Types.{type_of};
ghost use Rattle.mw_infer.specs.ItemEquations.{equation};
ghost use Rattle.mw_infer.specs.Emitting.{Adds};
ghost use Rattle.mw_infer.specs.Sharing.{use_equation};
ghost use Rattle.mw_infer.specs.Views.{tops_of};

use crate::names::TopScheme;
use crate::scope::Binder;
use mw_types::{Equation, Ty};
use std::alloc::AllocError;

/// A `close`: its offset in the source, the classifier unknown of its code, and the binders in scope, the nearest
/// first.
#[derive(Drop)]
pub struct Spot {
    pub at: u32,
    pub classifier: u64,
    pub scope: Vec<Binder>,
}

/// An equation.
#[derive(Drop)]
pub enum Emitted {
    Written(Equation),
    /// An unknown is to be the type of a top-level name, by the name's number. The type has nothing open.
    NameUse(u64, u32),
}

/// The equations and closes so far, and the next free numbers of unknowns and classifier unknowns.
#[derive(Drop)]
pub struct Output<'n, 'p> {
    pub unknowns: u64,
    pub classifiers: u64,
    pub equations: Vec<Emitted>,
    pub closes: Vec<Spot>,
    pub names: &'n [TopScheme<'p>],
}

/// Makes two types one.
#[inline(always)]
pub fn equate(out: &mut Output, left: Ty, right: Ty) -> Result<(), AllocError>
    ensures { OnOk result
        (Adds out.old out.new 0 0 (equation (type_of left) (type_of right) ∷ []) []) }
{
    out.equations
        .push(Emitted::Written(Equation { left, right }))?;
    Ok(())
}

/// Makes an unknown one with the type of a name that has nothing open, by the name's number. The type isn't copied.
pub fn equate_use(out: &mut Output, own: u64, name: u32) -> Result<(), AllocError>
    ensures { OnOk result
        (Adds out.old out.new 0 0 (use_equation (tops_of out.old.names.now) own name ∷ []) []) }
{
    out.equations.push(Emitted::NameUse(own, name))?;
    Ok(())
}
