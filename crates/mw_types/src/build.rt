// Types as nodes of a state.

ghost use Rattle.std.specs.Prelude.{◌+◌, ◌≡◌, ◌≢◌, ◌<◌, ◌≤◌, length, IfOk};
ghost use Rattle.mw_types.specs.Grows.{Grew};
ghost use Rattle.mw_types.specs.Types.{value, type_of, Within};
ghost use Rattle.mw_types.specs.Satisfying.{StaysShaped, Sound, Inside, Meets};

use crate::state::{Shape, State};
use crate::types::Ty;
use std::alloc::AllocError;

/// One more node, of a shape.
#[inline(always)]
pub fn node(state: &mut State, shape: Shape) -> Result<usize, AllocError>
    requires sound { Sound state.old }
    requires inside { Inside (length state.old.parent.items) (length state.old.classifier.items)
        shape }
    ensures grew { IfOk result (λ i. Grew state.old state.new (λ a. Meets shape (a.ty i) a)) }
    ensures inside { IfOk result (λ i. i < length state.new.parent.items) }
    ensures one { IfOk result
        (λ _. length state.new.parent.items ≡ length state.old.parent.items + 1) }
    ensures shaped { IfOk result (λ _. shape ≢ Shape.Free → StaysShaped state.old state.new) }
{
    let next = state.parent.len();
    state.parent.push(next)?;
    state.shape.push(shape)?;
    Ok(next)
}

/// The node of a type.
#[inline(always)]
pub fn add(state: &mut State, ty: &Ty, unknowns: usize) -> Result<usize, AllocError>
    requires sound { Sound state.old }
    requires inside { Within unknowns (length state.old.classifier.items) (type_of ty.now) }
    requires room { unknowns ≤ length state.old.parent.items }
    ensures grew { IfOk result
        (λ i. Grew state.old state.new (λ a. a.ty i ≡ value a (type_of ty.now))) }
    ensures inside { IfOk result (λ i. i < length state.new.parent.items) }
    ensures shaped { IfOk result (λ _. StaysShaped state.old state.new) }
{
    match ty {
        Ty::Int => node(state, Shape::Int),
        Ty::Bool => node(state, Shape::Bool),
        Ty::Unknown(u) => Ok(*u as usize),
        Ty::Pair(s, t) => {
            let left = add(state, s, unknowns)?;
            let right = add(state, t, unknowns)?;
            node(state, Shape::Pair(left, right))
        }
        Ty::Arrow(s, t) => {
            let left = add(state, s, unknowns)?;
            let right = add(state, t, unknowns)?;
            node(state, Shape::Arrow(left, right))
        }
        Ty::Code(c, t) => {
            let below = add(state, t, unknowns)?;
            node(state, Shape::Code(*c as usize, below))
        }
        Ty::Closed(t) => {
            let below = add(state, t, unknowns)?;
            node(state, Shape::Closed(below))
        }
    }
}
