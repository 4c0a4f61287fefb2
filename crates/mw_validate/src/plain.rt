// Instructions without lists inside.

ghost use Rattle.std.specs.Prelude.{◌≡◌, Some, IfOk};
ghost use Rattle.mw_wasm.specs.Views.{instruction_of};
ghost use Rattle.mw_validate.specs.Checks.{pops as pops_here, goes_on, stops};
ghost use Rattle.mw_validate.specs.Lists.{operands_of, Leaves};
ghost use Rattle.mw_validate.specs.Turns.{after_in};
ghost use Rattle.mw_validate.specs.Effects.{taken_by, effect_of, IsPlain, dropped, selected};

use crate::branches::last_in;
use crate::context::Surroundings;
use crate::effects::{Effect, effect_in};
use crate::frames::Frame;
use crate::operands::{OperandList, join, pop, pop_any, pops, push, pushes};
use mw_wasm::{Instr, ValType};
use std::alloc::AllocError;

#[tactic(auto, using(crate::proofs::ByEffect::pops_last, crate::proofs::ByEffect::pops_no_last))]
fn take_all(list: &mut OperandList, effect: &Effect<'_>) -> bool
    ensures { Leaves result (pops_here (taken_by effect.now) (operands_of list.old)) list.new }
{
    if effect.condition {
        if !pop(list, ValType::I32) {
            return false;
        }
        return pops(list, effect.takes);
    }
    pops(list, effect.takes)
}

fn go_on(list: &mut OperandList, effect: &Effect<'_>) -> Result<bool, AllocError>
    ensures { IfOk result
        (λ b. Leaves b (goes_on (effect_of effect.now) (operands_of list.old)) list.new) }
{
    if !take_all(list, effect) {
        return Ok(false);
    }
    pushes(list, effect.gives)?;
    Ok(true)
}

/// The rest of the list isn't reached.
fn stop(list: &mut OperandList, effect: &Effect<'_>) -> bool
    ensures { Leaves result (stops (Some (taken_by effect.now)) (operands_of list.old)) list.new }
{
    if !take_all(list, effect) {
        return false;
    }
    list.items.clear();
    list.dead = true;
    true
}

/// An instruction without lists, whose operands have types.
#[tactic(auto, using(crate::proofs::ByEffect::effect_is, crate::proofs::ByEffect::last_is, crate::proofs::ByEffect::neither))]
pub fn plain<'m>(
    within: &Surroundings<'m>,
    frames: &[Frame<'m>],
    instruction: &'m Instr,
    list: &mut OperandList,
) -> Result<bool, AllocError>
    requires { IsPlain (instruction_of instruction.now) }
    ensures { IfOk result
        (λ b. Leaves b (after_in within.now frames.now instruction.now list.old) list.new) }
{
    match effect_in(within, frames, instruction) {
        Some(effect) => go_on(list, &effect),
        None => match last_in(within, frames, instruction) {
            Some(effect) => Ok(stop(list, &effect)),
            None => Ok(false),
        },
    }
}

/// An operand of any type is taken away. Answers whether there was one.
#[tactic(auto, using(crate::proofs::ByEffect::dropped_one, crate::proofs::ByEffect::dropped_none))]
pub fn drop_one(list: &mut OperandList) -> bool
    ensures { Leaves result (dropped (operands_of list.old)) list.new }
{
    pop_any(list).is_some()
}

/// Two operands of one type, of which one is chosen.
#[tactic(auto, using(crate::proofs::ByEffect::select_laws))]
pub fn select_one(list: &mut OperandList) -> Result<bool, AllocError>
    ensures { IfOk result (λ b. Leaves b (selected (operands_of list.old)) list.new) }
{
    if !pop(list, ValType::I32) {
        return Ok(false);
    }
    match pop_any(list) {
        None => Ok(false),
        Some(a) => match pop_any(list) {
            None => Ok(false),
            Some(b) => match join(a, b) {
                None => Ok(false),
                Some(t) => {
                    push(list, t)?;
                    Ok(true)
                }
            },
        },
    }
}
