// What instructions take and give.

ghost use Rattle.std.specs.Prelude.{◌≡◌, false};
ghost use Rattle.mw_wasm.specs.Views.{instruction_of};
ghost use Rattle.mw_validate.specs.Checks.{effect as effect_here};
ghost use Rattle.mw_validate.specs.Turns.{context_at};
ghost use Rattle.mw_validate.specs.Effects.{IsEffect};

use crate::access::{
    is_aligned, load_size, load_type, numeric_operands, numeric_result, store_operands, store_size,
};
use crate::context::{Surroundings, global, label, local, type_at, type_of};
use crate::frames::{Frame, types_of};
use mw_wasm::{Instr, ValType};

/// The operands that an instruction takes, a condition above them where it takes one, and those that it gives.
#[derive(Clone, Copy)]
pub struct Effect<'m> {
    pub takes: &'m [ValType],
    pub condition: bool,
    pub gives: &'m [ValType],
}

fn effect_of<'m>(takes: &'m [ValType], gives: &'m [ValType]) -> Effect<'m>
    ensures takes { result.takes.now ≡ takes.now }
    ensures gives { result.gives.now ≡ gives.now }
    ensures condition { result.condition ≡ false }
{
    Effect {
        takes,
        condition: false,
        gives,
    }
}

/// The effect of an instruction that goes on and opens no list.
pub fn effect_in<'m>(
    within: &Surroundings<'m>,
    frames: &[Frame<'m>],
    instruction: &'m Instr,
) -> Option<Effect<'m>>
    ensures { IsEffect result
        (effect_here (context_at within.now frames.now) (instruction_of instruction.now)) }
{
    match instruction {
        Instr::Nop => Some(effect_of(&[], &[])),
        Instr::BrIf(l) => match label(within, frames, *l) {
            None => None,
            Some(types) => Some(Effect {
                takes: types,
                condition: true,
                gives: types,
            }),
        },
        Instr::Call(f) => match type_of(within, *f) {
            None => None,
            Some(t) => Some(effect_of(t.params.as_slice(), t.results.as_slice())),
        },
        Instr::CallIndirect(k) => {
            if within.wasm.table.is_none() {
                return None;
            }
            match type_at(within, *k) {
                None => None,
                Some(t) => Some(Effect {
                    takes: t.params.as_slice(),
                    condition: true,
                    gives: t.results.as_slice(),
                }),
            }
        }
        Instr::LocalGet(x) => match local(within, *x) {
            None => None,
            Some(t) => Some(effect_of(&[], types_of(Some(t)))),
        },
        Instr::LocalSet(x) => match local(within, *x) {
            None => None,
            Some(t) => Some(effect_of(types_of(Some(t)), &[])),
        },
        Instr::LocalTee(x) => match local(within, *x) {
            None => None,
            Some(t) => Some(effect_of(types_of(Some(t)), types_of(Some(t)))),
        },
        Instr::GlobalGet(x) => match global(within, *x) {
            None => None,
            Some((t, _)) => Some(effect_of(&[], types_of(Some(t)))),
        },
        Instr::GlobalSet(x) => match global(within, *x) {
            None => None,
            Some((t, variable)) => {
                if variable {
                    Some(effect_of(types_of(Some(t)), &[]))
                } else {
                    None
                }
            }
        },
        Instr::Load(op, align, _) => {
            if within.wasm.memory.is_none() || !is_aligned(*align, load_size(*op)) {
                return None;
            }
            Some(effect_of(&[ValType::I32], types_of(Some(load_type(*op)))))
        }
        Instr::Store(op, align, _) => {
            if within.wasm.memory.is_none() || !is_aligned(*align, store_size(*op)) {
                return None;
            }
            Some(effect_of(store_operands(*op), &[]))
        }
        Instr::MemorySize => {
            if within.wasm.memory.is_none() {
                return None;
            }
            Some(effect_of(&[], &[ValType::I32]))
        }
        Instr::MemoryGrow => {
            if within.wasm.memory.is_none() {
                return None;
            }
            Some(effect_of(&[ValType::I32], &[ValType::I32]))
        }
        Instr::ConstI32(_) => Some(effect_of(&[], &[ValType::I32])),
        Instr::ConstI64(_) => Some(effect_of(&[], &[ValType::I64])),
        Instr::Num(op) => Some(effect_of(
            numeric_operands(*op),
            types_of(Some(numeric_result(*op))),
        )),
        Instr::Unreachable => None,
        Instr::Block(_, _) => None,
        Instr::Loop(_, _) => None,
        Instr::If(_, _, _) => None,
        Instr::Br(_) => None,
        Instr::BrTable(_, _) => None,
        Instr::Return => None,
        Instr::Drop => None,
        Instr::Select => None,
    }
}
