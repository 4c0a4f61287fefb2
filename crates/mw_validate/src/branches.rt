// Branches, and what ends code.

ghost use Rattle.std.specs.Prelude.{◌≡◌, slice_get};
ghost use Rattle.mw_wasm.specs.Views.{instruction_of};
ghost use Rattle.mw_validate.specs.Checks.{same_type, same_types, takes as takes_here, all_take as all_take_here};
ghost use Rattle.mw_validate.specs.Checks.{last_pops};
ghost use Rattle.mw_validate.specs.Turns.{labels_at, context_at};
ghost use Rattle.mw_validate.specs.Effects.{IsLast};

use crate::context::{Surroundings, label};
use crate::effects::Effect;
use crate::frames::Frame;
use mw_wasm::{Instr, ValType};

fn is_same(a: ValType, b: ValType) -> bool
    ensures { result ≡ same_type a b }
{
    match a {
        ValType::I32 => match b {
            ValType::I32 => true,
            ValType::I64 => false,
        },
        ValType::I64 => match b {
            ValType::I32 => false,
            ValType::I64 => true,
        },
    }
}

#[tactic(auto, using(crate::proofs::ListComparison::compare_laws))]
fn are_same(a: &[ValType], b: &[ValType]) -> bool
    ensures { result ≡ same_types a.now b.now }
{
    if a.len() != b.len() {
        return false;
    }
    for i in 0..a.len() {
        if !is_same(a[i], b[i]) {
            return false;
        }
    }
    true
}

/// Whether a branch to this label takes these types.
fn takes(within: &Surroundings<'_>, frames: &[Frame<'_>], types: &[ValType], l: u32) -> bool
    ensures { result ≡ takes_here types.now (slice_get (labels_at within.now frames.now) l) }
{
    match label(within, frames, l) {
        None => false,
        Some(found) => are_same(found, types),
    }
}

#[tactic(auto, using(crate::proofs::ListComparison::front_laws))]
fn all_take(within: &Surroundings<'_>, frames: &[Frame<'_>], types: &[ValType], ls: &[u32]) -> bool
    ensures { result ≡ all_take_here (labels_at within.now frames.now) types.now ls.now }
{
    for i in 0..ls.len() {
        if !takes(within, frames, types, ls[i]) {
            return false;
        }
    }
    true
}

/// What is taken by an instruction behind which nothing is reached.
pub fn last_in<'m>(
    within: &Surroundings<'m>,
    frames: &[Frame<'m>],
    instruction: &'m Instr,
) -> Option<Effect<'m>>
    ensures { IsLast result
        (last_pops (context_at within.now frames.now) (instruction_of instruction.now)) }
{
    match instruction {
        Instr::Unreachable => Some(Effect {
            takes: &[],
            condition: false,
            gives: &[],
        }),
        Instr::Br(l) => match label(within, frames, *l) {
            None => None,
            Some(types) => Some(Effect {
                takes: types,
                condition: false,
                gives: &[],
            }),
        },
        Instr::BrTable(ls, l) => match label(within, frames, *l) {
            None => None,
            Some(types) => {
                if all_take(within, frames, types, ls.as_slice()) {
                    Some(Effect {
                        takes: types,
                        condition: true,
                        gives: &[],
                    })
                } else {
                    None
                }
            }
        },
        Instr::Return => Some(Effect {
            takes: within.results,
            condition: false,
            gives: &[],
        }),
        Instr::Nop => None,
        Instr::Block(_, _) => None,
        Instr::Loop(_, _) => None,
        Instr::If(_, _, _) => None,
        Instr::BrIf(_) => None,
        Instr::Call(_) => None,
        Instr::CallIndirect(_) => None,
        Instr::Drop => None,
        Instr::Select => None,
        Instr::LocalGet(_) => None,
        Instr::LocalSet(_) => None,
        Instr::LocalTee(_) => None,
        Instr::GlobalGet(_) => None,
        Instr::GlobalSet(_) => None,
        Instr::Load(_, _, _) => None,
        Instr::Store(_, _, _) => None,
        Instr::MemorySize => None,
        Instr::MemoryGrow => None,
        Instr::ConstI32(_) => None,
        Instr::ConstI64(_) => None,
        Instr::Num(_) => None,
    }
}
