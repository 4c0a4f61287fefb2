// Turns, and whole bodies.

ghost use Rattle.std.specs.Prelude.{◌≡◌, ◌∷◌, is_none, IfOk};
ghost use Rattle.mw_wasm.specs.Views.{code_of};
ghost use Rattle.mw_validate.specs.Turns.{Turned, context_in, body_passes};

use crate::context::Surroundings;
use crate::frames::{Checking, Kind, Turn, enter, leave, next_instruction};
use crate::operands::{no_operands, pop};
use crate::plain::{drop_one, plain, select_one};
use mw_wasm::{Instr, Instrs, ValType};
use std::alloc::{AllocError, Global};

/// One instruction, behind which this code stands.
#[tactic(auto, using(crate::proofs::CheckTurns::plain_turn, crate::proofs::CheckTurns::failed_turn, crate::proofs::CheckTurns::if_failed))]
fn step<'m>(
    alloc: Global,
    within: &Surroundings<'m>,
    state: &mut Checking<'m>,
    instruction: &'m Instr,
    rest: &'m [Instr],
) -> Result<Turn, AllocError>
    requires { state.old.code.now ≡ instruction.now ∷ rest.now }
    ensures { IfOk result (λ u. Turned (context_in within.now) u state.old state.new) }
{
    match instruction {
        Instr::Block(t, body) => {
            enter(alloc, state, Kind::Block, *t, body, rest)?;
            Ok(Turn::On)
        }
        Instr::Loop(t, body) => {
            enter(alloc, state, Kind::Loop, *t, body, rest)?;
            Ok(Turn::On)
        }
        Instr::If(t, first, second) => {
            if !pop(&mut state.list, ValType::I32) {
                return Ok(Turn::Failed);
            }
            enter(alloc, state, Kind::First(second), *t, first, rest)?;
            Ok(Turn::On)
        }
        Instr::Drop => {
            if drop_one(&mut state.list) {
                state.code = rest;
                Ok(Turn::On)
            } else {
                Ok(Turn::Failed)
            }
        }
        Instr::Select => {
            if select_one(&mut state.list)? {
                state.code = rest;
                Ok(Turn::On)
            } else {
                Ok(Turn::Failed)
            }
        }
        Instr::Unreachable
        | Instr::Nop
        | Instr::Br(_)
        | Instr::BrIf(_)
        | Instr::BrTable(_, _)
        | Instr::Return
        | Instr::Call(_)
        | Instr::CallIndirect(_)
        | Instr::LocalGet(_)
        | Instr::LocalSet(_)
        | Instr::LocalTee(_)
        | Instr::GlobalGet(_)
        | Instr::GlobalSet(_)
        | Instr::Load(_, _, _)
        | Instr::Store(_, _, _)
        | Instr::MemorySize
        | Instr::MemoryGrow
        | Instr::ConstI32(_)
        | Instr::ConstI64(_)
        | Instr::Num(_) => {
            if plain(
                within,
                state.frames.as_slice(),
                instruction,
                &mut state.list,
            )? {
                state.code = rest;
                Ok(Turn::On)
            } else {
                Ok(Turn::Failed)
            }
        }
    }
}

/// One instruction, or the end of the code in hand.
fn turn<'m>(
    alloc: Global,
    within: &Surroundings<'m>,
    state: &mut Checking<'m>,
) -> Result<Turn, AllocError>
    ensures { IfOk result (λ u. Turned (context_in within.now) u state.old state.new) }
{
    match next_instruction(state.code) {
        None => leave(alloc, within, state),
        Some((instruction, rest)) => {
            state.seen = state.seen.saturating_add(1);
            step(alloc, within, state, instruction, rest)
        }
    }
}

/// None where a body gives its results; else the index of the last instruction that was looked at, those inside lists
/// counted too.
pub fn first_failing<'m>(
    alloc: Global,
    within: &Surroundings<'m>,
    body: &'m Instrs,
) -> Result<Option<u32>, AllocError>
    ensures { IfOk result
        (λ at. is_none at ≡ body_passes (context_in within.now) (code_of body.now)) }
{
    let mut state = Checking {
        frames: Vec::new(alloc),
        list: no_operands(alloc),
        code: body.as_slice(),
        seen: 0,
    };
    loop {
        match turn(alloc, within, &mut state) {
            Err(e) => return Err(e),
            Ok(Turn::Passed) => return Ok(None),
            Ok(Turn::Failed) => return Ok(Some(state.seen.saturating_sub(1))),
            Ok(Turn::On) => {}
        }
    }
}
