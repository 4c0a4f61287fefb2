// Blocks, branches, calls and returns.

ghost use Rattle.std.specs.Prelude.{◌≡◌, ◌≤◌, List, length, map, IfOk};
ghost use Rattle.std.specs.List.{AllByRecursion};
ghost use Rattle.mw_wasm.specs.Syntax.{Instruction, PureModule, block as block_instruction, loop as loop_instruction};
ghost use Rattle.mw_wasm.specs.Syntax.{cond as cond_instruction, br, br_if, give_back as return_instruction};
ghost use Rattle.mw_wasm.specs.Syntax.{call as call_instruction};
ghost use Rattle.mw_wasm.specs.Views.{code_of, instruction_of, module_of};
ghost use Rattle.mw_exec.specs.declared.held.Contents.{Contents as WasmHeld};
ghost use Rattle.mw_exec.specs.Views.{IsFormed};
ghost use Rattle.mw_exec.specs.Acts.{IsControl};
ghost use Rattle.mw_exec.specs.Turns.{FewResults, TurnsBy};

use crate::calls::call;
use crate::held::Contents;
use crate::jumps::{branch, give_back};
use crate::labels::enter;
use crate::operands::take_i32;
use crate::state::{Kind, State, Turn};
use crate::tables::{call_indirect_now, jump_by_table};
use mw_wasm::{Instr, Instrs, Module, ValType};
use std::alloc::AllocError;

/// A block.
#[inline(always)]
pub fn block<'m>(
    state: &mut State<'m>,
    t: Option<ValType>,
    body: &'m Instrs,
) -> Result<Turn, AllocError>
    requires { IsFormed state.old }
    ensures { IfOk result
        (λ u. (m : PureModule) (h : WasmHeld) → TurnsBy m (block_instruction t (code_of body.now)) h
        state.old u state.new) }
{
    enter(state, Kind::Block(t.is_some()), body)?;
    Ok(Turn::On)
}

/// A loop.
#[inline(always)]
pub fn repeat<'m>(
    state: &mut State<'m>,
    t: Option<ValType>,
    body: &'m Instrs,
) -> Result<Turn, AllocError>
    requires { IsFormed state.old }
    ensures { IfOk result
        (λ u. (m : PureModule) (h : WasmHeld) → TurnsBy m (loop_instruction t (code_of body.now)) h
        state.old u state.new) }
{
    enter(state, Kind::Loop(t), body)?;
    Ok(Turn::On)
}

/// One of two blocks.
#[tactic(auto, using(crate::proofs::TurnRules::cond_lacks))]
#[inline(always)]
pub fn choose<'m>(
    state: &mut State<'m>,
    t: Option<ValType>,
    a: &'m Instrs,
    b: &'m Instrs,
) -> Result<Turn, AllocError>
    requires { IsFormed state.old }
    ensures { IfOk result
        (λ u. (m : PureModule) (h : WasmHeld) → TurnsBy m (cond_instruction t (code_of a.now) (code_of b.now)) h
        state.old u state.new) }
{
    let Some(n) = take_i32(state) else {
        return Ok(Turn::Lost);
    };
    if n == 0 {
        block(state, t, b)
    } else {
        block(state, t, a)
    }
}

/// A branch.
#[inline(always)]
pub fn jump<'m>(state: &mut State<'m>, l: u32) -> Turn
    requires { IsFormed state.old }
    ensures { (m : PureModule) (h : WasmHeld) → TurnsBy m (br l) h state.old result state.new }
{
    branch(state, l)
}

/// A branch where the last operand isn't 0.
#[tactic(auto, using(crate::proofs::TurnRules::if_lacks))]
#[inline(always)]
pub fn jump_if<'m>(state: &mut State<'m>, l: u32) -> Turn
    requires { IsFormed state.old }
    ensures { (m : PureModule) (h : WasmHeld) → TurnsBy m (br_if l) h state.old result state.new }
{
    let Some(n) = take_i32(state) else {
        return Turn::Lost;
    };
    if n == 0 { Turn::On } else { jump(state, l) }
}

/// A return.
#[inline(always)]
pub fn return_now<'m>(state: &mut State<'m>) -> Turn
    requires { IsFormed state.old }
    ensures { (m : PureModule) (h : WasmHeld) → TurnsBy m return_instruction h state.old result
        state.new }
{
    give_back(state)
}

/// A call.
#[inline(always)]
pub fn call_now<'m>(wasm: &'m Module, state: &mut State<'m>, f: u32) -> Result<Turn, AllocError>
    requires formed { IsFormed state.old }
    requires few { AllByRecursion FewResults wasm.now.types }
    ensures { IfOk result
        (λ u. (h : WasmHeld) → TurnsBy (module_of wasm.now) (call_instruction f) h state.old u
        state.new) }
{
    call(wasm, state, f)
}

/// An instruction of control.
#[inline(always)]
pub fn control<'m>(
    wasm: &'m Module,
    held: &Contents,
    state: &mut State<'m>,
    instruction: &'m Instr,
) -> Result<Turn, AllocError>
    requires formed { IsFormed state.old }
    requires few { AllByRecursion FewResults wasm.now.types }
    requires control { IsControl (instruction_of instruction.now) }
    ensures { IfOk result
        (λ u. TurnsBy (module_of wasm.now) (instruction_of instruction.now) held.now state.old u
        state.new) }
{
    match instruction {
        Instr::Block(t, body) => block(state, *t, body),
        Instr::Loop(t, body) => repeat(state, *t, body),
        Instr::If(t, a, b) => choose(state, *t, a, b),
        Instr::Br(l) => Ok(jump(state, *l)),
        Instr::BrIf(l) => Ok(jump_if(state, *l)),
        Instr::BrTable(labels, l) => Ok(jump_by_table(state, labels.as_slice(), *l)),
        Instr::Return => Ok(return_now(state)),
        Instr::Call(f) => call_now(wasm, state, *f),
        Instr::CallIndirect(t) => call_indirect_now(wasm, held, state, *t),
        Instr::Unreachable => unreachable!(),
        Instr::Nop => unreachable!(),
        Instr::Drop => unreachable!(),
        Instr::Select => unreachable!(),
        Instr::LocalGet(_) => unreachable!(),
        Instr::LocalSet(_) => unreachable!(),
        Instr::LocalTee(_) => unreachable!(),
        Instr::GlobalGet(_) => unreachable!(),
        Instr::GlobalSet(_) => unreachable!(),
        Instr::Load(_, _, _) => unreachable!(),
        Instr::Store(_, _, _) => unreachable!(),
        Instr::MemorySize => unreachable!(),
        Instr::MemoryGrow => unreachable!(),
        Instr::ConstI32(_) => unreachable!(),
        Instr::ConstI64(_) => unreachable!(),
        Instr::Num(_) => unreachable!(),
    }
}
