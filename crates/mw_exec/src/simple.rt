// Instructions that work on operands, locals, globals and memory, and go on after themselves.

ghost use Rattle.std.specs.Prelude.{◌≡◌, ◌≤◌, ◌∷◌, length, IfOk, IfErr};
ghost use Rattle.mw_wasm.specs.Syntax.{
  drop_value as drop_instruction,
  global_get as global_get_instruction,
  global_set as global_set_instruction,
  local_get as local_get_instruction,
  local_set as local_set_instruction,
  local_tee as local_tee_instruction,
  select as select_instruction,
};
ghost use Rattle.mw_exec.specs.Lists.{above, Kept};
ghost use Rattle.mw_exec.specs.Acts.{ActsOnLocals, ActsOnOperands, ActsOnStore, SimplyActs, SimplyOnLocals, IfHalted};
ghost use Rattle.mw_exec.specs.Views.{store_of, IsHeld};

use crate::held::Contents;
use crate::memory::{grow, load, store};
use crate::numbers::number;
use crate::operands::{pop, pop_i32, push, put};
use crate::outcome::Outcome;
use mw_wasm::{Instr, Module, Trap, Value};
use std::alloc::AllocError;

/// An instruction, where it is none of control.
#[tactic(auto, using(crate::proofs::ArmRules::is_control))]
#[inline(always)]
pub fn simple(
    wasm: &Module,
    instruction: &Instr,
    stack: &mut Vec<Value>,
    height: usize,
    locals: &mut Vec<Value>,
    base: usize,
    held: &mut Contents,
) -> Result<Outcome, AllocError>
    requires long { height ≤ length stack.old.items }
    requires local { base ≤ length locals.old.items }
    requires held { IsHeld held.old }
    ensures simply { IfOk result
        (λ o. SimplyActs o wasm.now instruction.now held.old held.new base locals.old locals.new
        height
        stack.old stack.new) }
    ensures kept { IfOk result (λ _. Kept height stack.old.items stack.new.items) }
    ensures local { IfOk result (λ _. Kept base locals.old.items locals.new.items) }
    ensures held { IsHeld held.new }
    ensures halted { IfOk result (λ o. IfHalted o (store_of held.new ≡ store_of held.old)) }
    ensures refused { IfErr result (λ _. store_of held.new ≡ store_of held.old) }
{
    match instruction {
        Instr::LocalGet(x) => local_get(stack, height, locals, base, *x),
        Instr::LocalSet(x) => Ok(local_set(stack, height, locals, base, *x)),
        Instr::LocalTee(x) => Ok(local_tee(stack, height, locals, base, *x)),
        Instr::ConstI32(n) => constant(stack, height, Value::I32(*n)),
        Instr::ConstI64(n) => constant(stack, height, Value::I64(*n)),
        Instr::Num(op) => Ok(number(stack, height, *op)),
        Instr::Load(op, _, offset) => Ok(load(held, stack, height, *op, *offset)),
        Instr::Store(op, _, offset) => store(held, stack, height, *op, *offset),
        Instr::GlobalGet(x) => global_get(held, stack, height, *x),
        Instr::GlobalSet(x) => Ok(global_set(held, stack, height, *x)),
        Instr::Drop => Ok(drop_value(stack, height)),
        Instr::Select => Ok(select(stack, height)),
        Instr::Nop => Ok(Outcome::On),
        Instr::Unreachable => Ok(Outcome::Trap(Trap::Unreachable)),
        Instr::MemorySize => constant(stack, height, Value::I32(held.pages)),
        Instr::MemoryGrow => Ok(grow(wasm, held, stack, height)),
        Instr::Block(_, _) => Ok(Outcome::Other),
        Instr::Loop(_, _) => Ok(Outcome::Other),
        Instr::If(_, _, _) => Ok(Outcome::Other),
        Instr::Br(_) => Ok(Outcome::Other),
        Instr::BrIf(_) => Ok(Outcome::Other),
        Instr::BrTable(_, _) => Ok(Outcome::Other),
        Instr::Return => Ok(Outcome::Other),
        Instr::Call(_) => Ok(Outcome::Other),
        Instr::CallIndirect(_) => Ok(Outcome::Other),
    }
}

/// A value that is there becomes an operand.
#[inline(always)]
fn constant(stack: &mut Vec<Value>, height: usize, operand: Value) -> Result<Outcome, AllocError>
    requires { height ≤ length stack.old.items }
    ensures on { IfOk result (λ o. o ≡ Outcome.On) }
    ensures top { IfOk result
        (λ _. above height stack.new.items ≡ operand ∷ above height stack.old.items) }
    ensures kept { IfOk result (λ _. Kept height stack.old.items stack.new.items) }
{
    push(stack, operand)?;
    Ok(Outcome::On)
}

#[inline(always)]
fn local_get(
    stack: &mut Vec<Value>,
    height: usize,
    locals: &Vec<Value>,
    base: usize,
    x: u32,
) -> Result<Outcome, AllocError>
    requires long { height ≤ length stack.old.items }
    requires local { base ≤ length locals.now.items }
    ensures comes { IfOk result
        (λ o. ActsOnLocals o (local_get_instruction x) base locals.now locals.now height
        stack.old stack.new) }
    ensures kept { IfOk result (λ _. Kept height stack.old.items stack.new.items) }
{
    let count = locals.len() - base;
    if (x as usize) < count {
        let operand = locals[base + x as usize];
        push(stack, operand)?;
        Ok(Outcome::On)
    } else {
        Ok(Outcome::Lost)
    }
}

#[inline(always)]
fn local_set(
    stack: &mut Vec<Value>,
    height: usize,
    locals: &mut Vec<Value>,
    base: usize,
    x: u32,
) -> Outcome
    requires long { height ≤ length stack.old.items }
    requires local { base ≤ length locals.old.items }
    ensures comes { ActsOnLocals result (local_set_instruction x) base locals.old locals.new height
        stack.old
        stack.new }
    ensures kept { Kept height stack.old.items stack.new.items }
    ensures local { Kept base locals.old.items locals.new.items }
{
    let Some(operand) = pop(stack, height) else {
        return Outcome::Lost;
    };
    let count = locals.len() - base;
    if (x as usize) < count {
        locals[base + x as usize] = operand;
        Outcome::On
    } else {
        Outcome::Lost
    }
}

#[inline(always)]
fn local_tee(
    stack: &mut Vec<Value>,
    height: usize,
    locals: &mut Vec<Value>,
    base: usize,
    x: u32,
) -> Outcome
    requires long { height ≤ length stack.old.items }
    requires local { base ≤ length locals.old.items }
    ensures simply { SimplyOnLocals result (local_tee_instruction x) base locals.old locals.new
        height
        stack.old
        stack.new }
    ensures kept { Kept height stack.old.items stack.new.items }
    ensures local { Kept base locals.old.items locals.new.items }
{
    let Some(operand) = pop(stack, height) else {
        return Outcome::Lost;
    };
    put(stack, operand);
    let count = locals.len() - base;
    if (x as usize) < count {
        locals[base + x as usize] = operand;
        Outcome::On
    } else {
        Outcome::Lost
    }
}

fn global_get(
    held: &Contents,
    stack: &mut Vec<Value>,
    height: usize,
    x: u32,
) -> Result<Outcome, AllocError>
    requires { height ≤ length stack.old.items }
    ensures comes { IfOk result
        (λ o. ActsOnStore o (global_get_instruction x) held.now held.now height stack.old
        stack.new) }
    ensures kept { IfOk result (λ _. Kept height stack.old.items stack.new.items) }
{
    if (x as usize) < held.globals.len() {
        let operand = held.globals[x as usize];
        push(stack, operand)?;
        Ok(Outcome::On)
    } else {
        Ok(Outcome::Lost)
    }
}

fn global_set(held: &mut Contents, stack: &mut Vec<Value>, height: usize, x: u32) -> Outcome
    requires long { height ≤ length stack.old.items }
    requires held { IsHeld held.old }
    ensures comes { ActsOnStore result (global_set_instruction x) held.old held.new height stack.old
        stack.new }
    ensures kept { Kept height stack.old.items stack.new.items }
    ensures held { IsHeld held.new }
    ensures halted { IfHalted result (store_of held.new ≡ store_of held.old) }
{
    let Some(operand) = pop(stack, height) else {
        return Outcome::Lost;
    };
    if (x as usize) < held.globals.len() {
        held.globals[x as usize] = operand;
        Outcome::On
    } else {
        Outcome::Lost
    }
}

fn drop_value(stack: &mut Vec<Value>, height: usize) -> Outcome
    requires { height ≤ length stack.old.items }
    ensures comes { ActsOnOperands result drop_instruction height stack.old stack.new }
    ensures kept { Kept height stack.old.items stack.new.items }
{
    match pop(stack, height) {
        Some(_) => Outcome::On,
        None => Outcome::Lost,
    }
}

fn select(stack: &mut Vec<Value>, height: usize) -> Outcome
    requires { height ≤ length stack.old.items }
    ensures comes { ActsOnOperands result select_instruction height stack.old stack.new }
    ensures kept { Kept height stack.old.items stack.new.items }
{
    let Some(n) = pop_i32(stack, height) else {
        return Outcome::Lost;
    };
    let Some(b) = pop(stack, height) else {
        return Outcome::Lost;
    };
    let Some(a) = pop(stack, height) else {
        return Outcome::Lost;
    };
    let chosen = if n == 0 { b } else { a };
    put(stack, chosen);
    Outcome::On
}
