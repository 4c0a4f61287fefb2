// Numeric instructions.

ghost use Rattle.std.specs.Prelude.{◌≡◌, ◌≤◌, ◌∷◌, [], length};
ghost use Rattle.mw_wasm.specs.declared.numbers.NumOp.TheVariants as numbers;
ghost use Rattle.mw_wasm.specs.Syntax.{numeric as numeric_instruction};
ghost use Rattle.mw_wasm.specs.NumericTypes.{kind_of, operands_at, operands_of, OperandsFit};
ghost use Rattle.mw_exec.specs.Lists.{HasRoom, Kept};
ghost use Rattle.mw_exec.specs.Acts.{ActsOnOperands, Computes, takes_two_of};

use crate::operands::{pop_of, put};
use crate::outcome::Outcome;
use mw_wasm::{IntOp, NumOp, ValType, Value, numeric};

/// Whether an operation on integers has two operands.
#[inline(always)]
fn takes_two(op: IntOp) -> bool
    ensures { result ≡ takes_two_of (kind_of op) }
{
    match op {
        IntOp::Eqz => false,
        IntOp::Eq => true,
        IntOp::Ne => true,
        IntOp::LtS => true,
        IntOp::LtU => true,
        IntOp::GtS => true,
        IntOp::GtU => true,
        IntOp::LeS => true,
        IntOp::LeU => true,
        IntOp::GeS => true,
        IntOp::GeU => true,
        IntOp::Clz => false,
        IntOp::Ctz => false,
        IntOp::Popcnt => false,
        IntOp::Add => true,
        IntOp::Sub => true,
        IntOp::Mul => true,
        IntOp::DivS => true,
        IntOp::DivU => true,
        IntOp::RemS => true,
        IntOp::RemU => true,
        IntOp::And => true,
        IntOp::Or => true,
        IntOp::Xor => true,
        IntOp::Shl => true,
        IntOp::ShrS => true,
        IntOp::ShrU => true,
        IntOp::Rotl => true,
        IntOp::Rotr => true,
    }
}

/// A numeric instruction.
#[inline(always)]
pub fn number(stack: &mut Vec<Value>, height: usize, op: NumOp) -> Outcome
    requires { height ≤ length stack.old.items }
    ensures comes { ActsOnOperands result (numeric_instruction op) height stack.old stack.new }
    ensures kept { Kept height stack.old.items stack.new.items }
{
    match op {
        NumOp::I32(o) => integer32(stack, height, o),
        NumOp::I64(o) => integer64(stack, height, o),
        NumOp::Wrap => one(stack, height, op, ValType::I64),
        NumOp::ExtendS => one(stack, height, op, ValType::I32),
        NumOp::ExtendU => one(stack, height, op, ValType::I32),
    }
}

/// An operation on integers of 32 bits.
#[inline(always)]
fn integer32(stack: &mut Vec<Value>, height: usize, o: IntOp) -> Outcome
    requires { height ≤ length stack.old.items }
    ensures comes { ActsOnOperands result (numeric_instruction (numbers.I32 o)) height stack.old
        stack.new }
    ensures kept { Kept height stack.old.items stack.new.items }
{
    integer(stack, height, NumOp::I32(o), o, ValType::I32)
}

/// An operation on integers of 64 bits.
#[inline(always)]
fn integer64(stack: &mut Vec<Value>, height: usize, o: IntOp) -> Outcome
    requires { height ≤ length stack.old.items }
    ensures comes { ActsOnOperands result (numeric_instruction (numbers.I64 o)) height stack.old
        stack.new }
    ensures kept { Kept height stack.old.items stack.new.items }
{
    integer(stack, height, NumOp::I64(o), o, ValType::I64)
}

/// An operation on integers of a width.
#[tactic(auto, using(crate::proofs::NumberActs::two_at, crate::proofs::NumberActs::one_at))]
#[inline(always)]
fn integer(stack: &mut Vec<Value>, height: usize, op: NumOp, o: IntOp, t: ValType) -> Outcome
    requires long { height ≤ length stack.old.items }
    requires operands { operands_of op ≡ operands_at (kind_of o) t }
    ensures comes { ActsOnOperands result (numeric_instruction op) height stack.old stack.new }
    ensures kept { Kept height stack.old.items stack.new.items }
{
    if takes_two(o) {
        two(stack, height, op, t)
    } else {
        one(stack, height, op, t)
    }
}

/// An operation with one operand.
#[inline(always)]
fn one(stack: &mut Vec<Value>, height: usize, op: NumOp, t: ValType) -> Outcome
    requires long { height ≤ length stack.old.items }
    requires operands { operands_of op ≡ t ∷ [] }
    ensures comes { ActsOnOperands result (numeric_instruction op) height stack.old stack.new }
    ensures kept { Kept height stack.old.items stack.new.items }
{
    let Some(x) = pop_of(stack, height, t) else {
        return Outcome::Lost;
    };
    computed(stack, height, op, x, x)
}

/// An operation with two operands.
#[inline(always)]
fn two(stack: &mut Vec<Value>, height: usize, op: NumOp, t: ValType) -> Outcome
    requires long { height ≤ length stack.old.items }
    requires operands { operands_of op ≡ t ∷ t ∷ [] }
    ensures comes { ActsOnOperands result (numeric_instruction op) height stack.old stack.new }
    ensures kept { Kept height stack.old.items stack.new.items }
{
    let Some(y) = pop_of(stack, height, t) else {
        return Outcome::Lost;
    };
    let Some(x) = pop_of(stack, height, t) else {
        return Outcome::Lost;
    };
    computed(stack, height, op, x, y)
}

/// The result on the stack.
#[inline(always)]
fn computed(stack: &mut Vec<Value>, height: usize, op: NumOp, x: Value, y: Value) -> Outcome
    requires long { height ≤ length stack.old.items }
    requires fit { OperandsFit op x y }
    requires room { HasRoom stack.old }
    ensures comes { Computes result op x y height stack.old stack.new }
    ensures kept { Kept height stack.old.items stack.new.items }
{
    match numeric(op, x, y) {
        Ok(value) => {
            put(stack, value);
            Outcome::On
        }
        Err(trap) => Outcome::Trap(trap),
    }
}
