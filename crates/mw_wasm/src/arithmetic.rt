// What the numeric instructions compute.

ghost use Rattle.std.specs.Prelude.{◌≡◌, ◌%◌, ◌^◌, Ok};
ghost use Rattle.std.specs.Int.{from_bool};
ghost use Rattle.mw_wasm.specs.declared.numbers.IntOp.TheVariants as int;
ghost use Rattle.mw_wasm.specs.declared.numbers.NumOp.TheVariants as num;
ghost use Rattle.mw_wasm.specs.declared.values.ValType.TheVariants as type;
ghost use Rattle.mw_wasm.specs.declared.values.Value.TheVariants as value;
ghost use Rattle.mw_wasm.specs.NumericTypes.{OperandsFit, type_of_value};
ghost use Rattle.mw_wasm.specs.Numerics.{number_of, number_result};

use crate::numbers::{IntOp, NumOp};
use crate::values::{Trap, Value};

#[cfg(test)]
mod tests;

/// The result of a numeric instruction, or its trap. An instruction of one operand does not look at the second.
#[inline(always)]
pub fn numeric(op: NumOp, a: Value, b: Value) -> Result<Value, Trap>
    requires { OperandsFit op a b }
    ensures { result ≡ number_result op a b }
{
    match op {
        NumOp::I32(op) => integer32(op, low_bits(a), low_bits(b)),
        NumOp::I64(op) => integer64(op, all_bits(a), all_bits(b)),
        NumOp::Wrap => Ok(Value::I32(low_bits(a))),
        NumOp::ExtendS => Ok(Value::I64((low_bits(a).cast_signed() as i64).cast_unsigned())),
        NumOp::ExtendU => Ok(Value::I64(all_bits(a))),
    }
}

/// The bits of a value, read unsigned.
#[inline(always)]
fn all_bits(value: Value) -> u64
    ensures { result ≡ number_of value }
{
    match value {
        Value::I32(n) => n as u64,
        Value::I64(n) => n,
    }
}

/// The lowest 32 bits of a value, read unsigned; of an i32 these are all.
#[inline(always)]
fn low_bits(value: Value) -> u32
    ensures lowest { result ≡ number_of value % 2 ^ 32 }
    ensures all { type_of_value value ≡ type.I32 → result ≡ number_of value }
{
    match value {
        Value::I32(n) => n,
        Value::I64(n) => (n % 0x1_0000_0000) as u32,
    }
}

/// 1 for true and 0 for false, as comparisons give them at both widths.
#[inline(always)]
fn truth(holds: bool) -> Value
    ensures { result ≡ value.I32 (from_bool holds) }
{
    Value::I32(holds as u32)
}

/// An operation on integers of 32 bits.
#[inline(always)]
fn integer32(op: IntOp, a: u32, b: u32) -> Result<Value, Trap>
    ensures { result ≡ number_result (num.I32 op) (value.I32 a) (value.I32 b) }
{
    let x = a.cast_signed();
    let y = b.cast_signed();
    match op {
        IntOp::Eqz => Ok(truth(a == 0)),
        IntOp::Eq => Ok(truth(a == b)),
        IntOp::Ne => Ok(truth(a != b)),
        IntOp::LtS => Ok(truth(x < y)),
        IntOp::LtU => Ok(truth(a < b)),
        IntOp::GtS => Ok(truth(x > y)),
        IntOp::GtU => Ok(truth(a > b)),
        IntOp::LeS => Ok(truth(x <= y)),
        IntOp::LeU => Ok(truth(a <= b)),
        IntOp::GeS => Ok(truth(x >= y)),
        IntOp::GeU => Ok(truth(a >= b)),
        IntOp::Clz => Ok(Value::I32(a.leading_zeros())),
        IntOp::Ctz => Ok(Value::I32(a.trailing_zeros())),
        IntOp::Popcnt => Ok(Value::I32(a.count_ones())),
        IntOp::Add => Ok(Value::I32(a.wrapping_add(b))),
        IntOp::Sub => Ok(Value::I32(a.wrapping_sub(b))),
        IntOp::Mul => Ok(Value::I32(a.wrapping_mul(b))),
        IntOp::DivS => signed_quotient32(a, b),
        IntOp::DivU => quotient32(a, b),
        IntOp::RemS => signed_remainder32(a, b),
        IntOp::RemU => remainder32(a, b),
        IntOp::And => Ok(Value::I32(a & b)),
        IntOp::Or => Ok(Value::I32(a | b)),
        IntOp::Xor => Ok(Value::I32(a ^ b)),
        IntOp::Shl => Ok(Value::I32(a << (b % 32))),
        IntOp::ShrS => Ok(Value::I32((x >> (b % 32)).cast_unsigned())),
        IntOp::ShrU => Ok(Value::I32(a >> (b % 32))),
        IntOp::Rotl => Ok(Value::I32(a.rotate_left(b % 32))),
        IntOp::Rotr => Ok(Value::I32(a.rotate_right(b % 32))),
    }
}

/// Rounded toward zero.
fn signed_quotient32(a: u32, b: u32) -> Result<Value, Trap>
    ensures { result ≡ number_result (num.I32 int.DivS) (value.I32 a) (value.I32 b) }
{
    if b == 0 {
        return Err(Trap::Divide);
    }
    match a.cast_signed().checked_div(b.cast_signed()) {
        Some(quotient) => Ok(Value::I32(quotient.cast_unsigned())),
        None => Err(Trap::Overflow),
    }
}

fn quotient32(a: u32, b: u32) -> Result<Value, Trap>
    ensures { result ≡ number_result (num.I32 int.DivU) (value.I32 a) (value.I32 b) }
{
    match a.checked_div(b) {
        Some(quotient) => Ok(Value::I32(quotient)),
        None => Err(Trap::Divide),
    }
}

/// With the dividend's sign; 0 for the least number by -1.
fn signed_remainder32(a: u32, b: u32) -> Result<Value, Trap>
    ensures { result ≡ number_result (num.I32 int.RemS) (value.I32 a) (value.I32 b) }
{
    if b == 0 {
        return Err(Trap::Divide);
    }
    let remainder = a.cast_signed().wrapping_rem(b.cast_signed());
    Ok(Value::I32(remainder.cast_unsigned()))
}

fn remainder32(a: u32, b: u32) -> Result<Value, Trap>
    ensures { result ≡ number_result (num.I32 int.RemU) (value.I32 a) (value.I32 b) }
{
    match a.checked_rem(b) {
        Some(remainder) => Ok(Value::I32(remainder)),
        None => Err(Trap::Divide),
    }
}

/// An operation on integers of 64 bits.
#[inline(always)]
fn integer64(op: IntOp, a: u64, b: u64) -> Result<Value, Trap>
    ensures { result ≡ number_result (num.I64 op) (value.I64 a) (value.I64 b) }
{
    let x = a.cast_signed();
    let y = b.cast_signed();
    match op {
        IntOp::Eqz => Ok(truth(a == 0)),
        IntOp::Eq => Ok(truth(a == b)),
        IntOp::Ne => Ok(truth(a != b)),
        IntOp::LtS => Ok(truth(x < y)),
        IntOp::LtU => Ok(truth(a < b)),
        IntOp::GtS => Ok(truth(x > y)),
        IntOp::GtU => Ok(truth(a > b)),
        IntOp::LeS => Ok(truth(x <= y)),
        IntOp::LeU => Ok(truth(a <= b)),
        IntOp::GeS => Ok(truth(x >= y)),
        IntOp::GeU => Ok(truth(a >= b)),
        IntOp::Clz => Ok(Value::I64(a.leading_zeros() as u64)),
        IntOp::Ctz => Ok(Value::I64(a.trailing_zeros() as u64)),
        IntOp::Popcnt => Ok(Value::I64(a.count_ones() as u64)),
        IntOp::Add => Ok(Value::I64(a.wrapping_add(b))),
        IntOp::Sub => Ok(Value::I64(a.wrapping_sub(b))),
        IntOp::Mul => Ok(Value::I64(a.wrapping_mul(b))),
        IntOp::DivS => signed_quotient64(a, b),
        IntOp::DivU => quotient64(a, b),
        IntOp::RemS => signed_remainder64(a, b),
        IntOp::RemU => remainder64(a, b),
        IntOp::And => Ok(Value::I64(a & b)),
        IntOp::Or => Ok(Value::I64(a | b)),
        IntOp::Xor => Ok(Value::I64(a ^ b)),
        IntOp::Shl => Ok(Value::I64(a << (b % 64))),
        IntOp::ShrS => Ok(Value::I64((x >> (b % 64)).cast_unsigned())),
        IntOp::ShrU => Ok(Value::I64(a >> (b % 64))),
        IntOp::Rotl => Ok(Value::I64(a.rotate_left((b % 64) as u32))),
        IntOp::Rotr => Ok(Value::I64(a.rotate_right((b % 64) as u32))),
    }
}

/// Rounded toward zero.
fn signed_quotient64(a: u64, b: u64) -> Result<Value, Trap>
    ensures { result ≡ number_result (num.I64 int.DivS) (value.I64 a) (value.I64 b) }
{
    if b == 0 {
        return Err(Trap::Divide);
    }
    match a.cast_signed().checked_div(b.cast_signed()) {
        Some(quotient) => Ok(Value::I64(quotient.cast_unsigned())),
        None => Err(Trap::Overflow),
    }
}

fn quotient64(a: u64, b: u64) -> Result<Value, Trap>
    ensures { result ≡ number_result (num.I64 int.DivU) (value.I64 a) (value.I64 b) }
{
    match a.checked_div(b) {
        Some(quotient) => Ok(Value::I64(quotient)),
        None => Err(Trap::Divide),
    }
}

/// With the dividend's sign; 0 for the least number by -1.
fn signed_remainder64(a: u64, b: u64) -> Result<Value, Trap>
    ensures { result ≡ number_result (num.I64 int.RemS) (value.I64 a) (value.I64 b) }
{
    if b == 0 {
        return Err(Trap::Divide);
    }
    let remainder = a.cast_signed().wrapping_rem(b.cast_signed());
    Ok(Value::I64(remainder.cast_unsigned()))
}

fn remainder64(a: u64, b: u64) -> Result<Value, Trap>
    ensures { result ≡ number_result (num.I64 int.RemU) (value.I64 a) (value.I64 b) }
{
    match a.checked_rem(b) {
        Some(remainder) => Ok(Value::I64(remainder)),
        None => Err(Trap::Divide),
    }
}
