// Memory.

ghost use Rattle.std.specs.Prelude.{◌≡◌, ℕ, ◌≤◌, ◌<◌, ◌+◌, ◌*◌, ◌^◌, ◌∷◌, length, IfOk, IfErr, nat_le};
ghost use Rattle.mw_wasm.specs.declared.numbers.LoadOp.TheVariants as load_op;
ghost use Rattle.mw_wasm.specs.Syntax.{load as load_instruction, store as store_instruction, memory_grow};
ghost use Rattle.mw_wasm.specs.Act.{bits_of, most_pages};
ghost use Rattle.mw_wasm.specs.Store.{read_bytes, load_size, loaded, store_size, store_type};
ghost use Rattle.mw_wasm.specs.Views.{module_of};
ghost use Rattle.mw_exec.specs.Lists.{Kept};
ghost use Rattle.mw_exec.specs.Acts.{ActsAligned, ActsOnStoreIn, IfHalted};
ghost use Rattle.mw_exec.specs.Instancing.{word_at};
ghost use Rattle.mw_exec.specs.Views.{store_of, memory_of, IsHeld, IsReached, IsWritten};

use crate::held::Contents;
use crate::operands::{pop_i32, pop_of, put};
use crate::outcome::Outcome;
use mw_wasm::{LoadOp, Module, StoreOp, Trap, ValType, Value};
use std::alloc::AllocError;

/// The bytes of a page.
const PAGE: u64 = 65_536;

/// The 56, 48 and 32 high bits of 64.
const HIGH_56: u64 = 0xffff_ffff_ffff_ff00;

const HIGH_48: u64 = 0xffff_ffff_ffff_0000;

const HIGH_32: u64 = 0xffff_ffff_0000_0000;

/// The byte at an address; past the highest one that was written there are zeros.
#[inline(always)]
fn byte_at(bytes: &[u8], at: u64) -> u64
    requires { length bytes.now < 2 ^ 63 }
    ensures byte { result ≡ (memory_of 0 bytes.now).byte_at at }
    ensures small { result < 256 }
{
    if at < bytes.len() as u64 {
        bytes[at as usize] as u64
    } else {
        0
    }
}

/// The byte at an address that is stored.
#[inline(always)]
fn stored(bytes: &[u8], at: usize) -> u64
    requires { at < length bytes.now }
    ensures byte { result ≡ (memory_of 0 bytes.now).byte_at at }
    ensures small { result < 256 }
{
    bytes[at] as u64
}

/// The number in the eight bytes from an address on, the lowest first, where all are stored.
#[inline(always)]
fn stored_eight(bytes: &[u8], at: usize) -> u64
    requires { at + 8 ≤ length bytes.now }
    ensures { result ≡ read_bytes 8 at (memory_of 0 bytes.now) }
{
    let high = stored(bytes, at + 4)
        + 256 * stored(bytes, at + 5)
        + 65536 * stored(bytes, at + 6)
        + 16777216 * stored(bytes, at + 7);
    stored(bytes, at)
        + 256 * stored(bytes, at + 1)
        + 65536 * stored(bytes, at + 2)
        + 16777216 * stored(bytes, at + 3)
        + 4294967296 * high
}

/// The number in the eight bytes from an address on, wherever they are.
fn spread_eight(bytes: &[u8], at: u64) -> u64
    requires long { length bytes.now < 2 ^ 63 }
    requires low { at < 2 ^ 60 }
    ensures { result ≡ read_bytes 8 at (memory_of 0 bytes.now) }
{
    let high = byte_at(bytes, at + 4)
        + 256 * byte_at(bytes, at + 5)
        + 65536 * byte_at(bytes, at + 6)
        + 16777216 * byte_at(bytes, at + 7);
    byte_at(bytes, at)
        + 256 * byte_at(bytes, at + 1)
        + 65536 * byte_at(bytes, at + 2)
        + 16777216 * byte_at(bytes, at + 3)
        + 4294967296 * high
}

/// The number in the eight bytes from an address on.
#[inline(always)]
fn read_eight(bytes: &[u8], at: u64) -> u64
    requires long { length bytes.now < 2 ^ 63 }
    requires low { at < 2 ^ 60 }
    ensures { result ≡ read_bytes 8 at (memory_of 0 bytes.now) }
{
    if at + 8 <= bytes.len() as u64 {
        return stored_eight(bytes, at as usize);
    }
    spread_eight(bytes, at)
}

/// The number in the four bytes from an address on, where all are stored.
#[inline(always)]
fn stored_four(bytes: &[u8], at: usize) -> u32
    requires { at + 4 ≤ length bytes.now }
    ensures { result ≡ read_bytes 4 at (memory_of 0 bytes.now) }
{
    (stored(bytes, at)
        + 256 * stored(bytes, at + 1)
        + 65536 * stored(bytes, at + 2)
        + 16777216 * stored(bytes, at + 3)) as u32
}

/// The number in the four bytes from an address on, wherever they are.
fn spread_four(bytes: &[u8], at: u64) -> u32
    requires long { length bytes.now < 2 ^ 63 }
    requires low { at < 2 ^ 60 }
    ensures { result ≡ read_bytes 4 at (memory_of 0 bytes.now) }
{
    (byte_at(bytes, at)
        + 256 * byte_at(bytes, at + 1)
        + 65536 * byte_at(bytes, at + 2)
        + 16777216 * byte_at(bytes, at + 3)) as u32
}

/// The number in the four bytes from an address on.
#[inline(always)]
fn read_four(bytes: &[u8], at: u64) -> u32
    requires long { length bytes.now < 2 ^ 63 }
    requires low { at < 2 ^ 60 }
    ensures { result ≡ read_bytes 4 at (memory_of 0 bytes.now) }
{
    if at + 4 <= bytes.len() as u64 {
        return stored_four(bytes, at as usize);
    }
    spread_four(bytes, at)
}

/// The number in the two bytes from an address on.
#[inline(always)]
fn read_two(bytes: &[u8], at: u64) -> u32
    requires long { length bytes.now < 2 ^ 63 }
    requires low { at < 2 ^ 60 }
    ensures is { result ≡ read_bytes 2 at (memory_of 0 bytes.now) }
    ensures small { result < 65536 }
{
    (byte_at(bytes, at) + 256 * byte_at(bytes, at + 1)) as u32
}

/// The number in the byte at an address.
#[inline(always)]
fn read_one(bytes: &[u8], at: u64) -> u32
    requires long { length bytes.now < 2 ^ 63 }
    requires low { at < 2 ^ 60 }
    ensures is { result ≡ read_bytes 1 at (memory_of 0 bytes.now) }
    ensures small { result < 256 }
{
    byte_at(bytes, at) as u32
}

/// How many bytes a load reads.
#[inline(always)]
fn size_of_load(op: LoadOp) -> u64
    ensures is { result ≡ load_size op }
    ensures small { result ≤ 8 }
{
    match op {
        LoadOp::I32 => 4,
        LoadOp::I64 => 8,
        LoadOp::I32S8 => 1,
        LoadOp::I32U8 => 1,
        LoadOp::I32S16 => 2,
        LoadOp::I32U16 => 2,
        LoadOp::I64S8 => 1,
        LoadOp::I64U8 => 1,
        LoadOp::I64S16 => 2,
        LoadOp::I64U16 => 2,
        LoadOp::I64S32 => 4,
        LoadOp::I64U32 => 4,
    }
}

/// The value that a load gives.
#[inline(always)]
fn value_at(bytes: &[u8], at: u64, op: LoadOp) -> Value
    requires long { length bytes.now < 2 ^ 63 }
    requires low { at < 2 ^ 60 }
    ensures { (pages : ℕ)
        → result ≡ loaded op (read_bytes (load_size op) at (memory_of pages bytes.now)) }
{
    match op {
        LoadOp::I32 => Value::I32(read_four(bytes, at)),
        LoadOp::I64 => Value::I64(read_eight(bytes, at)),
        LoadOp::I32S8 => {
            let n = read_one(bytes, at);
            Value::I32(if n < 128 { n } else { n + 0xffff_ff00 })
        }
        LoadOp::I32U8 => Value::I32(read_one(bytes, at)),
        LoadOp::I32S16 => {
            let n = read_two(bytes, at);
            Value::I32(if n < 32768 { n } else { n + 0xffff_0000 })
        }
        LoadOp::I32U16 => Value::I32(read_two(bytes, at)),
        LoadOp::I64S8 => {
            let n = read_one(bytes, at) as u64;
            Value::I64(if n < 128 { n } else { n + HIGH_56 })
        }
        LoadOp::I64U8 => Value::I64(read_one(bytes, at) as u64),
        LoadOp::I64S16 => {
            let n = read_two(bytes, at) as u64;
            Value::I64(if n < 32768 { n } else { n + HIGH_48 })
        }
        LoadOp::I64U16 => Value::I64(read_two(bytes, at) as u64),
        LoadOp::I64S32 => {
            let n = read_four(bytes, at) as u64;
            Value::I64(if n < 0x8000_0000 { n } else { n + HIGH_32 })
        }
        LoadOp::I64U32 => Value::I64(read_four(bytes, at) as u64),
    }
}

/// A load.
#[tactic(auto, using(crate::proofs::Stacks::kept_then, crate::proofs::Stacks::kept_pushed))]
pub fn load(
    held: &Contents,
    stack: &mut Vec<Value>,
    height: usize,
    op: LoadOp,
    offset: u32,
) -> Outcome
    requires long { height ≤ length stack.old.items }
    requires held { IsHeld held.now }
    ensures comes { ActsAligned result (λ align. load_instruction op align offset) held.now held.now
        height
        stack.old
        stack.new }
    ensures kept { Kept height stack.old.items stack.new.items }
{
    let Some(n) = pop_i32(stack, height) else {
        return Outcome::Lost;
    };
    let at = n as u64 + offset as u64;
    if at + size_of_load(op) > held.pages as u64 * PAGE {
        return Outcome::Trap(Trap::OutOfBounds);
    }
    put(stack, value_at(held.bytes.as_slice(), at, op));
    Outcome::On
}

/// How many bytes a store writes.
#[inline(always)]
fn size_of_store(op: StoreOp) -> usize
    ensures is { result ≡ store_size op }
    ensures small { result ≤ 8 }
{
    match op {
        StoreOp::I32 => 4,
        StoreOp::I64 => 8,
        StoreOp::I32To8 => 1,
        StoreOp::I32To16 => 2,
        StoreOp::I64To8 => 1,
        StoreOp::I64To16 => 2,
        StoreOp::I64To32 => 4,
    }
}

/// The type of a store's operand.
#[inline(always)]
fn type_of_store(op: StoreOp) -> ValType
    ensures { result ≡ store_type op }
{
    match op {
        StoreOp::I32 => ValType::I32,
        StoreOp::I64 => ValType::I64,
        StoreOp::I32To8 => ValType::I32,
        StoreOp::I32To16 => ValType::I32,
        StoreOp::I64To8 => ValType::I64,
        StoreOp::I64To16 => ValType::I64,
        StoreOp::I64To32 => ValType::I64,
    }
}

/// The bits of a value.
#[inline(always)]
fn bits(operand: Value) -> u64
    ensures { result ≡ bits_of operand }
{
    match operand {
        Value::I32(n) => n as u64,
        Value::I64(n) => n,
    }
}

/// Zeros are written up to an end.
#[inline(always)]
pub fn reach(bytes: &mut Vec<u8>, end: usize) -> Result<(), AllocError>
    ensures reached { IfOk result (λ _. IsReached end bytes.old.items bytes.new.items) }
    ensures refused { IfErr result (λ _. bytes.new.items ≡ bytes.old.items) }
{
    if bytes.len() >= end {
        return Ok(());
    }
    bytes.resize(end, 0)?;
    Ok(())
}

/// The low bytes of a number are written, the lowest first.
#[inline(always)]
fn write(bytes: &mut Vec<u8>, at: usize, count: usize, number: u64)
    requires { at + count ≤ length bytes.old.items }
    ensures { IsWritten count at number bytes.old.items bytes.new.items }
{
    let mut rest = number;
    for i in 0..count {
        bytes[at + i] = (rest % 256) as u8;
        rest = rest / 256;
    }
}

/// The bytes of a store are written.
#[inline(always)]
fn write_by(bytes: &mut Vec<u8>, at: usize, op: StoreOp, number: u64)
    requires { at + store_size op ≤ length bytes.old.items }
    ensures { IsWritten (store_size op) at number bytes.old.items bytes.new.items }
{
    match op {
        StoreOp::I32 => write(bytes, at, 4, number),
        StoreOp::I64 => write(bytes, at, 8, number),
        StoreOp::I32To8 => write(bytes, at, 1, number),
        StoreOp::I32To16 => write(bytes, at, 2, number),
        StoreOp::I64To8 => write(bytes, at, 1, number),
        StoreOp::I64To16 => write(bytes, at, 2, number),
        StoreOp::I64To32 => write(bytes, at, 4, number),
    }
}

/// A store.
pub fn store(
    held: &mut Contents,
    stack: &mut Vec<Value>,
    height: usize,
    op: StoreOp,
    offset: u32,
) -> Result<Outcome, AllocError>
    requires long { height ≤ length stack.old.items }
    requires held { IsHeld held.old }
    ensures comes { IfOk result
        (λ o. ActsAligned o (λ align. store_instruction op align offset) held.old held.new
        height stack.old stack.new) }
    ensures kept { IfOk result (λ _. Kept height stack.old.items stack.new.items) }
    ensures held { IsHeld held.new }
    ensures halted { IfOk result (λ o. IfHalted o (store_of held.new ≡ store_of held.old)) }
    ensures refused { IfErr result (λ _. store_of held.new ≡ store_of held.old) }
{
    let Some(operand) = pop_of(stack, height, type_of_store(op)) else {
        return Ok(Outcome::Lost);
    };
    let Some(n) = pop_i32(stack, height) else {
        return Ok(Outcome::Lost);
    };
    let at = n as usize + offset as usize;
    let count = size_of_store(op);
    if at + count > held.pages as usize * 65_536 {
        return Ok(Outcome::Trap(Trap::OutOfBounds));
    }
    reach(&mut held.bytes, at + count)?;
    write_by(&mut held.bytes, at, op, bits(operand));
    Ok(Outcome::On)
}

/// The number in the eight bytes from an address on, where all of them are in the memory.
pub fn word_of(held: &Contents, at: u64) -> Option<u64>
    requires { IsHeld held.now }
    ensures { result ≡ word_at at (store_of held.now).memory }
{
    let end = held.pages as u64 * PAGE;
    if end < 8 || at > end - 8 {
        return None;
    }
    Some(read_eight(held.bytes.as_slice(), at))
}

/// The most pages that a module's memory may have.
fn most_pages_of(wasm: &Module) -> u32
    ensures is { result ≡ most_pages wasm.now.memory }
    ensures small { result ≤ 1024 }
{
    match wasm.memory {
        None => 0,
        Some(limits) => match limits.max {
            None => 1024,
            Some(most) => most.min(1024),
        },
    }
}

/// More pages, where they are allowed.
#[tactic(auto, using(crate::proofs::Stacks::kept_then, crate::proofs::Stacks::kept_pushed))]
pub fn grow(wasm: &Module, held: &mut Contents, stack: &mut Vec<Value>, height: usize) -> Outcome
    requires long { height ≤ length stack.old.items }
    requires held { IsHeld held.old }
    ensures comes { ActsOnStoreIn result (module_of wasm.now) memory_grow held.old held.new height
        stack.old
        stack.new }
    ensures kept { Kept height stack.old.items stack.new.items }
    ensures held { IsHeld held.new }
    ensures halted { IfHalted result (store_of held.new ≡ store_of held.old) }
{
    let Some(n) = pop_i32(stack, height) else {
        return Outcome::Lost;
    };
    let most = most_pages_of(wasm);
    if n <= most && held.pages <= most - n {
        put(stack, Value::I32(held.pages));
        held.pages += n;
        return Outcome::On;
    }
    put(stack, Value::I32(0xffff_ffff));
    Outcome::On
}
