// Instructions that stand alone: what stands behind an opcode.

ghost use Rattle.std.specs.Prelude.{◌≡◌, ◌≤◌, ℕ, length, IfOk, slice_get};
ghost use Rattle.mw_wasm.specs.Views.{instruction_of};
ghost use Rattle.mw_decode.specs.Reading.{got};
ghost use Rattle.mw_decode.specs.Opcodes.{tests, others, row, conversion_of, number_of as number_here};
ghost use Rattle.mw_decode.specs.Opcodes.{load_of as load_here, store_of as store_here, is_left_out as left_out_here};
ghost use Rattle.mw_decode.specs.Opcodes.{jump_of, variable_of, constant_of, alone_of, accessing_of};
ghost use Rattle.mw_decode.specs.Instructions.{immediates};
ghost use Rattle.mw_decode.specs.Gives.{Gives};

use crate::fault::{BadModule, Fault, Read};
use crate::pieces::{fixed, i32_at, i64_at, indices, u32_at};
use mw_wasm::{Instr, IntOp, LoadOp, NumOp, StoreOp};
use std::alloc::Global;

/// Tests and comparisons in the order of their opcodes.
fn test_at(index: u8) -> Option<IntOp>
    ensures { result ≡ slice_get tests index }
{
    match index {
        0 => Some(IntOp::Eqz),
        1 => Some(IntOp::Eq),
        2 => Some(IntOp::Ne),
        3 => Some(IntOp::LtS),
        4 => Some(IntOp::LtU),
        5 => Some(IntOp::GtS),
        6 => Some(IntOp::GtU),
        7 => Some(IntOp::LeS),
        8 => Some(IntOp::LeU),
        9 => Some(IntOp::GeS),
        10 => Some(IntOp::GeU),
        _ => None,
    }
}

/// All other operations of a width in the order of their opcodes.
fn other_at(index: u8) -> Option<IntOp>
    ensures { result ≡ slice_get others index }
{
    match index {
        0 => Some(IntOp::Clz),
        1 => Some(IntOp::Ctz),
        2 => Some(IntOp::Popcnt),
        3 => Some(IntOp::Add),
        4 => Some(IntOp::Sub),
        5 => Some(IntOp::Mul),
        6 => Some(IntOp::DivS),
        7 => Some(IntOp::DivU),
        8 => Some(IntOp::RemS),
        9 => Some(IntOp::RemU),
        10 => Some(IntOp::And),
        11 => Some(IntOp::Or),
        12 => Some(IntOp::Xor),
        13 => Some(IntOp::Shl),
        14 => Some(IntOp::ShrS),
        15 => Some(IntOp::ShrU),
        16 => Some(IntOp::Rotl),
        17 => Some(IntOp::Rotr),
        _ => None,
    }
}

/// The test of an opcode, where those of a width begin at this opcode.
fn test_from(byte: u8, first: u8) -> Option<IntOp>
    ensures { result ≡ row first tests byte }
{
    if byte < first {
        None
    } else {
        test_at(byte - first)
    }
}

/// Any other operation of an opcode, where those of a width begin at this opcode.
fn other_from(byte: u8, first: u8) -> Option<IntOp>
    ensures { result ≡ row first others byte }
{
    if byte < first {
        None
    } else {
        other_at(byte - first)
    }
}

/// The conversion of an opcode.
fn conversion(byte: u8) -> Option<NumOp>
    ensures { result ≡ conversion_of byte }
{
    match byte {
        0xa7 => Some(NumOp::Wrap),
        0xac => Some(NumOp::ExtendS),
        0xad => Some(NumOp::ExtendU),
        _ => None,
    }
}

/// The operation of an opcode.
#[tactic(auto, unfolding(crate::specs::Opcodes::number_of))]
pub fn number_of(byte: u8) -> Option<NumOp>
    ensures { result ≡ number_here byte }
{
    if let Some(op) = test_from(byte, 0x45) {
        return Some(NumOp::I32(op));
    }
    if let Some(op) = test_from(byte, 0x50) {
        return Some(NumOp::I64(op));
    }
    if let Some(op) = other_from(byte, 0x67) {
        return Some(NumOp::I32(op));
    }
    if let Some(op) = other_from(byte, 0x79) {
        return Some(NumOp::I64(op));
    }
    conversion(byte)
}

/// The load of an opcode.
#[tactic(auto, unfolding(crate::specs::Opcodes::load_of))]
pub fn load_of(byte: u8) -> Option<LoadOp>
    ensures { result ≡ load_here byte }
{
    match byte {
        0x28 => Some(LoadOp::I32),
        0x29 => Some(LoadOp::I64),
        0x2c => Some(LoadOp::I32S8),
        0x2d => Some(LoadOp::I32U8),
        0x2e => Some(LoadOp::I32S16),
        0x2f => Some(LoadOp::I32U16),
        0x30 => Some(LoadOp::I64S8),
        0x31 => Some(LoadOp::I64U8),
        0x32 => Some(LoadOp::I64S16),
        0x33 => Some(LoadOp::I64U16),
        0x34 => Some(LoadOp::I64S32),
        0x35 => Some(LoadOp::I64U32),
        _ => None,
    }
}

/// The store of an opcode.
#[tactic(auto, unfolding(crate::specs::Opcodes::store_of))]
pub fn store_of(byte: u8) -> Option<StoreOp>
    ensures { result ≡ store_here byte }
{
    match byte {
        0x36 => Some(StoreOp::I32),
        0x37 => Some(StoreOp::I64),
        0x3a => Some(StoreOp::I32To8),
        0x3b => Some(StoreOp::I32To16),
        0x3c => Some(StoreOp::I64To8),
        0x3d => Some(StoreOp::I64To16),
        0x3e => Some(StoreOp::I64To32),
        _ => None,
    }
}

/// Whether an opcode is of floating point, which the profile leaves out.
#[tactic(auto, unfolding(crate::specs::Opcodes::is_left_out))]
pub fn is_left_out(byte: u8) -> bool
    ensures { result ≡ left_out_here byte }
{
    matches!(byte, 0x2a..=0x2b | 0x38..=0x39 | 0x43..=0x44 | 0x5b..=0x66 | 0x8b..=0xa6 | 0xa8..=0xab | 0xae..=0xbf)
}

/// The instruction of an opcode that stands alone at a place, with what stands behind it.
#[tactic(auto, unfolding(crate::specs::Opcodes::alone_of, crate::specs::Opcodes::jump_of, crate::specs::Opcodes::variable_of, crate::specs::Opcodes::constant_of))]
pub fn alone<'a>(alloc: Global, opcode: u8, at: u32, bytes: &'a [u8], end: u32) -> Read<'a, Instr>
    requires { length bytes.now ≤ end }
    ensures gives { Gives (λ x. got (instruction_of x.0) x.1.now) result
        (immediates at (alone_of opcode) end bytes.now) }
    ensures rest { IfOk result (λ x. length x.1.now ≤ length bytes.now) }
{
    match opcode {
        0x00 => Ok((Instr::Unreachable, bytes)),
        0x01 => Ok((Instr::Nop, bytes)),
        0x0c => {
            let (x, rest) = u32_at(bytes, end)?;
            Ok((Instr::Br(x), rest))
        }
        0x0d => {
            let (x, rest) = u32_at(bytes, end)?;
            Ok((Instr::BrIf(x), rest))
        }
        0x0e => {
            let (list, rest) = indices(alloc, bytes, end)?;
            let (x, rest) = u32_at(rest, end)?;
            Ok((Instr::BrTable(list, x), rest))
        }
        0x0f => Ok((Instr::Return, bytes)),
        0x10 => {
            let (x, rest) = u32_at(bytes, end)?;
            Ok((Instr::Call(x), rest))
        }
        0x11 => {
            let (x, rest) = u32_at(bytes, end)?;
            let (_, rest) = fixed(rest, end, 0)?;
            Ok((Instr::CallIndirect(x), rest))
        }
        0x1a => Ok((Instr::Drop, bytes)),
        0x1b => Ok((Instr::Select, bytes)),
        0x20 => {
            let (x, rest) = u32_at(bytes, end)?;
            Ok((Instr::LocalGet(x), rest))
        }
        0x21 => {
            let (x, rest) = u32_at(bytes, end)?;
            Ok((Instr::LocalSet(x), rest))
        }
        0x22 => {
            let (x, rest) = u32_at(bytes, end)?;
            Ok((Instr::LocalTee(x), rest))
        }
        0x23 => {
            let (x, rest) = u32_at(bytes, end)?;
            Ok((Instr::GlobalGet(x), rest))
        }
        0x24 => {
            let (x, rest) = u32_at(bytes, end)?;
            Ok((Instr::GlobalSet(x), rest))
        }
        0x3f => {
            let (_, rest) = fixed(bytes, end, 0)?;
            Ok((Instr::MemorySize, rest))
        }
        0x40 => {
            let (_, rest) = fixed(bytes, end, 0)?;
            Ok((Instr::MemoryGrow, rest))
        }
        0x41 => {
            let (n, rest) = i32_at(bytes, end)?;
            Ok((Instr::ConstI32(n), rest))
        }
        0x42 => {
            let (n, rest) = i64_at(bytes, end)?;
            Ok((Instr::ConstI64(n), rest))
        }
        _ => accessing(opcode, at, bytes, end),
    }
}

/// An access of memory or an operation on numbers.
#[tactic(auto, unfolding(crate::specs::Opcodes::accessing_of))]
fn accessing<'a>(opcode: u8, at: u32, bytes: &'a [u8], end: u32) -> Read<'a, Instr>
    requires { length bytes.now ≤ end }
    ensures gives { Gives (λ x. got (instruction_of x.0) x.1.now) result
        (immediates at (accessing_of opcode) end bytes.now) }
    ensures rest { IfOk result (λ x. length x.1.now ≤ length bytes.now) }
{
    if let Some(op) = load_of(opcode) {
        let (align, rest) = u32_at(bytes, end)?;
        let (offset, rest) = u32_at(rest, end)?;
        return Ok((Instr::Load(op, align, offset), rest));
    }
    if let Some(op) = store_of(opcode) {
        let (align, rest) = u32_at(bytes, end)?;
        let (offset, rest) = u32_at(rest, end)?;
        return Ok((Instr::Store(op, align, offset), rest));
    }
    match number_of(opcode) {
        Some(op) => Ok((Instr::Num(op), bytes)),
        None => {
            if is_left_out(opcode) {
                Err(Fault::Bad(BadModule::OutsideProfile(at)))
            } else {
                Err(Fault::Bad(BadModule::Opcode(at)))
            }
        }
    }
}
