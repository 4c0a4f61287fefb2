// Instructions and expressions.

ghost use Rattle.std.specs.Prelude.{◌≡◌, ◌<◌, ◌^◌, [], ◌∷◌, ◌++◌, length, OnOk};
ghost use Rattle.mw_wasm.specs.BinaryInstructions.{code, instruction};
ghost use Rattle.mw_wasm.specs.Views.{code_of, instruction_of};
ghost use Rattle.mw_encode.specs.Encoding.{
  block_type_byte,
  code_bytes,
  expression_bytes,
  instruction_bytes,
  number,
  Spelled,
  value_type_byte,
  vector_bytes,
};

use crate::opcodes::{opcode_of_load, opcode_of_numeric, opcode_of_store};
use crate::vectors::{
    put_byte, put_constant_32, put_constant_64, put_indexed, put_indices, put_pair, put_two,
};
use mw_leb::put_u32;
use mw_wasm::{Indices, Instr, Instrs, ValType};
use std::alloc::AllocError;

/// The byte of a value type.
pub fn byte_of_type(kind: ValType) -> u8
    ensures { result ≡ value_type_byte kind }
{
    match kind {
        ValType::I32 => 0x7f,
        ValType::I64 => 0x7e,
    }
}

/// Appends the opcode and the result of a block.
fn put_opening(out: &mut Vec<u8>, opcode: u8, kind: Option<ValType>) -> Result<(), AllocError>
    ensures { OnOk result (out.new.items ≡ out.old.items ++ opcode ∷ block_type_byte kind ∷ []) }
{
    put_byte(out, opcode)?;
    match kind {
        None => put_byte(out, 0x40),
        Some(kind) => put_byte(out, byte_of_type(kind)),
    }
}

/// Appends a branch by a table.
fn put_branches(out: &mut Vec<u8>, labels: &Indices, label: u32) -> Result<(), AllocError>
    requires { length labels.now < 2 ^ 32 }
    ensures { OnOk result
        (out.new.items ≡ out.old.items ++ 14 ∷ (vector_bytes number labels.now ++ number label)) }
{
    put_byte(out, 0x0e)?;
    put_indices(out, labels)?;
    put_u32(out, label)
}

/// Appends a call by the table.
fn put_indirect_call(out: &mut Vec<u8>, kind: u32) -> Result<(), AllocError>
    ensures { OnOk result (out.new.items ≡ out.old.items ++ 17 ∷ (number kind ++ 0 ∷ [])) }
{
    put_indexed(out, 0x11, kind)?;
    put_byte(out, 0x00)
}

/// Appends instructions and the byte that ends them.
#[tactic(auto, using(crate::proofs::Pieces::spelled_first))]
pub fn put_expression(out: &mut Vec<u8>, instructions: &Instrs) -> Result<(), AllocError>
    requires { Spelled (code (code_of instructions.now)) }
    ensures { OnOk result
        (out.new.items ≡ out.old.items ++ expression_bytes (code_of instructions.now)) }
{
    put_code(out, instructions)?;
    put_byte(out, 0x0b)
}

/// The body of a `block` that is spelled is spelled. It does nothing when it runs.
fn body_of_block(one: &Instr, kind: Option<ValType>, body: &Instrs)
    requires held { one.now ≡ Instr.Block kind body.now }
    requires spelled { Spelled (instruction (instruction_of one.now)) }
    ensures { Spelled (code (code_of body.now)) }
{}

/// The body of a `loop` that is spelled is spelled. It does nothing when it runs.
fn body_of_loop(one: &Instr, kind: Option<ValType>, body: &Instrs)
    requires held { one.now ≡ Instr.Loop kind body.now }
    requires spelled { Spelled (instruction (instruction_of one.now)) }
    ensures { Spelled (code (code_of body.now)) }
{}

/// The lists of an `if` that is spelled are spelled. It does nothing when it runs.
fn parts_of_if(one: &Instr, kind: Option<ValType>, then: &Instrs, otherwise: &Instrs)
    requires held { one.now ≡ Instr.If kind then.now otherwise.now }
    requires spelled { Spelled (instruction (instruction_of one.now)) }
    ensures then { Spelled (code (code_of then.now)) }
    ensures otherwise { Spelled (code (code_of otherwise.now)) }
{}

/// Appends instructions in order.
#[cycle(put)]
pub fn put_code(out: &mut Vec<u8>, instructions: &Instrs) -> Result<(), AllocError>
    requires { Spelled (code (code_of instructions.now)) }
    ensures { OnOk result (out.new.items ≡ out.old.items ++ code_bytes (code_of instructions.now)) }
{
    let list = instructions.as_slice();
    for instruction in list {
        put_instruction(out, instruction)?;
    }
    Ok(())
}

/// Appends an instruction: its opcode, and its immediates.
#[cycle(put)]
fn put_instruction(out: &mut Vec<u8>, one: &Instr) -> Result<(), AllocError>
    requires { Spelled (instruction (instruction_of one.now)) }
    ensures { OnOk result
        (out.new.items ≡ out.old.items ++ instruction_bytes (instruction_of one.now)) }
{
    match one {
        Instr::Unreachable => put_byte(out, 0x00),
        Instr::Nop => put_byte(out, 0x01),
        Instr::Block(kind, body) => {
            put_opening(out, 0x02, *kind)?;
            body_of_block(one, *kind, body);
            put_code(out, body)?;
            put_byte(out, 0x0b)
        }
        Instr::Loop(kind, body) => {
            put_opening(out, 0x03, *kind)?;
            body_of_loop(one, *kind, body);
            put_code(out, body)?;
            put_byte(out, 0x0b)
        }
        Instr::If(kind, then, otherwise) => {
            put_opening(out, 0x04, *kind)?;
            parts_of_if(one, *kind, then, otherwise);
            put_code(out, then)?;
            if otherwise.len() == 0 {
                put_byte(out, 0x0b)
            } else {
                put_byte(out, 0x05)?;
                put_code(out, otherwise)?;
                put_byte(out, 0x0b)
            }
        }
        Instr::Br(label) => put_indexed(out, 0x0c, *label),
        Instr::BrIf(label) => put_indexed(out, 0x0d, *label),
        Instr::BrTable(labels, label) => put_branches(out, labels, *label),
        Instr::Return => put_byte(out, 0x0f),
        Instr::Call(function) => put_indexed(out, 0x10, *function),
        Instr::CallIndirect(kind) => put_indirect_call(out, *kind),
        Instr::Drop => put_byte(out, 0x1a),
        Instr::Select => put_byte(out, 0x1b),
        Instr::LocalGet(local) => put_indexed(out, 0x20, *local),
        Instr::LocalSet(local) => put_indexed(out, 0x21, *local),
        Instr::LocalTee(local) => put_indexed(out, 0x22, *local),
        Instr::GlobalGet(global) => put_indexed(out, 0x23, *global),
        Instr::GlobalSet(global) => put_indexed(out, 0x24, *global),
        Instr::Load(op, align, offset) => put_pair(out, opcode_of_load(*op), *align, *offset),
        Instr::Store(op, align, offset) => put_pair(out, opcode_of_store(*op), *align, *offset),
        Instr::MemorySize => put_two(out, 0x3f, 0x00),
        Instr::MemoryGrow => put_two(out, 0x40, 0x00),
        Instr::ConstI32(bits) => put_constant_32(out, *bits),
        Instr::ConstI64(bits) => put_constant_64(out, *bits),
        Instr::Num(op) => put_byte(out, opcode_of_numeric(*op)),
    }
}
