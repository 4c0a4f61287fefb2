// Instructions.

ghost use Rattle.std.specs.Prelude.{◌≡◌, [], ◌∷◌, ◌++◌, codes, map, OnOk};
ghost use Rattle.std.specs.Int.{w32, w64};
ghost use Rattle.mw_wasm.specs.BinaryModules.{at_most_one};
ghost use Rattle.mw_wasm.specs.Views.{code_of, instruction_of};
ghost use Rattle.mw_wat.specs.Spacing.{spaced};
ghost use Rattle.mw_wat.specs.Lexemes.{
  addressed,
  code,
  constant,
  instruction,
  number,
  otherwise,
  types_behind,
  within,
  word,
};
ghost use Rattle.mw_wat.specs.Names.{number_name};

use crate::names::{name_of_load, name_of_operation, name_of_store, name_of_type};
use crate::pieces::{
    put_closing, put_constant_32, put_constant_64, put_joined, put_keyed, put_number, put_numbers,
    put_opening, put_word,
};
use mw_wasm::{Indices, Instr, Instrs, NumOp, ValType};
use std::alloc::AllocError;

/// Appends a word and the number behind it.
fn put_indexed(out: &mut Vec<u8>, text: &[u8], index: u32) -> Result<(), AllocError>
    ensures { OnOk result (out.new.items ≡ out.old.items
        ++ spaced (word text.now ∷ number index ∷ [])) }
{
    put_word(out, text)?;
    put_number(out, index)
}

/// Appends a load or a store.
fn put_addressed(out: &mut Vec<u8>, text: &[u8], align: u32, offset: u32) -> Result<(), AllocError>
    ensures { OnOk result (out.new.items ≡ out.old.items
        ++ spaced (addressed text.now align offset)) }
{
    put_word(out, text)?;
    put_keyed(out, b"offset=", offset)?;
    put_keyed(out, b"exp=", align)
}

/// Appends a branch by a table.
fn put_branches(out: &mut Vec<u8>, labels: &Indices, label: u32) -> Result<(), AllocError>
    ensures { OnOk result (out.new.items ≡ out.old.items
        ++ spaced (word (codes "br_table") ∷ map number labels.now ++ number label ∷ [])) }
{
    put_word(out, b"br_table")?;
    put_numbers(out, labels)?;
    put_number(out, label)
}

/// Appends the index of a type in parentheses.
pub fn put_type_index(out: &mut Vec<u8>, index: u32) -> Result<(), AllocError>
    ensures { OnOk result (out.new.items ≡ out.old.items
        ++ spaced (within (word (codes "type") ∷ number index ∷ []))) }
{
    put_opening(out, b"type")?;
    put_number(out, index)?;
    put_closing(out)
}

/// Appends a call by the table.
fn put_indirect_call(out: &mut Vec<u8>, index: u32) -> Result<(), AllocError>
    ensures { OnOk result (out.new.items ≡ out.old.items
        ++ spaced (word (codes "call_indirect") ∷ within (word (codes "type") ∷ number index ∷ []))) }
{
    put_word(out, b"call_indirect")?;
    put_type_index(out, index)
}

/// Appends the name of a numeric instruction.
fn put_numeric(out: &mut Vec<u8>, op: NumOp) -> Result<(), AllocError>
    ensures { OnOk result (out.new.items ≡ out.old.items ++ spaced (word (number_name op) ∷ [])) }
{
    match op {
        NumOp::I32(op) => put_joined(out, b"i32.", name_of_operation(op)),
        NumOp::I64(op) => put_joined(out, b"i64.", name_of_operation(op)),
        NumOp::Wrap => put_word(out, b"i32.wrap_i64"),
        NumOp::ExtendS => put_word(out, b"i64.extend_i32_s"),
        NumOp::ExtendU => put_word(out, b"i64.extend_i32_u"),
    }
}

/// Appends a constant of 32 bits.
fn put_i32(out: &mut Vec<u8>, bits: u32) -> Result<(), AllocError>
    ensures { OnOk result (out.new.items ≡ out.old.items
        ++ spaced (word (codes "i32.const") ∷ constant w32 bits ∷ [])) }
{
    put_word(out, b"i32.const")?;
    put_constant_32(out, bits)
}

/// Appends a constant of 64 bits.
fn put_i64(out: &mut Vec<u8>, bits: u64) -> Result<(), AllocError>
    ensures { OnOk result (out.new.items ≡ out.old.items
        ++ spaced (word (codes "i64.const") ∷ constant w64 bits ∷ [])) }
{
    put_word(out, b"i64.const")?;
    put_constant_64(out, bits)
}

/// Appends the type of a block's result, where there is one.
fn put_result(out: &mut Vec<u8>, kind: Option<ValType>) -> Result<(), AllocError>
    ensures { OnOk result (out.new.items ≡ out.old.items
        ++ spaced (types_behind (codes "result") (at_most_one kind))) }
{
    match kind {
        None => Ok(()),
        Some(kind) => {
            put_opening(out, b"result")?;
            put_word(out, name_of_type(kind))?;
            put_closing(out)
        }
    }
}

/// Appends instructions in order.
#[cycle(put)]
pub fn put_code(out: &mut Vec<u8>, instructions: &Instrs) -> Result<(), AllocError>
    ensures { OnOk result (out.new.items ≡ out.old.items
        ++ spaced (code (code_of instructions.now))) }
{
    let list = instructions.as_slice();
    for instruction in list {
        put_instruction(out, instruction)?;
    }
    Ok(())
}

/// Appends an instruction.
#[cycle(put)]
fn put_instruction(out: &mut Vec<u8>, one: &Instr) -> Result<(), AllocError>
    ensures { OnOk result (out.new.items ≡ out.old.items
        ++ spaced (instruction (instruction_of one.now))) }
{
    match one {
        Instr::Unreachable => put_word(out, b"unreachable"),
        Instr::Nop => put_word(out, b"nop"),
        Instr::Block(kind, body) => {
            put_list(out, b"block", *kind, body)?;
            put_word(out, b"end")
        }
        Instr::Loop(kind, body) => {
            put_list(out, b"loop", *kind, body)?;
            put_word(out, b"end")
        }
        Instr::If(kind, then, second) => {
            put_list(out, b"if", *kind, then)?;
            put_else(out, second)?;
            put_word(out, b"end")
        }
        Instr::Br(label) => put_indexed(out, b"br", *label),
        Instr::BrIf(label) => put_indexed(out, b"br_if", *label),
        Instr::BrTable(labels, label) => put_branches(out, labels, *label),
        Instr::Return => put_word(out, b"return"),
        Instr::Call(function) => put_indexed(out, b"call", *function),
        Instr::CallIndirect(kind) => put_indirect_call(out, *kind),
        Instr::Drop => put_word(out, b"drop"),
        Instr::Select => put_word(out, b"select"),
        Instr::LocalGet(local) => put_indexed(out, b"local.get", *local),
        Instr::LocalSet(local) => put_indexed(out, b"local.set", *local),
        Instr::LocalTee(local) => put_indexed(out, b"local.tee", *local),
        Instr::GlobalGet(global) => put_indexed(out, b"global.get", *global),
        Instr::GlobalSet(global) => put_indexed(out, b"global.set", *global),
        Instr::Load(op, align, offset) => put_addressed(out, name_of_load(*op), *align, *offset),
        Instr::Store(op, align, offset) => put_addressed(out, name_of_store(*op), *align, *offset),
        Instr::MemorySize => put_word(out, b"memory.size"),
        Instr::MemoryGrow => put_word(out, b"memory.grow"),
        Instr::ConstI32(bits) => put_i32(out, *bits),
        Instr::ConstI64(bits) => put_i64(out, *bits),
        Instr::Num(op) => put_numeric(out, *op),
    }
}

/// Appends the word that begins a block, the type of its result and its first list.
#[cycle(put)]
fn put_list(
    out: &mut Vec<u8>,
    text: &[u8],
    kind: Option<ValType>,
    list: &Instrs,
) -> Result<(), AllocError>
    ensures { OnOk result (out.new.items ≡ out.old.items
        ++ spaced (word text.now ∷ types_behind (codes "result") (at_most_one kind)
        ++ code (code_of list.now))) }
{
    put_word(out, text)?;
    put_result(out, kind)?;
    put_code(out, list)
}

/// Appends the second list of an `if`, where there is one.
#[cycle(put)]
fn put_else(out: &mut Vec<u8>, second: &Instrs) -> Result<(), AllocError>
    ensures { OnOk result (out.new.items ≡ out.old.items
        ++ spaced (otherwise (code_of second.now))) }
{
    if second.len() == 0 {
        return Ok(());
    }
    put_word(out, b"else")?;
    put_code(out, second)
}
