// Code as text: instructions with commas between them, each with at most one number.

use crate::fields::{Fault, number_in};
use mw_wasm::{Indices, Instr, Instrs, IntOp, LoadOp, NumOp, StoreOp, ValType};
use std::alloc::Global;
use std::mem;

/// The numeric instructions.
const NUMERIC: &[(&str, NumOp)] = &[
    ("add", NumOp::I64(IntOp::Add)),
    ("sub", NumOp::I64(IntOp::Sub)),
    ("div", NumOp::I64(IntOp::DivS)),
    ("eqz", NumOp::I64(IntOp::Eqz)),
    ("ne", NumOp::I64(IntOp::Ne)),
    ("extend", NumOp::ExtendU),
    ("wrap", NumOp::Wrap),
];

const LOADS: &[(&str, LoadOp)] = &[
    ("i32.load", LoadOp::I32),
    ("i64.load", LoadOp::I64),
    ("i32.load8_s", LoadOp::I32S8),
    ("i32.load8_u", LoadOp::I32U8),
    ("i32.load16_s", LoadOp::I32S16),
    ("i32.load16_u", LoadOp::I32U16),
    ("i64.load8_s", LoadOp::I64S8),
    ("i64.load8_u", LoadOp::I64U8),
    ("i64.load16_s", LoadOp::I64S16),
    ("i64.load16_u", LoadOp::I64U16),
    ("i64.load32_s", LoadOp::I64S32),
    ("i64.load32_u", LoadOp::I64U32),
];

const STORES: &[(&str, StoreOp)] = &[
    ("i32.store", StoreOp::I32),
    ("i64.store", StoreOp::I64),
    ("i32.store8", StoreOp::I32To8),
    ("i32.store16", StoreOp::I32To16),
    ("i64.store8", StoreOp::I64To8),
    ("i64.store16", StoreOp::I64To16),
    ("i64.store32", StoreOp::I64To32),
];

/// What opens a block.
#[derive(Clone, Copy, Drop)]
enum Opener {
    Block,
    Loop,
    If,
}

/// A block that is still open: what it gives, and the code before it; an else also has the code of the first list.
#[derive(Drop)]
enum Open {
    Block(Opener, Option<ValType>, Instrs),
    Else(Option<ValType>, Instrs, Instrs),
}

/// Code of which a part is read: the blocks that are still open, and the code since the last of them began.
#[derive(Drop)]
struct Part {
    blocks: Vec<Open>,
    code: Instrs,
}

impl Part {
    /// Nothing is read.
    fn none(alloc: Global) -> Part {
        Part {
            blocks: Vec::new(alloc),
            code: Instrs::new(alloc),
        }
    }

    /// Adds an instruction, or opens or closes a block.
    fn add(&mut self, alloc: Global, piece: &str) -> Result<(), Fault> {
        let (name, number) = parts(piece)?;
        match name {
            "else" => self.begin_else(alloc),
            "end" => self.end(alloc),
            _ => match opener_of(name) {
                Some((opener, gives)) => self.begin(alloc, opener, gives),
                None => self.push(plain(alloc, name, number)?),
            },
        }
    }

    fn push(&mut self, instruction: Instr) -> Result<(), Fault> {
        self.code.push(instruction)?;
        Ok(())
    }

    fn begin(
        &mut self,
        alloc: Global,
        opener: Opener,
        gives: Option<ValType>,
    ) -> Result<(), Fault> {
        let before = mem::replace(&mut self.code, Instrs::new(alloc));
        self.blocks.push(Open::Block(opener, gives, before))?;
        Ok(())
    }

    fn begin_else(&mut self, alloc: Global) -> Result<(), Fault> {
        match self.blocks.pop() {
            Some(Open::Block(Opener::If, gives, before)) => {
                let first = mem::replace(&mut self.code, Instrs::new(alloc));
                self.blocks.push(Open::Else(gives, before, first))?;
                Ok(())
            }
            _ => Err(Fault::Malformed("an else without its if")),
        }
    }

    fn end(&mut self, alloc: Global) -> Result<(), Fault> {
        match self.blocks.pop() {
            Some(Open::Block(opener, gives, before)) => {
                let inner = mem::replace(&mut self.code, before);
                self.push(block(alloc, opener, gives, inner))
            }
            Some(Open::Else(gives, before, first)) => {
                let second = mem::replace(&mut self.code, before);
                self.push(Instr::If(gives, first, second))
            }
            None => Err(Fault::Malformed("an end without its block")),
        }
    }
}

/// The code that a text spells. A name that ends in `>` opens a block that gives an i64.
pub fn code(alloc: Global, text: &str) -> Result<Instrs, Fault> {
    let mut part = Part::none(alloc);
    for piece in text.split(',') {
        part.add(alloc, piece.trim())?;
    }
    if part.blocks.is_empty() {
        Ok(part.code)
    } else {
        Err(Fault::Malformed("a block without its end"))
    }
}

/// The name of an instruction, and its number or 0.
fn parts(piece: &str) -> Result<(&str, u64), Fault> {
    match piece.split_once(' ') {
        None => Ok((piece, 0)),
        Some((name, digits)) => Ok((name, number_in(digits)?)),
    }
}

/// What a name opens, and what the block gives.
fn opener_of(name: &str) -> Option<(Opener, Option<ValType>)> {
    match name {
        "block" => Some((Opener::Block, None)),
        "block>" => Some((Opener::Block, Some(ValType::I64))),
        "loop" => Some((Opener::Loop, None)),
        "loop>" => Some((Opener::Loop, Some(ValType::I64))),
        "if" => Some((Opener::If, None)),
        "if>" => Some((Opener::If, Some(ValType::I64))),
        _ => None,
    }
}

/// A block of this code; an `if` has no code in its second list.
fn block(alloc: Global, opener: Opener, gives: Option<ValType>, inner: Instrs) -> Instr {
    match opener {
        Opener::Block => Instr::Block(gives, inner),
        Opener::Loop => Instr::Loop(gives, inner),
        Opener::If => Instr::If(gives, inner, Instrs::new(alloc)),
    }
}

/// An instruction that holds no code.
fn plain(alloc: Global, name: &str, number: u64) -> Result<Instr, Fault> {
    let small = (number % 0x1_0000_0000) as u32;
    match name {
        "i32" => Ok(Instr::ConstI32(small)),
        "i64" => Ok(Instr::ConstI64(number)),
        "table" => table(alloc, small),
        "return" => Ok(Instr::Return),
        "drop" => Ok(Instr::Drop),
        "select" => Ok(Instr::Select),
        "size" => Ok(Instr::MemorySize),
        "grow" => Ok(Instr::MemoryGrow),
        "unreachable" => Ok(Instr::Unreachable),
        "nop" => Ok(Instr::Nop),
        _ => indexed(name, small),
    }
}

/// A table with the labels 0 and 1, and this one past its end.
fn table(alloc: Global, last: u32) -> Result<Instr, Fault> {
    let mut labels = Indices::new(alloc);
    for label in [0, 1] {
        labels.push(label)?;
    }
    Ok(Instr::BrTable(labels, last))
}

/// An instruction with the index of a label, a function, a type, a local or a global, or another one.
fn indexed(name: &str, index: u32) -> Result<Instr, Fault> {
    match name {
        "br" => Ok(Instr::Br(index)),
        "br_if" => Ok(Instr::BrIf(index)),
        "call" => Ok(Instr::Call(index)),
        "indirect" => Ok(Instr::CallIndirect(index)),
        "get" => Ok(Instr::LocalGet(index)),
        "set" => Ok(Instr::LocalSet(index)),
        "tee" => Ok(Instr::LocalTee(index)),
        "global.get" => Ok(Instr::GlobalGet(index)),
        "global.set" => Ok(Instr::GlobalSet(index)),
        _ => operation(name, index),
    }
}

/// A load, a store or a numeric instruction.
fn operation(name: &str, offset: u32) -> Result<Instr, Fault> {
    if let Some(op) = found(LOADS, name) {
        return Ok(Instr::Load(op, 0, offset));
    }
    if let Some(op) = found(STORES, name) {
        return Ok(Instr::Store(op, 0, offset));
    }
    match found(NUMERIC, name) {
        Some(op) => Ok(Instr::Num(op)),
        None => Err(Fault::Malformed("no instruction")),
    }
}

/// What stands beside a name in a table.
fn found<T: Copy>(table: &[(&str, T)], name: &str) -> Option<T> {
    for (word, op) in table {
        if *word == name {
            return Some(*op);
        }
    }
    None
}
