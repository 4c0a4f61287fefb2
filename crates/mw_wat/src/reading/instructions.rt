// Instructions that hold no list: what stands behind their names.

ghost use Rattle.std.specs.Prelude.{◌≡◌, ◌-◌, ◌^◌, [], ◌∷◌};
ghost use Rattle.mw_wasm.specs.Views.{instruction_of};
ghost use Rattle.mw_wat.specs.Reading.{all_of, as_number as as_number_here, got};
ghost use Rattle.mw_wat.specs.Instructions.{indirect as indirect_here, labels as labels_here};
ghost use Rattle.mw_wat.specs.Modules.{as_limit};
ghost use Rattle.mw_wat.specs.Cursors.{Gives, tokens_at};
ghost use Rattle.mw_wat.specs.Parts.{branches as branches_here};
ghost use Rattle.mw_wat.specs.Words.{indexing, named};

use crate::reading::cursor::{Cursor, Read};
use crate::reading::lexer::next_token;
use crate::reading::numbers::as_number;
use crate::reading::singles::{closing, constant_32, constant_64, index, keyed, opening, this};
use crate::reading::words::{Indexed, Name};
use mw_wasm::{Indices, Instr};
use std::alloc::Global;

/// All indices from here on, up to a token that is none.
#[tactic(auto, using(crate::proofs::CursorLoops::all_laws, crate::proofs::CursorLoops::joined_none))]
pub fn all_indices(alloc: Global, cursor: Cursor) -> Read<Indices>
    ensures { Gives (λ x. got x.0 (tokens_at x.1)) result
        (all_of as_limit (tokens_at cursor.entry)) }
{
    let mut list = Indices::new(alloc);
    let mut left = cursor;
    loop {
        match next_token(left) {
            Err(e) => return Err(e),
            Ok((token, rest)) => match as_number(token, u32::MAX) {
                None => return Ok((list, left)),
                Some(found) => {
                    list.push(found)?;
                    left = rest;
                }
            },
        }
    }
}

/// The labels of a branch by a table behind the first one; the last of all is the default.
#[tactic(auto, using(crate::proofs::CursorLoops::branch_laws))]
fn branches(alloc: Global, first: u32, cursor: Cursor) -> Read<Instr>
    ensures { Gives (λ x. got (instruction_of x.0) (tokens_at x.1)) result
        (branches_here [] first (all_of (as_number_here (2 ^ 32 - 1)) (tokens_at cursor.entry))) }
{
    let mut list = Indices::new(alloc);
    let mut last = first;
    let mut left = cursor;
    loop {
        match next_token(left) {
            Err(e) => return Err(e),
            Ok((token, rest)) => match as_number(token, u32::MAX) {
                None => return Ok((Instr::BrTable(list, last), left)),
                Some(label) => {
                    list.push(last)?;
                    last = label;
                    left = rest;
                }
            },
        }
    }
}

/// A branch by a table, behind its name.
fn branch_table(alloc: Global, cursor: Cursor) -> Read<Instr>
    ensures { Gives (λ x. got (instruction_of x.0) (tokens_at x.1)) result
        (labels_here (tokens_at cursor.entry)) }
{
    let (first, rest) = index(cursor)?;
    branches(alloc, first, rest)
}

/// A call by the table, behind its name.
fn indirect_call(cursor: Cursor) -> Read<Instr>
    ensures { Gives (λ x. got (instruction_of x.0) (tokens_at x.1)) result
        (indirect_here (tokens_at cursor.entry)) }
{
    let (_, rest) = opening(cursor)?;
    let (_, rest) = this(rest, b"type")?;
    let (kind, rest) = index(rest)?;
    let (_, rest) = closing(rest)?;
    Ok((Instr::CallIndirect(kind), rest))
}

/// The instruction of a name and an index.
fn indexed(name: Indexed, index: u32) -> Instr
    ensures { instruction_of result ≡ indexing name index }
{
    match name {
        Indexed::Br => Instr::Br(index),
        Indexed::BrIf => Instr::BrIf(index),
        Indexed::Call => Instr::Call(index),
        Indexed::LocalGet => Instr::LocalGet(index),
        Indexed::LocalSet => Instr::LocalSet(index),
        Indexed::LocalTee => Instr::LocalTee(index),
        Indexed::GlobalGet => Instr::GlobalGet(index),
        Indexed::GlobalSet => Instr::GlobalSet(index),
    }
}

/// The instruction of this name.
pub fn instruction(alloc: Global, name: Name, cursor: Cursor) -> Read<Instr>
    ensures { Gives (λ x. got (instruction_of x.0) (tokens_at x.1)) result
        (named name (tokens_at cursor.entry)) }
{
    match name {
        Name::Unreachable => Ok((Instr::Unreachable, cursor)),
        Name::Nop => Ok((Instr::Nop, cursor)),
        Name::Return => Ok((Instr::Return, cursor)),
        Name::Drop => Ok((Instr::Drop, cursor)),
        Name::Select => Ok((Instr::Select, cursor)),
        Name::MemorySize => Ok((Instr::MemorySize, cursor)),
        Name::MemoryGrow => Ok((Instr::MemoryGrow, cursor)),
        Name::Num(op) => Ok((Instr::Num(op), cursor)),
        Name::BrTable => branch_table(alloc, cursor),
        Name::CallIndirect => indirect_call(cursor),
        Name::Indexed(name) => {
            let (index, rest) = index(cursor)?;
            Ok((indexed(name, index), rest))
        }
        Name::ConstI32 => {
            let (bits, rest) = constant_32(cursor)?;
            Ok((Instr::ConstI32(bits), rest))
        }
        Name::ConstI64 => {
            let (bits, rest) = constant_64(cursor)?;
            Ok((Instr::ConstI64(bits), rest))
        }
        Name::Load(op) => {
            let (offset, rest) = keyed(cursor, b"offset=")?;
            let (align, rest) = keyed(rest, b"exp=")?;
            Ok((Instr::Load(op, align, offset), rest))
        }
        Name::Store(op) => {
            let (offset, rest) = keyed(cursor, b"offset=")?;
            let (align, rest) = keyed(rest, b"exp=")?;
            Ok((Instr::Store(op, align, offset), rest))
        }
    }
}
