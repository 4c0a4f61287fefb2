// Code, by descent over nested blocks: `room` is the number of blocks that may still stand one in another.

ghost use Rattle.std.specs.Prelude.{◌≡◌, ◌<◌, ◌≤◌, ◌≢◌, ℕ, length, IfOk, true, false};
ghost use Rattle.mw_wasm.specs.Views.{instruction_of, code_of};
ghost use Rattle.mw_decode.specs.Reading.{got, place};
ghost use Rattle.mw_decode.specs.Opcodes.{opcode, alone_of};
ghost use Rattle.mw_decode.specs.Instructions.{value_type as type_here, block_type as block_type_here, instructions};
ghost use Rattle.mw_decode.specs.Instructions.{opened as opened_here, inside as inside_here, closed as closed_here};
ghost use Rattle.mw_decode.specs.Instructions.{expression as expression_here};
ghost use Rattle.mw_decode.specs.Listing.{mark_of, opener_of, opcode_of, listed_of};
ghost use Rattle.mw_decode.specs.Gives.{Gives};

use crate::fault::{BadModule, Fault, Read};
use crate::opcodes::alone;
use crate::pieces::{next_byte, place_of};
use crate::trees::{block_instr, if_instr, loop_instr};
use mw_wasm::{Instr, Instrs, ValType};
use std::alloc::Global;

/// What ended a list of instructions.
#[derive(Clone, Copy, Debug, PartialEq, Eq)]
pub enum Mark {
    /// 0B.
    Closing,
    /// 05.
    Otherwise,
}

/// What begins a list inside an instruction.
#[derive(Clone, Copy, Debug, PartialEq, Eq)]
pub enum Opener {
    Block,
    Loop,
    If,
}

/// What an opcode does to the list that it stands in.
#[derive(Clone, Copy, Debug, PartialEq, Eq)]
pub enum Word {
    Closing,
    Otherwise,
    Opens(Opener),
    Alone,
}

#[tactic(auto, unfolding(crate::specs::Opcodes::opcode))]
/// What an opcode does.
fn word_of(byte: u8) -> Word
    ensures { opcode byte ≡ opcode_of byte result }
{
    if byte == 0x02 {
        Word::Opens(Opener::Block)
    } else if byte == 0x03 {
        Word::Opens(Opener::Loop)
    } else if byte == 0x04 {
        Word::Opens(Opener::If)
    } else if byte == 0x05 {
        Word::Otherwise
    } else if byte == 0x0b {
        Word::Closing
    } else {
        Word::Alone
    }
}

/// A value type: 7F or 7E. The types 7D and 7C of floating point are outside the profile.
pub fn value_type(bytes: &[u8], end: u32) -> Read<ValType>
    requires { length bytes.now ≤ end }
    ensures gives { Gives (λ x. got x.0 x.1.now) result (type_here end bytes.now) }
    ensures rest { IfOk result (λ x. length x.1.now ≤ length bytes.now) }
{
    match bytes {
        [] => Err(Fault::Ended),
        [b, rest @ ..] => match *b {
            0x7f => Ok((ValType::I32, rest)),
            0x7e => Ok((ValType::I64, rest)),
            0x7c | 0x7d => Err(Fault::Bad(BadModule::OutsideProfile(place_of(bytes, end)))),
            _ => Err(Fault::Bad(BadModule::Opcode(place_of(bytes, end)))),
        },
    }
}

/// A block's type: 40, or a value type.
fn block_type(bytes: &[u8], end: u32) -> Read<Option<ValType>>
    requires { length bytes.now ≤ end }
    ensures gives { Gives (λ x. got x.0 x.1.now) result (block_type_here end bytes.now) }
    ensures rest { IfOk result (λ x. length x.1.now ≤ length bytes.now) }
{
    match bytes {
        [] => Err(Fault::Ended),
        [b, rest @ ..] => match *b {
            0x40 => Ok((None, rest)),
            0x7f => Ok((Some(ValType::I32), rest)),
            0x7e => Ok((Some(ValType::I64), rest)),
            0x7c | 0x7d => Err(Fault::Bad(BadModule::OutsideProfile(place_of(bytes, end)))),
            _ => Err(Fault::Bad(BadModule::Opcode(place_of(bytes, end)))),
        },
    }
}

/// Instructions up to their mark; 05 is one only in the first list of an `if`.
#[cycle(code)]
#[tactic(auto, using(crate::proofs::Steps::step_laws))]
fn listed(alloc: Global, bytes: &[u8], end: u32, room: u32, first: bool) -> Read<(Instrs, Mark)>
    requires place { length bytes.now ≤ end }
    requires shallow { room ≤ 500 }
    ensures gives { Gives (λ x. got (listed_of x.0.0 x.0.1) x.1.now) result
        (instructions room first end bytes.now) }
    ensures rest { IfOk result (λ x. length x.1.now ≤ length bytes.now) }
{
    let mut list = Instrs::new(alloc);
    let mut left = bytes;
    while let Some((b, rest)) = next_byte(left) {
        let at = place_of(left, end);
        match word_of(b) {
            Word::Closing => return Ok(((list, Mark::Closing), rest)),
            Word::Otherwise => {
                if first {
                    return Ok(((list, Mark::Otherwise), rest));
                }
                return Err(Fault::Bad(BadModule::Opcode(at)));
            }
            Word::Opens(opener) => {
                let (instr, next) = opened(alloc, opener, at, rest, end, room)?;
                list.push(instr)?;
                left = next;
            }
            Word::Alone => {
                let (instr, next) = alone(alloc, b, at, rest, end)?;
                list.push(instr)?;
                left = next;
            }
        }
    }
    Err(Fault::Ended)
}

/// Behind the opcode of a block at a place.
#[cycle(code)]
fn opened<'a>(
    alloc: Global,
    opener: Opener,
    at: u32,
    bytes: &'a [u8],
    end: u32,
    room: u32,
) -> Read<'a, Instr>
    requires place { length bytes.now ≤ end }
    requires shallow { room ≤ 500 }
    ensures gives { Gives (λ x. got (instruction_of x.0) x.1.now) result
        (opened_here instructions room (opener_of opener) at end bytes.now) }
    ensures rest { IfOk result (λ x. length x.1.now ≤ length bytes.now) }
{
    if room == 0 {
        return Err(Fault::Bad(BadModule::OutsideProfile(at)));
    }
    let (kind, rest) = block_type(bytes, end)?;
    inside(alloc, opener, kind, rest, end, room - 1)
}

/// Behind a block's type.
#[cycle(code)]
fn inside<'a>(
    alloc: Global,
    opener: Opener,
    kind: Option<ValType>,
    bytes: &'a [u8],
    end: u32,
    room: u32,
) -> Read<'a, Instr>
    requires place { length bytes.now ≤ end }
    requires shallow { room ≤ 500 }
    ensures gives { Gives (λ x. got (instruction_of x.0) x.1.now) result
        (inside_here instructions room (opener_of opener) kind end bytes.now) }
    ensures rest { IfOk result (λ x. length x.1.now ≤ length bytes.now) }
{
    match opener {
        Opener::Block => {
            let (body, rest) = closed(alloc, bytes, end, room)?;
            Ok((block_instr(kind, body), rest))
        }
        Opener::Loop => {
            let (body, rest) = closed(alloc, bytes, end, room)?;
            Ok((loop_instr(kind, body), rest))
        }
        Opener::If => {
            let ((first, mark), rest) = listed(alloc, bytes, end, room, true)?;
            match mark {
                Mark::Closing => Ok((if_instr(kind, first, Instrs::new(alloc)), rest)),
                Mark::Otherwise => {
                    let (second, rest) = closed(alloc, rest, end, room)?;
                    Ok((if_instr(kind, first, second), rest))
                }
            }
        }
    }
}

/// Instructions and 0B.
#[cycle(code)]
fn closed(alloc: Global, bytes: &[u8], end: u32, room: u32) -> Read<Instrs>
    requires place { length bytes.now ≤ end }
    requires shallow { room ≤ 500 }
    ensures gives { Gives (λ x. got (code_of x.0) x.1.now) result
        (closed_here instructions room end bytes.now) }
    ensures rest { IfOk result (λ x. length x.1.now ≤ length bytes.now) }
{
    let ((list, _), rest) = listed(alloc, bytes, end, room, false)?;
    Ok((list, rest))
}

/// An expression: instructions whose blocks stand at most 500 deep, and 0B.
pub fn expression(alloc: Global, bytes: &[u8], end: u32) -> Read<Instrs>
    requires { length bytes.now ≤ end }
    ensures gives { Gives (λ x. got (code_of x.0) x.1.now) result (expression_here end bytes.now) }
    ensures rest { IfOk result (λ x. length x.1.now ≤ length bytes.now) }
{
    closed(alloc, bytes, end, 500)
}
