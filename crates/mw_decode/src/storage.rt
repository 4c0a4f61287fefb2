// Tables, memories and globals.

ghost use Rattle.std.specs.Prelude.{◌≡◌, ◌≤◌, length, map, IfOk};
ghost use Rattle.mw_wasm.specs.Views.{global_of};
ghost use Rattle.mw_decode.specs.Reading.{got, byte_of, times, vector};
ghost use Rattle.mw_decode.specs.Sections.{has_max, maximum as maximum_here, limits as limits_here};
ghost use Rattle.mw_decode.specs.Sections.{table as table_here, memory as memory_here, single, global as global_here};
ghost use Rattle.mw_decode.specs.Gives.{Gives};

use crate::code::{expression, value_type};
use crate::fault::{BadModule, Fault, Read};
use crate::pieces::{at_most, fixed, next_byte, place_of, u32_at};
use mw_wasm::{GlobalVar, Globals, Limits};
use std::alloc::Global;

/// A flag: 00 or 01.
fn flag(bytes: &[u8], end: u32) -> Read<bool>
    requires { length bytes.now ≤ end }
    ensures gives { Gives (λ x. got x.0 x.1.now) result (byte_of has_max end bytes.now) }
    ensures rest { IfOk result (λ x. length x.1.now ≤ length bytes.now) }
{
    match bytes {
        [] => Err(Fault::Ended),
        [b, rest @ ..] => match *b {
            0x00 => Ok((false, rest)),
            0x01 => Ok((true, rest)),
            _ => Err(Fault::Bad(BadModule::Opcode(place_of(bytes, end)))),
        },
    }
}

/// The maximum, where the flag says that there is one.
fn maximum(more: bool, bytes: &[u8], end: u32) -> Read<Option<u32>>
    requires { length bytes.now ≤ end }
    ensures gives { Gives (λ x. got x.0 x.1.now) result (maximum_here more end bytes.now) }
    ensures rest { IfOk result (λ x. length x.1.now ≤ length bytes.now) }
{
    if more {
        let (max, rest) = u32_at(bytes, end)?;
        Ok((Some(max), rest))
    } else {
        Ok((None, bytes))
    }
}

/// Limits, whose minimum is at most this.
fn limits(bytes: &[u8], end: u32, most: u32) -> Read<Limits>
    requires { length bytes.now ≤ end }
    ensures gives { Gives (λ x. got x.0 x.1.now) result (limits_here most end bytes.now) }
    ensures rest { IfOk result (λ x. length x.1.now ≤ length bytes.now) }
{
    let (more, rest) = flag(bytes, end)?;
    let (min, rest) = at_most(rest, end, most)?;
    let (max, rest) = maximum(more, rest, end)?;
    Ok((Limits { min, max }, rest))
}

/// A table's type.
fn one_table(bytes: &[u8], end: u32) -> Read<Limits>
    requires { length bytes.now ≤ end }
    ensures gives { Gives (λ x. got x.0 x.1.now) result (table_here end bytes.now) }
    ensures rest { IfOk result (λ x. length x.1.now ≤ length bytes.now) }
{
    let (_, rest) = fixed(bytes, end, 0x70)?;
    limits(rest, end, 100_000)
}

/// No table or one.
#[tactic(auto, using(crate::proofs::Singles::single_laws))]
pub fn table(bytes: &[u8], end: u32) -> Read<Option<Limits>>
    requires { length bytes.now ≤ end }
    ensures gives { Gives (λ x. got x.0 x.1.now) result (single table_here end bytes.now) }
    ensures rest { IfOk result (λ x. length x.1.now ≤ length bytes.now) }
{
    let (count, rest) = at_most(bytes, end, 1)?;
    if count == 0 {
        return Ok((None, rest));
    }
    let (found, rest) = one_table(rest, end)?;
    Ok((Some(found), rest))
}

/// No memory or one.
#[tactic(auto, using(crate::proofs::Singles::single_laws))]
pub fn memory(bytes: &[u8], end: u32) -> Read<Option<Limits>>
    requires { length bytes.now ≤ end }
    ensures gives { Gives (λ x. got x.0 x.1.now) result (single memory_here end bytes.now) }
    ensures rest { IfOk result (λ x. length x.1.now ≤ length bytes.now) }
{
    let (count, rest) = at_most(bytes, end, 1)?;
    if count == 0 {
        return Ok((None, rest));
    }
    let (found, rest) = limits(rest, end, 1_024)?;
    Ok((Some(found), rest))
}

/// A global: its type, whether it can be written, and its expression.
fn global(alloc: Global, bytes: &[u8], end: u32) -> Read<GlobalVar>
    requires { length bytes.now ≤ end }
    ensures gives { Gives (λ x. got (global_of x.0) x.1.now) result (global_here end bytes.now) }
    ensures rest { IfOk result (λ x. length x.1.now ≤ length bytes.now) }
{
    let (kind, rest) = value_type(bytes, end)?;
    let (variable, rest) = flag(rest, end)?;
    let (init, rest) = expression(alloc, rest, end)?;
    Ok((
        GlobalVar {
            kind,
            variable,
            init,
        },
        rest,
    ))
}

/// So many globals.
#[tactic(auto, using(crate::proofs::Loops::seen_laws))]
fn so_many_globals(alloc: Global, count: u32, bytes: &[u8], end: u32) -> Read<Globals>
    requires { length bytes.now ≤ end }
    ensures gives { Gives (λ x. got (map global_of x.0) x.1.now) result
        (times count global_here end bytes.now) }
    ensures rest { IfOk result (λ x. length x.1.now ≤ length bytes.now) }
{
    let mut list = Globals::new(alloc);
    let mut rest = bytes;
    for _ in 0..count {
        match global(alloc, rest, end) {
            Err(e) => return Err(e),
            Ok((x, next)) => {
                list.push(x)?;
                rest = next;
            }
        }
    }
    Ok((list, rest))
}

/// A vector of globals.
pub fn globals(alloc: Global, bytes: &[u8], end: u32) -> Read<Globals>
    requires { length bytes.now ≤ end }
    ensures gives { Gives (λ x. got (map global_of x.0) x.1.now) result
        (vector global_here end bytes.now) }
    ensures rest { IfOk result (λ x. length x.1.now ≤ length bytes.now) }
{
    let (count, rest) = u32_at(bytes, end)?;
    so_many_globals(alloc, count, rest, end)
}
