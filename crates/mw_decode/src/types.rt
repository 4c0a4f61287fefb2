// Function types and their section.

ghost use Rattle.std.specs.Prelude.{◌≡◌, ◌≤◌, ℕ, length, IfOk};
ghost use Rattle.mw_decode.specs.Reading.{got, times, vector};
ghost use Rattle.mw_decode.specs.Instructions.{value_type as value_type_here};
ghost use Rattle.mw_decode.specs.Sections.{function_type as function_type_here};
ghost use Rattle.mw_decode.specs.Gives.{Gives};

use crate::code::value_type;
use crate::fault::Read;
use crate::pieces::{at_most, fixed, u32_at};
use mw_wasm::{FuncType, FuncTypes, ValTypes};
use std::alloc::Global;

/// So many value types.
#[tactic(auto, using(crate::proofs::Loops::loop_laws))]
fn value_types(alloc: Global, count: u32, bytes: &[u8], end: u32) -> Read<ValTypes>
    requires { length bytes.now ≤ end }
    ensures gives { Gives (λ x. got x.0 x.1.now) result
        (times count value_type_here end bytes.now) }
    ensures rest { IfOk result (λ x. length x.1.now ≤ length bytes.now) }
{
    let mut list = ValTypes::new(alloc);
    let mut rest = bytes;
    for _ in 0..count {
        match value_type(rest, end) {
            Err(e) => return Err(e),
            Ok((t, next)) => {
                list.push(t)?;
                rest = next;
            }
        }
    }
    Ok((list, rest))
}

/// A function type, of at most one result.
fn function_type(alloc: Global, bytes: &[u8], end: u32) -> Read<FuncType>
    requires { length bytes.now ≤ end }
    ensures gives { Gives (λ x. got x.0 x.1.now) result (function_type_here end bytes.now) }
    ensures rest { IfOk result (λ x. length x.1.now ≤ length bytes.now) }
{
    let (_, rest) = fixed(bytes, end, 0x60)?;
    let (count, rest) = u32_at(rest, end)?;
    let (params, rest) = value_types(alloc, count, rest, end)?;
    let (few, rest) = at_most(rest, end, 1)?;
    let (results, rest) = value_types(alloc, few, rest, end)?;
    Ok((FuncType { params, results }, rest))
}

/// So many function types.
#[tactic(auto, using(crate::proofs::Loops::loop_laws))]
fn so_many_types(alloc: Global, count: u32, bytes: &[u8], end: u32) -> Read<FuncTypes>
    requires { length bytes.now ≤ end }
    ensures gives { Gives (λ x. got x.0 x.1.now) result
        (times count function_type_here end bytes.now) }
    ensures rest { IfOk result (λ x. length x.1.now ≤ length bytes.now) }
{
    let mut list = FuncTypes::new(alloc);
    let mut rest = bytes;
    for _ in 0..count {
        match function_type(alloc, rest, end) {
            Err(e) => return Err(e),
            Ok((t, next)) => {
                list.push(t)?;
                rest = next;
            }
        }
    }
    Ok((list, rest))
}

/// A vector of function types.
pub fn function_types(alloc: Global, bytes: &[u8], end: u32) -> Read<FuncTypes>
    requires { length bytes.now ≤ end }
    ensures gives { Gives (λ x. got x.0 x.1.now) result (vector function_type_here end bytes.now) }
    ensures rest { IfOk result (λ x. length x.1.now ≤ length bytes.now) }
{
    let (count, rest) = u32_at(bytes, end)?;
    so_many_types(alloc, count, rest, end)
}
