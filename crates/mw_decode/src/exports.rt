// Exports.

ghost use Rattle.std.specs.Prelude.{◌≡◌, ◌≤◌, length, map, IfOk};
ghost use Rattle.mw_wasm.specs.Views.{export_of};
ghost use Rattle.mw_decode.specs.Reading.{got, byte_of, times, vector};
ghost use Rattle.mw_decode.specs.Sections.{printable as printable_here, export as export_here};
ghost use Rattle.mw_decode.specs.Listing.{what_is_exported};
ghost use Rattle.mw_decode.specs.Gives.{Gives};

use crate::fault::{BadModule, Fault, Read};
use crate::pieces::{place_of, u32_at};
use mw_wasm::{Export, Exported, Exports, Octets};
use std::alloc::Global;

/// A byte of a name: printable ASCII.
fn printable(bytes: &[u8], end: u32) -> Read<u8>
    requires { length bytes.now ≤ end }
    ensures gives { Gives (λ x. got x.0 x.1.now) result (byte_of printable_here end bytes.now) }
    ensures rest { IfOk result (λ x. length x.1.now ≤ length bytes.now) }
{
    match bytes {
        [] => Err(Fault::Ended),
        [b, rest @ ..] => {
            if *b >= 0x20 && *b <= 0x7e {
                Ok((*b, rest))
            } else {
                Err(Fault::Bad(BadModule::OutsideProfile(place_of(bytes, end))))
            }
        }
    }
}

/// So many bytes of printable ASCII.
#[tactic(auto, using(crate::proofs::Loops::loop_laws))]
fn so_many_printable(alloc: Global, count: u32, bytes: &[u8], end: u32) -> Read<Octets>
    requires { length bytes.now ≤ end }
    ensures gives { Gives (λ x. got x.0 x.1.now) result
        (times count (byte_of printable_here) end bytes.now) }
    ensures rest { IfOk result (λ x. length x.1.now ≤ length bytes.now) }
{
    let mut list = Octets::new(alloc);
    let mut rest = bytes;
    for _ in 0..count {
        match printable(rest, end) {
            Err(e) => return Err(e),
            Ok((x, next)) => {
                list.push(x)?;
                rest = next;
            }
        }
    }
    Ok((list, rest))
}

/// What is exported: its kind and its index.
fn exported(bytes: &[u8], end: u32) -> Read<Exported>
    requires { length bytes.now ≤ end }
    ensures gives { Gives (λ x. got x.0 x.1.now) result (what_is_exported end bytes.now) }
    ensures rest { IfOk result (λ x. length x.1.now ≤ length bytes.now) }
{
    match bytes {
        [] => Err(Fault::Ended),
        [b, rest @ ..] => match *b {
            0x00 => {
                let (x, rest) = u32_at(rest, end)?;
                Ok((Exported::Func(x), rest))
            }
            0x01 => {
                let (x, rest) = u32_at(rest, end)?;
                Ok((Exported::Table(x), rest))
            }
            0x02 => {
                let (x, rest) = u32_at(rest, end)?;
                Ok((Exported::Memory(x), rest))
            }
            0x03 => {
                let (x, rest) = u32_at(rest, end)?;
                Ok((Exported::Global(x), rest))
            }
            _ => Err(Fault::Bad(BadModule::Opcode(place_of(bytes, end)))),
        },
    }
}

/// An export: its name, and what it gives.
fn export(alloc: Global, bytes: &[u8], end: u32) -> Read<Export>
    requires { length bytes.now ≤ end }
    ensures gives { Gives (λ x. got (export_of x.0) x.1.now) result (export_here end bytes.now) }
    ensures rest { IfOk result (λ x. length x.1.now ≤ length bytes.now) }
{
    let (count, rest) = u32_at(bytes, end)?;
    let (name, rest) = so_many_printable(alloc, count, rest, end)?;
    let (what, rest) = exported(rest, end)?;
    Ok((Export { name, what }, rest))
}

/// So many exports.
#[tactic(auto, using(crate::proofs::Loops::seen_laws))]
fn so_many_exports(alloc: Global, count: u32, bytes: &[u8], end: u32) -> Read<Exports>
    requires { length bytes.now ≤ end }
    ensures gives { Gives (λ x. got (map export_of x.0) x.1.now) result
        (times count export_here end bytes.now) }
    ensures rest { IfOk result (λ x. length x.1.now ≤ length bytes.now) }
{
    let mut list = Exports::new(alloc);
    let mut rest = bytes;
    for _ in 0..count {
        match export(alloc, rest, end) {
            Err(e) => return Err(e),
            Ok((x, next)) => {
                list.push(x)?;
                rest = next;
            }
        }
    }
    Ok((list, rest))
}

/// A vector of exports.
pub fn exports(alloc: Global, bytes: &[u8], end: u32) -> Read<Exports>
    requires { length bytes.now ≤ end }
    ensures gives { Gives (λ x. got (map export_of x.0) x.1.now) result
        (vector export_here end bytes.now) }
    ensures rest { IfOk result (λ x. length x.1.now ≤ length bytes.now) }
{
    let (count, rest) = u32_at(bytes, end)?;
    so_many_exports(alloc, count, rest, end)
}
