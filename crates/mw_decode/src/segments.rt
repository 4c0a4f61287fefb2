// Element segments and data segments.

ghost use Rattle.std.specs.Prelude.{◌≡◌, ◌≤◌, length, map, IfOk};
ghost use Rattle.mw_wasm.specs.Views.{element_of, segment_of};
ghost use Rattle.mw_decode.specs.Reading.{got, is, byte_of, times, vector};
ghost use Rattle.mw_decode.specs.Sections.{element as element_here, data_segment};
ghost use Rattle.mw_decode.specs.Gives.{Gives};

use crate::code::expression;
use crate::fault::{Fault, Read};
use crate::pieces::{at_most, indices, u32_at};
use mw_wasm::{Element, Elements, Octets, Segment, Segments};
use std::alloc::Global;

/// An element segment of table 0.
fn element(alloc: Global, bytes: &[u8], end: u32) -> Read<Element>
    requires { length bytes.now ≤ end }
    ensures gives { Gives (λ x. got (element_of x.0) x.1.now) result (element_here end bytes.now) }
    ensures rest { IfOk result (λ x. length x.1.now ≤ length bytes.now) }
{
    let (_, rest) = at_most(bytes, end, 0)?;
    let (offset, rest) = expression(alloc, rest, end)?;
    let (funcs, rest) = indices(alloc, rest, end)?;
    Ok((Element { offset, funcs }, rest))
}

/// So many element segments.
#[tactic(auto, using(crate::proofs::Loops::seen_laws))]
fn so_many_elements(alloc: Global, count: u32, bytes: &[u8], end: u32) -> Read<Elements>
    requires { length bytes.now ≤ end }
    ensures gives { Gives (λ x. got (map element_of x.0) x.1.now) result
        (times count element_here end bytes.now) }
    ensures rest { IfOk result (λ x. length x.1.now ≤ length bytes.now) }
{
    let mut list = Elements::new(alloc);
    let mut rest = bytes;
    for _ in 0..count {
        match element(alloc, rest, end) {
            Err(e) => return Err(e),
            Ok((x, next)) => {
                list.push(x)?;
                rest = next;
            }
        }
    }
    Ok((list, rest))
}

/// A vector of element segments.
pub fn elements(alloc: Global, bytes: &[u8], end: u32) -> Read<Elements>
    requires { length bytes.now ≤ end }
    ensures gives { Gives (λ x. got (map element_of x.0) x.1.now) result
        (vector element_here end bytes.now) }
    ensures rest { IfOk result (λ x. length x.1.now ≤ length bytes.now) }
{
    let (count, rest) = u32_at(bytes, end)?;
    so_many_elements(alloc, count, rest, end)
}

/// Any byte.
fn octet(bytes: &[u8], end: u32) -> Read<u8>
    requires { length bytes.now ≤ end }
    ensures gives { Gives (λ x. got x.0 x.1.now) result (byte_of is end bytes.now) }
    ensures rest { IfOk result (λ x. length x.1.now ≤ length bytes.now) }
{
    match bytes {
        [] => Err(Fault::Ended),
        [b, rest @ ..] => Ok((*b, rest)),
    }
}

/// So many bytes.
#[tactic(auto, using(crate::proofs::Loops::loop_laws))]
fn so_many_octets(alloc: Global, count: u32, bytes: &[u8], end: u32) -> Read<Octets>
    requires { length bytes.now ≤ end }
    ensures gives { Gives (λ x. got x.0 x.1.now) result (times count (byte_of is) end bytes.now) }
    ensures rest { IfOk result (λ x. length x.1.now ≤ length bytes.now) }
{
    let mut list = Octets::new(alloc);
    let mut rest = bytes;
    for _ in 0..count {
        match octet(rest, end) {
            Err(e) => return Err(e),
            Ok((x, next)) => {
                list.push(x)?;
                rest = next;
            }
        }
    }
    Ok((list, rest))
}

/// A data segment of memory 0.
fn segment(alloc: Global, bytes: &[u8], end: u32) -> Read<Segment>
    requires { length bytes.now ≤ end }
    ensures gives { Gives (λ x. got (segment_of x.0) x.1.now) result (data_segment end bytes.now) }
    ensures rest { IfOk result (λ x. length x.1.now ≤ length bytes.now) }
{
    let (_, rest) = at_most(bytes, end, 0)?;
    let (offset, rest) = expression(alloc, rest, end)?;
    let (count, rest) = u32_at(rest, end)?;
    let (bytes, rest) = so_many_octets(alloc, count, rest, end)?;
    Ok((Segment { offset, bytes }, rest))
}

/// So many data segments.
#[tactic(auto, using(crate::proofs::Loops::seen_laws))]
fn so_many_segments(alloc: Global, count: u32, bytes: &[u8], end: u32) -> Read<Segments>
    requires { length bytes.now ≤ end }
    ensures gives { Gives (λ x. got (map segment_of x.0) x.1.now) result
        (times count data_segment end bytes.now) }
    ensures rest { IfOk result (λ x. length x.1.now ≤ length bytes.now) }
{
    let mut list = Segments::new(alloc);
    let mut rest = bytes;
    for _ in 0..count {
        match segment(alloc, rest, end) {
            Err(e) => return Err(e),
            Ok((x, next)) => {
                list.push(x)?;
                rest = next;
            }
        }
    }
    Ok((list, rest))
}

/// A vector of data segments.
pub fn segments(alloc: Global, bytes: &[u8], end: u32) -> Read<Segments>
    requires { length bytes.now ≤ end }
    ensures gives { Gives (λ x. got (map segment_of x.0) x.1.now) result
        (vector data_segment end bytes.now) }
    ensures rest { IfOk result (λ x. length x.1.now ≤ length bytes.now) }
{
    let (count, rest) = u32_at(bytes, end)?;
    so_many_segments(alloc, count, rest, end)
}
