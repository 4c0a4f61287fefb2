// Bytes, numbers and vectors. Each reader is given the bytes from its place on, up to the end of the region that they
// stand in, and `end`, the place of that end.

ghost use Rattle.std.specs.Prelude.{◌≡◌, ◌≤◌, ℕ, [], ◌∷◌, length, IfOk, IfSome, IfNone};
ghost use Rattle.mw_decode.specs.Reading.{got, place, u32 as number, i32 as constant, i64 as long_constant};
ghost use Rattle.mw_decode.specs.Reading.{at_most as limited, fixed as this_byte, times, vector};
ghost use Rattle.mw_decode.specs.Gives.{Gives};

use crate::fault::{BadModule, Fault, Read};
use mw_leb::{Leb, read_s32, read_s64, read_u32};
use mw_wasm::{Indices, Octets};
use std::alloc::Global;

/// The place of the first of the bytes.
pub fn place_of(bytes: &[u8], end: u32) -> u32
    requires { length bytes.now ≤ end }
    ensures { result ≡ place end bytes.now }
{
    end - bytes.len() as u32
}

/// The first byte, and the bytes behind it.
pub fn next_byte(bytes: &[u8]) -> Option<(u8, &[u8])>
    ensures some { IfSome result (λ x. bytes.now ≡ x.0 ∷ x.1.now) }
    ensures none { IfNone result (bytes.now ≡ []) }
{
    match bytes {
        [] => None,
        [b, rest @ ..] => Some((*b, rest)),
    }
}

/// An unsigned number of 32 bits.
pub fn u32_at(bytes: &[u8], end: u32) -> Read<u32>
    requires { length bytes.now ≤ end }
    ensures gives { Gives (λ x. got x.0 x.1.now) result (number end bytes.now) }
    ensures rest { IfOk result (λ x. length x.1.now ≤ length bytes.now) }
{
    match read_u32(bytes, 0) {
        Ok((n, next)) => Ok((n, &bytes[next..])),
        Err(Leb::Short) => Err(Fault::Ended),
        Err(Leb::TooLong | Leb::UnusedBits) => {
            Err(Fault::Bad(BadModule::Number(place_of(bytes, end))))
        }
    }
}

/// The bits of a signed number of 32 bits.
pub fn i32_at(bytes: &[u8], end: u32) -> Read<u32>
    requires { length bytes.now ≤ end }
    ensures gives { Gives (λ x. got x.0 x.1.now) result (constant end bytes.now) }
    ensures rest { IfOk result (λ x. length x.1.now ≤ length bytes.now) }
{
    match read_s32(bytes, 0) {
        Ok((n, next)) => Ok((n.cast_unsigned(), &bytes[next..])),
        Err(Leb::Short) => Err(Fault::Ended),
        Err(Leb::TooLong | Leb::UnusedBits) => {
            Err(Fault::Bad(BadModule::Number(place_of(bytes, end))))
        }
    }
}

/// The bits of a signed number of 64 bits.
pub fn i64_at(bytes: &[u8], end: u32) -> Read<u64>
    requires { length bytes.now ≤ end }
    ensures gives { Gives (λ x. got x.0 x.1.now) result (long_constant end bytes.now) }
    ensures rest { IfOk result (λ x. length x.1.now ≤ length bytes.now) }
{
    match read_s64(bytes, 0) {
        Ok((n, next)) => Ok((n.cast_unsigned(), &bytes[next..])),
        Err(Leb::Short) => Err(Fault::Ended),
        Err(Leb::TooLong | Leb::UnusedBits) => {
            Err(Fault::Bad(BadModule::Number(place_of(bytes, end))))
        }
    }
}

/// A number that above this limit is outside the profile.
pub fn at_most(bytes: &[u8], end: u32, most: u32) -> Read<u32>
    requires { length bytes.now ≤ end }
    ensures gives { Gives (λ x. got x.0 x.1.now) result (limited most end bytes.now) }
    ensures rest { IfOk result (λ x. length x.1.now ≤ length bytes.now) }
    ensures most { IfOk result (λ x. x.0 ≤ most) }
{
    let (n, rest) = u32_at(bytes, end)?;
    if n > most {
        return Err(Fault::Bad(BadModule::OutsideProfile(place_of(bytes, end))));
    }
    Ok((n, rest))
}

/// This byte.
pub fn fixed(bytes: &[u8], end: u32, byte: u8) -> Read<()>
    requires { length bytes.now ≤ end }
    ensures gives { Gives (λ x. got tt x.1.now) result (this_byte byte end bytes.now) }
    ensures rest { IfOk result (λ x. length x.1.now ≤ length bytes.now) }
{
    match bytes {
        [] => Err(Fault::Ended),
        [b, rest @ ..] => {
            if *b == byte {
                Ok(((), rest))
            } else {
                Err(Fault::Bad(BadModule::Opcode(place_of(bytes, end))))
            }
        }
    }
}

/// So many indices.
#[tactic(auto, using(crate::proofs::Loops::loop_laws))]
fn so_many_indices(alloc: Global, count: u32, bytes: &[u8], end: u32) -> Read<Indices>
    requires { length bytes.now ≤ end }
    ensures gives { Gives (λ x. got x.0 x.1.now) result (times count number end bytes.now) }
    ensures rest { IfOk result (λ x. length x.1.now ≤ length bytes.now) }
{
    let mut list = Indices::new(alloc);
    let mut rest = bytes;
    for _ in 0..count {
        let (x, next) = u32_at(rest, end)?;
        list.push(x)?;
        rest = next;
    }
    Ok((list, rest))
}

/// A vector of indices.
pub fn indices(alloc: Global, bytes: &[u8], end: u32) -> Read<Indices>
    requires { length bytes.now ≤ end }
    ensures gives { Gives (λ x. got x.0 x.1.now) result (vector number end bytes.now) }
    ensures rest { IfOk result (λ x. length x.1.now ≤ length bytes.now) }
{
    let (count, rest) = u32_at(bytes, end)?;
    so_many_indices(alloc, count, rest, end)
}
