//! Numbers as bytes of seven bits each (LEB128): read from a place in bytes, and appended by their shortest spelling.
#![tactic(auto)]

ghost use Rattle.std.specs.Prelude.{◌≡◌, ◌+◌, ◌%◌, ◌<◌, ◌≤◌, ◌++◌, length, OnOk, OnErr, vec_len, vec_capacity};
ghost use Rattle.mw_wasm.specs.Leb.{IsUnsigned, IsSigned};
ghost use Rattle.mw_leb.specs.Shortest.{AppendsShortest, groups, seven_bits, shortest_signed, shortest_unsigned};

use std::alloc::AllocError;

pub mod laws;
pub mod reading;

pub use crate::reading::{Leb, read_s32, read_s64, read_u32};

/// Appends an unsigned number; a refusal of memory changes nothing, and comes only where the bytes have no room.
pub fn put_u32(out: &mut Vec<u8>, value: u32) -> Result<(), AllocError>
    ensures shortest { OnOk result
        (AppendsShortest (λ bytes. IsUnsigned 32 bytes value) out.old.items out.new.items) }
    ensures exact { OnOk result (out.new.items ≡ out.old.items ++ shortest_unsigned value) }
    ensures err { OnErr result (out.new.items ≡ out.old.items) }
    ensures full { OnErr result
        (vec_capacity out.old < vec_len out.old + length (shortest_unsigned value)) }
{
    put_groups(out, u64::from(value), 128, false)
}

/// Appends a signed number of 32 bits; a refusal of memory changes nothing, and comes only where the bytes have
/// no room.
pub fn put_s32(out: &mut Vec<u8>, value: i32) -> Result<(), AllocError>
    ensures shortest { OnOk result
        (AppendsShortest (λ bytes. IsSigned 32 bytes value) out.old.items out.new.items) }
    ensures exact { OnOk result (out.new.items ≡ out.old.items ++ shortest_signed value) }
    ensures err { OnErr result (out.new.items ≡ out.old.items) }
    ensures full { OnErr result
        (vec_capacity out.old < vec_len out.old + length (shortest_signed value)) }
{
    put_signed(out, i64::from(value))
}

/// Appends a signed number of 64 bits; a refusal of memory changes nothing, and comes only where the bytes have
/// no room.
pub fn put_s64(out: &mut Vec<u8>, value: i64) -> Result<(), AllocError>
    ensures shortest { OnOk result
        (AppendsShortest (λ bytes. IsSigned 64 bytes value) out.old.items out.new.items) }
    ensures exact { OnOk result (out.new.items ≡ out.old.items ++ shortest_signed value) }
    ensures err { OnErr result (out.new.items ≡ out.old.items) }
    ensures full { OnErr result
        (vec_capacity out.old < vec_len out.old + length (shortest_signed value)) }
{
    put_signed(out, value)
}

fn put_signed(out: &mut Vec<u8>, value: i64) -> Result<(), AllocError>
    ensures exact { OnOk result (out.new.items ≡ out.old.items ++ shortest_signed value) }
    ensures err { OnErr result (out.new.items ≡ out.old.items) }
    ensures full { OnErr result
        (vec_capacity out.old < vec_len out.old + length (shortest_signed value)) }
{
    if value < 0 {
        put_groups(out, (-(value + 1)) as u64, 64, true)
    } else {
        put_groups(out, value as u64, 64, false)
    }
}

fn put_groups(out: &mut Vec<u8>, value: u64, limit: u64, negative: bool) -> Result<(), AllocError>
    ensures exact { OnOk result (out.new.items ≡ out.old.items ++ groups limit negative 9 value) }
    ensures err { OnErr result (out.new.items ≡ out.old.items) }
    ensures full { OnErr result
        (vec_capacity out.old < vec_len out.old + length (groups limit negative 9 value)) }
{
    let mut bytes = [0u8; 10];
    let mut len = 0usize;
    let mut rest = value;
    while rest >= limit && len < 9 {
        bytes[len] = 128 + byte_of(rest, negative);
        rest /= 128;
        len += 1;
    }
    bytes[len] = byte_of(rest, negative);
    out.extend_from_slice(&bytes[..len + 1])
}

/// The lowest seven bits, turned round for a negative number.
fn byte_of(group: u64, negative: bool) -> u8
    ensures value { result ≡ seven_bits negative (group % 128) }
    ensures small { result < 128 }
{
    let bits = (group % 128) as u8;
    if negative { 127 - bits } else { bits }
}
