// Bytes, numbers, and vectors of these.

ghost use Rattle.std.specs.Prelude.{◌≡◌, ◌+◌, ◌^◌, ◌<◌, [], ◌∷◌, ◌++◌, length, OnOk};
ghost use Rattle.mw_wasm.specs.Pieces.{octet, u32 as index, vector};
ghost use Rattle.mw_encode.specs.Encoding.{
  constant,
  number,
  octet_bytes,
  signed_of,
  sized_bytes,
  Spelled,
  vector_bytes,
};

use mw_leb::{put_s32, put_s64, put_u32};
use mw_wasm::{Indices, Octets};
use std::alloc::AllocError;

/// Appends a byte.
pub fn put_byte(out: &mut Vec<u8>, byte: u8) -> Result<(), AllocError>
    ensures { OnOk result (out.new.items ≡ out.old.items ++ byte ∷ []) }
{
    out.push(byte)?;
    Ok(())
}

/// Appends two bytes.
pub fn put_two(out: &mut Vec<u8>, first: u8, second: u8) -> Result<(), AllocError>
    ensures { OnOk result (out.new.items ≡ out.old.items ++ first ∷ second ∷ []) }
{
    put_byte(out, first)?;
    put_byte(out, second)
}

/// Appends a byte and an index.
pub fn put_indexed(out: &mut Vec<u8>, byte: u8, index: u32) -> Result<(), AllocError>
    ensures { OnOk result (out.new.items ≡ out.old.items ++ byte ∷ number index) }
{
    put_byte(out, byte)?;
    put_u32(out, index)
}

/// Appends a byte and two numbers.
pub fn put_pair(out: &mut Vec<u8>, byte: u8, first: u32, second: u32) -> Result<(), AllocError>
    ensures { OnOk result
        (out.new.items ≡ out.old.items ++ byte ∷ (number first ++ number second)) }
{
    put_indexed(out, byte, first)?;
    put_u32(out, second)
}

/// Appends a count.
pub fn put_count(out: &mut Vec<u8>, count: usize) -> Result<(), AllocError>
    requires { count < 2 ^ 32 }
    ensures { OnOk result (out.new.items ≡ out.old.items ++ number count) }
{
    put_u32(out, count as u32)
}

/// Appends a constant of 32 bits, read as signed.
pub fn put_constant_32(out: &mut Vec<u8>, bits: u32) -> Result<(), AllocError>
    ensures { OnOk result (out.new.items ≡ out.old.items ++ 65 ∷ constant 32 bits) }
{
    put_byte(out, 0x41)?;
    put_s32(out, signed_32(bits))
}

/// Appends a constant of 64 bits, read as signed.
pub fn put_constant_64(out: &mut Vec<u8>, bits: u64) -> Result<(), AllocError>
    ensures { OnOk result (out.new.items ≡ out.old.items ++ 66 ∷ constant 64 bits) }
{
    put_byte(out, 0x42)?;
    put_s64(out, signed_64(bits))
}

fn signed_32(bits: u32) -> i32
    ensures { result ≡ signed_of 32 bits }
{
    if bits < 0x8000_0000 {
        bits as i32
    } else {
        -((u32::MAX - bits) as i32) - 1
    }
}

fn signed_64(bits: u64) -> i64
    ensures { result ≡ signed_of 64 bits }
{
    if bits < 0x8000_0000_0000_0000 {
        bits as i64
    } else {
        -((u64::MAX - bits) as i64) - 1
    }
}

/// Appends a content after its size.
pub fn put_sized(out: &mut Vec<u8>, content: &[u8]) -> Result<(), AllocError>
    requires { length content.now < 2 ^ 32 }
    ensures { OnOk result (out.new.items ≡ out.old.items ++ sized_bytes content.now) }
{
    put_count(out, content.len())?;
    out.extend_from_slice(content)
}

/// Appends a vector of bytes.
#[tactic(auto, using(crate::proofs::Pieces::octets_are))]
pub fn put_octets(out: &mut Vec<u8>, octets: &Octets) -> Result<(), AllocError>
    requires { length octets.now < 2 ^ 32 }
    ensures { OnOk result (out.new.items ≡ out.old.items ++ vector_bytes octet_bytes octets.now) }
{
    put_count(out, octets.len())?;
    out.extend_from_slice(octets.as_slice())
}

/// Appends a vector of indices.
pub fn put_indices(out: &mut Vec<u8>, indices: &Indices) -> Result<(), AllocError>
    requires { length indices.now < 2 ^ 32 }
    ensures { OnOk result (out.new.items ≡ out.old.items ++ vector_bytes number indices.now) }
{
    put_count(out, indices.len())?;
    let list = indices.as_slice();
    for index in list {
        put_u32(out, *index)?;
    }
    Ok(())
}
