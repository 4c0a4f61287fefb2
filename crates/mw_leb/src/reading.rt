// Numbers read at a place in bytes (standard: Binary Format, Values, Integers). Nothing here takes memory.

ghost use Rattle.std.specs.Prelude.{◌≡◌, ◌+◌, ◌-◌, ◌*◌, ◌^◌, ◌<◌, ◌≤◌, pos, ◌-ℤ◌, ◌<ℤ◌, ◌≤ℤ◌, length, drop, IfOk};
ghost use Rattle.std.specs.Prelude.{IsTrue, ◌↔◌};
ghost use Rattle.mw_leb.specs.Reading.{Gives, unsigned, signed};

/// Why no number stands at a place.
#[derive(Clone, Copy, Debug, PartialEq, Eq)]
pub enum Leb {
    /// The bytes end inside the number.
    Short,
    /// The last byte that the number may have goes on.
    TooLong,
    /// That byte is the last, and its unused bits are wrong.
    UnusedBits,
}

/// The unsigned number of 32 bits that begins at the index `at`, and the index behind it. It may have 5 bytes.
pub fn read_u32(bytes: &[u8], at: usize) -> Result<(u32, usize), Leb>
    requires { at ≤ length bytes.now }
    ensures gives { Gives result bytes.now (unsigned 32 (drop at bytes.now)) }
    ensures further { IfOk result (λ x. at < x.1) }
{
    unsigned_at(bytes, at, 4)
}

/// The signed number of 32 bits that begins at the index `at`, and the index behind it. It may have 5 bytes.
pub fn read_s32(bytes: &[u8], at: usize) -> Result<(i32, usize), Leb>
    requires { at ≤ length bytes.now }
    ensures gives { Gives result bytes.now (signed 32 (drop at bytes.now)) }
    ensures further { IfOk result (λ x. at < x.1) }
{
    signed_at(bytes, at, 4)
}

/// The signed number of 64 bits that begins at the index `at`, and the index behind it. It may have 10 bytes.
pub fn read_s64(bytes: &[u8], at: usize) -> Result<(i64, usize), Leb>
    requires { at ≤ length bytes.now }
    ensures gives { Gives result bytes.now (signed 64 (drop at bytes.now)) }
    ensures further { IfOk result (λ x. at < x.1) }
{
    long_signed_at(bytes, at, 9)
}

/// A number below 128 has at most 4 bits, or 7 more for each byte before.
#[tactic(auto, using(crate::proofs::ReadNumbers::wide_after))]
fn has_4_bits(bits: u8, more: u32) -> bool
    requires { bits < 128 }
    ensures { IsTrue result ↔ (bits < 2 ^ (4 + 7 * more)) }
{
    if more == 0 { bits < 16 } else { true }
}

/// It has at most 3 bits, or 7 more for each byte before.
#[tactic(auto, using(crate::proofs::ReadNumbers::wide_after))]
fn has_3_bits(bits: u8, more: u32) -> bool
    requires { bits < 64 }
    ensures { IsTrue result ↔ (bits < 2 ^ (4 + 7 * more - 1)) }
{
    if more == 0 { bits < 8 } else { true }
}

/// It is 0, or has at most 7 bits for each byte before.
#[tactic(auto, using(crate::proofs::ReadNumbers::wide_after))]
fn has_no_bits(bits: u8, more: u32) -> bool
    requires { bits < 64 }
    ensures { IsTrue result ↔ (bits < 2 ^ (1 + 7 * more - 1)) }
{
    if more == 0 { bits == 0 } else { true }
}

/// A number of at most so many bytes before its last one, which has 4 bits to use where all of them stand there.
#[tactic(auto, using(crate::proofs::ReadNumbers::room, crate::proofs::ReadNumbers::fits_more))]
fn unsigned_at(bytes: &[u8], at: usize, more: u32) -> Result<(u32, usize), Leb>
    requires place { at ≤ length bytes.now }
    requires narrow { more ≤ 4 }
    ensures gives { Gives result bytes.now (unsigned (4 + 7 * more) (drop at bytes.now)) }
    ensures further { IfOk result (λ x. at < x.1) }
    ensures fits { IfOk result (λ x. x.0 < 2 ^ (4 + 7 * more)) }
{
    if at == bytes.len() {
        return Err(Leb::Short);
    }
    let byte = bytes[at];
    if byte < 128 {
        if !has_4_bits(byte, more) {
            return Err(Leb::UnusedBits);
        }
        return Ok((u32::from(byte), at + 1));
    }
    if more == 0 {
        return Err(Leb::TooLong);
    }
    match unsigned_at(bytes, at + 1, more - 1) {
        Ok((rest, next)) => Ok((128 * rest + u32::from(byte - 128), next)),
        Err(e) => Err(e),
    }
}

/// A signed number of at most so many bytes before its last one, which has 4 bits to use where all of them stand there.
fn signed_at(bytes: &[u8], at: usize, more: u32) -> Result<(i32, usize), Leb>
    requires place { at ≤ length bytes.now }
    requires narrow { more ≤ 4 }
    ensures gives { Gives result bytes.now (signed (4 + 7 * more) (drop at bytes.now)) }
    ensures further { IfOk result (λ x. at < x.1) }
    ensures high { IfOk result (λ x. x.0 <ℤ pos (2 ^ (4 + 7 * more - 1))) }
    ensures low { IfOk result (λ x. (pos 0 -ℤ pos (2 ^ (4 + 7 * more - 1))) ≤ℤ x.0) }
{
    if at == bytes.len() {
        return Err(Leb::Short);
    }
    let byte = bytes[at];
    if byte < 128 {
        if byte < 64 {
            if !has_3_bits(byte, more) {
                return Err(Leb::UnusedBits);
            }
            return Ok((i32::from(byte), at + 1));
        }
        if !has_3_bits(127 - byte, more) {
            return Err(Leb::UnusedBits);
        }
        return Ok((i32::from(byte) - 128, at + 1));
    }
    if more == 0 {
        return Err(Leb::TooLong);
    }
    match signed_at(bytes, at + 1, more - 1) {
        Ok((rest, next)) => Ok((128 * rest + i32::from(byte - 128), next)),
        Err(e) => Err(e),
    }
}

/// A signed number of at most so many bytes before its last one, which has 1 bit to use where all of them stand there.
fn long_signed_at(bytes: &[u8], at: usize, more: u32) -> Result<(i64, usize), Leb>
    requires place { at ≤ length bytes.now }
    requires narrow { more ≤ 9 }
    ensures gives { Gives result bytes.now (signed (1 + 7 * more) (drop at bytes.now)) }
    ensures further { IfOk result (λ x. at < x.1) }
    ensures high { IfOk result (λ x. x.0 <ℤ pos (2 ^ (1 + 7 * more - 1))) }
    ensures low { IfOk result (λ x. (pos 0 -ℤ pos (2 ^ (1 + 7 * more - 1))) ≤ℤ x.0) }
{
    if at == bytes.len() {
        return Err(Leb::Short);
    }
    let byte = bytes[at];
    if byte < 128 {
        if byte < 64 {
            if !has_no_bits(byte, more) {
                return Err(Leb::UnusedBits);
            }
            return Ok((i64::from(byte), at + 1));
        }
        if !has_no_bits(127 - byte, more) {
            return Err(Leb::UnusedBits);
        }
        return Ok((i64::from(byte) - 128, at + 1));
    }
    if more == 0 {
        return Err(Leb::TooLong);
    }
    match long_signed_at(bytes, at + 1, more - 1) {
        Ok((rest, next)) => Ok((128 * rest + i64::from(byte - 128), next)),
        Err(e) => Err(e),
    }
}
