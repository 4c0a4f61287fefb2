// Words, numbers and strings, each with the space before it.

ghost use Rattle.std.specs.Prelude.{◌≡◌, ◌<◌, [], ◌∷◌, ◌++◌, codes, OnOk};
ghost use Rattle.std.specs.Fmt.{decimal, digit_glyph, signed_decimal};
ghost use Rattle.std.specs.Int.{w32, w64};
ghost use Rattle.std.specs.List.{flat_map};
ghost use Rattle.std.specs.Prelude.{false, map};
ghost use Rattle.mw_wat.specs.CanonicalTexts.{escaped, name_byte};
ghost use Rattle.mw_wat.specs.Spacing.{spaced};
ghost use Rattle.mw_wat.specs.Lexemes.{constant, keyed, left, name, number, octets, right, word};

use mw_wasm::{Indices, Octets};
use std::alloc::AllocError;

/// Appends bytes.
pub fn put(out: &mut Vec<u8>, bytes: &[u8]) -> Result<(), AllocError>
    ensures { OnOk result (out.new.items ≡ out.old.items ++ bytes.now) }
{
    out.extend_from_slice(bytes)?;
    Ok(())
}

/// Appends a word.
pub fn put_word(out: &mut Vec<u8>, text: &[u8]) -> Result<(), AllocError>
    ensures { OnOk result (out.new.items ≡ out.old.items ++ spaced (word text.now ∷ [])) }
{
    out.push(b' ')?;
    put(out, text)
}

/// Appends a word in two parts.
pub fn put_joined(out: &mut Vec<u8>, front: &[u8], back: &[u8]) -> Result<(), AllocError>
    ensures { OnOk result (out.new.items ≡ out.old.items
        ++ spaced (word (front.now ++ back.now) ∷ [])) }
{
    put_word(out, front)?;
    put(out, back)
}

/// Appends `(` and a word.
pub fn put_opening(out: &mut Vec<u8>, text: &[u8]) -> Result<(), AllocError>
    ensures { OnOk result (out.new.items ≡ out.old.items ++ spaced (left ∷ word text.now ∷ [])) }
{
    put(out, b" (")?;
    put(out, text)
}

/// Appends `)`.
pub fn put_closing(out: &mut Vec<u8>) -> Result<(), AllocError>
    ensures { OnOk result (out.new.items ≡ out.old.items ++ spaced (right ∷ [])) }
{
    put(out, b")")
}

/// Appends an index, a label or a limit.
pub fn put_number(out: &mut Vec<u8>, index: u32) -> Result<(), AllocError>
    ensures { OnOk result (out.new.items ≡ out.old.items ++ spaced (number index ∷ [])) }
{
    out.push(b' ')?;
    put_decimal(out, u64::from(index))
}

/// Appends indices or labels in order.
pub fn put_numbers(out: &mut Vec<u8>, indices: &Indices) -> Result<(), AllocError>
    ensures { OnOk result (out.new.items ≡ out.old.items ++ spaced (map number indices.now)) }
{
    let list = indices.as_slice();
    for index in list {
        put_number(out, *index)?;
    }
    Ok(())
}

/// Appends a number behind its key.
pub fn put_keyed(out: &mut Vec<u8>, key: &[u8], value: u32) -> Result<(), AllocError>
    ensures { OnOk result (out.new.items ≡ out.old.items ++ spaced (keyed key.now value ∷ [])) }
{
    put_word(out, key)?;
    put_decimal(out, u64::from(value))
}

/// Appends an integer of 32 bits, read as signed.
pub fn put_constant_32(out: &mut Vec<u8>, bits: u32) -> Result<(), AllocError>
    ensures { OnOk result (out.new.items ≡ out.old.items ++ spaced (constant w32 bits ∷ [])) }
{
    out.push(b' ')?;
    put_signed_decimal(out, i64::from(bits.cast_signed()))
}

/// Appends an integer of 64 bits, read as signed.
pub fn put_constant_64(out: &mut Vec<u8>, bits: u64) -> Result<(), AllocError>
    ensures { OnOk result (out.new.items ≡ out.old.items ++ spaced (constant w64 bits ∷ [])) }
{
    out.push(b' ')?;
    put_signed_decimal(out, bits.cast_signed())
}

/// The integer in decimal, with a sign where it is negative.
fn put_signed_decimal(out: &mut Vec<u8>, integer: i64) -> Result<(), AllocError>
    ensures { OnOk result (out.new.items ≡ out.old.items ++ signed_decimal integer) }
{
    if integer < 0 {
        out.push(b'-')?;
    }
    put_decimal(out, integer.unsigned_abs())
}

/// The number in decimal, with no leading zero.
#[tactic(auto, using(std::proofs::lemmas::Fmt::decimal_digit))]
fn put_decimal(out: &mut Vec<u8>, value: u64) -> Result<(), AllocError>
    ensures { OnOk result (out.new.items ≡ out.old.items ++ decimal value) }
{
    if value < 10 {
        return put(out, &[b'0' + value as u8]);
    }
    put_decimal(out, value / 10)?;
    put(out, &[b'0' + (value % 10) as u8])
}

/// The hexadecimal digit of a number.
fn digit(value: u8) -> u8
    requires { value < 16 }
    ensures { result ≡ digit_glyph false value }
{
    if value < 10 {
        b'0' + value
    } else {
        b'a' + (value - 10)
    }
}

/// Appends a byte as `\` and two digits.
fn put_escaped(out: &mut Vec<u8>, byte: u8) -> Result<(), AllocError>
    ensures { OnOk result (out.new.items ≡ out.old.items ++ escaped byte) }
{
    put(out, &[b'\\', digit(byte / 16), digit(byte % 16)])
}

/// Appends a byte of a name.
fn put_name_byte(out: &mut Vec<u8>, byte: u8) -> Result<(), AllocError>
    ensures { OnOk result (out.new.items ≡ out.old.items ++ name_byte byte) }
{
    if byte == b'"' || byte == b'\\' {
        put_escaped(out, byte)
    } else {
        put(out, &[byte])
    }
}

/// Appends a name.
pub fn put_name(out: &mut Vec<u8>, bytes: &Octets) -> Result<(), AllocError>
    ensures { OnOk result (out.new.items ≡ out.old.items ++ spaced (name bytes.now ∷ [])) }
{
    put(out, b" \"")?;
    let list = bytes.as_slice();
    for byte in list {
        put_name_byte(out, *byte)?;
    }
    put(out, b"\"")
}

/// Appends bytes of data, all of them escaped.
pub fn put_octets(out: &mut Vec<u8>, bytes: &Octets) -> Result<(), AllocError>
    ensures { OnOk result (out.new.items ≡ out.old.items ++ spaced (octets bytes.now ∷ [])) }
{
    put(out, b" \"")?;
    let list = bytes.as_slice();
    for byte in list {
        put_escaped(out, *byte)?;
    }
    put(out, b"\"")
}
