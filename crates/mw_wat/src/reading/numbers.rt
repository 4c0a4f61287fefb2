// Numbers in words.

ghost use Rattle.std.specs.Prelude.{◌≡◌, suc, length, take, drop, IfSome, IfNone, true, false};
ghost use Rattle.std.specs.Int.{w32, w64};
ghost use Rattle.std.specs.Str.{bytes_eq};
ghost use Rattle.mw_key.specs.Numbers.{below, natural_of};
ghost use Rattle.mw_wat.specs.Instructions.{as_constant, as_keyed, fits_some};
ghost use Rattle.mw_wat.specs.Reading.{as_number};
ghost use Rattle.mw_wat.specs.Cursors.{token_of};

use crate::reading::lexer::Token;
use mw_key::number::{integer_of, natural_of};

/// The number of at most this much that the word spells.
fn number_of(word: &[u8], most: u32) -> Option<u32>
    ensures { result ≡ below (suc most) (natural_of word.now) }
{
    match natural_of(word) {
        Some(n) if n <= u64::from(most) => Some(n as u32),
        _ => None,
    }
}

/// The number of at most this much that the token spells.
pub fn as_number(token: Token, most: u32) -> Option<u32>
    ensures { result ≡ as_number most (token_of token.entry) }
{
    match token {
        Token::Word(word) => number_of(word, most),
        Token::Left | Token::Right | Token::Quoted(_) => None,
    }
}

/// The bits of 32 whose signed reading the token spells.
pub fn as_constant_32(token: Token) -> Option<u32>
    ensures { result ≡ as_constant w32 (token_of token.entry) }
{
    match token {
        Token::Word(word) => bits_of_32(integer_of(word)),
        Token::Left | Token::Right | Token::Quoted(_) => None,
    }
}

/// The bits of 64 whose signed reading the token spells.
pub fn as_constant_64(token: Token) -> Option<u64>
    ensures { result ≡ as_constant w64 (token_of token.entry) }
{
    match token {
        Token::Word(word) => bits_of_64(integer_of(word)),
        Token::Left | Token::Right | Token::Quoted(_) => None,
    }
}

/// The bits of 32 with this signed reading.
fn bits_of_32(integer: Option<i64>) -> Option<u32>
    ensures { result ≡ fits_some w32 integer }
{
    match integer {
        None => None,
        Some(n) => {
            if n >= -0x8000_0000 && n <= 0x7fff_ffff {
                Some((n as i32).cast_unsigned())
            } else {
                None
            }
        }
    }
}

/// The bits of 64 with this signed reading.
fn bits_of_64(integer: Option<i64>) -> Option<u64>
    ensures { result ≡ fits_some w64 integer }
{
    match integer {
        None => None,
        Some(n) => Some(n.cast_unsigned()),
    }
}

/// What stands in the word behind this front.
pub fn behind<'a>(word: &'a [u8], front: &[u8]) -> Option<&'a [u8]>
    ensures some { IfSome result
        (λ rest. (bytes_eq (take (length front.now) word.now) front.now ≡ true)
        × (rest.now ≡ drop (length front.now) word.now)) }
    ensures none { IfNone result (bytes_eq (take (length front.now) word.now) front.now ≡ false) }
{
    word.strip_prefix(front)
}

/// The number behind a key, in one word.
pub fn as_keyed(token: Token, key: &[u8]) -> Option<u32>
    ensures { result ≡ as_keyed key.now (token_of token.entry) }
{
    match token {
        Token::Word(word) => match behind(word, key) {
            Some(digits) => number_of(digits, u32::MAX),
            None => None,
        },
        Token::Left | Token::Right | Token::Quoted(_) => None,
    }
}
