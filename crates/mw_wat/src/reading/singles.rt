// Single tokens: parentheses, words, numbers and types.

ghost use Rattle.std.specs.Prelude.{◌≡◌, true, false};
ghost use Rattle.std.specs.Int.{w32, w64};
ghost use Rattle.std.specs.Str.{bytes_eq};
ghost use Rattle.mw_wat.specs.Reading.{
  as_type,
  at_most as limited,
  closing as closing_here,
  got,
  index as index_here,
  one_of,
  opening as opening_here,
  this as this_word,
  value_type as value_type_here,
};
ghost use Rattle.mw_wat.specs.Instructions.{as_constant, as_keyed};
ghost use Rattle.mw_wat.specs.Cursors.{Gives, is_opened, is_word, token_of, tokens_at};

use crate::reading::cursor::{Cursor, Fault, Read};
use crate::reading::lexer::{Token, next_token};
use crate::reading::numbers::{as_constant_32, as_constant_64, as_keyed, as_number};
use crate::reading::words::is;
use mw_wasm::ValType;

/// `(`.
#[tactic(auto, using(crate::proofs::CursorReaders::single_laws))]
pub fn opening(cursor: Cursor) -> Read<()>
    ensures { Gives (λ x. got tt (tokens_at x.1)) result (opening_here (tokens_at cursor.entry)) }
{
    let (token, rest) = next_token(cursor)?;
    match token {
        Token::Left => Ok(((), rest)),
        Token::Right | Token::Word(_) | Token::Quoted(_) => Err(Fault::Bad(cursor)),
    }
}

/// `)`.
#[tactic(auto, using(crate::proofs::CursorReaders::single_laws))]
pub fn closing(cursor: Cursor) -> Read<()>
    ensures { Gives (λ x. got tt (tokens_at x.1)) result (closing_here (tokens_at cursor.entry)) }
{
    let (token, rest) = next_token(cursor)?;
    match token {
        Token::Right => Ok(((), rest)),
        Token::Left | Token::Word(_) | Token::Quoted(_) => Err(Fault::Bad(cursor)),
    }
}

/// This word.
#[tactic(auto, using(crate::proofs::CursorReaders::word_laws))]
pub fn this<'a>(cursor: Cursor<'a>, text: &[u8]) -> Read<'a, ()>
    ensures { Gives (λ x. got tt (tokens_at x.1)) result
        (this_word text.now (tokens_at cursor.entry)) }
{
    let (token, rest) = next_token(cursor)?;
    match token {
        Token::Word(word) => {
            if is(word, text) {
                Ok(((), rest))
            } else {
                Err(Fault::Bad(cursor))
            }
        }
        Token::Left | Token::Right | Token::Quoted(_) => Err(Fault::Bad(cursor)),
    }
}

/// A number of at most this much.
#[tactic(auto, using(crate::proofs::CursorReaders::single_laws))]
pub fn at_most(cursor: Cursor, most: u32) -> Read<u32>
    ensures { Gives (λ x. got x.0 (tokens_at x.1)) result (limited most (tokens_at cursor.entry)) }
{
    let (token, rest) = next_token(cursor)?;
    match as_number(token, most) {
        Some(number) => Ok((number, rest)),
        None => Err(Fault::Bad(cursor)),
    }
}

/// An index.
pub fn index(cursor: Cursor) -> Read<u32>
    ensures { Gives (λ x. got x.0 (tokens_at x.1)) result (index_here (tokens_at cursor.entry)) }
{
    at_most(cursor, u32::MAX)
}

/// A constant of 32 bits.
#[tactic(auto, using(crate::proofs::CursorReaders::single_laws))]
pub fn constant_32(cursor: Cursor) -> Read<u32>
    ensures { Gives (λ x. got x.0 (tokens_at x.1)) result
        (one_of (as_constant w32) (tokens_at cursor.entry)) }
{
    let (token, rest) = next_token(cursor)?;
    match as_constant_32(token) {
        Some(bits) => Ok((bits, rest)),
        None => Err(Fault::Bad(cursor)),
    }
}

/// A constant of 64 bits.
#[tactic(auto, using(crate::proofs::CursorReaders::single_laws))]
pub fn constant_64(cursor: Cursor) -> Read<u64>
    ensures { Gives (λ x. got x.0 (tokens_at x.1)) result
        (one_of (as_constant w64) (tokens_at cursor.entry)) }
{
    let (token, rest) = next_token(cursor)?;
    match as_constant_64(token) {
        Some(bits) => Ok((bits, rest)),
        None => Err(Fault::Bad(cursor)),
    }
}

/// A number behind a key.
#[tactic(auto, using(crate::proofs::CursorReaders::single_laws))]
pub fn keyed<'a>(cursor: Cursor<'a>, key: &[u8]) -> Read<'a, u32>
    ensures { Gives (λ x. got x.0 (tokens_at x.1)) result
        (one_of (as_keyed key.now) (tokens_at cursor.entry)) }
{
    let (token, rest) = next_token(cursor)?;
    match as_keyed(token, key) {
        Some(number) => Ok((number, rest)),
        None => Err(Fault::Bad(cursor)),
    }
}

/// The type that a token names.
pub fn as_type(token: Token) -> Option<ValType>
    ensures { result ≡ as_type (token_of token.entry) }
{
    match token {
        Token::Word(word) => {
            if is(word, b"i32") {
                Some(ValType::I32)
            } else if is(word, b"i64") {
                Some(ValType::I64)
            } else {
                None
            }
        }
        Token::Left | Token::Right | Token::Quoted(_) => None,
    }
}

/// A type.
#[tactic(auto, using(crate::proofs::CursorReaders::single_laws))]
pub fn value_type(cursor: Cursor) -> Read<ValType>
    ensures { Gives (λ x. got x.0 (tokens_at x.1)) result
        (value_type_here (tokens_at cursor.entry)) }
{
    let (token, rest) = next_token(cursor)?;
    match as_type(token) {
        Some(kind) => Ok((kind, rest)),
        None => Err(Fault::Bad(cursor)),
    }
}

/// Whether `(` comes next, which is taken then.
#[tactic(auto, using(crate::proofs::CursorReaders::peek_laws))]
pub fn if_opened(cursor: Cursor) -> Read<bool>
    ensures { Gives (λ x. got x.0 (tokens_at x.1)) result (is_opened (tokens_at cursor.entry)) }
{
    let (token, rest) = next_token(cursor)?;
    match token {
        Token::Left => Ok((true, rest)),
        Token::Right | Token::Word(_) | Token::Quoted(_) => Ok((false, cursor)),
    }
}

/// Whether this word comes next, which is taken then.
#[tactic(auto, using(crate::proofs::CursorReaders::peek_laws))]
pub fn if_word<'a>(cursor: Cursor<'a>, text: &[u8]) -> Read<'a, bool>
    ensures { Gives (λ x. got x.0 (tokens_at x.1)) result
        (is_word text.now (tokens_at cursor.entry)) }
{
    let (token, rest) = next_token(cursor)?;
    match token {
        Token::Word(word) => {
            if is(word, text) {
                Ok((true, rest))
            } else {
                Ok((false, cursor))
            }
        }
        Token::Left | Token::Right | Token::Quoted(_) => Ok((false, cursor)),
    }
}
