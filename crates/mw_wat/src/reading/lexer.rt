// The tokens of a text.

ghost use Rattle.std.specs.Prelude.{◌≡◌, ◌≤◌, IfSome, IfNone, IfOk, Some, None, drop, take, length};
ghost use Rattle.mw_wat.specs.Tokens.{word};
ghost use Rattle.mw_wat.specs.Lexing.{
  found,
  front as front_here,
  hex_value,
  is_blank,
  is_plain,
  is_word_byte,
  none,
  quotes,
  whole_word,
  without_blanks as without_blanks_here,
};
ghost use Rattle.mw_wat.specs.Reading.{got, place_of};
ghost use Rattle.mw_wat.specs.Chain.{ends_at};
ghost use Rattle.mw_wat.specs.Cursors.{behind, content, Gives, IsBefore, next, pieced, token_of, tokens_at};

use crate::reading::cursor::{Cursor, Fault, Read};
use mw_wasm::Octets;
use std::alloc::{AllocError, Global};

/// A token.
#[derive(Clone, Copy, Debug)]
pub enum Token<'a> {
    /// `(`.
    Left,
    /// `)`.
    Right,
    /// A word's bytes.
    Word(&'a [u8]),
    /// A string: all bytes behind its opening quotation mark.
    Quoted(&'a [u8]),
}

/// What comes next inside a string.
enum Unit<'a> {
    /// A byte that the string stands for, and what is behind it.
    Byte(u8, &'a [u8]),
    /// The closing quotation mark, and what is behind it.
    End(&'a [u8]),
    /// Nothing that may stand there.
    None,
}

fn is_blank(byte: u8) -> bool
    ensures { result ≡ is_blank byte }
{
    byte == b'\t' || byte == b'\n' || byte == b'\r' || byte == b' '
}

fn is_word_byte(byte: u8) -> bool
    ensures { result ≡ is_word_byte byte }
{
    byte >= 0x21 && byte <= 0x7e && byte != b'(' && byte != b')' && byte != b'"'
}

fn is_plain(byte: u8) -> bool
    ensures { result ≡ is_plain byte }
{
    byte >= 0x20 && byte <= 0x7e && byte != b'"' && byte != b'\\'
}

/// The value of a hexadecimal digit in lower case.
fn hex_value(byte: u8) -> Option<u8>
    ensures { result ≡ hex_value byte }
{
    if byte >= b'0' && byte <= b'9' {
        Some(byte - b'0')
    } else if byte >= b'a' && byte <= b'f' {
        Some(byte - 0x57)
    } else {
        None
    }
}

/// The bytes from the first one on that is no blank.
#[tactic(auto, using(crate::proofs::CursorTokens::blank_laws))]
fn without_blanks(bytes: &[u8]) -> &[u8]
    ensures { result.now ≡ without_blanks_here bytes.now }
{
    for (n, byte) in bytes.iter().enumerate() {
        if !is_blank(*byte) {
            return &bytes[n..];
        }
    }
    &bytes[bytes.len()..]
}

/// How many bytes of a word stand at the front.
#[tactic(auto, using(crate::proofs::CursorTokens::word_laws))]
fn word_length(bytes: &[u8]) -> usize
    ensures within { result ≤ length bytes.now }
    ensures word { whole_word bytes.now
        ≡ found (word (take result bytes.now)) (drop result bytes.now) }
{
    for (n, byte) in bytes.iter().enumerate() {
        if !is_word_byte(*byte) {
            return n;
        }
    }
    bytes.len()
}

/// What comes next behind a string's opening quotation mark.
fn next_unit(bytes: &[u8]) -> Unit
    ensures piece { quotes bytes.now ≡ pieced result }
    ensures shorter { IsBefore result bytes.now }
{
    match bytes {
        [b'"', rest @ ..] => Unit::End(rest),
        [b'\\', high, low, rest @ ..] => match (hex_value(*high), hex_value(*low)) {
            (Some(high), Some(low)) => Unit::Byte(16 * high + low, rest),
            _ => Unit::None,
        },
        [byte, rest @ ..] if is_plain(*byte) => Unit::Byte(*byte, rest),
        _ => Unit::None,
    }
}

/// What is behind a string, of which all bytes behind its opening quotation mark are given.
#[tactic(auto, using(crate::proofs::CursorTokens::string_laws))]
fn behind_string(inside: &[u8]) -> Option<&[u8]>
    ensures some { IfSome result (λ rest. behind (quotes inside.now) ≡ Some rest.now) }
    ensures none { IfNone result (behind (quotes inside.now) ≡ None) }
{
    let mut left = inside;
    loop {
        match next_unit(left) {
            Unit::End(rest) => return Some(rest),
            Unit::Byte(_, rest) => left = rest,
            Unit::None => return None,
        }
    }
}

/// The bytes that a string stands for, of which all bytes behind its opening quotation mark are given.
#[tactic(auto, using(crate::proofs::CursorTokens::string_laws))]
pub fn string_content(alloc: Global, inside: &[u8]) -> Result<Octets, AllocError>
    ensures { IfOk result (λ list. list ≡ content (quotes inside.now)) }
{
    let mut list = Octets::new(alloc);
    let mut left = inside;
    loop {
        match next_unit(left) {
            Unit::End(_) => return Ok(list),
            Unit::Byte(byte, rest) => {
                list.push(byte)?;
                left = rest;
            }
            Unit::None => return Ok(Octets::new(alloc)),
        }
    }
}

/// The token at the front, and the bytes behind it.
#[tactic(auto, using(crate::proofs::CursorTokens::front_laws))]
fn front(bytes: &[u8]) -> Option<(Token, &[u8])>
    ensures some { IfSome result (λ x. front_here bytes.now ≡ found (token_of x.0) x.1.now) }
    ensures none { IfNone result (front_here bytes.now ≡ none) }
{
    match bytes {
        [] => None,
        [byte, rest @ ..] => {
            if *byte == b'(' {
                Some((Token::Left, rest))
            } else if *byte == b')' {
                Some((Token::Right, rest))
            } else if *byte == b'"' {
                match behind_string(rest) {
                    Some(behind) => Some((Token::Quoted(rest), behind)),
                    None => None,
                }
            } else if is_word_byte(*byte) {
                let (word, rest) = bytes.split_at(word_length(bytes));
                Some((Token::Word(word), rest))
            } else {
                None
            }
        }
    }
}

/// The token that comes next.
#[tactic(auto, using(crate::proofs::CursorTokens::next_laws))]
pub fn next_token(cursor: Cursor) -> Read<Token>
    ensures { Gives (λ x. got (token_of x.0) (tokens_at x.1)) result
        (next (tokens_at cursor.entry)) }
{
    match front(without_blanks(cursor.left)) {
        Some((token, left)) => Ok((
            token,
            Cursor {
                left,
                end: cursor.end,
            },
        )),
        None => Err(Fault::Bad(cursor)),
    }
}

/// The place of the token that comes next, or of what stands there in its place.
#[tactic(auto, using(crate::proofs::CursorTokens::place_is))]
pub fn place(cursor: Cursor) -> usize
    ensures { result ≡ place_of (tokens_at cursor.entry) }
{
    cursor.end.saturating_sub(without_blanks(cursor.left).len())
}

/// Whether a text of this length ends here, but for blanks.
#[tactic(auto, using(crate::proofs::CursorTokens::ends_found, crate::proofs::CursorTokens::ends_none))]
pub fn is_at_end(cursor: Cursor, end: usize) -> bool
    ensures { result ≡ ends_at end (tokens_at cursor.entry) }
{
    match front(without_blanks(cursor.left)) {
        Some(_) => false,
        None => end <= place(cursor),
    }
}
