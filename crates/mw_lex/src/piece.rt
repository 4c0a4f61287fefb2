// What stands at the front of bytes.

ghost use Rattle.std.specs.Prelude.{◌≡◌, ◌<◌, [], ◌∷◌, length};
ghost use Rattle.mw_lex.specs.Texts.{mark};
ghost use Rattle.mw_lex.specs.Pieces.{seen, comment, short_mark, a_mark, front, IsWithin};

use crate::byte::{comment_length, is_blank, is_word_byte, word_length};
use crate::text::{mark_of_one, mark_of_two};
use crate::token::Kind;

/// A part of the bytes, with its length.
#[derive(Drop)]
pub enum Piece {
    /// A blank or a comment.
    Gap(usize),
    Mark(Kind, usize),
    /// A word or a number, well spelt or not.
    Run(usize),
    /// A byte that is refused stands at this offset.
    Strange(usize),
}

// A comment whose `#` stands before the bytes.
fn comment(bytes: &[u8]) -> Piece
    ensures { seen result ≡ comment bytes.now }
{
    let length = comment_length(bytes);
    match &bytes[length..] {
        [] => Piece::Gap(length + 1),
        [byte, ..] => {
            if *byte == b'\n' {
                Piece::Gap(length + 1)
            } else {
                Piece::Strange(length + 1)
            }
        }
    }
}

fn short_mark(byte: u8) -> Piece
    ensures { seen result ≡ short_mark (mark (byte ∷ [])) }
{
    match mark_of_one(byte) {
        Some(kind) => Piece::Mark(kind, 1),
        None => Piece::Strange(0),
    }
}

// The longest mark that the bytes begin with.
fn a_mark(bytes: &[u8]) -> Piece
    ensures { seen result ≡ a_mark bytes.now }
{
    match bytes {
        [] => Piece::Strange(0),
        [only] => short_mark(*only),
        [first, second, ..] => match mark_of_two(*first, *second) {
            Some(kind) => Piece::Mark(kind, 2),
            None => short_mark(*first),
        },
    }
}

/// The piece that the bytes begin with.
#[tactic(auto, using(crate::proofs::Fronts::piece_within))]
pub fn front(bytes: &[u8]) -> Piece
    ensures value { seen result ≡ front bytes.now }
    ensures within { 0 < length bytes.now → IsWithin (length bytes.now) result }
{
    match bytes {
        [] => Piece::Strange(0),
        [byte, ..] if is_blank(*byte) => Piece::Gap(1),
        [b'#', rest @ ..] => comment(rest),
        [byte, ..] if is_word_byte(*byte) => Piece::Run(word_length(bytes)),
        _ => a_mark(bytes),
    }
}
