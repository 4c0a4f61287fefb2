// Fields of one kind, one after another.

ghost use Rattle.std.specs.Prelude.{◌≡◌, ◌<◌, ◌≤◌, IfOk, IfSome, List, map};
ghost use Rattle.mw_wat.specs.Reading.{count, got, Reader};
ghost use Rattle.mw_wat.specs.Modules.{fields as fields_here, next_field as next_field_here};
ghost use Rattle.mw_wat.specs.Cursors.{Gives, tokens_at};
ghost use Rattle.mw_wat.specs.Parts.{fields_of, found_of, one_field as one_field_here};

use crate::reading::cursor::{Cursor, Fault, Read};
use crate::reading::lexer::{Token, next_token};
use crate::reading::singles::if_word;
use mw_list::Sequence;
use std::alloc::Global;

/// A field of a module's text.
pub trait TextField: Drop {
    /// What contracts see of it.
    ghost Seen: { Type 0 };

    ghost seen: { Self → Seen };

    /// What its text says.
    ghost reader: { Reader Seen };

    /// The field that stands behind its word, with its `)`.
    fn read(alloc: Global, cursor: Cursor) -> Read<Self>
        ensures gives { Gives (λ x. got (seen x.0) (tokens_at x.1)) result
            (reader (tokens_at cursor.entry)) }
        ensures shorter { IfOk result
            (λ x. count (tokens_at x.1) ≤ count (tokens_at cursor.entry)) };
}

/// Whether another field is opened, or the module is closed.
#[tactic(auto, using(crate::proofs::CursorReaders::single_laws))]
pub fn next_field(cursor: Cursor) -> Read<bool>
    ensures { Gives (λ x. got x.0 (tokens_at x.1)) result
        (next_field_here (tokens_at cursor.entry)) }
{
    let (token, rest) = next_token(cursor)?;
    match token {
        Token::Left => Ok((true, rest)),
        Token::Right => Ok((false, rest)),
        Token::Word(_) | Token::Quoted(_) => Err(Fault::Bad(cursor)),
    }
}

/// The field of this word, where it comes next, and whether another field is opened behind it.
fn one_field<'a, T: TextField>(
    alloc: Global,
    word: &[u8],
    cursor: Cursor<'a>,
) -> Read<'a, Option<(T, bool)>>
    ensures gives { Gives (λ x. got (found_of T.seen x.0) (tokens_at x.1)) result
        (one_field_here word.now T.reader (tokens_at cursor.entry)) }
    ensures shorter { IfOk result
        (λ x. IfSome x.0 (λ _. count (tokens_at x.1) < count (tokens_at cursor.entry))) }
{
    let (found, rest) = if_word(cursor, word)?;
    if !found {
        return Ok((None, rest));
    }
    let (field, rest) = T::read(alloc, rest)?;
    let (more, rest) = next_field(rest)?;
    Ok((Some((field, more)), rest))
}

/// The fields of this word, where one is opened, and whether another field is opened behind them.
pub fn fields<'a, T: TextField>(
    alloc: Global,
    word: &[u8],
    cursor: Cursor<'a>,
    opened: bool,
) -> Read<'a, (Sequence<T>, bool)>
    ensures { Gives (λ x. got (fields_of T.seen x.0.0 x.0.1) (tokens_at x.1)) result
        (fields_here word.now T.reader opened (tokens_at cursor.entry)) }
{
    let mut list = Sequence::new(alloc);
    let mut left = cursor;
    let mut going = opened;
    while going {
        match one_field::<T>(alloc, word, left) {
            Err(e) => return Err(e),
            Ok((found, rest)) => match found {
                None => return Ok(((list, true), rest)),
                Some((field, more)) => {
                    list.push(field)?;
                    left = rest;
                    going = more;
                }
            },
        }
    }
    Ok(((list, false), left))
}
