// Code, by descent over nested blocks: `room` is the number of blocks that may still stand one in another.

ghost use Rattle.std.specs.Prelude.{◌≡◌, ◌≤◌};
ghost use Rattle.mw_wasm.specs.Views.{code_of, instruction_of};
ghost use Rattle.mw_wat.specs.Reading.{got};
ghost use Rattle.mw_wat.specs.Instructions.{
  expression as expression_here,
  inside as inside_here,
  instructions,
  onward as onward_here,
};
ghost use Rattle.mw_wat.specs.Cursors.{Gives, tokens_at};
ghost use Rattle.mw_wat.specs.Parts.{behind_opener};
ghost use Rattle.mw_wat.specs.Steps.{
  closing_mark as closing_mark_here,
  else_mark as else_mark_here,
  end_mark as end_mark_here,
  listed_of,
  mark_of,
  marks_or_bad,
  option_of,
  place_of,
  step as step_here,
  step_of,
};
ghost use Rattle.mw_wat.specs.Words.{opener_of};

use crate::reading::cursor::{Cursor, Fault, Read};
use crate::reading::instructions::instruction;
use crate::reading::lexer::{Token, next_token};
use crate::reading::trees::{block_instr, if_instr, loop_instr};
use crate::reading::types::block_type;
use crate::reading::words::{Opener, Word, word_of};
use mw_wasm::{Instr, Instrs, ValType};
use std::alloc::Global;

/// What ended a list of instructions.
#[derive(Clone, Copy, Debug)]
pub enum Mark {
    /// `)`.
    Closing,
    /// `end`.
    End,
    /// `else`.
    Else,
}

/// Where a list of instructions stands.
#[derive(Clone, Copy, Debug)]
pub enum Place {
    /// Up to a `)`.
    Whole,
    /// In a block or a loop, or in the second list of an `if` behind its first instruction.
    Inner,
    /// In the first list of an `if`.
    First,
    /// In the second list of an `if`, before its first instruction.
    Fresh,
}

/// What comes next in a list of instructions.
#[derive(Drop)]
pub enum Step {
    /// Its end.
    Marked(Mark),
    /// One more instruction.
    One(Instr),
}

/// The place behind one more instruction.
fn onward(place: Place) -> Place
    ensures { place_of result ≡ onward_here (place_of place) }
{
    match place {
        Place::Whole => Place::Whole,
        Place::Inner | Place::Fresh => Place::Inner,
        Place::First => Place::First,
    }
}

/// The mark of `)`.
fn closing_mark(place: Place) -> Option<Mark>
    ensures { option_of mark_of result ≡ closing_mark_here (place_of place) }
{
    match place {
        Place::Whole => Some(Mark::Closing),
        Place::Inner | Place::First | Place::Fresh => None,
    }
}

/// The mark of `end`.
fn end_mark(place: Place) -> Option<Mark>
    ensures { option_of mark_of result ≡ end_mark_here (place_of place) }
{
    match place {
        Place::Inner | Place::First => Some(Mark::End),
        Place::Whole | Place::Fresh => None,
    }
}

/// The mark of `else`.
fn else_mark(place: Place) -> Option<Mark>
    ensures { option_of mark_of result ≡ else_mark_here (place_of place) }
{
    match place {
        Place::First => Some(Mark::Else),
        Place::Whole | Place::Inner | Place::Fresh => None,
    }
}

/// A mark that was taken, where there is one.
fn marked<'a>(mark: Option<Mark>, cursor: Cursor<'a>, rest: Cursor<'a>) -> Read<'a, Step>
    ensures { Gives (λ x. got (step_of x.0) (tokens_at x.1)) result
        (marks_or_bad (option_of mark_of mark) (tokens_at cursor.entry) (tokens_at rest.entry)) }
{
    match mark {
        Some(mark) => Ok((Step::Marked(mark), rest)),
        None => Err(Fault::Bad(cursor)),
    }
}

/// Instructions up to their mark.
#[cycle(code)]
#[tactic(auto, using(crate::proofs::CodeSteps::list_laws))]
fn listed(alloc: Global, cursor: Cursor, room: u32, place: Place) -> Read<(Instrs, Mark)>
    requires { room ≤ 500 }
    ensures { Gives (λ x. got (listed_of x.0.0 x.0.1) (tokens_at x.1)) result
        (instructions room (place_of place) (tokens_at cursor.entry)) }
{
    let mut list = Instrs::new(alloc);
    let mut left = cursor;
    let mut now = place;
    loop {
        match next_step(alloc, left, room, now) {
            Err(e) => return Err(e),
            Ok((step, rest)) => match step {
                Step::Marked(mark) => return Ok(((list, mark), rest)),
                Step::One(instruction) => {
                    list.push(instruction)?;
                    left = rest;
                    now = onward(now);
                }
            },
        }
    }
}

/// A mark, or one more instruction.
#[cycle(code)]
fn next_step(alloc: Global, cursor: Cursor, room: u32, place: Place) -> Read<Step>
    requires { room ≤ 500 }
    ensures { Gives (λ x. got (step_of x.0) (tokens_at x.1)) result
        (step_here instructions room (place_of place) (tokens_at cursor.entry)) }
{
    let (token, rest) = next_token(cursor)?;
    match token {
        Token::Left | Token::Quoted(_) => Err(Fault::Bad(cursor)),
        Token::Right => marked(closing_mark(place), cursor, rest),
        Token::Word(word) => match word_of(word) {
            None => Err(Fault::Bad(cursor)),
            Some(Word::End) => marked(end_mark(place), cursor, rest),
            Some(Word::Else) => marked(else_mark(place), cursor, rest),
            Some(Word::Opens(opener)) => {
                if room == 0 {
                    return Err(Fault::Bad(cursor));
                }
                let (instr, rest) = opened(alloc, opener, rest, room - 1)?;
                Ok((Step::One(instr), rest))
            }
            Some(Word::Alone(name)) => {
                let (instr, rest) = instruction(alloc, name, rest)?;
                Ok((Step::One(instr), rest))
            }
        },
    }
}

/// Behind the word of a block: its type and its lists.
#[cycle(code)]
fn opened(alloc: Global, opener: Opener, cursor: Cursor, room: u32) -> Read<Instr>
    requires { room ≤ 500 }
    ensures { Gives (λ x. got (instruction_of x.0) (tokens_at x.1)) result
        (behind_opener room (opener_of opener) (tokens_at cursor.entry)) }
{
    let (kind, rest) = block_type(cursor)?;
    inside(alloc, opener, kind, rest, room)
}

/// Behind a block's type.
#[cycle(code)]
fn inside(
    alloc: Global,
    opener: Opener,
    kind: Option<ValType>,
    cursor: Cursor,
    room: u32,
) -> Read<Instr>
    requires { room ≤ 500 }
    ensures { Gives (λ x. got (instruction_of x.0) (tokens_at x.1)) result
        (inside_here instructions room (opener_of opener) kind (tokens_at cursor.entry)) }
{
    match opener {
        Opener::Block => {
            let ((body, _), rest) = listed(alloc, cursor, room, Place::Inner)?;
            Ok((block_instr(kind, body), rest))
        }
        Opener::Loop => {
            let ((body, _), rest) = listed(alloc, cursor, room, Place::Inner)?;
            Ok((loop_instr(kind, body), rest))
        }
        Opener::If => {
            let ((first, mark), rest) = listed(alloc, cursor, room, Place::First)?;
            match mark {
                Mark::Closing | Mark::End => {
                    Ok((if_instr(kind, first, Instrs::new(alloc)), rest))
                }
                Mark::Else => {
                    let ((second, _), rest) = listed(alloc, rest, room, Place::Fresh)?;
                    Ok((if_instr(kind, first, second), rest))
                }
            }
        }
    }
}

/// Code up to `)`, in which blocks stand at most 500 deep.
pub fn expression(alloc: Global, cursor: Cursor) -> Read<Instrs>
    ensures { Gives (λ x. got (code_of x.0) (tokens_at x.1)) result
        (expression_here (tokens_at cursor.entry)) }
{
    let ((list, _), rest) = listed(alloc, cursor, 500, Place::Whole)?;
    Ok((list, rest))
}
