// The kind of a word or a number.

ghost use Rattle.std.specs.Prelude.{◌≡◌, ◌<◌, ◌≤◌, [], ◌++◌, length, IfOk, OnErr};
ghost use Rattle.mw_term.specs.Decimals.{number_in};
ghost use Rattle.mw_lex.specs.Tokens.{tokens_of, symbol_of};
ghost use Rattle.mw_lex.specs.Pieces.{run_answer, number_answer, word_answer, is_paren_left, is_minus};
ghost use Rattle.mw_lex.specs.Pieces.{opens_literal, Gives};

use crate::text::reserved;
use crate::token::{Kind, Token};
use mw_term::{Name, Refusal, Stop, is_digit, number_in};
use std::alloc::{AllocError, Global};

#[tactic(auto, using(crate::proofs::LastTokens::no_paren))]
fn is_paren_left(kind: &Kind) -> bool
    ensures { result ≡ is_paren_left (symbol_of kind.now) }
{
    matches!(kind, Kind::ParenLeft)
}

#[tactic(auto, using(crate::proofs::LastTokens::no_minus))]
fn is_minus(kind: &Kind) -> bool
    ensures { result ≡ is_minus (symbol_of kind.now) }
{
    matches!(kind, Kind::Minus)
}

/// Whether the last two tokens are `(` and `-`, after which 2^63 may stand.
#[tactic(auto, using(crate::proofs::LastTokens::opens_at, crate::proofs::LastTokens::opens_none))]
pub fn opens_literal(tokens: &[Token]) -> bool
    ensures { result ≡ opens_literal (tokens_of tokens.now) }
{
    match tokens {
        [.., first, second] => is_paren_left(&first.kind) && is_minus(&second.kind),
        _ => false,
    }
}

// A copy of the text.
fn name(alloc: Global, text: &[u8]) -> Result<Name, AllocError>
    ensures { IfOk result (λ name. name ≡ text.now) }
{
    let mut name = Name::new(alloc);
    for byte in text {
        name.push(*byte)?;
    }
    Ok(name)
}

fn number_kind(text: &[u8], at: u32, lowest: bool) -> Result<Kind, Stop>
    ensures { Gives result (number_answer lowest at (number_in 0 text.now)) }
{
    match number_in(text) {
        None => Err(Stop::Refused(Refusal::Number(at))),
        Some(value) => {
            if value < 9_223_372_036_854_775_808 || lowest {
                Ok(Kind::Number(value))
            } else {
                Err(Stop::Refused(Refusal::Number(at)))
            }
        }
    }
}

fn word_kind(alloc: Global, text: &[u8], at: u32) -> Result<Kind, Stop>
    ensures { Gives result (word_answer at text.now) }
{
    if text.len() > 64 {
        return Err(Stop::Refused(Refusal::Name(at)));
    }
    match reserved(text) {
        Some(kind) => Ok(kind),
        None => Ok(Kind::Word(name(alloc, text)?)),
    }
}

/// The kind of a word or a number that begins at an offset.
pub fn run_kind(alloc: Global, text: &[u8], at: u32, lowest: bool) -> Result<Kind, Stop>
    ensures { Gives result (run_answer lowest at text.now) }
{
    match text {
        [] => Err(Stop::Refused(Refusal::Name(at))),
        [first, ..] => {
            if is_digit(*first) {
                number_kind(text, at, lowest)
            } else {
                word_kind(alloc, text, at)
            }
        }
    }
}
