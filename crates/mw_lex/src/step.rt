// From one piece of the bytes to the next.

ghost use Rattle.std.specs.Prelude.{◌≡◌, ◌<◌, ◌≤◌, ◌^◌, IfOk, IfErr, OnOk};
ghost use Rattle.std.specs.Prelude.{length, [], ◌∷◌, ◌++◌};
ghost use Rattle.mw_term.specs.Stops.{IfRefused};
ghost use Rattle.mw_lex.specs.Tokens.{token, tokens_of, symbol_of};
ghost use Rattle.mw_lex.specs.Reading.{AreTokens, IsFirstFault};
ghost use Rattle.mw_lex.specs.Lexing.{IsOfLexing};
ghost use Rattle.mw_lex.specs.Steps.{IsRead};

use crate::byte::is_blank;
use crate::kind::{opens_literal, run_kind};
use crate::piece::{Piece, front};
use crate::token::{Kind, Token, Tokens};
use mw_term::{Refusal, Stop};
use std::alloc::{AllocError, Global};

// Adds a token with its offsets.
fn add(tokens: &mut Tokens, kind: Kind, start: usize, end: usize) -> Result<(), AllocError>
    requires { (start < 2 ^ 32) × (end < 2 ^ 32) }
    ensures { OnOk result
        (tokens_of tokens.new ≡ tokens_of tokens.old ++ token start end (symbol_of kind) ∷ []) }
{
    tokens.push(Token {
        kind,
        start: start as u32,
        end: end as u32,
    })
}

/// Reads the piece at an offset, and answers the offset after it.
pub fn step(alloc: Global, bytes: &[u8], at: usize, tokens: &mut Tokens) -> Result<usize, Stop>
    requires small { length bytes.now ≤ 2 ^ 20 }
    requires more { at < length bytes.now }
    requires read { IsRead bytes.now at (tokens_of tokens.old) }
    ensures next { IfOk result (λ next. IsRead bytes.now next (tokens_of tokens.new)) }
    ensures on { IfOk result (λ next. at < next) }
    ensures fault { IfErr result (IfRefused (IsFirstFault bytes.now)) }
    ensures of_lexing { IfErr result (IfRefused IsOfLexing) }
{
    let rest = &bytes[at..];
    match front(rest) {
        Piece::Gap(length) => Ok(at + length),
        Piece::Strange(offset) => Err(Stop::Refused(Refusal::Char((at + offset) as u32))),
        Piece::Mark(mark, length) => {
            add(tokens, mark, at, at + length)?;
            Ok(at + length)
        }
        Piece::Run(length) => {
            let lowest = opens_literal(tokens.as_slice());
            let kind = run_kind(alloc, &rest[..length], at as u32, lowest)?;
            add(tokens, kind, at, at + length)?;
            Ok(at + length)
        }
    }
}

/// The tokens of all the bytes. Single blanks, the most frequent pieces, take no step.
#[tactic(auto, using(crate::proofs::StepsOn::start_read, crate::proofs::StepsOn::all_read, crate::proofs::StepsOn::blank_read))]
pub fn pieces(alloc: Global, bytes: &[u8]) -> Result<Tokens, Stop>
    requires { length bytes.now ≤ 2 ^ 20 }
    ensures found { IfOk result (λ v. AreTokens bytes.now (tokens_of v)) }
    ensures fault { IfErr result (IfRefused (IsFirstFault bytes.now)) }
    ensures of_lexing { IfErr result (IfRefused IsOfLexing) }
{
    let mut tokens = Tokens::new(alloc);
    let mut at = 0;
    while at < bytes.len() {
        if is_blank(bytes[at]) {
            at += 1;
        } else {
            at = step(alloc, bytes, at, &mut tokens)?;
        }
    }
    Ok(tokens)
}
