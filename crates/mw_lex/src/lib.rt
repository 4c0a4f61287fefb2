//! Bytes to tokens.
#![tactic(auto)]

ghost use Rattle.std.specs.Prelude.{◌≡◌, ◌<◌, ℕ, List, length, IfOk, IfErr, Err};
ghost use Rattle.mw_term.specs.declared.refusal.Refusal.TheVariants.{TooLarge, Char, Number, Name};
ghost use Rattle.mw_term.specs.declared.refusal.Stop.TheVariants.{Refused};
ghost use Rattle.mw_term.specs.Stops.{IfRefused, IsRefusalOrMemory};
ghost use Rattle.mw_lex.specs.Tokens.{PureToken, tokens_of};
ghost use Rattle.mw_lex.specs.InOrder.{AreInOrder, HaveNumbersInRange};
ghost use Rattle.mw_lex.specs.Reading.{AreTokens, IsFirstFault};
ghost use Rattle.mw_lex.specs.Lexing.{AreTokensOrMemory, IsSmall, IsOfLexing};

mod byte;
mod kind;
pub mod laws;
mod piece;
mod step;
mod text;
pub mod token;

use crate::step::pieces;
pub use crate::token::{Kind, Token, Tokens};
use mw_term::{Refusal, Stop};
use std::alloc::Global;

/// The tokens of a source. A source of more than 1,048,576 bytes is refused first, and else the fault with the smallest
/// offset: a byte that begins no token or isn't allowed, a number that is misspelt or out of range, or a word of more
/// than 64 bytes.
#[tactic(auto, using(crate::proofs::Lexed::in_order, crate::proofs::Lexed::says, crate::proofs::Lexed::not_large))]
pub fn lex(alloc: Global, bytes: &[u8]) -> Result<Tokens, Stop>
    ensures found { IfOk result (λ v. AreTokens bytes.now (tokens_of v)) }
    ensures only { (tokens : List PureToken) → IsSmall bytes.now → AreTokens bytes.now tokens
        → AreTokensOrMemory result tokens }
    ensures in_order { IfOk result (λ v. AreInOrder (tokens_of v) (length bytes.now)) }
    ensures in_range { IfOk result (λ v. HaveNumbersInRange (tokens_of v)) }
    ensures too_large { result ≡ Err (Refused TooLarge) → 1048576 < length bytes.now }
    ensures only_too_large { 1048576 < length bytes.now → result ≡ Err (Refused TooLarge) }
    ensures char { (at : ℕ) → result ≡ Err (Refused (Char at)) → IsFirstFault bytes.now (Char at) }
    ensures only_char { (at : ℕ) → IsSmall bytes.now → IsFirstFault bytes.now (Char at)
        → IsRefusalOrMemory result (Char at) }
    ensures number { (at : ℕ) → result ≡ Err (Refused (Number at))
        → IsFirstFault bytes.now (Number at) }
    ensures only_number { (at : ℕ) → IsSmall bytes.now → IsFirstFault bytes.now (Number at)
        → IsRefusalOrMemory result (Number at) }
    ensures name { (at : ℕ) → result ≡ Err (Refused (Name at)) → IsFirstFault bytes.now (Name at) }
    ensures only_name { (at : ℕ) → IsSmall bytes.now → IsFirstFault bytes.now (Name at)
        → IsRefusalOrMemory result (Name at) }
    ensures no_other { IfErr result (IfRefused IsOfLexing) }
{
    if bytes.len() > 1_048_576 {
        return Err(Stop::Refused(Refusal::TooLarge));
    }
    pieces(alloc, bytes)
}
