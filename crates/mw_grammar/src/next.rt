// What the next token decides.

ghost use Rattle.std.specs.Prelude.{◌≡◌, IfSome, IfNone};
ghost use Rattle.mw_lex.specs.Tokens.{symbol_of, tokens_of};
ghost use Rattle.mw_grammar.specs.Forms.{is};
ghost use Rattle.mw_grammar.specs.Gives.{expected_of};
ghost use Rattle.mw_grammar.specs.Steps.{Lack, Have, EndBefore, GoOn, GoTooDeep};

use mw_lex::{Kind, Token};

/// A mark or a word that must come next, or that goes on.
#[derive(Clone, Copy)]
pub enum Next {
    In,
    Then,
    Else,
    /// `)`.
    Paren,
    /// `>.`.
    Bracket,
    /// `[`.
    Left,
    /// `]`.
    Right,
    /// `;;`.
    End,
    Colon,
    Equal,
    Arrow,
    Star,
    Less,
    LessEqual,
    And,
    Or,
}

/// Whether a token of this kind is the mark or the word.
fn is_next(next: Next, kind: &Kind) -> bool
    ensures { result ≡ is (expected_of next) (symbol_of kind.now) }
{
    match (next, kind) {
        (Next::In, Kind::In) => true,
        (Next::Then, Kind::Then) => true,
        (Next::Else, Kind::Else) => true,
        (Next::Paren, Kind::ParenRight) => true,
        (Next::Bracket, Kind::BracketRight) => true,
        (Next::Left, Kind::SquareLeft) => true,
        (Next::Right, Kind::SquareRight) => true,
        (Next::End, Kind::ItemEnd) => true,
        (Next::Colon, Kind::Colon) => true,
        (Next::Equal, Kind::Equal) => true,
        (Next::Arrow, Kind::Arrow) => true,
        (Next::Star, Kind::Star) => true,
        (Next::Less, Kind::Less) => true,
        (Next::LessEqual, Kind::LessEqual) => true,
        (Next::And, Kind::And) => true,
        (Next::Or, Kind::Or) => true,
        _ => false,
    }
}

/// The tokens after it, where it comes next.
#[tactic(auto, using(crate::proofs::Below::low_in, crate::proofs::Below::low_out), unfolding(crate::specs::Descent::reading))]
pub fn after<'a>(next: Next, tokens: &'a [Token]) -> Option<&'a [Token]>
    ensures none_expected { IfNone result (Lack (expected_of next) (tokens_of tokens.now)) }
    ensures expected { IfSome result
        (λ rest. Have (expected_of next) (tokens_of tokens.now) (tokens_of rest.now)) }
    ensures none_goes_on { IfNone result (EndBefore (expected_of next) (tokens_of tokens.now)) }
    ensures goes_on { IfSome result
        (λ rest. GoOn (expected_of next) (tokens_of tokens.now) (tokens_of rest.now)) }
    ensures too_deep { IfSome result (λ rest. GoTooDeep (expected_of next) (tokens_of tokens.now)) }
{
    match tokens {
        [] => None,
        [token, rest @ ..] => {
            if is_next(next, &token.kind) {
                Some(rest)
            } else {
                None
            }
        }
    }
}
