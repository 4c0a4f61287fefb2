// Operators: those that associate to the left, in rows, and the signs of comparisons.

ghost use Rattle.std.specs.Prelude.{IfSome, IfNone};
ghost use Rattle.mw_lex.specs.Tokens.{tokens_of};
ghost use Rattle.mw_grammar.specs.Levels.{row_of};
ghost use Rattle.mw_grammar.specs.Steps.{IsNextOperator, CompareNone, CompareBy, CompareTooDeep};

use mw_lex::{Kind, Token};
use mw_term::Prim;

/// A row of operators.
#[derive(Clone, Copy)]
pub enum Row {
    Sum,
    Product,
    Application,
}

/// An operator of a row.
#[derive(Clone, Copy)]
pub enum Operator {
    Sign(Prim),
    Apply,
}

/// The operator of this row that comes next, and what stands after it.
pub fn next_operator(row: Row, tokens: &[Token]) -> Option<(Operator, &[Token])>
    ensures { IsNextOperator (row_of row) (tokens_of tokens.now) result }
{
    match tokens {
        [] => None,
        [token, rest @ ..] => match (row, &token.kind) {
            (Row::Sum, Kind::Plus) => Some((Operator::Sign(Prim::Add), rest)),
            (Row::Sum, Kind::Minus) => Some((Operator::Sign(Prim::Sub), rest)),
            (Row::Product, Kind::Star) => Some((Operator::Sign(Prim::Mul), rest)),
            (Row::Product, Kind::Slash) => Some((Operator::Sign(Prim::Div), rest)),
            (Row::Product, Kind::Mod) => Some((Operator::Sign(Prim::Mod), rest)),
            (Row::Application, Kind::Word(_)) => Some((Operator::Apply, tokens)),
            (Row::Application, Kind::Number(_)) => Some((Operator::Apply, tokens)),
            (Row::Application, Kind::True) => Some((Operator::Apply, tokens)),
            (Row::Application, Kind::False) => Some((Operator::Apply, tokens)),
            (Row::Application, Kind::ParenLeft) => Some((Operator::Apply, tokens)),
            (Row::Application, Kind::BracketLeft) => Some((Operator::Apply, tokens)),
            (Row::Application, Kind::Escape) => Some((Operator::Apply, tokens)),
            _ => None,
        },
    }
}

/// The sign of a comparison that comes next, as its operation, and what stands after it.
#[tactic(auto, using(crate::proofs::Below::low_in, crate::proofs::Below::low_out), unfolding(crate::specs::Descent::reading))]
pub fn next_comparison(tokens: &[Token]) -> Option<(Prim, &[Token])>
    ensures none { IfNone result (CompareNone (tokens_of tokens.now)) }
    ensures goes_on { IfSome result
        (λ r. CompareBy r.0 (tokens_of tokens.now) (tokens_of r.1.now)) }
    ensures too_deep { IfSome result (λ r. CompareTooDeep (tokens_of tokens.now)) }
{
    match tokens {
        [] => None,
        [token, rest @ ..] => match &token.kind {
            Kind::Equal => Some((Prim::Eq, rest)),
            Kind::Less => Some((Prim::Lt, rest)),
            Kind::LessEqual => Some((Prim::Le, rest)),
            _ => None,
        },
    }
}
