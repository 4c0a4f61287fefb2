// Expressions, walked by descent as `mw_parse` reads them. `room` is the number of nodes that may still stand on a
// path.

ghost use Rattle.std.specs.Prelude.{◌≡◌, ◌+◌, IfOk};

use crate::arena::{Arena, Parts};
use crate::forms::{Bound, Form, Span};
use crate::reading::{
    Lost, Walked, behind, beyond, binder, end_behind, first_of, made, name_span, span_of, start_of,
};
use mw_grammar::next::{Next, after};
use mw_grammar::rows::{Operator, Row, next_comparison, next_operator};
use mw_grammar::words::{
    Atom, Body, Close, First, Head, Inside, Leaf, Mark, Named, Prefix, atom_word, body_word,
    closing, first_word, head_word, inside_word, name_or_rec, number_of,
};
use mw_lex::Token;

fn leaf_form(leaf: Leaf) -> Form {
    match leaf {
        Leaf::Word(_) => Form::Name,
        Leaf::Number(_) => Form::Int,
        Leaf::True | Leaf::False => Form::Bool,
    }
}

fn operator_form(operator: Operator) -> Form {
    match operator {
        Operator::Sign(prim) => Form::Prim(prim),
        Operator::Apply => Form::App,
    }
}

/// The form of a word before an atom. `not` has none: it is an `if`.
fn prefix_form(prefix: Prefix) -> Option<Form> {
    match prefix {
        Prefix::Fst => Some(Form::Fst),
        Prefix::Snd => Some(Form::Snd),
        Prefix::Not => None,
        Prefix::Close => Some(Form::Close),
        Prefix::Open => Some(Form::Open),
        Prefix::Lift => Some(Form::Lift),
        Prefix::LiftB => Some(Form::LiftB),
    }
}

/// The room below a node.
fn below(room: u32) -> Result<u32, Lost>
    ensures { IfOk result (λ left. left + 1 ≡ room) }
{
    match room.checked_sub(1) {
        None => Err(Lost::NoTree),
        Some(room) => Ok(room),
    }
}

/// After `(` and `-`.
fn negative<'t>(arena: &mut Arena, first: u32, tokens: &'t [Token]) -> Result<Walked<'t>, Lost> {
    let (token, rest) = first_of(tokens)?;
    if number_of(token).is_none() {
        return Err(Lost::NoTree);
    }
    let (end, rest) = end_behind(Next::Paren, rest)?;
    made(arena, Form::Int, Span { first, end }, Parts::Zero, rest)
}

#[cycle(walk)]
fn atom<'t>(arena: &mut Arena, tokens: &'t [Token], room: u32) -> Result<Walked<'t>, Lost> {
    let (token, rest) = first_of(tokens)?;
    let room = below(room)?;
    match atom_word(token) {
        None => Err(Lost::NoTree),
        Some(Atom::Leaf(leaf)) => {
            made(arena, leaf_form(leaf), span_of(token), Parts::Zero, rest)
        }
        Some(Atom::Paren) => in_parens(arena, token.start, rest, room),
        Some(Atom::Bracket) => bracketed(arena, token.start, rest, room),
        Some(Atom::Escape) => prefixed(arena, Form::Escape, token.start, rest, room),
    }
}

/// What stands before an atom, and begins at an offset.
#[cycle(walk)]
fn prefixed<'t>(
    arena: &mut Arena,
    form: Form,
    first: u32,
    tokens: &'t [Token],
    room: u32,
) -> Result<Walked<'t>, Lost> {
    let part = atom(arena, tokens, room)?;
    let span = Span {
        first,
        end: part.end,
    };
    made(arena, form, span, Parts::One(part.node), part.rest)
}

/// After `not`.
#[cycle(walk)]
fn negated<'t>(
    arena: &mut Arena,
    first: u32,
    tokens: &'t [Token],
    room: u32,
) -> Result<Walked<'t>, Lost> {
    let part = atom(arena, tokens, room)?;
    let span = Span {
        first,
        end: part.end,
    };
    let left = arena.add_truth(span)?;
    let right = arena.add_truth(span)?;
    let parts = Parts::Three(part.node, left, right);
    made(arena, Form::If, span, parts, part.rest)
}

/// After `.<`.
#[cycle(walk)]
fn bracketed<'t>(
    arena: &mut Arena,
    first: u32,
    tokens: &'t [Token],
    room: u32,
) -> Result<Walked<'t>, Lost> {
    let part = expression(arena, tokens, room)?;
    let (end, rest) = end_behind(Next::Bracket, part.rest)?;
    let span = Span { first, end };
    made(arena, Form::Bracket, span, Parts::One(part.node), rest)
}

/// After `(`.
#[cycle(walk)]
fn in_parens<'t>(
    arena: &mut Arena,
    first: u32,
    tokens: &'t [Token],
    room: u32,
) -> Result<Walked<'t>, Lost> {
    let (token, rest) = first_of(tokens)?;
    match inside_word(token) {
        Inside::Minus => negative(arena, first, rest),
        Inside::Other => grouped(arena, first, tokens, room),
    }
}

/// One or two expressions after `(`.
#[cycle(walk)]
fn grouped<'t>(
    arena: &mut Arena,
    first: u32,
    tokens: &'t [Token],
    room: u32,
) -> Result<Walked<'t>, Lost> {
    let left = expression(arena, tokens, room)?;
    let (token, rest) = first_of(left.rest)?;
    match closing(token) {
        Close::Other => Err(Lost::NoTree),
        Close::Paren => Ok(Walked {
            node: left.node,
            end: token.end,
            rest,
        }),
        Close::Comma => {
            let right = expression(arena, rest, room)?;
            let (end, rest) = end_behind(Next::Paren, right.rest)?;
            let parts = Parts::Two(left.node, right.node);
            made(arena, Form::Pair, Span { first, end }, parts, rest)
        }
    }
}

#[cycle(walk)]
fn head<'t>(arena: &mut Arena, tokens: &'t [Token], room: u32) -> Result<Walked<'t>, Lost> {
    let (token, rest) = first_of(tokens)?;
    match head_word(token) {
        None => atom(arena, tokens, room),
        Some(word) => headed(arena, word, token.start, rest, below(room)?),
    }
}

/// After the word of a head.
#[cycle(walk)]
fn headed<'t>(
    arena: &mut Arena,
    word: Head,
    first: u32,
    tokens: &'t [Token],
    room: u32,
) -> Result<Walked<'t>, Lost> {
    match word {
        Head::Run => {
            let tokens = beyond(Next::Right, tokens)?;
            prefixed(arena, Form::Run, first, tokens, room)
        }
        Head::Prefix(prefix) => match prefix_form(prefix) {
            None => negated(arena, first, tokens, room),
            Some(form) => prefixed(arena, form, first, tokens, room),
        },
    }
}

#[cycle(walk)]
fn operand<'t>(
    arena: &mut Arena,
    level: Row,
    tokens: &'t [Token],
    room: u32,
) -> Result<Walked<'t>, Lost> {
    match level {
        Row::Sum => row(arena, Row::Product, tokens, room),
        Row::Product => row(arena, Row::Application, tokens, room),
        Row::Application => head(arena, tokens, room),
    }
}

#[cycle(walk)]
fn right_operand<'t>(
    arena: &mut Arena,
    level: Row,
    tokens: &'t [Token],
    room: u32,
) -> Result<Walked<'t>, Lost> {
    match level {
        Row::Sum => row(arena, Row::Product, tokens, room),
        Row::Product => row(arena, Row::Application, tokens, room),
        Row::Application => atom(arena, tokens, room),
    }
}

/// Operands of a row, with its operators between them.
#[cycle(walk)]
fn row<'t>(
    arena: &mut Arena,
    level: Row,
    tokens: &'t [Token],
    room: u32,
) -> Result<Walked<'t>, Lost> {
    let first = start_of(tokens);
    let mut left = operand(arena, level, tokens, room)?;
    for _ in 0..tokens.len() {
        match next_operator(level, left.rest) {
            None => return Ok(left),
            Some((operator, rest)) => {
                let right = right_operand(arena, level, rest, below(room)?)?;
                let span = Span {
                    first,
                    end: right.end,
                };
                let parts = Parts::Two(left.node, right.node);
                left = made(arena, operator_form(operator), span, parts, right.rest)?;
            }
        }
    }
    Err(Lost::NoTree)
}

#[cycle(walk)]
fn comparison<'t>(arena: &mut Arena, tokens: &'t [Token], room: u32) -> Result<Walked<'t>, Lost> {
    let left = row(arena, Row::Sum, tokens, room)?;
    match next_comparison(left.rest) {
        None => Ok(left),
        Some((prim, rest)) => {
            let right = row(arena, Row::Sum, rest, below(room)?)?;
            let span = Span {
                first: start_of(tokens),
                end: right.end,
            };
            let parts = Parts::Two(left.node, right.node);
            made(arena, Form::Prim(prim), span, parts, right.rest)
        }
    }
}

/// Comparisons with `&&` between them.
#[cycle(walk)]
fn conjunction<'t>(arena: &mut Arena, tokens: &'t [Token], room: u32) -> Result<Walked<'t>, Lost> {
    let left = comparison(arena, tokens, room)?;
    match after(Next::And, left.rest) {
        None => Ok(left),
        Some(rest) => {
            let right = conjunction(arena, rest, below(room)?)?;
            let span = Span {
                first: start_of(tokens),
                end: right.end,
            };
            let truth = arena.add_truth(span)?;
            let parts = Parts::Three(left.node, right.node, truth);
            made(arena, Form::If, span, parts, right.rest)
        }
    }
}

/// Conjunctions with `||` between them.
#[cycle(walk)]
fn disjunction<'t>(arena: &mut Arena, tokens: &'t [Token], room: u32) -> Result<Walked<'t>, Lost> {
    let left = conjunction(arena, tokens, room)?;
    match after(Next::Or, left.rest) {
        None => Ok(left),
        Some(rest) => {
            let right = disjunction(arena, rest, below(room)?)?;
            let span = Span {
                first: start_of(tokens),
                end: right.end,
            };
            let truth = arena.add_truth(span)?;
            let parts = Parts::Three(left.node, truth, right.node);
            made(arena, Form::If, span, parts, right.rest)
        }
    }
}

/// An expression.
#[cycle(walk)]
pub fn expression<'t>(
    arena: &mut Arena,
    tokens: &'t [Token],
    room: u32,
) -> Result<Walked<'t>, Lost> {
    let (token, rest) = first_of(tokens)?;
    match first_word(token) {
        First::Let => scoped(arena, token.start, rest, below(room)?),
        First::Fun => function(arena, Mark::Arrow, token.start, rest, room),
        First::If => conditional(arena, token.start, rest, below(room)?),
        First::Other => disjunction(arena, tokens, room),
    }
}

/// After `if`.
#[cycle(walk)]
fn conditional<'t>(
    arena: &mut Arena,
    first: u32,
    tokens: &'t [Token],
    room: u32,
) -> Result<Walked<'t>, Lost> {
    let test = expression(arena, tokens, room)?;
    let left = expression(arena, behind(Next::Then, test.rest)?, room)?;
    let right = expression(arena, behind(Next::Else, left.rest)?, room)?;
    let span = Span {
        first,
        end: right.end,
    };
    let parts = Parts::Three(test.node, left.node, right.node);
    made(arena, Form::If, span, parts, right.rest)
}

/// The function of the next name, which begins at an offset.
#[cycle(walk)]
fn function<'t>(
    arena: &mut Arena,
    mark: Mark,
    first: u32,
    tokens: &'t [Token],
    room: u32,
) -> Result<Walked<'t>, Lost> {
    let (argument, rest) = name_span(tokens)?;
    let body = defined(arena, mark, rest, below(room)?)?;
    let span = Span {
        first,
        end: body.end,
    };
    let bound = Bound::One(argument);
    binder(
        arena,
        Form::Fun,
        span,
        bound,
        Parts::One(body.node),
        body.rest,
    )
}

/// After a name: the function of the next one, or what stands behind the mark.
#[cycle(walk)]
fn defined<'t>(
    arena: &mut Arena,
    mark: Mark,
    tokens: &'t [Token],
    room: u32,
) -> Result<Walked<'t>, Lost> {
    let (token, rest) = first_of(tokens)?;
    match body_word(mark, token) {
        Body::Other => Err(Lost::NoTree),
        Body::Parameter => function(arena, mark, token.start, tokens, room),
        Body::Mark => expression(arena, rest, room),
    }
}

/// After `let`: the place of the name, and what is bound to it.
#[cycle(walk)]
pub fn binding<'t>(
    arena: &mut Arena,
    tokens: &'t [Token],
    room: u32,
) -> Result<(Span, Walked<'t>), Lost> {
    let (token, rest) = first_of(tokens)?;
    match name_or_rec(token) {
        Named::Other => Err(Lost::NoTree),
        Named::Word(_) => Ok((span_of(token), defined(arena, Mark::Equal, rest, room)?)),
        Named::Rec => recursive(arena, rest, room),
    }
}

/// After `let rec`.
#[cycle(walk)]
fn recursive<'t>(
    arena: &mut Arena,
    tokens: &'t [Token],
    room: u32,
) -> Result<(Span, Walked<'t>), Lost> {
    let (own, rest) = name_span(tokens)?;
    let (argument, rest) = name_span(rest)?;
    let body = defined(arena, Mark::Equal, rest, below(room)?)?;
    let span = Span {
        first: own.first,
        end: body.end,
    };
    let bound = Bound::Two(own, argument);
    let parts = Parts::One(body.node);
    Ok((
        own,
        binder(arena, Form::Rec, span, bound, parts, body.rest)?,
    ))
}

/// After the `let` of an expression.
#[cycle(walk)]
fn scoped<'t>(
    arena: &mut Arena,
    first: u32,
    tokens: &'t [Token],
    room: u32,
) -> Result<Walked<'t>, Lost> {
    let (name, definition) = binding(arena, tokens, room)?;
    let body = expression(arena, behind(Next::In, definition.rest)?, room)?;
    let span = Span {
        first,
        end: body.end,
    };
    let parts = Parts::Two(definition.node, body.node);
    binder(arena, Form::Let, span, Bound::One(name), parts, body.rest)
}
