// What a walk over tokens answers, and single tokens.

ghost use Rattle.std.specs.Prelude.{◌≡◌};
ghost use Rattle.mw_explain.specs.declared.reading.Lost.TheVariants.{Memory};

use crate::arena::{Arena, Parts};
use crate::forms::{Bound, Form, Span};
use mw_grammar::next::{Next, after};
use mw_grammar::words::in_hand;
use mw_lex::{Kind, Token};
use std::alloc::AllocError;

/// Why a walk ended.
#[derive(Drop)]
pub enum Lost {
    Memory(AllocError),
    /// The tokens are none of a program.
    NoTree,
}

impl From<AllocError> for Lost {
    ghost from_gives = { λ e l. l ≡ Memory e };

    fn from(error: AllocError) -> Lost {
        Lost::Memory(error)
    }
}

/// An expression that was walked: its node, the offset of the byte after it with its parentheses, and the tokens left.
#[derive(Clone, Copy)]
pub struct Walked<'t> {
    pub node: usize,
    pub end: u32,
    pub rest: &'t [Token],
}

/// The place of a token.
pub fn span_of(token: &Token) -> Span {
    Span {
        first: token.start,
        end: token.end,
    }
}

/// The offset of the first of these tokens, and 0 where there is none.
pub fn start_of(tokens: &[Token]) -> u32 {
    match tokens {
        [] => 0,
        [token, ..] => token.start,
    }
}

/// The first token, and those after it.
pub fn first_of(tokens: &[Token]) -> Result<(&Token, &[Token]), Lost> {
    match in_hand(tokens) {
        None => Err(Lost::NoTree),
        Some(found) => Ok(found),
    }
}

/// The tokens after this mark, which must come next.
pub fn behind(next: Next, tokens: &[Token]) -> Result<&[Token], Lost> {
    match after(next, tokens) {
        None => Err(Lost::NoTree),
        Some(rest) => Ok(rest),
    }
}

/// The offset of the byte after this mark, which must come next, and the tokens after it.
pub fn end_behind(next: Next, tokens: &[Token]) -> Result<(u32, &[Token]), Lost> {
    let (token, _) = first_of(tokens)?;
    Ok((token.end, behind(next, tokens)?))
}

/// The tokens after the first such mark. It serves to skip types, in which none of the marks asked for stands.
pub fn beyond(next: Next, tokens: &[Token]) -> Result<&[Token], Lost> {
    let mut left = tokens;
    for _ in 0..tokens.len() {
        if let Some(rest) = after(next, left) {
            return Ok(rest);
        }
        left = first_of(left)?.1;
    }
    Err(Lost::NoTree)
}

/// The place of a name, which must come next, and the tokens after it.
pub fn name_span(tokens: &[Token]) -> Result<(Span, &[Token]), Lost> {
    let (token, rest) = first_of(tokens)?;
    match &token.kind {
        Kind::Word(_) => Ok((span_of(token), rest)),
        _ => Err(Lost::NoTree),
    }
}

/// A node that ends where these tokens begin, and binds these names.
pub fn binder<'t>(
    arena: &mut Arena,
    form: Form,
    span: Span,
    bound: Bound,
    parts: Parts,
    rest: &'t [Token],
) -> Result<Walked<'t>, Lost> {
    let node = arena.add(form, span, bound, parts)?;
    Ok(Walked {
        node,
        end: span.end,
        rest,
    })
}

/// The same, where it binds none.
pub fn made<'t>(
    arena: &mut Arena,
    form: Form,
    span: Span,
    parts: Parts,
    rest: &'t [Token],
) -> Result<Walked<'t>, Lost> {
    binder(arena, form, span, Bound::Nothing, parts, rest)
}
