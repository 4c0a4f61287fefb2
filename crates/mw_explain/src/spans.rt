// The nodes of each part of a source in pre-order, made by a second walk over its tokens.

use crate::arena::Arena;
use crate::expressions::{binding, expression};
use crate::forms::{Node, form_of};
use crate::reading::{Lost, Walked, behind, beyond, first_of};
use mw_grammar::next::Next;
use mw_grammar::words::{ItemWord, Start, item_word, start_word};
use mw_lex::Token;
use mw_term::{MOST_NESTING, Term};
use std::alloc::{AllocError, Global};

/// The nodes of a part in pre-order.
#[derive(Debug, Drop)]
pub struct PartSpans {
    pub nodes: Vec<Node>,
}

/// The nodes of each part: of the items in order, and of main. There are none where the tokens are none of a program.
pub fn spans(alloc: Global, tokens: &[Token]) -> Result<Option<Vec<PartSpans>>, AllocError> {
    match program_parts(alloc, tokens) {
        Ok(parts) => Ok(Some(parts)),
        Err(Lost::NoTree) => Ok(None),
        Err(Lost::Memory(error)) => Err(error),
    }
}

fn program_parts(alloc: Global, tokens: &[Token]) -> Result<Vec<PartSpans>, Lost> {
    let mut parts = Vec::new(alloc);
    let mut left = tokens;
    for _ in 0..tokens.len() {
        let (token, rest) = first_of(left)?;
        match start_word(token) {
            Start::Other => return Err(Lost::NoTree),
            Start::Main => {
                parts
                    .push(main_part(alloc, rest)?)
                    .map_err(AllocError::from)?;
                return Ok(parts);
            }
            Start::Item => {
                let (part, rest) = item_part(alloc, token, rest)?;
                parts.push(part).map_err(AllocError::from)?;
                left = behind(Next::End, rest)?;
            }
        }
    }
    Err(Lost::NoTree)
}

/// After `main`. No token stands behind it.
fn main_part(alloc: Global, tokens: &[Token]) -> Result<PartSpans, Lost> {
    let mut arena = Arena::new(alloc);
    let body = expression(&mut arena, beyond(Next::Equal, tokens)?, MOST_NESTING)?;
    if !body.rest.is_empty() {
        return Err(Lost::NoTree);
    }
    part_of(alloc, &arena, body)
}

/// After the first token of an item.
fn item_part<'t>(
    alloc: Global,
    word: &Token,
    tokens: &'t [Token],
) -> Result<(PartSpans, &'t [Token]), Lost> {
    let mut arena = Arena::new(alloc);
    let body = match item_word(word) {
        ItemWord::Other => return Err(Lost::NoTree),
        ItemWord::Let => binding(&mut arena, tokens, MOST_NESTING)?.1,
        ItemWord::Kernel => expression(&mut arena, beyond(Next::Equal, tokens)?, MOST_NESTING)?,
    };
    Ok((part_of(alloc, &arena, body)?, body.rest))
}

/// The part whose nodes are those of the arena.
fn part_of(alloc: Global, arena: &Arena, body: Walked) -> Result<PartSpans, Lost> {
    match arena.in_order(alloc, body.node)? {
        None => Err(Lost::NoTree),
        Some(nodes) => Ok(PartSpans { nodes }),
    }
}

/// Whether the nodes are a term's, by their forms.
pub fn fits(term: &Term, nodes: &[Node]) -> bool {
    match beyond_term(term, nodes) {
        None => false,
        Some(rest) => rest.is_empty(),
    }
}

/// The nodes behind those of a term, which must stand in front.
fn beyond_term<'n>(term: &Term, nodes: &'n [Node]) -> Option<&'n [Node]> {
    let [node, rest @ ..] = nodes else {
        return None;
    };
    if node.form != form_of(term) {
        return None;
    }
    match term {
        Term::Int(_) | Term::Bool(_) | Term::Var(_) | Term::Glob(_) => Some(rest),
        Term::Fun(e)
        | Term::Rec(e)
        | Term::Fst(e)
        | Term::Snd(e)
        | Term::Bracket(e)
        | Term::Escape(e)
        | Term::Run(_, e)
        | Term::CloseCode(_, e)
        | Term::OpenCode(e)
        | Term::Lift(e)
        | Term::LiftB(e) => beyond_term(e, rest),
        Term::App(a, b) | Term::Let(a, b) | Term::Pair(a, b) | Term::Prim(_, a, b) => {
            beyond_term(b, beyond_term(a, rest)?)
        }
        Term::If(c, a, b) => beyond_term(b, beyond_term(a, beyond_term(c, rest)?)?),
    }
}
