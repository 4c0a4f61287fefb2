// Ground types and kernel types, by descent. `room` is the number of nodes that may still stand on a path; each
// function answers what it made, the height of its nodes and the tokens left.

#![tactic(auto, using(crate::proofs::Below::read_laws, crate::proofs::Below::low_in, crate::proofs::Below::low_out, crate::proofs::Below::raise_ok, crate::proofs::Below::fails_raise))]

ghost use Rattle.std.specs.Prelude.{◌≤◌, IfOk, IfSome, IfNone};
ghost use Rattle.mw_lex.specs.Tokens.{tokens_of};
ghost use Rattle.mw_term.specs.Terms.{ground_of, kernel_type_of};
ghost use Rattle.mw_grammar.specs.Grammar.{kernel_type, ground, part, base};
ghost use Rattle.mw_grammar.specs.Forms.{paren_form};
ghost use Rattle.mw_grammar.specs.Descent.{none_yet, full, reading};
ghost use Rattle.mw_grammar.specs.Gives.{GivesRead};
ghost use Rattle.mw_grammar.specs.Opened.{IsOpened, HaveNoBase, HaveBase};

use crate::fault::{Fault, Read};
use crate::next::{Next, after};
use mw_lex::{Kind, Token};
use mw_term::{Base, Ground, KType};
use std::alloc::Global;

/// What a ground type begins with.
#[derive(Clone, Copy)]
pub enum Opened<'a> {
    Paren(&'a [Token]),
    Other,
    Nothing,
}

#[tactic(auto, unfolding(crate::specs::Descent::reading))]
fn base_of(tokens: &[Token]) -> Option<(Base, &[Token])>
    ensures none { IfNone result (HaveNoBase (tokens_of tokens.now)) }
    ensures some { IfSome result (λ r. HaveBase (tokens_of tokens.now) r.0 (tokens_of r.1.now)) }
{
    match tokens {
        [] => None,
        [token, rest @ ..] => match &token.kind {
            Kind::Int => Some((Base::Int, rest)),
            Kind::Bool => Some((Base::Bool, rest)),
            _ => None,
        },
    }
}

#[tactic(auto, unfolding(crate::specs::Descent::reading))]
fn part_of(tokens: &[Token]) -> Opened<'_>
    ensures { IsOpened (tokens_of tokens.now) result }
{
    match tokens {
        [] => Opened::Nothing,
        [token, rest @ ..] => match &token.kind {
            Kind::ParenLeft => Opened::Paren(rest),
            _ => Opened::Other,
        },
    }
}

#[tactic(auto, using(crate::proofs::Below::read_full, crate::proofs::Below::low_in, crate::proofs::Below::low_out))]
fn base_type(tokens: &[Token], room: u32) -> Read<Base>
    ensures gives { GivesRead (λ base. base) result (full room base (tokens_of tokens.now)) }
    ensures height { IfOk result (λ x. x.1 ≤ room) }
{
    match base_of(tokens) {
        None => Err(Fault::Syntax(tokens)),
        Some((base, rest)) => {
            if room == 0 {
                return Err(Fault::Deep(tokens));
            }
            Ok((base, 1, rest))
        }
    }
}

#[cycle(grounds)]
fn part_type(alloc: Global, tokens: &[Token], room: u32) -> Read<Ground>
    ensures gives { GivesRead ground_of result (full room part (tokens_of tokens.now)) }
    ensures height { IfOk result (λ x. x.1 ≤ room) }
{
    match part_of(tokens) {
        Opened::Nothing => Err(Fault::Syntax(tokens)),
        Opened::Paren(rest) => {
            if room == 0 {
                return Err(Fault::Deep(tokens));
            }
            let (ground, height, rest) = paren_ground(alloc, rest, room - 1)?;
            Ok((ground, height + 1, rest))
        }
        Opened::Other => {
            let (base, height, rest) = base_type(tokens, room)?;
            Ok((Ground::Base(base), height, rest))
        }
    }
}

#[cycle(grounds)]
fn paren_ground(alloc: Global, tokens: &[Token], room: u32) -> Read<Ground>
    ensures gives { GivesRead ground_of result
        (reading room paren_form none_yet (tokens_of tokens.now)) }
    ensures height { IfOk result (λ x. x.1 ≤ room) }
{
    let (ground, height, mid) = ground_type(alloc, tokens, room)?;
    match after(Next::Paren, mid) {
        None => {
            drop(ground);
            Err(Fault::Syntax(mid))
        }
        Some(rest) => Ok((ground, height, rest)),
    }
}

/// A ground type.
#[cycle(grounds)]
pub fn ground_type(alloc: Global, tokens: &[Token], room: u32) -> Read<Ground>
    ensures gives { GivesRead ground_of result (full room ground (tokens_of tokens.now)) }
    ensures height { IfOk result (λ x. x.1 ≤ room) }
{
    let (left, height, mid) = part_type(alloc, tokens, room)?;
    match after(Next::Star, mid) {
        None => Ok((left, height, mid)),
        Some(rest) => {
            if height >= room {
                drop(left);
                return Err(Fault::Deep(mid));
            }
            let left = Box::new(alloc, left)?;
            let (right, other, rest) = ground_type(alloc, rest, room - 1)?;
            let pair = Ground::Pair(left, Box::new(alloc, right)?);
            Ok((pair, height.max(other) + 1, rest))
        }
    }
}

/// A kernel type.
pub fn kernel(alloc: Global, tokens: &[Token], room: u32) -> Read<KType>
    ensures gives { GivesRead kernel_type_of result (full room kernel_type (tokens_of tokens.now)) }
    ensures height { IfOk result (λ x. x.1 ≤ room) }
{
    let (ground, height, mid) = ground_type(alloc, tokens, room)?;
    match after(Next::Arrow, mid) {
        None => Ok((KType::Ground(ground), height, mid)),
        Some(rest) => {
            if height >= room {
                drop(ground);
                return Err(Fault::Deep(mid));
            }
            match ground_type(alloc, rest, room - 1) {
                Err(fault) => {
                    drop(ground);
                    Err(fault)
                }
                Ok((result, other, rest)) => {
                    Ok((KType::Fun(ground, result), height.max(other) + 1, rest))
                }
            }
        }
    }
}
