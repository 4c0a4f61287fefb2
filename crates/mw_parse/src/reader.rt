// The tree of the tokens, or the refusal.

ghost use Rattle.std.specs.Prelude.{◌≡◌, ◌≤◌, ℕ, length, map, IfOk, IfErr};
ghost use Rattle.mw_lex.specs.Tokens.{tokens_of};
ghost use Rattle.mw_lex.specs.InOrder.{AreInOrder, HaveNumbersInRange};
ghost use Rattle.mw_term.specs.declared.refusal.Refusal.{Refusal as PureRefusal};
ghost use Rattle.mw_term.specs.Stops.{IfRefused, IsRefusalOrMemory};
ghost use Rattle.mw_grammar.specs.SurfaceTrees.{PureSurface, item_of, surface_of};
ghost use Rattle.mw_grammar.specs.SurfaceDepth.{IsShallow};
ghost use Rattle.mw_grammar.specs.SurfaceSize.{IsSparse};
ghost use Rattle.mw_grammar.specs.Answers.{place_of, kernels, IsProgram};
ghost use Rattle.mw_parse.specs.Reading.{IsAnswer, IsTreeOrMemory, Refuses};

use crate::items::program_tree;
use crate::room::Room;
use mw_grammar::fault::Fault;
use mw_grammar::{Surface, SurfaceItem};
use mw_lex::{Token, Tokens};
use mw_term::{MOST_NESTING, Refusal, Stop};
use std::alloc::Global;

/// The offset of the first of these tokens, or the file's length where none is left.
fn place(rest: &[Token], length: u32) -> u32
    ensures { result ≡ place_of (tokens_of rest.now) length }
{
    match rest {
        [] => length,
        [token, ..] => token.start,
    }
}

/// The kernel items among these.
fn kernel_count(items: &[SurfaceItem]) -> u32
    requires { length items.now ≤ 1000 }
    ensures count { result ≡ kernels (map item_of items.now) }
    ensures most { result ≤ length items.now }
{
    match items {
        [] => 0,
        [item, rest @ ..] => match item {
            SurfaceItem::Let(_, _, _) => kernel_count(rest),
            SurfaceItem::Kernel(_, _, _) => kernel_count(rest) + 1,
        },
    }
}

#[tactic(auto, using(crate::proofs::Parsed::token_laws))]
fn parse_tokens(alloc: Global, tokens: &[Token], length: u32) -> Result<Surface, Stop>
    ensures { IsAnswer (tokens_of tokens.now) length result }
{
    let nodes = MOST_NESTING;
    let room = Room { alloc, nodes };
    match program_tree(room, tokens) {
        Err(Fault::Memory(e)) => Err(Stop::Memory(e)),
        Err(Fault::Syntax(rest)) => Err(Stop::Refused(Refusal::Syntax(place(rest, length)))),
        Err(Fault::Deep(rest)) => Err(Stop::Refused(Refusal::TooDeep(place(rest, 0)))),
        Ok((surface, _, rest)) => {
            if !rest.is_empty() {
                drop(surface);
                return Err(Stop::Refused(Refusal::Syntax(place(rest, length))));
            }
            if surface.items.len() > 1000 {
                drop(surface);
                return Err(Stop::Refused(Refusal::TooMany));
            }
            if kernel_count(surface.items.as_slice()) > 100 {
                drop(surface);
                return Err(Stop::Refused(Refusal::TooMany));
            }
            Ok(surface)
        }
    }
}

/// The tree of the tokens of a file of this length, or the refusal.
#[tactic(auto, using(crate::proofs::Parsed::source_laws))]
pub fn parse(alloc: Global, tokens: &Tokens, length: u32) -> Result<Surface, Stop>
    requires small { length ≤ 1048576 }
    requires in_order { AreInOrder (tokens_of tokens.now) length }
    requires in_range { HaveNumbersInRange (tokens_of tokens.now) }
    ensures found { IfOk result (λ s. IsProgram (tokens_of tokens.now) (surface_of s)) }
    ensures only { (v : PureSurface) → IsProgram (tokens_of tokens.now) v
        → IsTreeOrMemory result v }
    ensures refused { IfErr result (IfRefused (Refuses (tokens_of tokens.now) length)) }
    ensures first { (r : PureRefusal) → Refuses (tokens_of tokens.now) length r
        → IsRefusalOrMemory result r }
    ensures shallow { IfOk result (λ s. IsShallow (surface_of s)) }
    ensures sparse { IfOk result (λ s. IsSparse (tokens_of tokens.now) (surface_of s)) }
{
    parse_tokens(alloc, tokens.as_slice(), length)
}
