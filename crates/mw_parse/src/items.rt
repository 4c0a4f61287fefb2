// Items and programs.

#![tactic(auto, using(mw_grammar::proofs::Below::read_laws, mw_grammar::proofs::Below::fails_then))]

ghost use Rattle.std.specs.Prelude.{◌≤◌, IfOk};
ghost use Rattle.mw_lex.specs.Tokens.{tokens_of};
ghost use Rattle.mw_grammar.specs.SurfaceTrees.{item_of, surface_of};
ghost use Rattle.mw_grammar.specs.Grammar.{program, item};
ghost use Rattle.mw_grammar.specs.Forms.{pick, let_by, kernel_by, main_of};
ghost use Rattle.mw_grammar.specs.Descent.{none_yet, full, reading};
ghost use Rattle.mw_grammar.specs.Gives.{GivesRead};
ghost use Rattle.mw_grammar.specs.declared.tree.Placed.{Placed as PlacedName};
ghost use Rattle.mw_parse.specs.Bindings.{kernel_rest, typed_item};
ghost use Rattle.mw_parse.specs.Reading.{GivesMain, Reads, ReadsForm};

use crate::room::Room;
use crate::trees::{binding, expr_tree, placed_name};
use mw_grammar::fault::{Fault, Read};
use mw_grammar::kinds::{ground_type, kernel};
use mw_grammar::next::{Next, after};
use mw_grammar::words::{ItemWord, Start, in_hand, item_word, start_word};
use mw_grammar::{Surface, SurfaceItem, SurfaceItems, Tree};
use mw_lex::Token;
use mw_term::{Ground, KType};

fn item_tree(room: Room, tokens: &[Token]) -> Read<SurfaceItem>
    ensures { Reads room item tokens.now item_of result }
{
    match in_hand(tokens) {
        None => Err(Fault::Syntax(tokens)),
        Some((token, rest)) => match item_word(token) {
            ItemWord::Other => Err(Fault::Syntax(tokens)),
            ItemWord::Let => let_item(room, rest),
            ItemWord::Kernel => kernel_item(room, rest),
        },
    }
}

fn let_item(room: Room, tokens: &[Token]) -> Read<SurfaceItem>
    ensures { ReadsForm room (pick let_by) tokens.now item_of result }
{
    let ((placed, definition), height, rest) = binding(room, tokens)?;
    let tree = Box::into_inner(definition.tree);
    Ok((
        SurfaceItem::Let(placed, definition.from, tree),
        height,
        rest,
    ))
}

fn kernel_item(room: Room, tokens: &[Token]) -> Read<SurfaceItem>
    ensures { ReadsForm room (pick kernel_by) tokens.now item_of result }
{
    let (placed, mid) = placed_name(room.alloc, tokens)?;
    match after(Next::Colon, mid) {
        None => Err(Fault::Syntax(mid)),
        Some(rest) => {
            let ((kind, tree), height, rest) = typed_tree(room, rest)?;
            let tree = Box::into_inner(tree);
            Ok((SurfaceItem::Kernel(placed, kind, tree), height, rest))
        }
    }
}

/// A kernel type, and what stands after `=`.
fn typed_tree(room: Room, tokens: &[Token]) -> Read<(KType, Box<Tree>)>
    ensures { (x : PlacedName)
        → ReadsForm room (kernel_rest x) tokens.now (typed_item x) result }
{
    let (kind, height, mid) = kernel(room.alloc, tokens, room.nodes)?;
    match after(Next::Equal, mid) {
        None => {
            drop(kind);
            Err(Fault::Syntax(mid))
        }
        Some(rest) => match expr_tree(room, rest) {
            Err(fault) => {
                drop(kind);
                Err(fault)
            }
            Ok((tree, other, rest)) => Ok(((kind, tree), height.max(other), rest)),
        },
    }
}

fn main_tree(room: Room, tokens: &[Token]) -> Result<(Ground, Tree, u32, &[Token]), Fault>
    ensures gives { GivesMain result (reading room.nodes main_of none_yet (tokens_of tokens.now)) }
    ensures height { IfOk result (λ x. x.2 ≤ room.nodes) }
{
    match after(Next::Colon, tokens) {
        None => Err(Fault::Syntax(tokens)),
        Some(rest) => {
            let (ground, height, mid) = ground_type(room.alloc, rest, room.nodes)?;
            match after(Next::Equal, mid) {
                None => Err(Fault::Syntax(mid)),
                Some(rest) => {
                    let (tree, other, rest) = expr_tree(room, rest)?;
                    Ok((ground, Box::into_inner(tree), height.max(other), rest))
                }
            }
        }
    }
}

/// A program: the items in turn, and main.
#[tactic(auto, using(mw_grammar::proofs::Below::read_laws, mw_grammar::proofs::Below::fails_then, crate::proofs::Programs::program_laws))]
pub fn program_tree(room: Room, tokens: &[Token]) -> Read<Surface>
    ensures gives { GivesRead surface_of result (full room.nodes program (tokens_of tokens.now)) }
{
    let mut items = SurfaceItems::new(room.alloc);
    let mut height = 0;
    let mut rest = tokens;
    loop {
        match in_hand(rest) {
            None => return Err(Fault::Syntax(rest)),
            Some((token, behind)) => match start_word(token) {
                Start::Other => return Err(Fault::Syntax(rest)),
                Start::Main => {
                    let (result, body, other, rest) = main_tree(room, behind)?;
                    let surface = Surface {
                        items,
                        result,
                        body,
                    };
                    return Ok((surface, height.max(other), rest));
                }
                Start::Item => {
                    let (item, other, mid) = item_tree(room, rest)?;
                    match after(Next::End, mid) {
                        None => {
                            drop(item);
                            return Err(Fault::Syntax(mid));
                        }
                        Some(behind) => {
                            items.push(item)?;
                            height = height.max(other);
                            rest = behind;
                        }
                    }
                }
            },
        }
    }
}
