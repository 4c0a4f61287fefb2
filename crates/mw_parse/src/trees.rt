// Expressions, by descent. Each function answers what it made, the height of its nodes and the tokens left, and says of
// which form. Trees are passed on in boxes.

#![tactic(auto, using(mw_grammar::proofs::Below::tree_laws))]

ghost use Rattle.std.specs.Prelude.{◌≡◌, ◌<◌, ◌≤◌, IfOk};
ghost use Rattle.mw_lex.specs.Tokens.{tokens_of};
ghost use Rattle.mw_grammar.specs.SurfaceTrees.{bind};
ghost use Rattle.mw_grammar.specs.Grammar.{tree, expr, comparison, row as leveled, head, atom, operand, right, body};
ghost use Rattle.mw_grammar.specs.Grammar.{parameter};
ghost use Rattle.mw_grammar.specs.Forms.{pick, let_in_by, rec_by, paren_by, minus_by, behind_mark, let_by, rec_item};
ghost use Rattle.mw_grammar.specs.Forms.{kernel_by, bracket_form, escape_form, group_form, pair_form, run_form};
ghost use Rattle.mw_grammar.specs.Forms.{condition_form, branches_form, scope_form};
ghost use Rattle.mw_grammar.specs.Descent.{following, following_operator};
ghost use Rattle.mw_grammar.specs.Gives.{expected_of};
ghost use Rattle.mw_grammar.specs.Words.{mark_in, atom_form, head_form};
ghost use Rattle.mw_grammar.specs.Levels.{row_of, op_of};
ghost use Rattle.mw_grammar.specs.Boxes.{definition_in, function_in, tree_in};
ghost use Rattle.mw_parse.specs.Bindings.{GivesBound, GivesName, bound_item, function_form, kernel_form, rec_form};
ghost use Rattle.mw_parse.specs.Bindings.{rec_item_form};
ghost use Rattle.mw_parse.specs.Reading.{Within, Reads, ReadsForm, ReadsAfter};
ghost use Rattle.mw_parse.specs.Connectives.{connected, level_of, operand_of, sign_of};

use crate::room::Room;
use mw_grammar::fault::{Fault, Read};
use mw_grammar::kinds::kernel;
use mw_grammar::next::{Next, after};
use mw_grammar::parts::{
    Defined, Function, boxed_bracket, boxed_escape, boxed_function, boxed_if, boxed_leaf,
    boxed_let, boxed_negative, boxed_pair, boxed_prefixed, boxed_rec, boxed_run, conjoined,
    disjoined, joined,
};
use mw_grammar::rows::{Operator, Row, next_comparison, next_operator};
use mw_grammar::words::{
    Atom, Body, Close, First, Head, Inside, Mark, Named, atom_word, body_word, closing, first_word,
    head_word, in_hand, inside_word, name_of, name_or_rec, number_of,
};
use mw_grammar::{Placed, Tree};
use mw_lex::Token;
use mw_term::{Name, copied_name};
use std::alloc::{AllocError, Global};

/// What stands between truth values.
#[derive(Clone, Copy)]
enum Connective {
    And,
    Or,
}

/// After `(` and `-`.
fn literal(room: Room, tokens: &[Token]) -> Read<Box<Tree>>
    ensures { ReadsForm room (pick minus_by) tokens.now tree_in result }
{
    match in_hand(tokens) {
        None => Err(Fault::Syntax(tokens)),
        Some((token, mid)) => match number_of(token) {
            None => Err(Fault::Syntax(tokens)),
            Some(n) => match after(Next::Paren, mid) {
                None => Err(Fault::Syntax(mid)),
                Some(rest) => Ok((boxed_negative(room.alloc, n)?, 0, rest)),
            },
        },
    }
}

#[cycle(trees)]
fn atom_tree(room: Room, tokens: &[Token]) -> Read<Box<Tree>>
    ensures { Reads room (tree atom) tokens.now tree_in result }
{
    match in_hand(tokens) {
        None => Err(Fault::Syntax(tokens)),
        Some((token, rest)) => match atom_word(token) {
            None => Err(Fault::Syntax(tokens)),
            Some(atom) => {
                let inner = room.below(0, tokens)?;
                let (tree, height, rest) = atom_inside(inner, atom, token.start, rest)?;
                Ok((tree, height + 1, rest))
            }
        },
    }
}

#[cycle(trees)]
fn atom_inside<'t>(room: Room, atom: Atom<'t>, at: u32, tokens: &'t [Token]) -> Read<'t, Box<Tree>>
    ensures { ReadsForm room (atom_form atom.entry at) tokens.now tree_in result }
{
    match atom {
        Atom::Leaf(leaf) => Ok((boxed_leaf(room.alloc, leaf, at)?, 0, tokens)),
        Atom::Paren => in_parens(room, tokens),
        Atom::Bracket => bracketed(room, at, tokens),
        Atom::Escape => escaped(room, at, tokens),
    }
}

#[cycle(trees)]
fn bracketed(room: Room, at: u32, tokens: &[Token]) -> Read<Box<Tree>>
    ensures { ReadsForm room (bracket_form at) tokens.now tree_in result }
{
    let (tree, height, mid) = expr_tree(room, tokens)?;
    match after(Next::Bracket, mid) {
        None => Err(Fault::Syntax(mid)),
        Some(rest) => Ok((boxed_bracket(room.alloc, at, tree)?, height, rest)),
    }
}

#[cycle(trees)]
fn escaped(room: Room, at: u32, tokens: &[Token]) -> Read<Box<Tree>>
    ensures { ReadsForm room (escape_form at) tokens.now tree_in result }
{
    let (tree, height, rest) = atom_tree(room, tokens)?;
    Ok((boxed_escape(room.alloc, at, tree)?, height, rest))
}

#[cycle(trees)]
fn in_parens(room: Room, tokens: &[Token]) -> Read<Box<Tree>>
    ensures { ReadsForm room (pick paren_by) tokens.now tree_in result }
{
    match in_hand(tokens) {
        None => Err(Fault::Syntax(tokens)),
        Some((token, rest)) => {
            match inside_word(token) {
                Inside::Minus => literal(room, rest),
                Inside::Other => grouped(room, tokens),
            }
        },
    }
}

#[cycle(trees)]
fn grouped(room: Room, tokens: &[Token]) -> Read<Box<Tree>>
    ensures { ReadsForm room group_form tokens.now tree_in result }
{
    let (tree, height, mid) = expr_tree(room, tokens)?;
    match in_hand(mid) {
        None => Err(Fault::Syntax(mid)),
        Some((token, rest)) => match closing(token) {
            Close::Other => Err(Fault::Syntax(mid)),
            Close::Paren => Ok((tree, height, rest)),
            Close::Comma => paired(room, tree, height, rest),
        },
    }
}

#[cycle(trees)]
fn paired(room: Room, left: Box<Tree>, height: u32, tokens: &[Token]) -> Read<Box<Tree>>
    requires { height ≤ room.nodes }
    ensures { ReadsAfter height room (pair_form (tree_in left)) tokens.now tree_in result }
{
    let (right, other, mid) = expr_tree(room, tokens)?;
    match after(Next::Paren, mid) {
        None => Err(Fault::Syntax(mid)),
        Some(rest) => {
            let tree = boxed_pair(room.alloc, left, right)?;
            Ok((tree, height.max(other), rest))
        }
    }
}

#[cycle(trees)]
fn head_tree(room: Room, tokens: &[Token]) -> Read<Box<Tree>>
    ensures { Reads room (tree head) tokens.now tree_in result }
{
    match in_hand(tokens) {
        None => Err(Fault::Syntax(tokens)),
        Some((token, rest)) => match head_word(token) {
            None => atom_tree(room, tokens),
            Some(head) => {
                let inner = room.below(0, tokens)?;
                let (tree, height, rest) = head_inside(inner, head, token.start, rest)?;
                Ok((tree, height + 1, rest))
            }
        },
    }
}

#[cycle(trees)]
fn head_inside(room: Room, head: Head, at: u32, tokens: &[Token]) -> Read<Box<Tree>>
    ensures { ReadsForm room (head_form head at) tokens.now tree_in result }
{
    match head {
        Head::Prefix(prefix) => {
            let (tree, height, rest) = atom_tree(room, tokens)?;
            Ok((boxed_prefixed(room.alloc, prefix, at, tree)?, height, rest))
        }
        Head::Run => running(room, at, tokens),
    }
}

#[cycle(trees)]
fn running(room: Room, at: u32, tokens: &[Token]) -> Read<Box<Tree>>
    ensures { ReadsForm room (run_form at) tokens.now tree_in result }
{
    match after(Next::Left, tokens) {
        None => Err(Fault::Syntax(tokens)),
        Some(rest) => {
            let (kind, height, mid) = kernel(room.alloc, rest, room.nodes)?;
            match after(Next::Right, mid) {
                None => {
                    drop(kind);
                    Err(Fault::Syntax(mid))
                }
                Some(rest) => match atom_tree(room, rest) {
                    Err(fault) => {
                        drop(kind);
                        Err(fault)
                    }
                    Ok((tree, other, rest)) => {
                        let tree = boxed_run(room.alloc, at, kind, tree)?;
                        Ok((tree, height.max(other), rest))
                    }
                },
            }
        }
    }
}

#[cycle(trees)]
fn operand_tree(room: Room, row: Row, tokens: &[Token]) -> Read<Box<Tree>>
    ensures { Reads room (tree (operand (row_of row))) tokens.now tree_in result }
{
    match row {
        Row::Sum => row_tree(room, Row::Product, tokens),
        Row::Product => row_tree(room, Row::Application, tokens),
        Row::Application => head_tree(room, tokens),
    }
}

#[cycle(trees)]
fn right_tree(room: Room, row: Row, tokens: &[Token]) -> Read<Box<Tree>>
    ensures { Reads room (tree (right (row_of row))) tokens.now tree_in result }
{
    match row {
        Row::Sum => row_tree(room, Row::Product, tokens),
        Row::Product => row_tree(room, Row::Application, tokens),
        Row::Application => atom_tree(room, tokens),
    }
}

#[cycle(trees)]
#[tactic(auto, using(mw_grammar::proofs::Below::tree_laws, mw_grammar::proofs::Below::read_more))]
fn row_tree(room: Room, row: Row, tokens: &[Token]) -> Read<Box<Tree>>
    ensures { Reads room (tree (leveled (row_of row))) tokens.now tree_in result }
{
    let (left, height, mid) = operand_tree(room, row, tokens)?;
    more_trees(room, row, left, height, mid)
}

#[cycle(trees)]
#[tactic(auto, using(mw_grammar::proofs::Below::tree_laws, mw_grammar::proofs::Below::follow_none, mw_grammar::proofs::Below::follow_deep, mw_grammar::proofs::Below::follow_on))]
fn more_trees(
    room: Room,
    row: Row,
    left: Box<Tree>,
    height: u32,
    tokens: &[Token],
) -> Read<Box<Tree>>
    requires { height ≤ room.nodes }
    ensures { Within room tree_in result
        (following room.nodes (row_of row) (tree_in left) height (tokens_of tokens.now)) }
{
    match next_operator(row, tokens) {
        None => Ok((left, height, tokens)),
        Some((operator, rest)) => {
            if height >= room.nodes {
                return Err(Fault::Deep(tokens));
            }
            next_operand(room, row, operator, left, height, rest)
        }
    }
}

#[cycle(trees)]
fn comparison_tree(room: Room, tokens: &[Token]) -> Read<Box<Tree>>
    ensures { Reads room (tree comparison) tokens.now tree_in result }
{
    let (left, height, mid) = row_tree(room, Row::Sum, tokens)?;
    match next_comparison(mid) {
        None => Ok((left, height, mid)),
        Some((prim, rest)) => {
            let inner = room.below(height, mid)?;
            let (right, other, rest) = row_tree(inner, Row::Sum, rest)?;
            let tree = joined(room.alloc, Operator::Sign(prim), left, right)?;
            Ok((tree, height.max(other) + 1, rest))
        }
    }
}

/// The mark of a connective.
fn sign(connective: Connective) -> Next
    ensures { expected_of result ≡ sign_of connective }
{
    match connective {
        Connective::And => Next::And,
        Connective::Or => Next::Or,
    }
}

/// A connective with its operands.
fn connect(
    alloc: Global,
    connective: Connective,
    left: Box<Tree>,
    right: Box<Tree>,
) -> Result<Box<Tree>, AllocError>
    ensures { IfOk result (λ t. tree_in t ≡ connected connective (tree_in left) (tree_in right)) }
{
    match connective {
        Connective::And => conjoined(alloc, left, right),
        Connective::Or => disjoined(alloc, left, right),
    }
}

#[cycle(trees)]
fn connective_operand(room: Room, connective: Connective, tokens: &[Token]) -> Read<Box<Tree>>
    ensures { Reads room (tree (operand_of connective)) tokens.now tree_in result }
{
    match connective {
        Connective::And => comparison_tree(room, tokens),
        Connective::Or => connected_tree(room, Connective::And, tokens),
    }
}

#[cycle(trees)]
#[tactic(auto, using(crate::proofs::Connectives::connected_laws))]
fn connected_tree(room: Room, connective: Connective, tokens: &[Token]) -> Read<Box<Tree>>
    ensures { Reads room (tree (level_of connective)) tokens.now tree_in result }
{
    let (left, height, mid) = connective_operand(room, connective, tokens)?;
    match after(sign(connective), mid) {
        None => Ok((left, height, mid)),
        Some(rest) => {
            let inner = room.below(height, mid)?;
            let (right, other, rest) = connected_tree(inner, connective, rest)?;
            let tree = connect(room.alloc, connective, left, right)?;
            Ok((tree, height.max(other) + 1, rest))
        }
    }
}

/// The tree of an expression.
#[cycle(trees)]
pub fn expr_tree(room: Room, tokens: &[Token]) -> Read<Box<Tree>>
    ensures { Reads room (tree expr) tokens.now tree_in result }
{
    match in_hand(tokens) {
        None => Err(Fault::Syntax(tokens)),
        Some((token, rest)) => match first_word(token) {
            First::Let => {
                let inner = room.below(0, tokens)?;
                let (tree, height, rest) = bound_tree(inner, rest)?;
                Ok((tree, height + 1, rest))
            }
            First::Fun => function_tree(room, rest),
            First::If => {
                let inner = room.below(0, tokens)?;
                let (tree, height, rest) = conditional(inner, rest)?;
                Ok((tree, height + 1, rest))
            }
            First::Other => connected_tree(room, Connective::Or, tokens),
        },
    }
}

#[cycle(trees)]
fn function_tree(room: Room, tokens: &[Token]) -> Read<Box<Tree>>
    ensures { ReadsForm room function_form tokens.now tree_in result }
{
    let (function, height, rest) = parameter_tree(room, Mark::Arrow, tokens)?;
    Ok((boxed_function(room.alloc, function)?, height, rest))
}

#[cycle(trees)]
fn conditional(room: Room, tokens: &[Token]) -> Read<Box<Tree>>
    ensures { ReadsForm room condition_form tokens.now tree_in result }
{
    let (test, height, mid) = expr_tree(room, tokens)?;
    match after(Next::Then, mid) {
        None => Err(Fault::Syntax(mid)),
        Some(rest) => branches(room, test, height, rest),
    }
}

#[cycle(trees)]
fn branches(room: Room, test: Box<Tree>, height: u32, tokens: &[Token]) -> Read<Box<Tree>>
    requires { height ≤ room.nodes }
    ensures { ReadsAfter height room (branches_form (tree_in test)) tokens.now tree_in result }
{
    let (left, other, mid) = expr_tree(room, tokens)?;
    match after(Next::Else, mid) {
        None => Err(Fault::Syntax(mid)),
        Some(rest) => {
            let (right, last, rest) = expr_tree(room, rest)?;
            let tree = boxed_if(room.alloc, test, left, right)?;
            Ok((tree, height.max(other).max(last), rest))
        }
    }
}

/// A name, and where it stands.
pub fn placed_name(alloc: Global, tokens: &[Token]) -> Result<(Placed, &[Token]), Fault>
    ensures inner { GivesName rec_form result rec_by (tokens_of tokens.now) }
    ensures top { GivesName rec_item_form result rec_item (tokens_of tokens.now) }
    ensures kernel { GivesName kernel_form result kernel_by (tokens_of tokens.now) }
{
    match in_hand(tokens) {
        None => Err(Fault::Syntax(tokens)),
        Some((token, rest)) => match name_of(token) {
            None => Err(Fault::Syntax(tokens)),
            Some(name) => {
                let name = copied_name(alloc, name)?;
                Ok((
                    Placed {
                        name,
                        at: token.start,
                    },
                    rest,
                ))
            }
        },
    }
}

#[cycle(trees)]
fn bound_tree(room: Room, tokens: &[Token]) -> Read<Box<Tree>>
    ensures { ReadsForm room (pick let_in_by) tokens.now tree_in result }
{
    let ((placed, definition), height, rest) = binding(room, tokens)?;
    scoped(room, placed.name, definition.tree, height, rest)
}

/// What a `let` binds.
#[cycle(trees)]
pub fn binding(room: Room, tokens: &[Token]) -> Read<(Placed, Defined)>
    ensures inner { GivesBound room.nodes result let_in_by (tokens_of tokens.now) }
    ensures top { ReadsForm room (pick let_by) tokens.now bound_item result }
{
    match in_hand(tokens) {
        None => Err(Fault::Syntax(tokens)),
        Some((token, rest)) => match name_or_rec(token) {
            Named::Other => Err(Fault::Syntax(tokens)),
            Named::Word(name) => {
                let name = copied_name(room.alloc, name)?;
                let at = token.start;
                let (definition, height, rest) = body_tree(room, Mark::Equal, rest)?;
                Ok(((Placed { name, at }, definition), height, rest))
            }
            Named::Rec => recursive(room, rest),
        },
    }
}

#[cycle(trees)]
fn recursive(room: Room, tokens: &[Token]) -> Read<(Placed, Defined)>
    ensures inner { GivesBound room.nodes result rec_by (tokens_of tokens.now) }
    ensures top { ReadsForm room (pick rec_item) tokens.now bound_item result }
{
    let (placed, mid) = placed_name(room.alloc, tokens)?;
    let (function, height, rest) = parameter_tree(room, Mark::Equal, mid)?;
    let from = function.from;
    let tree = boxed_rec(room.alloc, &placed.name, function)?;
    Ok(((placed, Defined { from, tree }), height, rest))
}

#[cycle(trees)]
fn scoped(
    room: Room,
    name: Name,
    definition: Box<Tree>,
    height: u32,
    tokens: &[Token],
) -> Read<Box<Tree>>
    requires { height ≤ room.nodes }
    ensures { ReadsAfter height room (scope_form (bind name (tree_in definition)))
        tokens.now tree_in result }
{
    match after(Next::In, tokens) {
        None => Err(Fault::Syntax(tokens)),
        Some(rest) => {
            let (tree, other, rest) = expr_tree(room, rest)?;
            let tree = boxed_let(room.alloc, name, definition, tree)?;
            Ok((tree, height.max(other), rest))
        }
    }
}

/// The tree of a function from its parameter on, whose body stands behind the mark.
#[cycle(trees)]
pub fn parameter_tree(room: Room, mark: Mark, tokens: &[Token]) -> Read<Function>
    ensures { Reads room (parameter (mark_in mark)) tokens.now function_in result }
{
    match in_hand(tokens) {
        None => Err(Fault::Syntax(tokens)),
        Some((token, rest)) => match name_of(token) {
            None => Err(Fault::Syntax(tokens)),
            Some(name) => {
                let inner = room.below(0, tokens)?;
                let name = copied_name(room.alloc, name)?;
                let (definition, height, rest) = body_tree(inner, mark, rest)?;
                let from = definition.from;
                let tree = definition.tree;
                Ok((Function { name, from, tree }, height + 1, rest))
            }
        },
    }
}

/// The rest of a definition, up to the end of its body, which stands behind the mark.
#[cycle(trees)]
pub fn body_tree(room: Room, mark: Mark, tokens: &[Token]) -> Read<Defined>
    ensures { Reads room (body (mark_in mark)) tokens.now definition_in result }
{
    match in_hand(tokens) {
        None => Err(Fault::Syntax(tokens)),
        Some((token, rest)) => match body_word(mark, token) {
            Body::Other => Err(Fault::Syntax(tokens)),
            Body::Parameter => {
                let (function, height, rest) = parameter_tree(room, mark, tokens)?;
                let from = function.from;
                let tree = boxed_function(room.alloc, function)?;
                Ok((Defined { from, tree }, height, rest))
            }
            Body::Mark => behind_tree(room, mark, rest),
        },
    }
}

#[cycle(trees)]
fn behind_tree(room: Room, mark: Mark, tokens: &[Token]) -> Read<Defined>
    ensures { ReadsForm room (pick (behind_mark (mark_in mark))) tokens.now definition_in result }
{
    match in_hand(tokens) {
        None => Err(Fault::Syntax(tokens)),
        Some((token, rest)) => {
            let from = token.start;
            let (tree, height, rest) = expr_tree(room, tokens)?;
            Ok((Defined { from, tree }, height, rest))
        },
    }
}

#[cycle(trees)]
#[tactic(auto, using(mw_grammar::proofs::Below::tree_laws, mw_grammar::proofs::Below::next_goes))]
fn next_operand(
    room: Room,
    row: Row,
    operator: Operator,
    left: Box<Tree>,
    height: u32,
    tokens: &[Token],
) -> Read<Box<Tree>>
    requires { height < room.nodes }
    ensures { Within room tree_in result
        (following_operator room.nodes (row_of row) (op_of operator) (tree_in left) height
        (tokens_of tokens.now)) }
{
    let (right, other, mid) = right_tree(room.inner(), row, tokens)?;
    let tree = joined(room.alloc, operator, left, right)?;
    more_trees(room, row, tree, height.max(other) + 1, mid)
}
