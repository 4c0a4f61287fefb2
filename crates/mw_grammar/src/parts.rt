// Trees made of the parts that were read, in boxes. The prover reads dropping a box as one step, and dropping a tree
// anew at each place where a failed call leaves one behind.

ghost use Rattle.std.specs.Prelude.{◌≡◌, IfOk, true, false};
ghost use Rattle.mw_term.specs.Terms.{kernel_type_of};
ghost use Rattle.mw_grammar.specs.Boxes.{function_in, tree_in};
ghost use Rattle.mw_grammar.specs.SurfaceTrees.{tree_of, bind, bracket, cond, escape, fix, num, pair, run, truth};
ghost use Rattle.mw_grammar.specs.Grammar.{positive, negative};
ghost use Rattle.mw_grammar.specs.Forms.{function, operated};
ghost use Rattle.mw_grammar.specs.Levels.{op_of};
ghost use Rattle.mw_grammar.specs.Words.{leaf_of, prefixed};

use crate::rows::Operator;
use crate::tree::{Placed, Tree};
use crate::words::{Leaf, Prefix};
use mw_term::{KType, Name, copied_name};
use std::alloc::{AllocError, Global};

/// What a let binds, with the offset of the first token after its mark.
#[derive(Drop)]
pub struct Defined {
    pub from: u32,
    pub tree: Box<Tree>,
}

/// A parameter, and what stands after it.
#[derive(Drop)]
pub struct Function {
    pub name: Name,
    pub from: u32,
    pub tree: Box<Tree>,
}

/// A number; one that no token has is 0.
fn positive_of(n: u64) -> i64
    ensures { result ≡ positive n }
{
    if n < 1 << 63 { n as i64 } else { 0 }
}

/// A number after a minus; one that no token has is 0.
fn negative_of(n: u64) -> i64
    ensures { result ≡ negative n }
{
    if n == 0 {
        0
    } else if n - 1 < 1 << 63 {
        -1 - (n - 1) as i64
    } else {
        0
    }
}

/// A tree in a box.
fn boxed(alloc: Global, tree: Tree) -> Result<Box<Tree>, AllocError>
    ensures { IfOk result (λ t. tree_in t ≡ tree_of tree) }
{
    Ok(Box::new(alloc, tree)?)
}

/// A truth value.
fn boxed_truth(alloc: Global, value: bool) -> Result<Box<Tree>, AllocError>
    ensures { IfOk result (λ t. tree_in t ≡ truth value) }
{
    boxed(alloc, Tree::Bool(value))
}

/// A number after a minus.
pub fn boxed_negative(alloc: Global, n: u64) -> Result<Box<Tree>, AllocError>
    ensures { IfOk result (λ t. tree_in t ≡ num (negative n)) }
{
    boxed(alloc, Tree::Int(negative_of(n)))
}

/// An atom of one token.
fn leaf_tree(alloc: Global, leaf: Leaf, at: u32) -> Result<Tree, AllocError>
    ensures { IfOk result (λ t. tree_of t ≡ leaf_of leaf.entry at) }
{
    match leaf {
        Leaf::Word(name) => {
            let name = copied_name(alloc, name)?;
            Ok(Tree::Used(Placed { name, at }))
        }
        Leaf::Number(n) => Ok(Tree::Int(positive_of(n))),
        Leaf::True => Ok(Tree::Bool(true)),
        Leaf::False => Ok(Tree::Bool(false)),
    }
}

/// The same, in a box.
pub fn boxed_leaf(alloc: Global, leaf: Leaf, at: u32) -> Result<Box<Tree>, AllocError>
    ensures { IfOk result (λ t. tree_in t ≡ leaf_of leaf.entry at) }
{
    let tree = leaf_tree(alloc, leaf, at)?;
    boxed(alloc, tree)
}

/// The negation of a truth value.
fn negation(alloc: Global, tree: Box<Tree>) -> Result<Tree, AllocError>
    ensures { IfOk result (λ t. tree_of t ≡ cond (tree_in tree) (truth false) (truth true)) }
{
    let left = boxed_truth(alloc, false)?;
    Ok(Tree::If(tree, left, boxed_truth(alloc, true)?))
}

/// An atom after a word.
fn prefixed_tree(
    alloc: Global,
    prefix: Prefix,
    at: u32,
    tree: Box<Tree>,
) -> Result<Tree, AllocError>
    ensures { IfOk result (λ t. tree_of t ≡ prefixed prefix at (tree_in tree)) }
{
    match prefix {
        Prefix::Fst => Ok(Tree::Fst(tree)),
        Prefix::Snd => Ok(Tree::Snd(tree)),
        Prefix::Not => negation(alloc, tree),
        Prefix::Close => Ok(Tree::CloseCode(at, tree)),
        Prefix::Open => Ok(Tree::OpenCode(at, tree)),
        Prefix::Lift => Ok(Tree::Lift(at, tree)),
        Prefix::LiftB => Ok(Tree::LiftB(at, tree)),
    }
}

/// The same, in a box.
pub fn boxed_prefixed(
    alloc: Global,
    prefix: Prefix,
    at: u32,
    tree: Box<Tree>,
) -> Result<Box<Tree>, AllocError>
    ensures { IfOk result (λ t. tree_in t ≡ prefixed prefix at (tree_in tree)) }
{
    let tree = prefixed_tree(alloc, prefix, at, tree)?;
    boxed(alloc, tree)
}

/// `run` at a kernel type.
pub fn boxed_run(
    alloc: Global,
    at: u32,
    kind: KType,
    tree: Box<Tree>,
) -> Result<Box<Tree>, AllocError>
    ensures { IfOk result (λ t. tree_in t ≡ run at (kernel_type_of kind) (tree_in tree)) }
{
    boxed(alloc, Tree::Run(at, kind, tree))
}

/// `.<e>.`.
pub fn boxed_bracket(alloc: Global, at: u32, tree: Box<Tree>) -> Result<Box<Tree>, AllocError>
    ensures { IfOk result (λ t. tree_in t ≡ bracket at (tree_in tree)) }
{
    boxed(alloc, Tree::Bracket(at, tree))
}

/// `.~e`.
pub fn boxed_escape(alloc: Global, at: u32, tree: Box<Tree>) -> Result<Box<Tree>, AllocError>
    ensures { IfOk result (λ t. tree_in t ≡ escape at (tree_in tree)) }
{
    boxed(alloc, Tree::Escape(at, tree))
}

/// A pair.
pub fn boxed_pair(alloc: Global, left: Box<Tree>, right: Box<Tree>) -> Result<Box<Tree>, AllocError>
    ensures { IfOk result (λ t. tree_in t ≡ pair (tree_in left) (tree_in right)) }
{
    boxed(alloc, Tree::Pair(left, right))
}

/// `if` with its test and branches.
pub fn boxed_if(
    alloc: Global,
    test: Box<Tree>,
    left: Box<Tree>,
    right: Box<Tree>,
) -> Result<Box<Tree>, AllocError>
    ensures { IfOk result (λ t. tree_in t ≡ cond (tree_in test) (tree_in left) (tree_in right)) }
{
    boxed(alloc, Tree::If(test, left, right))
}

/// `&&`.
pub fn conjoined(alloc: Global, left: Box<Tree>, right: Box<Tree>) -> Result<Box<Tree>, AllocError>
    ensures { IfOk result (λ t. tree_in t ≡ cond (tree_in left) (tree_in right) (truth false)) }
{
    let other = boxed_truth(alloc, false)?;
    boxed_if(alloc, left, right, other)
}

/// `||`.
pub fn disjoined(alloc: Global, left: Box<Tree>, right: Box<Tree>) -> Result<Box<Tree>, AllocError>
    ensures { IfOk result (λ t. tree_in t ≡ cond (tree_in left) (truth true) (tree_in right)) }
{
    let other = boxed_truth(alloc, true)?;
    boxed_if(alloc, left, other, right)
}

/// An operator with its operands.
fn operated_tree(operator: Operator, left: Box<Tree>, right: Box<Tree>) -> Tree
    ensures { tree_of result ≡ operated (op_of operator) (tree_in left) (tree_in right) }
{
    match operator {
        Operator::Sign(prim) => Tree::Prim(prim, left, right),
        Operator::Apply => Tree::App(left, right),
    }
}

/// The same, in a box.
pub fn joined(
    alloc: Global,
    operator: Operator,
    left: Box<Tree>,
    right: Box<Tree>,
) -> Result<Box<Tree>, AllocError>
    ensures { IfOk result
        (λ t. tree_in t ≡ operated (op_of operator) (tree_in left) (tree_in right)) }
{
    boxed(alloc, operated_tree(operator, left, right))
}

/// The function of a parameter.
pub fn boxed_function(alloc: Global, parameter: Function) -> Result<Box<Tree>, AllocError>
    ensures { IfOk result (λ t. tree_in t ≡ function (function_in parameter)) }
{
    boxed(alloc, Tree::Fun(parameter.name, parameter.tree))
}

/// The function of a parameter, with a name of its own.
pub fn boxed_rec(alloc: Global, name: &Name, parameter: Function) -> Result<Box<Tree>, AllocError>
    ensures { IfOk result (λ t. tree_in t ≡ fix name.now parameter.name (tree_in parameter.tree)) }
{
    let own = copied_name(alloc, name)?;
    boxed(alloc, Tree::Rec(own, parameter.name, parameter.tree))
}

/// `let` with its definition, and what it is in scope in.
pub fn boxed_let(
    alloc: Global,
    name: Name,
    definition: Box<Tree>,
    tree: Box<Tree>,
) -> Result<Box<Tree>, AllocError>
    ensures { IfOk result (λ t. tree_in t ≡ bind name (tree_in definition) (tree_in tree)) }
{
    boxed(alloc, Tree::Let(name, definition, tree))
}
