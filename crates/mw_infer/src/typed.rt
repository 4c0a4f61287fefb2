// The types of a program, and of each node of its parts.

ghost use Rattle.std.specs.Prelude.{◌≡◌, ◌+◌, ◌<◌, ℕ, ◌∷◌, length, slice_get, Some};
ghost use Rattle.std.specs.Option.{option_map};
ghost use Rattle.mw_types.specs.Types.{TypeExpression, type_of};
ghost use Rattle.mw_infer.specs.NodeViews.{further_of};

use crate::nodes::NodeNumbers;
use mw_types::{Solved, Ty};
use std::marker::Model;

/// What is known of a part of a program: a most general solution of its equations, and the numbers of its nodes.
#[derive(Debug, Drop)]
pub struct PartNodes {
    pub(crate) solved: Solved,
    pub(crate) nodes: Vec<NodeNumbers>,
}

impl Model for PartNodes {
    ghost use Rattle.std.specs.Prelude.{length, map};
    ghost use Rattle.std.specs.Coded.{codes};
    ghost use Rattle.mw_types.specs.contracts.types.Ty as ty;
    ghost use Rattle.mw_infer.specs.NodeViews.{numbers_of};
    ghost use Rattle.mw_infer.specs.Typings.{AreNodesWithin, PartTypes};

    ghost Value = { PartTypes };

    ghost coded = { Prim.hlevel (codes, ty.the_row.coded) };

    ghost view = { λ x. record { solution = x.solved; nodes = map numbers_of x.nodes.items } };

    ghost invariant = { λ x.
        AreNodesWithin (length x.solved.types) (length x.solved.classifiers) (map numbers_of x.nodes.items) };
}

impl PartNodes {
    ghost use Rattle.mw_infer.specs.Typings.{nodes_of};

    /// The number of the part's nodes. Takes no memory.
    pub fn count(&self) -> usize
        ensures { result ≡ length self.now.nodes }
    {
        self.nodes.len()
    }

    /// What is known of a node, by its place in pre-order. Takes no memory.
    pub fn node(&self, node: usize) -> NodeTypes<'_>
        requires { node < length self.now.nodes }
        ensures { slice_get (nodes_of self.now) node ≡ Some result }
    {
        NodeTypes {
            solved: &self.solved,
            numbers: self.nodes[node],
        }
    }
}

/// The types of a node. A node of a function, of a recursive function, of a `let`, of a part of a pair, of a `close`
/// and of an `open` has further types beside its own.
#[derive(Drop)]
pub struct NodeTypes<'a> {
    solved: &'a Solved,
    numbers: NodeNumbers,
}

impl<'a> Model for NodeTypes<'a> {
    ghost use Rattle.std.specs.Prelude.{length};
    ghost use Rattle.std.specs.Coded.{codes};
    ghost use Rattle.mw_types.specs.contracts.types.Ty as ty;
    ghost use Rattle.mw_infer.specs.NodeViews.{numbers_of};
    ghost use Rattle.mw_infer.specs.Typings.{IsNodeWithin, NodeTyping};

    ghost Value = { NodeTyping };

    ghost coded = { Prim.hlevel (codes, ty.the_row.coded) };

    ghost view = { λ x. record { solution = x.solved.now; numbers = numbers_of x.numbers } };

    ghost invariant = { λ x.
        IsNodeWithin (length x.solved.now.types) (length x.solved.now.classifiers) (numbers_of x.numbers) };
}

impl<'a> NodeTypes<'a> {
    ghost use Rattle.mw_infer.specs.Typings.{HoldsType, facts_of_node, trees_of};

    /// The node's type. Takes no memory.
    pub fn ty(&self) -> &'a Ty
        ensures { slice_get (facts_of_node self.now).types 0 ≡ Some (type_of result.now) }
    {
        self.solved.ty(self.numbers.own)
    }

    /// A further type, from 0 on, if there is one: a function's argument, of a recursive function first its own type
    /// and then its argument's, what a `let` binds, and the type that a part of a pair, a `close` or an `open` leaves
    /// open. Takes no memory.
    pub fn extra(&self, at: usize) -> Option<&'a Ty>
        ensures { option_map (λ ty. type_of ty.now) result
            ≡ slice_get (facts_of_node self.now).types (at + 1) }
    {
        match further(&self.numbers, at) {
            Some(unknown) => Some(self.solved.ty(unknown)),
            None => None,
        }
    }

    /// The representative of the node's classifier, if it has one. Takes no memory.
    pub fn classifier(&self) -> Option<u64>
        ensures { result ≡ (facts_of_node self.now).classifier }
    {
        if self.numbers.classifier == u64::MAX {
            return None;
        }
        Some(self.solved.classifier(self.numbers.classifier))
    }

    /// The number of the tree that holds the node's type, at 0, or a further type, from 1 on, if there is one. In one
    /// part the types of one tree are one. Takes no memory.
    pub fn tree(&self, at: usize) -> Option<u64>
        ensures tree { result ≡ slice_get (trees_of self.now) at }
        ensures held { (r : ℕ) (t : TypeExpression) → result ≡ Some r
            → slice_get (facts_of_node self.now).types at ≡ Some t → HoldsType self.now.solution r t }
    {
        match unknown_at(&self.numbers, at) {
            Some(unknown) => Some(self.solved.root(unknown)),
            None => None,
        }
    }
}

/// The unknown of a further type, if there is one.
fn further(numbers: &NodeNumbers, at: usize) -> Option<u64>
    ensures { result ≡ slice_get (further_of numbers.now.first numbers.now.second) at }
{
    if numbers.first == u64::MAX {
        None
    } else if at == 0 {
        Some(numbers.first)
    } else if at == 1 && numbers.second != u64::MAX {
        Some(numbers.second)
    } else {
        None
    }
}

/// The unknown of the node's type, at 0, or of a further type, from 1 on, if there is one.
fn unknown_at(numbers: &NodeNumbers, at: usize) -> Option<u64>
    ensures { result
        ≡ slice_get (numbers.now.own ∷ further_of numbers.now.first numbers.now.second) at }
{
    if at == 0 {
        Some(numbers.own)
    } else {
        further(numbers, at - 1)
    }
}

/// The most general types of a program's items, in order, and after them main's, and what is known of each part's
/// nodes. Contracts see both as lists.
#[derive(Debug, Drop)]
pub struct Typed {
    pub(crate) types: Vec<Ty>,
    pub(crate) parts: Vec<PartNodes>,
}

impl Model for Typed {
    ghost use Rattle.std.specs.Coded.{codes};
    ghost use Rattle.mw_types.specs.contracts.types.Ty as ty;
    ghost use Rattle.mw_infer.specs.Typings.{Typing};

    ghost Value = { Typing };

    ghost coded = { Prim.hlevel (codes, ty.the_row.coded) };

    ghost view = { λ typed. record { types = typed.types.items; parts = typed.parts.items } };
}

impl Typed {
    ghost use Rattle.mw_infer.specs.Typings.{nodes_at};

    /// The type of the item at an index, or of main after the items. Takes no memory.
    pub fn ty(&self, item: u32) -> &Ty
        requires { item < length self.now.types }
        ensures { slice_get self.now.types item ≡ Some result.now }
    {
        &self.types[item as usize]
    }

    /// The number of the nodes of the item at an index, or of main after the items. Takes no memory.
    pub fn nodes(&self, item: u32) -> usize
        requires { item < length self.now.parts }
        ensures { result ≡ length (nodes_at self.now item) }
    {
        self.parts[item as usize].count()
    }

    /// What is known of a node of that part, by its place in pre-order. Takes no memory.
    pub fn node(&self, item: u32, node: usize) -> NodeTypes<'_>
        requires item { item < length self.now.parts }
        requires node { node < length (nodes_at self.now item) }
        ensures { slice_get (nodes_at self.now item) node ≡ Some result }
    {
        self.parts[item as usize].node(node)
    }
}
