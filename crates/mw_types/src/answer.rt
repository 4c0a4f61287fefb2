// The types that the unknowns of a settled state stand for.

ghost use Rattle.std.specs.Prelude.{◌≡◌, ◌<◌, ◌≤◌, ℕ, List, length, slice_get, slice_index_or, Some, IfOk};
ghost use Rattle.mw_types.specs.Forest.{Low};
ghost use Rattle.mw_types.specs.Satisfying.{Sound};
ghost use Rattle.mw_types.specs.Types.{type_of};
ghost use Rattle.mw_types.specs.Answering.{Answers, HasRoom, IsName, NamedTo, RootAt, StandsFor, StandsForOne, name_in};

use crate::state::{Shape, State, class_shape, find};
use crate::types::Ty;
use std::alloc::{AllocError, Global};
use std::marker::Model;

/// How many nodes a type may have.
pub(crate) const MOST_NODES: usize = 10_000;

/// A most general solution: a type for each unknown, which may hold unknowns again, and a representative for each
/// classifier unknown. A type that several unknowns have is held once, in a tree. Contracts see the types, the
/// representatives and the trees' numbers as lists.
#[derive(Debug, Drop)]
pub struct Solved {
    // each unknown's representative, and the types of those that are their own
    roots: Vec<usize>,
    trees: Vec<Ty>,
    names: Vec<u64>,
}

impl Model for Solved {
    ghost use Rattle.std.specs.Prelude.{map, All, ◌<◌, length, slice_index_or};
    ghost use Rattle.std.specs.Coded.{codes};
    ghost use Rattle.mw_types.specs.contracts.types.Ty as ty;
    ghost use Rattle.mw_types.specs.declared.types.Ty.TheVariants.{Int};
    ghost use Rattle.mw_types.specs.Solutions.{Solution};

    ghost Value = { Solution };

    ghost coded = { Prim.hlevel (codes, ty.the_row.coded) };

    ghost view = { λ s. record {
      types = map (λ r. slice_index_or s.trees.items r Int) s.roots.items;
      classifiers = s.names.items;
      roots =
          s.roots.items;
    } };

    ghost invariant = { λ s. All (λ r. r < length s.trees.items) s.roots.items };
}

impl Solved {
    /// An unknown's type. Takes no memory.
    pub fn ty(&self, unknown: u64) -> &Ty
        requires { unknown < length self.now.types }
        ensures { slice_get self.now.types unknown ≡ Some result.now }
    {
        &self.trees[self.roots[unknown as usize]]
    }

    /// The number of the tree that holds an unknown's type: unknowns with one tree have one type. Takes no memory.
    pub fn root(&self, unknown: u64) -> u64
        requires { unknown < length self.now.types }
        ensures root { slice_get self.now.roots unknown ≡ Some result }
        ensures one { (v : ℕ) → slice_get self.now.roots v ≡ Some result
            → slice_get self.now.types v ≡ slice_get self.now.types unknown }
    {
        self.roots[unknown as usize] as u64
    }

    /// A classifier unknown's representative. Takes no memory.
    pub fn classifier(&self, number: u64) -> u64
        requires { number < length self.now.classifiers }
        ensures { slice_get self.now.classifiers number ≡ Some result }
    {
        self.names[number as usize]
    }
}

/// The types that the unknowns stand for.
pub fn answer(alloc: Global, state: &State, unknowns: usize) -> Result<Solved, AllocError>
    requires sound { Sound state.now }
    requires unknowns { unknowns ≤ length state.now.parent.items }
    requires room { (names : List ℕ) (u : ℕ) → u < unknowns → HasRoom state.now names u 10000 }
    ensures { IfOk result (λ answer. Answers unknowns state.now answer) }
{
    let names = names_of(alloc, state.classifier.as_slice())?;
    let mut roots = Vec::with_capacity(alloc, unknowns)?;
    let mut trees = Vec::with_capacity(alloc, unknowns)?;
    for unknown in 0..unknowns {
        trees.push(own_tree(alloc, state, names.as_slice(), unknown)?)?;
        roots.push(find(state.parent.as_slice(), unknown))?;
    }
    Ok(Solved {
        roots,
        trees,
        names,
    })
}

/// The type that one unknown stands for.
pub fn type_at(alloc: Global, state: &State, unknown: usize) -> Result<Ty, AllocError>
    requires sound { Sound state.now }
    requires inside { unknown < length state.now.parent.items }
    requires room { (names : List ℕ) → HasRoom state.now names unknown 10000 }
    ensures { IfOk result (λ ty. StandsForOne state.now unknown (type_of ty)) }
{
    let names = names_of(alloc, state.classifier.as_slice())?;
    tree(alloc, state, names.as_slice(), unknown, MOST_NODES)
}

// The representatives of all classifier unknowns.
fn names_of(alloc: Global, parent: &[usize]) -> Result<Vec<u64>, AllocError>
    requires low { Low parent.now }
    ensures { IfOk result (λ names. NamedTo parent.now names.items (length parent.now)) }
{
    let mut names = Vec::with_capacity(alloc, parent.len())?;
    for class in 0..parent.len() {
        names.push(name(parent, names.as_slice(), class))?;
    }
    Ok(names)
}

// The representative of the next classifier unknown: itself, or that of its parent.
fn name(parent: &[usize], names: &[u64], class: usize) -> u64
    requires low { Low parent.now }
    requires inside { class < length parent.now }
    requires named { NamedTo parent.now names.now class }
    ensures { IsName parent.now names.now class result }
{
    let up = parent[class];
    if up == class { class as u64 } else { names[up] }
}

// The type that a node stands for, where it is its own representative. Another's tree is never looked at.
fn own_tree(alloc: Global, state: &State, names: &[u64], node: usize) -> Result<Ty, AllocError>
    requires sound { Sound state.now }
    requires named { NamedTo state.now.classifier.items names.now
        (length state.now.classifier.items) }
    requires inside { node < length state.now.parent.items }
    requires room { HasRoom state.now names.now node 10000 }
    ensures { IfOk result (λ ty. slice_index_or state.now.parent.items node 0 ≡ node
        → StandsFor state.now names.now node (type_of ty)) }
{
    if state.parent[node] != node {
        return Ok(Ty::Int);
    }
    tree(alloc, state, names, node, MOST_NODES)
}

// A node's representative, and what is known of its class.
fn class_of(state: &State, node: usize) -> (usize, Shape)
    requires sound { Sound state.now }
    requires inside { node < length state.now.parent.items }
    ensures { RootAt state.now node result.0 result.1 }
{
    let root = find(state.parent.as_slice(), node);
    (root, class_shape(state, root))
}

// The type that a node stands for, which has at most `room` nodes.
fn tree(
    alloc: Global,
    state: &State,
    names: &[u64],
    node: usize,
    room: usize,
) -> Result<Ty, AllocError>
    requires sound { Sound state.now }
    requires named { NamedTo state.now.classifier.items names.now
        (length state.now.classifier.items) }
    requires inside { node < length state.now.parent.items }
    requires room { HasRoom state.now names.now node room }
    ensures { IfOk result (λ ty. StandsFor state.now names.now node (type_of ty)) }
{
    let below = room - 1;
    let (root, shape) = class_of(state, node);
    match shape {
        Shape::Free => Ok(Ty::Unknown(root as u64)),
        Shape::Int => Ok(Ty::Int),
        Shape::Bool => Ok(Ty::Bool),
        Shape::Pair(l, r) => {
            let left = tree(alloc, state, names, l, below)?;
            let right = tree(alloc, state, names, r, below)?;
            Ok(Ty::Pair(Box::new(alloc, left)?, Box::new(alloc, right)?))
        }
        Shape::Arrow(l, r) => {
            let left = tree(alloc, state, names, l, below)?;
            let right = tree(alloc, state, names, r, below)?;
            Ok(Ty::Arrow(Box::new(alloc, left)?, Box::new(alloc, right)?))
        }
        Shape::Code(c, t) => {
            let inner = tree(alloc, state, names, t, below)?;
            Ok(Ty::Code(name_at(names, c), Box::new(alloc, inner)?))
        }
        Shape::Closed(t) => {
            let inner = tree(alloc, state, names, t, below)?;
            Ok(Ty::Closed(Box::new(alloc, inner)?))
        }
    }
}

// A classifier unknown's representative.
fn name_at(names: &[u64], class: usize) -> u64
    requires { class < length names.now }
    ensures { result ≡ name_in names.now class }
{
    names[class]
}
