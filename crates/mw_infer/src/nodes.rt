// The numbers of a term's nodes, in pre-order.

ghost use Rattle.std.specs.Prelude.{◌≡◌, ◌+◌, ◌^◌, ◌≤◌, [], ◌∷◌, IfOk, OnOk, Some, slice_get};
ghost use Rattle.mw_term.specs.Terms.{expression_of};
ghost use Rattle.mw_infer.specs.ItemEquations.{unknowns_of_name, classifiers_of_name};
ghost use Rattle.mw_infer.specs.Nodes.{plain_node, quoted_node};
ghost use Rattle.mw_infer.specs.NodeWalks.{AddsNodes, AddsOwnNode, AddsTermNodes, CanNumber, HasSpace};
ghost use Rattle.mw_infer.specs.NodeViews.{numbers_of};
ghost use Rattle.mw_infer.specs.Views.{top_of, tops_of};

use crate::names::TopScheme;
use crate::own::lookup;
use mw_term::Term;
use std::alloc::AllocError;

/// A node's numbers: the unknowns of its type and of its further types, and its classifier unknown. Where there is none
/// it is `u64::MAX`.
#[derive(Clone, Copy, Debug)]
pub struct NodeNumbers {
    pub own: u64,
    pub first: u64,
    pub second: u64,
    pub classifier: u64,
}

/// The numbers of nodes so far, and the next free numbers of unknowns and classifier unknowns.
#[derive(Drop)]
pub struct Numbers {
    pub unknowns: u64,
    pub classifiers: u64,
    pub nodes: Vec<NodeNumbers>,
}

/// A node with a type alone.
fn plain(own: u64) -> NodeNumbers
    ensures { numbers_of result ≡ plain_node (own ∷ []) }
{
    NodeNumbers {
        own,
        first: u64::MAX,
        second: u64::MAX,
        classifier: u64::MAX,
    }
}

/// A node with one further type.
fn wide(own: u64, first: u64) -> NodeNumbers
    requires { first ≤ 2 ^ 63 }
    ensures { numbers_of result ≡ plain_node (own ∷ first ∷ []) }
{
    NodeNumbers {
        own,
        first,
        second: u64::MAX,
        classifier: u64::MAX,
    }
}

/// A recursive function, with its own type's unknown and its argument's.
fn recursive(own: u64, function: u64, argument: u64) -> NodeNumbers
    requires function { function ≤ 2 ^ 63 }
    requires argument { argument ≤ 2 ^ 63 }
    ensures { numbers_of result ≡ plain_node (own ∷ function ∷ argument ∷ []) }
{
    NodeNumbers {
        own,
        first: function,
        second: argument,
        classifier: u64::MAX,
    }
}

/// A node with a type and a classifier unknown.
fn quoted(own: u64, classifier: u64) -> NodeNumbers
    requires { classifier ≤ 2 ^ 63 }
    ensures { numbers_of result ≡ quoted_node (own ∷ []) classifier }
{
    NodeNumbers {
        own,
        first: u64::MAX,
        second: u64::MAX,
        classifier,
    }
}

/// And with one further type.
fn quoted_wide(own: u64, first: u64, classifier: u64) -> NodeNumbers
    requires first { first ≤ 2 ^ 63 }
    requires classifier { classifier ≤ 2 ^ 63 }
    ensures { numbers_of result ≡ quoted_node (own ∷ first ∷ []) classifier }
{
    NodeNumbers {
        own,
        first,
        second: u64::MAX,
        classifier,
    }
}

/// Adds a node, and makes so many numbers taken.
#[inline(always)]
fn add(
    numbers: &mut Numbers,
    node: NodeNumbers,
    unknowns: u64,
    classifiers: u64,
) -> Result<(), AllocError>
    requires { HasSpace numbers.old unknowns classifiers }
    ensures { OnOk result
        (AddsNodes numbers.old numbers.new unknowns classifiers (numbers_of node ∷ [])) }
{
    numbers.nodes.push(node)?;
    numbers.unknowns += unknowns;
    numbers.classifiers += classifiers;
    Ok(())
}

/// How many unknowns and classifier unknowns a use of what a name has takes.
fn numbers_taken(named: &TopScheme) -> (u64, u64)
    ensures unknowns { result.0 ≡ unknowns_of_name (Some (top_of named.now)) }
    ensures classifiers { result.1 ≡ classifiers_of_name (Some (top_of named.now)) }
{
    match named {
        TopScheme::Let(scheme) => (scheme.unknowns, scheme.classifiers),
        TopScheme::Kernel(_) => (0, 0),
        TopScheme::OutOfScope => (0, 0),
    }
}

/// The same of the name at a place.
fn numbers_of_use(names: &[TopScheme], index: u32) -> (u64, u64)
    ensures unknowns { result.0 ≡ unknowns_of_name (slice_get (tops_of names.now) index) }
    ensures classifiers { result.1 ≡ classifiers_of_name (slice_get (tops_of names.now) index) }
{
    match lookup(names, index) {
        Some(named) => numbers_taken(named),
        None => (0, 0),
    }
}

/// Adds a term's own node, of type `own`.
fn number_own(
    term: &Term,
    names: &[TopScheme],
    own: u64,
    numbers: &mut Numbers,
) -> Result<(), AllocError>
    requires { CanNumber numbers.old (tops_of names.now) (expression_of term.now) }
    ensures { OnOk result
        (AddsOwnNode numbers.old numbers.new (tops_of names.now) own (expression_of term.now)) }
{
    let o = numbers.unknowns;
    let c = numbers.classifiers;
    match term {
        Term::Int(_) | Term::Bool(_) | Term::Var(_) => add(numbers, plain(own), 0, 0),
        Term::Glob(index) => {
            let (unknowns, classifiers) = numbers_of_use(names, *index);
            add(numbers, plain(own), unknowns, classifiers)
        }
        Term::Fun(_) | Term::Fst(_) | Term::Snd(_) => add(numbers, wide(own, o), 2, 0),
        Term::Rec(_) => add(numbers, recursive(own, o + 1, o), 3, 0),
        Term::App(_, _) | Term::Pair(_, _) | Term::Prim(_, _, _) => add(numbers, plain(own), 2, 0),
        Term::Let(_, _) => add(numbers, wide(own, o), 3, 0),
        Term::If(_, _, _) => add(numbers, plain(own), 3, 0),
        Term::Bracket(_) | Term::Lift(_) | Term::LiftB(_) => add(numbers, quoted(own, c), 1, 1),
        Term::Escape(_) | Term::Run(_, _) => add(numbers, plain(own), 1, 0),
        Term::CloseCode(_, _) | Term::OpenCode(_) => add(numbers, quoted_wide(own, o, c), 2, 1),
    }
}

/// Adds the nodes of a term of type `own`.
pub fn number(
    term: &Term,
    names: &[TopScheme],
    own: u64,
    numbers: &mut Numbers,
) -> Result<(), AllocError>
    requires { CanNumber numbers.old (tops_of names.now) (expression_of term.now) }
    ensures { OnOk result
        (AddsTermNodes numbers.old numbers.new (tops_of names.now) own (expression_of term.now)) }
{
    let o = numbers.unknowns;
    number_own(term, names, own, numbers)?;
    match term {
        Term::Int(_) | Term::Bool(_) | Term::Var(_) | Term::Glob(_) => Ok(()),
        Term::Fun(e) | Term::Fst(e) | Term::Snd(e) | Term::CloseCode(_, e) | Term::OpenCode(e) => {
            number(e, names, o + 1, numbers)
        }
        Term::Rec(e) => number(e, names, o + 2, numbers),
        Term::Let(d, e) => {
            number(d, names, o + 1, numbers)?;
            number(e, names, o + 2, numbers)
        }
        Term::App(a, b) | Term::Pair(a, b) | Term::Prim(_, a, b) => {
            number(a, names, o, numbers)?;
            number(b, names, o + 1, numbers)
        }
        Term::If(p, a, b) => {
            number(p, names, o, numbers)?;
            number(a, names, o + 1, numbers)?;
            number(b, names, o + 2, numbers)
        }
        Term::Bracket(e) | Term::Escape(e) | Term::Run(_, e) | Term::Lift(e) | Term::LiftB(e) => {
            number(e, names, o, numbers)
        }
    }
}
