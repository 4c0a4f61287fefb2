// Nodes counted over a list, for code that is deeper than the limit.

ghost use Rattle.std.specs.Prelude.{◌≡◌, ◌+◌, ◌<◌, ◌++◌, length, IfOk};
ghost use Rattle.mw_code.specs.Reading.{IsDownward};
ghost use Rattle.mw_term.specs.Terms.{expression_of, size};
ghost use Rattle.mw_code.specs.ReadViews.{AreCounted, own_size, parts_of, size_at};

use crate::node::CodeNode;
use crate::steps::Steps;
use mw_region::{Id, Pool};
use mw_term::Term;
use std::alloc::{AllocError, Global};
use std::sync::ledger::Ledger;

/// Puts the parts of a node at the list's end.
fn push_parts(left: &mut Vec<Id>, node: CodeNode) -> Result<(), AllocError>
    ensures { IfOk result (λ _. left.new.items ≡ left.old.items ++ parts_of node.entry) }
{
    match node {
        CodeNode::Int(_) | CodeNode::Bool(_) | CodeNode::Var(_) => Ok(()),
        CodeNode::Fun(_, e) | CodeNode::Rec(_, _, e) | CodeNode::Fst(e) | CodeNode::Snd(e) => {
            left.extend_from_slice(&[e])
        }
        CodeNode::App(a, b)
        | CodeNode::Let(a, _, b)
        | CodeNode::Pair(a, b)
        | CodeNode::Prim(_, a, b) => left.extend_from_slice(&[a, b]),
        CodeNode::If(c, a, b) => left.extend_from_slice(&[c, a, b]),
        CodeNode::Built(_) => Ok(()),
    }
}

/// Takes the nodes of a term but its first from the budget, and answers whether it has that many.
#[tactic(auto, using(crate::proofs::UnsharedTerms::size_positive))]
pub(crate) fn count_parts<L: Ledger>(term: &Term, budget: &mut u32, steps: &mut Steps<L>) -> bool
    ensures count { AreCounted result (size (expression_of term.now)) (budget.old + 1) budget.new }
    ensures visits { steps.new + budget.new ≡ steps.old + budget.old }
{
    let parts = mw_term::nodes(term) - 1;
    if parts > u64::from(*budget) {
        return false;
    }
    let parts = parts as u32;
    steps.visit_parts(parts);
    *budget -= parts;
    true
}

/// Takes what a node has beside its own parts from the budget, and answers whether it has that many.
fn count_own<L: Ledger>(node: CodeNode, budget: &mut u32, steps: &mut Steps<L>) -> bool
    ensures count { AreCounted result (own_size node.entry) (budget.old + 1) budget.new }
    ensures visits { steps.new + budget.new ≡ steps.old + budget.old }
{
    match node {
        CodeNode::Built(term) => count_parts(term, budget, steps),
        CodeNode::Int(_) | CodeNode::Bool(_) | CodeNode::Var(_) => true,
        CodeNode::Fun(_, _) | CodeNode::Rec(_, _, _) | CodeNode::App(_, _) => true,
        CodeNode::Let(_, _, _) | CodeNode::If(_, _, _) | CodeNode::Pair(_, _) => true,
        CodeNode::Fst(_) | CodeNode::Snd(_) | CodeNode::Prim(_, _, _) => true,
    }
}

/// Takes the nodes of the code at a place from the budget, and answers whether it has that many.
#[tactic(auto, using(crate::proofs::TermSizes::count_laws, crate::proofs::UnsharedTerms::size_positive))]
pub(crate) fn count_nodes<L: Ledger>(
    alloc: Global,
    pool: &Pool<CodeNode>,
    id: Id,
    budget: &mut u32,
    steps: &mut Steps<L>,
) -> Result<bool, AllocError>
    requires down { IsDownward pool.now.items }
    requires here { id.place < length pool.now.items }
    ensures count { IfOk result
        (λ whole. AreCounted whole (size_at pool.now.items id.place) budget.old budget.new) }
    ensures visits { steps.new + budget.new ≡ steps.old + budget.old }
{
    let mut left = Vec::new(alloc);
    left.push(id)?;
    while let Some(next) = left.pop() {
        if *budget == 0 {
            return Ok(false);
        }
        let node = steps.visit(pool, next);
        *budget -= 1;
        if !count_own(node, budget, steps) {
            return Ok(false);
        }
        push_parts(&mut left, node)?;
    }
    Ok(true)
}
