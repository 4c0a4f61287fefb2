// Graphs of code, and the terms that they are read back to.

ghost use Rattle.std.specs.Prelude.{◌≡◌, ◌<◌, length, IfOk};
ghost use Rattle.std.specs.Bool.{OnTrue};
ghost use Rattle.mw_code.specs.Reading.{ArePartsBelow, IsDownward};

use mw_code::node::CodeNode as Node;
use mw_code::{CodeFault, Steps, read_back};
use mw_region::{Id, Pool};
use mw_term::{Prim, Term, depth, nodes};
use std::alloc::{AllocError, Global};
use std::marker::Brand;
use std::sync::ledger::{Blank, Ledger};

const ZERO: Id = Id { place: 0 };

const ONE: Id = Id { place: 1 };

const TWO: Id = Id { place: 2 };

const THREE: Id = Id { place: 3 };

const SIX: Id = Id { place: 6 };

// Whether each part of a node is below a place.
fn are_parts_below(place: usize, node: Node<'_>) -> bool
    ensures { OnTrue result (ArePartsBelow place node.entry) }
{
    match node {
        Node::Int(_) => true,
        Node::Bool(_) => true,
        Node::Var(_) => true,
        Node::Fun(_, e) => e.place < place,
        Node::Rec(_, _, e) => e.place < place,
        Node::App(a, b) => a.place < place && b.place < place,
        Node::Let(a, _, b) => a.place < place && b.place < place,
        Node::If(c, a, b) => c.place < place && a.place < place && b.place < place,
        Node::Pair(a, b) => a.place < place && b.place < place,
        Node::Fst(e) => e.place < place,
        Node::Snd(e) => e.place < place,
        Node::Prim(_, a, b) => a.place < place && b.place < place,
        Node::Built(_) => true,
    }
}

// Adds a node whose parts are there.
#[tactic(auto, using(mw_code::proofs::AddedNodes::IsDownward_push))]
fn add<'c>(pool: &mut Pool<Node<'c>>, node: Node<'c>) -> Result<Id, AllocError>
    requires { IsDownward pool.old.items }
    ensures down { IsDownward pool.new.items }
    ensures here { IfOk result (λ id. id.place < length pool.new.items) }
{
    if !are_parts_below(pool.len(), node) {
        return Err(AllocError);
    }
    pool.reserve(1)?;
    Ok(pool.put(node))
}

// The nodes in a pool.
#[tactic(auto, using(mw_code::proofs::AddedNodes::IsDownward_none))]
fn pool_of<'c>(alloc: Global, nodes: &[Node<'c>]) -> Result<Pool<Node<'c>>, AllocError>
    ensures { IfOk result (λ pool. IsDownward pool.items) }
{
    let mut pool = Pool::new(alloc);
    for node in nodes {
        add(&mut pool, *node)?;
    }
    Ok(pool)
}

// What the last node of a pool is read back to, from no visits on.
fn read_last<L: Ledger>(
    alloc: Global,
    pool: &Pool<Node<'_>>,
    blank: Blank,
) -> Result<Term, CodeFault>
    requires down { IsDownward pool.now.items }
    requires name { blank.name ≡ L.name }
    requires parts { blank.parts ≡ L.parts }
    requires some { 0 < L.parts }
{
    let place = pool.len().checked_sub(1).ok_or(AllocError)?;
    let id = Id { place };
    read_back(alloc, pool, id, &mut Steps::<L>::open(blank))
}

// What the last node of a pool is read back to.
fn read(alloc: Global, pool: &Pool<Node<'_>>) -> Result<Term, CodeFault>
    requires { IsDownward pool.now.items }
{
    read_last::<Brand>(alloc, pool, Blank::new(1))
}

// The fault.
fn fault_shown(alloc: Global, fault: CodeFault) -> Result<String, AllocError> {
    match fault {
        CodeFault::Memory(fault) => Err(fault),
        CodeFault::TooManyNodes => format!(in alloc; "too many nodes"),
        CodeFault::TooDeepCode => format!(in alloc; "too deep"),
    }
}

// The term, or the fault.
fn shown(alloc: Global, pool: &Pool<Node<'_>>) -> Result<String, AllocError>
    requires { IsDownward pool.now.items }
{
    match read(alloc, pool) {
        Ok(term) => format!(in alloc; "{term:?}"),
        Err(fault) => fault_shown(alloc, fault),
    }
}

// The nodes and the depth of the term, or the fault.
fn measured(alloc: Global, pool: &Pool<Node<'_>>) -> Result<String, AllocError>
    requires { IsDownward pool.now.items }
{
    match read(alloc, pool) {
        Ok(term) => {
            let nodes = nodes(&term);
            let depth = depth(&term);
            format!(in alloc; "{nodes} {depth}")
        }
        Err(fault) => fault_shown(alloc, fault),
    }
}

// The form of a node, which a table can hold.
#[derive(Clone, Copy)]
enum Form {
    Int(i64),
    Bool(bool),
    Var(usize),
    Fun(usize, Id),
    Rec(usize, usize, Id),
    App(Id, Id),
    Let(Id, usize, Id),
    If(Id, Id, Id),
    Pair(Id, Id),
    Fst(Id),
    Snd(Id),
    Prim(Prim, Id, Id),
}

impl Form {
    // The node of this form.
    fn node<'c>(self) -> Node<'c> {
        match self {
            Form::Int(n) => Node::Int(n),
            Form::Bool(b) => Node::Bool(b),
            Form::Var(number) => Node::Var(number),
            Form::Fun(number, e) => Node::Fun(number, e),
            Form::Rec(number, own, e) => Node::Rec(number, own, e),
            Form::App(f, a) => Node::App(f, a),
            Form::Let(d, number, e) => Node::Let(d, number, e),
            Form::If(c, a, b) => Node::If(c, a, b),
            Form::Pair(a, b) => Node::Pair(a, b),
            Form::Fst(e) => Node::Fst(e),
            Form::Snd(e) => Node::Snd(e),
            Form::Prim(p, a, b) => Node::Prim(p, a, b),
        }
    }
}

// The forms of nodes, and the term of the last one.
const GRAPHS: &[(&[Form], &str)] = &[
    (&[Form::Int(-7)], "Int(-7)"),
    (&[Form::Bool(true)], "Bool(true)"),
    (&[Form::Var(5), Form::Fun(5, ZERO)], "Fun(Var(0))"),
    (
        &[
            Form::Var(1),
            Form::Var(2),
            Form::App(ONE, ZERO),
            Form::Rec(1, 2, TWO),
        ],
        "Rec(App(Var(1), Var(0)))",
    ),
    (
        &[Form::Int(1), Form::Int(2), Form::App(ZERO, ONE)],
        "App(Int(1), Int(2))",
    ),
    (
        &[Form::Int(1), Form::Var(3), Form::Let(ZERO, 3, ONE)],
        "Let(Int(1), Var(0))",
    ),
    (
        &[
            Form::Bool(true),
            Form::Int(1),
            Form::Int(2),
            Form::If(ZERO, ONE, TWO),
        ],
        "If(Bool(true), Int(1), Int(2))",
    ),
    (
        &[Form::Int(1), Form::Int(2), Form::Pair(ZERO, ONE)],
        "Pair(Int(1), Int(2))",
    ),
    (&[Form::Int(1), Form::Fst(ZERO)], "Fst(Int(1))"),
    (&[Form::Int(1), Form::Snd(ZERO)], "Snd(Int(1))"),
    (
        &[Form::Int(1), Form::Int(2), Form::Prim(Prim::Sub, ZERO, ONE)],
        "Prim(Sub, Int(1), Int(2))",
    ),
    // A node by itself, and nodes that nothing names.
    (
        &[Form::Int(1), Form::Int(2), Form::Fst(ZERO), Form::Int(3)],
        "Int(3)",
    ),
    // One node, three times.
    (
        &[Form::Int(1), Form::Pair(ZERO, ZERO), Form::App(ONE, ZERO)],
        "App(Pair(Int(1), Int(1)), Int(1))",
    ),
    // One variable under one binder and under two.
    (
        &[
            Form::Var(1),
            Form::Fun(2, ZERO),
            Form::App(ONE, ZERO),
            Form::Fun(1, TWO),
        ],
        "Fun(App(Fun(Var(1)), Var(0)))",
    ),
    // One open function under a function, a definition and a recursive function.
    (
        &[
            Form::Var(1),
            Form::Fun(2, ZERO),
            Form::Let(ZERO, 3, ONE),
            Form::Rec(4, 5, ONE),
            Form::Pair(TWO, THREE),
            Form::Fun(1, Id { place: 4 }),
        ],
        "Fun(Pair(Let(Var(0), Fun(Var(2))), Rec(Fun(Var(3)))))",
    ),
    // Code whose binder has the number of one outside it.
    (
        &[
            Form::Var(1),
            Form::Fun(1, ZERO),
            Form::App(ONE, ZERO),
            Form::Fun(1, TWO),
        ],
        "Fun(App(Fun(Var(0)), Var(0)))",
    ),
    // A binder in place of another is not captured.
    (
        &[
            Form::Var(1),
            Form::Var(2),
            Form::Pair(ZERO, ONE),
            Form::Fun(2, TWO),
            Form::Fun(1, THREE),
        ],
        "Fun(Fun(Pair(Var(1), Var(0))))",
    ),
    // What a definition binds is outside its scope, even under one number.
    (
        &[Form::Var(1), Form::Let(ZERO, 1, ZERO), Form::Fun(1, ONE)],
        "Fun(Let(Var(0), Var(0)))",
    ),
    (
        &[Form::Var(1), Form::Let(ZERO, 2, ZERO), Form::Fun(1, ONE)],
        "Fun(Let(Var(0), Var(1)))",
    ),
    // The argument hides the own name of one number.
    (&[Form::Var(1), Form::Rec(1, 1, ZERO)], "Rec(Var(0))"),
    (
        &[Form::Var(1), Form::Rec(2, 3, ZERO), Form::Fun(1, ONE)],
        "Fun(Rec(Var(2)))",
    ),
];

// What the last node is read back to, or the fault.
fn graph_shown(alloc: Global, nodes: &[Node<'_>]) -> Result<String, AllocError> {
    let pool = pool_of(alloc, nodes)?;
    shown(alloc, &pool)
}

// The nodes of these forms.
fn nodes_of<'c>(alloc: Global, forms: &[Form]) -> Result<Vec<Node<'c>>, AllocError> {
    let mut nodes = Vec::new(alloc);
    for form in forms {
        nodes.push(form.node())?;
    }
    Ok(nodes)
}

#[test]
fn graphs(rt: HostRuntime) -> Result<(), AllocError> {
    for &(forms, expected) in GRAPHS {
        let nodes = nodes_of(rt.alloc(), forms)?;
        let term = graph_shown(rt.alloc(), nodes.as_slice())?;
        assert_eq!(rt; term.as_str(), expected);
    }
    Ok(())
}

// How the last node is used by the next one.
#[derive(Clone, Copy)]
enum Step {
    /// As its only part.
    Once,
    /// As both parts.
    Twice,
    /// Beside the node at a place.
    Beside(Id),
}

// The next node of that kind, so many times.
fn grow(pool: &mut Pool<Node<'_>>, step: Step, times: u32) -> Result<(), AllocError>
    requires { IsDownward pool.old.items }
    ensures { IsDownward pool.new.items }
{
    for _ in 0..times {
        let last = Id {
            place: pool.len().saturating_sub(1),
        };
        let node = match step {
            Step::Once => Node::Fst(last),
            Step::Twice => Node::Prim(Prim::Add, last, last),
            Step::Beside(id) => Node::Pair(id, last),
        };
        add(pool, node)?;
    }
    Ok(())
}

// Steps with their times, from one literal; what the last node is read back to, or the nodes and the depth of its term.
const LARGE: &[(&[(Step, u32)], &str)] = &[
    (&[(Step::Once, 399)], "400 400"),
    (&[(Step::Once, 400)], "too deep"),
    (&[(Step::Once, 19_999)], "too deep"),
    (&[(Step::Once, 20_000)], "too many nodes"),
    (&[(Step::Once, 100_000)], "too many nodes"),
    // 20,000 nodes, and one more.
    (
        &[(Step::Twice, 6), (Step::Beside(SIX), 155), (Step::Once, 33)],
        "20000 195",
    ),
    (
        &[(Step::Twice, 6), (Step::Beside(SIX), 155), (Step::Once, 34)],
        "too many nodes",
    ),
    // Each node is shared.
    (&[(Step::Twice, 13)], "16383 14"),
    (&[(Step::Twice, 14)], "too many nodes"),
    (&[(Step::Twice, 40)], "too many nodes"),
    (&[(Step::Twice, 100_000)], "too many nodes"),
    // What is shared is about as deep as the limit, or deeper.
    (&[(Step::Twice, 10), (Step::Once, 389)], "2436 400"),
    (&[(Step::Twice, 10), (Step::Once, 390)], "too deep"),
    (&[(Step::Twice, 13), (Step::Once, 3_617)], "too deep"),
    (&[(Step::Twice, 13), (Step::Once, 3_618)], "too many nodes"),
    (&[(Step::Twice, 40), (Step::Once, 500)], "too many nodes"),
    (&[(Step::Once, 500), (Step::Twice, 40)], "too many nodes"),
];

// A node, and what steps add to it.
fn large<'c>(
    alloc: Global,
    first: Node<'c>,
    steps: &[(Step, u32)],
) -> Result<Pool<Node<'c>>, AllocError>
    ensures { IfOk result (λ pool. IsDownward pool.items) }
{
    let mut pool = pool_of(alloc, &[first])?;
    for (step, times) in steps {
        grow(&mut pool, *step, *times)?;
    }
    Ok(pool)
}

// What the last node is read back to, by nodes and depth, or the fault.
fn large_measured(
    alloc: Global,
    first: Node<'_>,
    steps: &[(Step, u32)],
) -> Result<String, AllocError> {
    let pool = large(alloc, first, steps)?;
    measured(alloc, &pool)
}

#[test]
fn limits(rt: HostRuntime) -> Result<(), AllocError> {
    for &(steps, expected) in LARGE {
        let answer = large_measured(rt.alloc(), Node::Bool(true), steps)?;
        assert_eq!(rt; answer.as_str(), expected);
    }
    Ok(())
}

// A literal under so many first projections.
fn wrapped(alloc: Global, times: u32) -> Result<Term, AllocError> {
    let mut term = Term::Bool(true);
    for _ in 0..times {
        term = Term::Fst(Box::new(alloc, term)?);
    }
    Ok(term)
}

// The projections of code that was there before, steps with their times from it, and the nodes and the depth.
const BUILT: &[(u32, &[(Step, u32)], &str)] = &[
    (0, &[], "1 1"),
    (399, &[], "400 400"),
    (400, &[], "too deep"),
    (19_999, &[], "too deep"),
    (20_000, &[], "too many nodes"),
    (299, &[(Step::Once, 100)], "400 400"),
    (299, &[(Step::Once, 101)], "too deep"),
    (299, &[(Step::Once, 19_700)], "too deep"),
    (299, &[(Step::Once, 19_701)], "too many nodes"),
    // It is shared.
    (299, &[(Step::Twice, 6)], "19263 306"),
    (299, &[(Step::Twice, 7)], "too many nodes"),
    (299, &[(Step::Twice, 6), (Step::Once, 94)], "19357 400"),
    (299, &[(Step::Twice, 6), (Step::Once, 95)], "too deep"),
    // 20,000 nodes, and one more.
    (76, &[(Step::Twice, 8), (Step::Once, 33)], "20000 118"),
    (76, &[(Step::Twice, 8), (Step::Once, 34)], "too many nodes"),
];

#[test]
fn built_limits(rt: HostRuntime) -> Result<(), AllocError> {
    for &(times, steps, expected) in BUILT {
        let term = wrapped(rt.alloc(), times)?;
        let answer = large_measured(rt.alloc(), Node::Built(&term), steps)?;
        assert_eq!(rt; answer.as_str(), expected);
    }
    Ok(())
}

#[test]
fn built_under_binders(rt: HostRuntime) -> Result<(), AllocError> {
    let identity = Term::Fun(Box::new(rt.alloc(), Term::Var(0))?);
    let nodes = [
        Node::Built(&identity),
        Node::Var(1),
        Node::App(ZERO, ONE),
        Node::Fun(1, TWO),
        Node::Pair(ZERO, THREE),
    ];
    let term = graph_shown(rt.alloc(), &nodes)?;
    assert_eq!(rt;
        term.as_str(),
        "Pair(Fun(Var(0)), Fun(App(Fun(Var(0)), Var(0))))"
    );
    Ok(())
}
