// Classes of nodes: what is known of the types of an item's nodes.

ghost use Rattle.std.specs.Prelude.{ℕ, ◌+◌, ◌*◌, ◌≡◌, ◌≢◌, [], ◌≤◌, ◌<◌, length, slice_index_or, IfOk, IsTrue, IsFalse};
ghost use Rattle.mw_types.specs.Forest.{Low, Leads};
ghost use Rattle.mw_types.specs.Satisfying.{Meeting, shape_at, Inside, ExtraInside, kept, Sound, Step, Linked, Never};
ghost use Rattle.mw_types.specs.Satisfying.{IsCopy, weight, more, work};
ghost use Rattle.mw_types.specs.Shorter.{FindsRoot};

use crate::ways::find_halving;
use std::alloc::{AllocError, Global};

/// What is known of a class: nothing, or its outermost constructor and the nodes below it.
#[derive(Clone, Copy)]
pub enum Shape {
    Free,
    Int,
    Bool,
    Pair(usize, usize),
    Arrow(usize, usize),
    Code(usize, usize),
    Closed(usize),
}

/// Two nodes that are to have one type.
#[derive(Clone, Copy)]
pub struct Pending {
    pub left: usize,
    pub right: usize,
}

/// What two shapes of one class come to: no type, or a shape and what else is to be one.
#[derive(Clone, Copy)]
pub enum Met {
    Clash,
    Keep(Shape),
    One(Shape, Pending),
    Two(Shape, Pending, Pending),
    Classes(Shape, usize, usize, Pending),
}

/// Nodes, of which the first are the unknowns, and classifier unknowns.
#[derive(Drop)]
pub struct State {
    pub parent: Vec<usize>,
    pub shape: Vec<Shape>,
    pub classifier: Vec<usize>,
    pub waiting: Vec<Pending>,
}

/// A state that says the same, in memory of its own.
pub fn copy(alloc: Global, state: &State) -> Result<State, AllocError>
    ensures { IfOk result (λ made. IsCopy state.now made) }
{
    Ok(State {
        parent: Vec::from_slice(alloc, state.parent.as_slice())?,
        shape: Vec::from_slice(alloc, state.shape.as_slice())?,
        classifier: Vec::from_slice(alloc, state.classifier.as_slice())?,
        waiting: Vec::from_slice(alloc, state.waiting.as_slice())?,
    })
}

/// The representative of a node's class.
pub fn find(parent: &[usize], from: usize) -> usize
    requires low { Low parent.now }
    requires inside { from < length parent.now }
    ensures leads { Leads parent.now from result }
    ensures root { slice_index_or parent.now result 0 ≡ result }
    ensures below { result ≤ from }
{
    let mut at = from;
    while parent[at] != at {
        at = parent[at];
    }
    at
}

/// What is known of a representative's class.
#[inline(always)]
pub fn class_shape(state: &State, root: usize) -> Shape
    requires sound { Sound state.now }
    requires inside { root < length state.now.parent.items }
    ensures shape { result ≡ shape_at state.now root }
    ensures inside { Inside (length state.now.parent.items) (length state.now.classifier.items)
        result }
{
    state.shape[root]
}

/// What one type of both shapes comes to.
#[tactic(auto, using(crate::proofs::Steps::meetings))]
pub fn meet(x: Shape, y: Shape) -> Met
    ensures meeting { Meeting x y result }
    ensures inside { (n m : ℕ) → Inside n m x → Inside n m y → ExtraInside n m result }
    ensures lighter { 3 * weight (kept result) + more result ≤ 3 * (weight x + weight y) }
    ensures shaped { result ≢ Met.Clash → x ≢ Shape.Free → kept result ≢ Shape.Free }
{
    match (x, y) {
        (Shape::Free, _) => Met::Keep(y),
        (_, Shape::Free) => Met::Keep(x),
        (Shape::Int, Shape::Int) => Met::Keep(x),
        (Shape::Bool, Shape::Bool) => Met::Keep(x),
        (Shape::Pair(l, r), Shape::Pair(m, s)) => Met::Two(
            x,
            Pending { left: l, right: m },
            Pending { left: r, right: s },
        ),
        (Shape::Arrow(l, r), Shape::Arrow(m, s)) => Met::Two(
            x,
            Pending { left: l, right: m },
            Pending { left: r, right: s },
        ),
        (Shape::Code(c, t), Shape::Code(d, u)) => Met::Classes(
            x,
            c,
            d,
            Pending { left: t, right: u },
        ),
        (Shape::Closed(t), Shape::Closed(u)) => Met::One(x, Pending { left: t, right: u }),
        _ => Met::Clash,
    }
}

/// Makes two nodes one class; `false` where no type is both. What else is to be one then waits.
pub fn merge(state: &mut State, i: usize, j: usize) -> Result<bool, AllocError>
    requires sound { Sound state.old }
    requires left { i < length state.old.parent.items }
    requires right { j < length state.old.parent.items }
    ensures same { IfOk result
        (λ fine. IsTrue fine → Step state.old state.new (λ a. a.ty i ≡ a.ty j)) }
    ensures none { IfOk result (λ fine. IsFalse fine → Never state.old (λ a. a.ty i ≡ a.ty j)) }
    ensures work { IfOk result (λ fine. work state.new ≤ work state.old) }
{
    let one = seek(state, i);
    let two = seek(state, j);
    if one < two {
        link(state, one, two)
    } else if two < one {
        link(state, two, one)
    } else {
        Ok(true)
    }
}

// The representative of a node's class; the way to it becomes half as long.
fn seek(state: &mut State, node: usize) -> usize
    requires sound { Sound state.old }
    requires inside { node < length state.old.parent.items }
    ensures found { FindsRoot state.old state.new node result }
    ensures inside { result < length state.new.parent.items }
    ensures root { slice_index_or state.new.parent.items result 0 ≡ result }
    ensures roots { (i : ℕ) → slice_index_or state.old.parent.items i 0 ≡ i
        → slice_index_or state.new.parent.items i 0
        ≡ i }
    ensures work { work state.new ≡ work state.old }
    ensures waiting { state.new.waiting ≡ state.old.waiting }
{
    find_halving(&mut state.parent, node)
}

// Makes two representatives one class.
#[inline(always)]
fn link(state: &mut State, low: usize, high: usize) -> Result<bool, AllocError>
    requires sound { Sound state.old }
    requires below { low < high }
    requires inside { high < length state.old.parent.items }
    requires low_root { slice_index_or state.old.parent.items low 0 ≡ low }
    requires high_root { slice_index_or state.old.parent.items high 0 ≡ high }
    ensures same { IfOk result
        (λ fine. IsTrue fine → Step state.old state.new (λ a. a.ty low ≡ a.ty high)) }
    ensures none { IfOk result
        (λ fine. IsFalse fine → Never state.old (λ a. a.ty low ≡ a.ty high)) }
    ensures work { IfOk result (λ fine. work state.new ≤ work state.old) }
{
    let met = meet(class_shape(state, low), class_shape(state, high));
    put(state, low, high, met);
    match met {
        Met::Clash => Ok(false),
        Met::Keep(_) => Ok(true),
        Met::One(_, first) => {
            postpone(state, first)?;
            Ok(true)
        }
        Met::Two(_, first, second) => {
            postpone(state, first)?;
            postpone(state, second)?;
            Ok(true)
        }
        Met::Classes(_, c, d, first) => {
            postpone(state, first)?;
            join(state, c, d);
            Ok(true)
        }
    }
}

// Puts a representative under another, with the shape of both.
fn put(state: &mut State, low: usize, high: usize, met: Met)
    requires sound { Sound state.old }
    requires below { low < high }
    requires inside { high < length state.old.parent.items }
    requires low_root { slice_index_or state.old.parent.items low 0 ≡ low }
    requires high_root { slice_index_or state.old.parent.items high 0 ≡ high }
    requires meeting { Meeting (shape_at state.old low) (shape_at state.old high) met }
    requires extra { ExtraInside (length state.old.parent.items) (length state.old.classifier.items)
        met }
    requires lighter { 3 * weight (kept met) + more met
        ≤ 3 * (weight (shape_at state.old low) + weight (shape_at state.old high)) }
    requires shaped { met ≢ Met.Clash → shape_at state.old low ≢ Shape.Free
        → kept met ≢ Shape.Free }
    ensures linked { Linked state.old state.new low high met }
    ensures work { work state.new + more met ≤ work state.old }
{
    state.parent[high] = low;
    state.shape[high] = Shape::Free;
    state.shape[low] = shape_of(met);
}

// The shape that is kept.
fn shape_of(met: Met) -> Shape
    ensures { result ≡ kept met }
{
    match met {
        Met::Clash => Shape::Free,
        Met::Keep(shape) => shape,
        Met::One(shape, _) => shape,
        Met::Two(shape, _, _) => shape,
        Met::Classes(shape, _, _, _) => shape,
    }
}

/// Notes that two nodes are to be one.
pub fn postpone(state: &mut State, wait: Pending) -> Result<(), AllocError>
    requires sound { Sound state.old }
    requires left { wait.left < length state.old.parent.items }
    requires right { wait.right < length state.old.parent.items }
    ensures step { IfOk result
        (λ _. Step state.old state.new (λ a. a.ty wait.left ≡ a.ty wait.right)) }
    ensures work { IfOk result (λ _. work state.new ≡ work state.old + 1) }
{
    state.waiting.push(wait)?;
    Ok(())
}

// Makes two classifier unknowns one class.
fn join(state: &mut State, c: usize, d: usize)
    requires sound { Sound state.old }
    requires left { c < length state.old.classifier.items }
    requires right { d < length state.old.classifier.items }
    ensures step { Step state.old state.new (λ a. a.classifier c ≡ a.classifier d) }
    ensures work { work state.new ≡ work state.old }
{
    let one = find_halving(&mut state.classifier, c);
    let two = find_halving(&mut state.classifier, d);
    if one < two {
        state.classifier[two] = one;
    } else {
        state.classifier[one] = two;
    }
}

/// Makes one whatever waits; `false` where nothing meets all that the state says.
pub fn settle(state: &mut State) -> Result<bool, AllocError>
    requires sound { Sound state.old }
    ensures same { IfOk result (λ fine. IsTrue fine → Step state.old state.new (λ a. Unit {0})) }
    ensures empty { IfOk result (λ fine. IsTrue fine → state.new.waiting.items ≡ []) }
    ensures none { IfOk result (λ fine. IsFalse fine → Never state.old (λ a. Unit {0})) }
{
    while let Some(wait) = state.waiting.pop() {
        if !merge(state, wait.left, wait.right)? {
            return Ok(false);
        }
    }
    Ok(true)
}

/// Makes each way at most one step long: lower nodes come first, and parents are lower.
pub fn flatten(state: &mut State)
    requires sound { Sound state.old }
    ensures same { Step state.old state.new (λ a. Unit {0}) }
    ensures waiting { state.new.waiting ≡ state.old.waiting }
{
    for node in 0..state.parent.len() {
        let _root = seek(state, node);
    }
}
