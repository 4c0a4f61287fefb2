// The sizes of the types that nodes stand for, where the classes have no cycle.

ghost use Rattle.std.specs.Prelude.{ℕ, [], ◌≡◌, ◌≢◌, ◌<◌, length, slice_index_or, IfSome, IfNone, IfOk, IsTrue};
ghost use Rattle.std.specs.Prelude.{IsFalse, ◌↔◌};
ghost use Rattle.mw_types.specs.Satisfying.{Sound, Never};
ghost use Rattle.mw_types.specs.Walks.{Sized, SomeSized, Marked, Finds, Looks, Walk, fresh, AllSized, AllNew};
ghost use Rattle.mw_types.specs.Walks.{OverOne, OverTwo};

use crate::state::{Shape, State, class_shape, find};
use std::alloc::{AllocError, Global};

/// Where a class is in the walk: not met, below the walk's place, or done, with its size, of which 10,001 and more is
/// 10,001.
#[derive(Clone, Copy)]
pub enum Mark {
    New,
    Open,
    Done(u64),
}

/// A class: its size, or its representative where it is not done.
#[derive(Clone, Copy)]
pub enum Extent {
    Size(u64),
    Root(usize),
}

/// What a class's shape says: its size, or a class below it that is not done.
#[derive(Clone, Copy)]
pub enum Look {
    Ready(u64),
    Down(usize),
}

// A node's class.
fn below(state: &State, marks: &[Mark], node: usize) -> Extent
    requires sound { Sound state.now }
    requires marked { Marked state.now marks.now }
    requires inside { node < length state.now.parent.items }
    ensures { Finds state.now marks.now node result }
{
    let root = find(state.parent.as_slice(), node);
    match marks[root] {
        Mark::Done(size) => Extent::Size(size),
        Mark::New => Extent::Root(root),
        Mark::Open => Extent::Root(root),
    }
}

// What a class over one node says: one more than its size, or its class where that is not done.
fn over_one(state: &State, marks: &[Mark], node: usize) -> Look
    requires sound { Sound state.now }
    requires marked { Marked state.now marks.now }
    requires inside { node < length state.now.parent.items }
    ensures { OverOne state.now marks.now node result }
{
    match below(state, marks, node) {
        Extent::Root(root) => Look::Down(root),
        Extent::Size(n) => Look::Ready(n.saturating_add(1).min(10001)),
    }
}

// What a class over two nodes says: one more than both sizes, or a class of one of them that is not done.
fn over_two(state: &State, marks: &[Mark], left: usize, right: usize) -> Look
    requires sound { Sound state.now }
    requires marked { Marked state.now marks.now }
    requires left { left < length state.now.parent.items }
    requires right { right < length state.now.parent.items }
    ensures { OverTwo state.now marks.now left right result }
{
    match below(state, marks, left) {
        Extent::Root(root) => Look::Down(root),
        Extent::Size(n) => match below(state, marks, right) {
            Extent::Root(root) => Look::Down(root),
            Extent::Size(m) => Look::Ready(n.saturating_add(m).saturating_add(1).min(10001)),
        },
    }
}

// What a class's shape says.
#[tactic(auto, using(crate::proofs::Walking::looks))]
fn inspect(state: &State, marks: &[Mark], top: usize) -> Look
    requires sound { Sound state.now }
    requires marked { Marked state.now marks.now }
    requires inside { top < length state.now.parent.items }
    requires root { slice_index_or state.now.parent.items top 0 ≡ top }
    ensures { Looks state.now marks.now top result }
{
    match class_shape(state, top) {
        Shape::Free => Look::Ready(1),
        Shape::Int => Look::Ready(1),
        Shape::Bool => Look::Ready(1),
        Shape::Pair(l, r) => over_two(state, marks, l, r),
        Shape::Arrow(l, r) => over_two(state, marks, l, r),
        Shape::Code(_, t) => over_one(state, marks, t),
        Shape::Closed(t) => over_one(state, marks, t),
    }
}

fn is_open(mark: Mark) -> bool
    ensures { IsTrue result ↔ mark ≡ Mark.Open }
{
    match mark {
        Mark::New => false,
        Mark::Open => true,
        Mark::Done(_) => false,
    }
}

/// Does whatever is below a class, over a path that is empty before and after; `false` where there is a cycle.
pub fn visit(
    state: &State,
    marks: &mut Vec<Mark>,
    path: &mut Vec<usize>,
    start: usize,
) -> Result<bool, AllocError>
    requires sound { Sound state.now }
    requires marked { Marked state.now marks.old.items }
    requires shut { (x : ℕ) → slice_index_or marks.old.items x Mark.New ≢ Mark.Open }
    requires empty { path.old.items ≡ [] }
    requires inside { start < length state.now.parent.items }
    requires root { slice_index_or state.now.parent.items start 0 ≡ start }
    ensures marked { IfOk result (λ fine. IsTrue fine → Marked state.now marks.new.items) }
    ensures met { IfOk result
        (λ fine. IsTrue fine → slice_index_or marks.new.items start Mark.New ≢ Mark.New) }
    ensures shut { IfOk result
        (λ fine. IsTrue fine → (x : ℕ) → slice_index_or marks.new.items x Mark.New ≢ Mark.Open) }
    ensures empty { IfOk result (λ fine. IsTrue fine → path.new.items ≡ []) }
    ensures none { IfOk result (λ fine. IsFalse fine → Never state.now (λ a. Unit {0})) }
{
    match marks[start] {
        Mark::Done(_) => return Ok(true),
        Mark::Open => return Ok(true),
        Mark::New => {}
    }
    marks[start] = Mark::Open;
    path.push(start)?;
    while let Some(top) = path.pop() {
        match inspect(state, marks.as_slice(), top) {
            Look::Ready(size) => {
                marks[top] = Mark::Done(size);
            }
            Look::Down(next) => {
                if is_open(marks[next]) {
                    return Ok(false);
                }
                path.push(top)?;
                marks[next] = Mark::Open;
                path.push(next)?;
            }
        }
    }
    Ok(true)
}

// As many marks.
fn new_marks(alloc: Global, count: usize) -> Result<Vec<Mark>, AllocError>
    ensures { IfOk result (λ marks. AllNew count marks.items) }
{
    let mut marks = Vec::new(alloc);
    marks.resize(count, Mark::New)?;
    Ok(marks)
}

// The size of a node, of which 10,001 and more is 10,001, after those of lower nodes; `None` where there is a cycle.
fn next_size(
    state: &State,
    marks: &mut Vec<Mark>,
    path: &mut Vec<usize>,
    lower: &[u64],
    node: usize,
) -> Result<Option<u64>, AllocError>
    requires sound { Sound state.now }
    requires lower { SomeSized state.now marks.old.items lower.now node }
    requires empty { path.old.items ≡ [] }
    requires inside { node < length state.now.parent.items }
    ensures sized { IfOk result (λ found. IfSome found (λ size. Sized state.now node size)) }
    ensures marked { IfOk result (λ found. IfSome found (λ _. Marked state.now marks.new.items)) }
    ensures shut { IfOk result (λ found. IfSome found
        (λ _. (x : ℕ) → slice_index_or marks.new.items x Mark.New ≢ Mark.Open)) }
    ensures empty { IfOk result (λ found. IfSome found (λ _. path.new.items ≡ [])) }
    ensures none { IfOk result (λ found. IfNone found (Never state.now (λ a. Unit {0}))) }
{
    let up = state.parent[node];
    if up != node {
        return Ok(Some(lower[up]));
    }
    if !visit(state, marks, path, node)? {
        return Ok(None);
    }
    match marks[node] {
        Mark::Done(size) => Ok(Some(size)),
        Mark::New => Ok(None),
        Mark::Open => Ok(None),
    }
}

/// Each node's size, of which 10,001 and more is 10,001; `None` where there is a cycle, and so no solution.
pub fn sizes(alloc: Global, state: &State) -> Result<Option<Vec<u64>>, AllocError>
    requires sound { Sound state.now }
    ensures sized { IfOk result (λ found. IfSome found (λ all. AllSized state.now all.items)) }
    ensures none { IfOk result (λ found. IfNone found (Never state.now (λ a. Unit {0}))) }
{
    let mut marks = new_marks(alloc, state.parent.len())?;
    let mut path = Vec::new(alloc);
    let mut all = Vec::with_capacity(alloc, state.parent.len())?;
    for node in 0..state.parent.len() {
        match next_size(state, &mut marks, &mut path, all.as_slice(), node)? {
            None => return Ok(None),
            Some(size) => all.push(size)?,
        }
    }
    Ok(Some(all))
}
