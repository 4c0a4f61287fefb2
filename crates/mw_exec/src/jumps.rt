// Branches, returns and the ends of code.

ghost use Rattle.std.specs.Prelude.{◌≡◌, true, false, ◌≤◌, ◌∷◌, ◌++◌, [], ℕ, zero, suc, List, length, take, drop};
ghost use Rattle.std.specs.Prelude.{reverse};
ghost use Rattle.std.specs.Prelude.{IfNone, IfSome};
ghost use Rattle.mw_wasm.specs.declared.values.Value.{Value as WasmValue};
ghost use Rattle.mw_wasm.specs.Store.{Store};
ghost use Rattle.mw_wasm.specs.Redex.{leave as leave_rule, branch as branch_rule, return_from};
ghost use Rattle.mw_exec.specs.Lists.{above};
ghost use Rattle.mw_exec.specs.Views.{IsFormed, count_of, own_locals, operands, around_of};
ghost use Rattle.mw_exec.specs.Turns.{IsFormedWith, IsInLoop, Rule, IfOn, Moves, inmost_branch, inmost_return};
ghost use Rattle.mw_exec.specs.Turns.{IsOutside, branch_from, left, returned, around_with};

use crate::labels::{restore, take_waiting, unwind};
use crate::operands::{pop, put};
use crate::state::{Kind, State, Turn, Waiting};
use mw_wasm::Value;

/// The last operand above a height, where one is kept, stands where all operands from another height on stood.
#[inline(always)]
fn keep(stack: &mut Vec<Value>, from: usize, to: usize, one: bool)
    requires order { to ≤ from }
    requires long { from ≤ length stack.old.items }
    ensures { stack.new.items ≡ take to stack.old.items
        ++ reverse (take (count_of one) (above from stack.old.items)) }
{
    if !one {
        stack.truncate(to);
        return;
    }
    match pop(stack, from) {
        Some(operand) => {
            stack.truncate(to);
            put(stack, operand);
        }
        None => stack.truncate(to),
    }
}

/// Whether the inmost thing that waits is a loop's label.
#[inline(always)]
fn is_in_loop(state: &State<'_>) -> bool
    ensures yes { result ≡ true → IsInLoop state.now }
    ensures no { result ≡ false → IsInLoop state.now → ⊥ }
{
    let count = state.waiting.len();
    if count == 0 {
        return false;
    }
    match state.waiting[count - 1].kind {
        Kind::Block(_) => false,
        Kind::Loop(_) => true,
        Kind::Frame(_, _) => false,
    }
}

/// A branch to the inmost label, a loop's: its body is in hand again, at its beginning, and the label stays.
#[inline(always)]
fn again(state: &mut State<'_>) -> Turn
    requires formed { IsFormed state.old }
    requires inside { IsInLoop state.old }
    ensures { (from : ℕ)
        → Rule (inmost_branch from state.old (around_of state.old)) state.old.fuel result state.new }
{
    if state.fuel == 0 {
        return Turn::Spent;
    }
    state.fuel -= 1;
    state.stack.truncate(state.height);
    state.at = 0;
    Turn::On
}

/// A branch to the inmost label, a block's.
#[inline(always)]
fn behind<'m>(state: &mut State<'m>, waiting: Waiting<'m>, from: usize, one: bool) -> Turn
    requires formed { IsFormedWith waiting state.old }
    requires kind { waiting.kind ≡ Kind.Block one }
    requires order { state.old.height ≤ from }
    requires long { from ≤ length state.old.stack.items }
    ensures { Rule (inmost_branch from state.old (around_with waiting.entry state.old))
        state.old.fuel result state.new }
{
    let height = state.height;
    keep(&mut state.stack, from, height, one);
    restore(state, waiting);
    Turn::On
}

/// The code that waited outside of a function is in hand again, and so are its locals, from a place on.
#[inline(always)]
fn restore_outside<'m>(state: &mut State<'m>, waiting: Waiting<'m>, outside: usize)
    ensures { IsOutside waiting.entry outside state.old state.new }
{
    state.locals.truncate(state.base);
    restore(state, waiting);
    state.base = outside;
}

/// A branch to the inmost label, a function's.
#[inline(always)]
fn from_body<'m>(
    state: &mut State<'m>,
    waiting: Waiting<'m>,
    from: usize,
    one: bool,
    outside: usize,
) -> Turn
    requires formed { IsFormedWith waiting state.old }
    requires kind { waiting.kind ≡ Kind.Frame one outside }
    requires order { state.old.height ≤ from }
    requires long { from ≤ length state.old.stack.items }
    ensures branched { Rule (inmost_branch from state.old (around_with waiting.entry state.old))
        state.old.fuel result state.new }
    ensures returned { Rule (inmost_return from state.old (around_with waiting.entry state.old))
        state.old.fuel result state.new }
{
    let height = state.height;
    keep(&mut state.stack, from, height, one);
    restore_outside(state, waiting, outside);
    Turn::On
}

/// A branch to the inmost label, with the operands from a height on.
#[tactic(auto, using(crate::proofs::CodeEnds::branch_taken))]
#[inline(always)]
fn take_branch<'m>(state: &mut State<'m>, from: usize) -> Turn
    requires formed { IsFormed state.old }
    requires order { state.old.height ≤ from }
    requires long { from ≤ length state.old.stack.items }
    ensures { Rule (inmost_branch from state.old (around_of state.old)) state.old.fuel result
        state.new }
{
    if is_in_loop(state) {
        return again(state);
    }
    match take_waiting(state) {
        None => Turn::Lost,
        Some(waiting) => match waiting.kind {
            Kind::Loop(_) => unreachable!(),
            Kind::Block(one) => behind(state, waiting, from, one),
            Kind::Frame(one, outside) => from_body(state, waiting, from, one, outside),
        },
    }
}

/// A branch.
#[tactic(auto, using(crate::proofs::CodeEnds::label_lost, crate::proofs::CodeEnds::branch_on))]
#[inline(always)]
pub fn branch<'m>(state: &mut State<'m>, label: u32) -> Turn
    requires { IsFormed state.old }
    ensures { Rule (branch_from label state.old) state.old.fuel result state.new }
{
    let from = state.height;
    if !unwind(state, label) {
        return Turn::Lost;
    }
    take_branch(state, from)
}

/// The end of the code in hand.
#[tactic(auto, using(crate::proofs::CodeEnds::all_left))]
#[inline(always)]
pub fn leave<'m>(state: &mut State<'m>) -> Turn
    requires { IsFormed state.old }
    ensures { Rule (left state.old) state.old.fuel result state.new }
{
    match take_waiting(state) {
        None => Turn::Done,
        Some(waiting) => match waiting.kind {
            Kind::Frame(_, outside) => {
                restore_outside(state, waiting, outside);
                Turn::On
            }
            Kind::Block(_) | Kind::Loop(_) => {
                restore(state, waiting);
                Turn::On
            }
        },
    }
}

/// A return.
#[tactic(auto, using(crate::proofs::PassedLabels::return_laws))]
#[inline(always)]
pub fn give_back<'m>(state: &mut State<'m>) -> Turn
    requires { IsFormed state.old }
    ensures { Rule (returned state.old) state.old.fuel result state.new }
{
    let from = state.height;
    while let Some(waiting) = take_waiting(state) {
        match waiting.kind {
            Kind::Frame(one, outside) => return from_body(state, waiting, from, one, outside),
            Kind::Block(_) | Kind::Loop(_) => restore(state, waiting),
        }
    }
    Turn::Lost
}
