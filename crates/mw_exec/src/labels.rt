// Labels that are entered and left.

ghost use Rattle.std.specs.Prelude.{◌≡◌, ◌≤◌, ◌∷◌, ◌++◌, [], ℕ, zero, suc, List, length, take, drop, IfOk};
ghost use Rattle.std.specs.Prelude.{IfNone, IfSome};
ghost use Rattle.mw_exec.specs.Views.{IsFormed, Rise};
ghost use Rattle.mw_exec.specs.Turns.{IsLabel, IsFormedWith, IsBack, Taken, NothingWaits};
ghost use Rattle.mw_exec.specs.Turns.{Entered, Unwound, NoLabel, Passed};

use crate::state::{Kind, State, Waiting};
use mw_wasm::{Instrs, Value};
use std::alloc::AllocError;

/// A label round the body.
#[inline(always)]
pub fn enter<'m>(state: &mut State<'m>, kind: Kind, body: &'m Instrs) -> Result<(), AllocError>
    requires formed { IsFormed state.old }
    requires label { IsLabel kind }
    ensures { IfOk result (λ _. Entered kind body.now.inner.items state.old state.new) }
{
    state.waiting.push(Waiting {
        kind,
        code: state.code,
        at: state.at,
        height: state.height,
    })?;
    state.code = body.as_slice();
    state.at = 0;
    state.height = state.stack.len();
    Ok(())
}

/// The inmost thing that waits is taken.
#[inline(always)]
pub fn take_waiting<'m>(state: &mut State<'m>) -> Option<Waiting<'m>>
    requires { IsFormed state.old }
    ensures taken { IfSome result (λ w. Taken w state.old state.new) }
    ensures formed { IfSome result (λ w. IsFormedWith w state.new) }
    ensures none { IfNone result (NothingWaits state.old state.new) }
{
    let waiting = state.waiting.pop()?;
    Some(waiting)
}

/// The code that waited is in hand again.
#[inline(always)]
pub fn restore<'m>(state: &mut State<'m>, waiting: Waiting<'m>)
    ensures { IsBack waiting.entry state.old state.new }
{
    state.code = waiting.code;
    state.at = waiting.at;
    state.height = waiting.height;
}

/// One label is left, where the inmost thing that waits is one.
#[tactic(auto, using(crate::proofs::PassedLabels::pass_laws))]
#[inline(always)]
fn pass(state: &mut State<'_>) -> bool
    requires { IsFormed state.old }
    ensures { (l : ℕ) → Passed result (suc l) l state.old state.new }
{
    match take_waiting(state) {
        None => false,
        Some(waiting) => match waiting.kind {
            Kind::Frame(_, _) => false,
            Kind::Block(_) | Kind::Loop(_) => {
                restore(state, waiting);
                true
            }
        },
    }
}

/// The labels inside the one that a branch goes to are left.
#[inline(always)]
pub fn unwind(state: &mut State<'_>, label: u32) -> bool
    requires { IsFormed state.old }
    ensures { Passed result label 0 state.old state.new }
{
    let mut left = label;
    while left > 0 {
        if !pass(state) {
            return false;
        }
        left -= 1;
    }
    true
}
