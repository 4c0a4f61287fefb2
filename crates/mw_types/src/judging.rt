// One front of equations: solvable, unsolvable, or with too big a most general solution.

ghost use Rattle.std.specs.Prelude.{ℕ, [], ◌≡◌, ◌<◌, ◌≤◌, length, take, IfNone, IfOk, IfSome};
ghost use Rattle.mw_types.specs.Equations.{equations_of, AllWithin};
ghost use Rattle.mw_types.specs.Answering.{Ready};
ghost use Rattle.mw_types.specs.Judged.{AreAlone, Blank, ClashesBetween, JudgesFront, StatesFront};
ghost use Rattle.mw_types.specs.Types.{Assignment};
ghost use Rattle.mw_types.specs.Satisfying.{Sound, Means, nodes_in, classifiers_in};

use crate::answer::MOST_NODES;
use crate::build::add;
use crate::state::{Pending, Shape, State, flatten, postpone, settle};
use crate::types::Equation;
use crate::walk::sizes;
use std::alloc::{AllocError, Global};

/// What a front is. A front without a solution clashes where some node is to have two shapes, and is else a cycle: some
/// type is to hold itself.
#[derive(Clone, Copy)]
pub enum Verdict {
    Fine,
    Clash,
    Cycle,
    TooBig,
}

/// How many equations a front has, and what it is.
#[derive(Clone, Copy)]
pub struct Judgement {
    pub end: usize,
    pub verdict: Verdict,
}

/// Judges equations, in a state that has a node for each unknown and says nothing yet; where one of them clashes with
/// those before it, the first front that has a clash.
pub fn judge(
    alloc: Global,
    state: &mut State,
    equations: &[Equation],
) -> Result<Judgement, AllocError>
    requires sound { Sound state.old }
    requires blank { (a : Assignment) → Means state.old a }
    requires settled { state.old.waiting.items ≡ [] }
    requires inside { AllWithin (nodes_in state.old) (classifiers_in state.old)
        (equations_of equations.now) }
    ensures judged { IfOk result (λ front. JudgesFront (nodes_in state.old) equations.now front) }
    ensures within { IfOk result (λ front. front.end ≤ length equations.now) }
    ensures ready { IfOk result (λ front. front.verdict ≡ Verdict.Fine
        → Ready (nodes_in state.old) (classifiers_in state.old) (equations_of equations.now) state.new) }
{
    let unknowns = state.parent.len();
    judge_longer(alloc, state, equations, unknowns, 0, equations.len())
}

/// Judges a front in a state that says what a shorter one says; where an equation between them clashes with those
/// before it, the first front that has a clash.
pub fn judge_longer(
    alloc: Global,
    state: &mut State,
    equations: &[Equation],
    unknowns: usize,
    shorter: usize,
    end: usize,
) -> Result<Judgement, AllocError>
    requires stated { StatesFront unknowns (classifiers_in state.old) equations.now shorter
        state.old }
    requires inside { AllWithin unknowns (classifiers_in state.old) (equations_of equations.now) }
    requires order { shorter ≤ end }
    requires end { end ≤ length equations.now }
    ensures judged { IfOk result (λ front. JudgesFront unknowns equations.now front) }
    ensures within { IfOk result (λ front. front.end ≤ end) }
    ensures longer { IfOk result (λ front. shorter < end → shorter < front.end) }
    ensures whole { IfOk result (λ front. front.verdict ≡ Verdict.Fine → front.end ≡ end) }
    ensures ready { IfOk result (λ front. front.verdict ≡ Verdict.Fine
        → Ready unknowns (classifiers_in state.old) (equations_of (take end equations.now)) state.new) }
{
    if let Some(clash) = extend(state, equations, unknowns, shorter, end)? {
        return Ok(Judgement {
            end: clash,
            verdict: Verdict::Clash,
        });
    }
    flatten(state);
    match sizes(alloc, state)? {
        None => Ok(Judgement {
            end,
            verdict: Verdict::Cycle,
        }),
        Some(all) => {
            for index in 0..unknowns {
                if all[index] > MOST_NODES as u64 {
                    return Ok(Judgement {
                        end,
                        verdict: Verdict::TooBig,
                    });
                }
            }
            Ok(Judgement {
                end,
                verdict: Verdict::Fine,
            })
        }
    }
}

// Adds the equations between two fronts, and settles each before the next; the first front that clashes, if one does.
fn extend(
    state: &mut State,
    equations: &[Equation],
    unknowns: usize,
    shorter: usize,
    end: usize,
) -> Result<Option<usize>, AllocError>
    requires stated { StatesFront unknowns (classifiers_in state.old) equations.now shorter
        state.old }
    requires inside { AllWithin unknowns (classifiers_in state.old) (equations_of equations.now) }
    requires order { shorter ≤ end }
    requires end { end ≤ length equations.now }
    ensures stated { IfOk result (λ clash. IfNone clash
        (StatesFront unknowns (classifiers_in state.old) equations.now end state.new)) }
    ensures clash { IfOk result (λ clash. IfSome clash
        (λ front. ClashesBetween equations.now shorter end front)) }
{
    for index in shorter..end {
        let equation = &equations[index];
        let left = add(state, &equation.left, unknowns)?;
        let right = add(state, &equation.right, unknowns)?;
        postpone(state, Pending { left, right })?;
        if !settle(state)? {
            return Ok(Some(index + 1));
        }
    }
    Ok(None)
}

/// A node for each unknown, of which nothing is said.
pub fn blank(alloc: Global, unknowns: usize, classifiers: usize) -> Result<State, AllocError>
    ensures { IfOk result (λ state. Blank unknowns classifiers state) }
{
    let parent = alone(alloc, unknowns)?;
    let classifier = alone(alloc, classifiers)?;
    let mut shape = Vec::new(alloc);
    shape.resize(unknowns, Shape::Free)?;
    Ok(State {
        parent,
        shape,
        classifier,
        waiting: Vec::new(alloc),
    })
}

// The parents of classes of one each.
fn alone(alloc: Global, count: usize) -> Result<Vec<usize>, AllocError>
    ensures { IfOk result (λ parent. AreAlone count parent.items) }
{
    let mut parent = Vec::with_capacity(alloc, count)?;
    for number in 0..count {
        parent.push(number)?;
    }
    Ok(parent)
}
