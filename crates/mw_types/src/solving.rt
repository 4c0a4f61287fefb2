// Equations as a state, or their first fault.

ghost use Rattle.std.specs.Prelude.{◌≡◌, ◌≢◌, ◌<◌, ◌≤◌, ◌+◌, length, IfErr, IfOk, IsTrue, ◌↔◌};
ghost use Rattle.mw_types.specs.Answering.{Ready};
ghost use Rattle.mw_types.specs.Equations.{AllWithin, AreWithin, equations_of};
ghost use Rattle.mw_types.specs.Judged.{JudgesFront, Faults};
ghost use Rattle.mw_types.specs.Solutions.{HaveFirstFault};

use crate::judging::{Judgement, Verdict, blank, judge, judge_longer};
use crate::state::{State, copy};
use crate::types::{Equation, Equations, SolveFault};
use std::alloc::{AllocError, Global};

/// The state that says what the equations say, where they are fine; else their first fault.
pub fn settled(alloc: Global, equations: &Equations) -> Result<State, SolveFault>
    requires within { AreWithin equations.now }
    ensures ready { IfOk result
        (Ready equations.now.unknowns equations.now.classifiers (equations_of equations.now.pairs)) }
    ensures fault { IfErr result (HaveFirstFault equations.now) }
{
    let unknowns = equations.unknowns as usize;
    let classifiers = equations.classifiers as usize;
    let pairs = equations.pairs.as_slice();
    let mut state = blank(alloc, unknowns, classifiers)?;
    let whole = judge(alloc, &mut state, pairs)?;
    if is_fine(whole.verdict) {
        Ok(state)
    } else {
        Err(first_fault(alloc, pairs, unknowns, classifiers, whole)?)
    }
}

/// The first fault of equations that have one, by halving: the state of the longest front that is known to be fine is
/// kept, and each front that is tried begins with a copy of it.
pub fn first_fault(
    alloc: Global,
    equations: &[Equation],
    unknowns: usize,
    classifiers: usize,
    faulty: Judgement,
) -> Result<SolveFault, AllocError>
    requires inside { AllWithin unknowns classifiers (equations_of equations.now) }
    requires judged { JudgesFront unknowns equations.now faulty }
    requires within { faulty.end ≤ length equations.now }
    requires fault { faulty.verdict ≢ Verdict.Fine }
    ensures { IfOk result (λ fault. Faults unknowns (equations_of equations.now) fault) }
{
    let mut state = blank(alloc, unknowns, classifiers)?;
    let mut low = 0;
    let mut high = faulty;
    while high.end - low > 1 {
        let middle = between(low, high);
        let mut longer = copy(alloc, &state)?;
        let front = judge_longer(alloc, &mut longer, equations, unknowns, low, middle)?;
        if is_fine(front.verdict) {
            state = longer;
            low = middle;
        } else {
            high = front;
        }
    }
    let length = high.end as u64;
    match high.verdict {
        Verdict::Fine => unreachable!(),
        Verdict::Clash => Ok(SolveFault::Unsolvable(length)),
        Verdict::Cycle => Ok(SolveFault::Unsolvable(length)),
        Verdict::TooBig => Ok(SolveFault::TooBig(length)),
    }
}

// The front to be tried between a fine one and a longer one with a fault: the last before a clash, which is mostly the
// first fault, and else the middle.
fn between(low: usize, high: Judgement) -> usize
    requires apart { low + 1 < high.end }
    ensures above { low < result }
    ensures below { result < high.end }
{
    match high.verdict {
        Verdict::Clash => high.end - 1,
        _ => low + (high.end - low) / 2,
    }
}

/// Whether there is no fault.
pub fn is_fine(verdict: Verdict) -> bool
    ensures { IsTrue result ↔ verdict ≡ Verdict.Fine }
{
    match verdict {
        Verdict::Fine => true,
        Verdict::Clash => false,
        Verdict::Cycle => false,
        Verdict::TooBig => false,
    }
}
