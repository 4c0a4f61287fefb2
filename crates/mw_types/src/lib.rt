//! Unification: the most general solution of equations on types and classifiers, or the first front of them that has
//! no solution or too big a one.
#![tactic(auto)]

ghost use Rattle.std.specs.Prelude.{ℕ, ◌≡◌, ◌<◌, ◌≤◌, length, IfOk, IfErr};
ghost use Rattle.mw_types.specs.Equations.{AreFine, AreFirstTooBig, AreFirstUnsolvable, AreWithin};
ghost use Rattle.mw_types.specs.Equations.{GivePrincipalType, HaveMostGeneral, IsSmall, StaysWithin};
ghost use Rattle.mw_types.specs.Types.{type_of};
ghost use Rattle.mw_types.specs.Solutions.{HaveFirstFault, IsFaultOrMemory, IsSolvedOrMemory, substitution_of};

mod answer;
mod build;
mod judging;
pub mod laws;
mod solving;
mod state;
pub mod types;
mod walk;
mod ways;

pub use crate::answer::Solved;
use crate::answer::{answer, type_at};
use crate::solving::settled;
pub use crate::types::{Equation, Equations, Pairs, SolveFault, Ty};
use std::alloc::Global;

/// The most general solution of equations, where no type of it has over 10,000 nodes; else the first front of them that
/// has no solution, or whose most general solution has a type of over 10,000 nodes.
pub fn solve(alloc: Global, equations: &Equations) -> Result<Solved, SolveFault>
    requires within { AreWithin equations.now }
    ensures most_general { IfOk result
        (λ solved. HaveMostGeneral equations.now (substitution_of solved)) }
    ensures small { IfOk result
        (λ solved. IsSmall equations.now.unknowns (substitution_of solved)) }
    ensures within { IfOk result
        (λ solved. StaysWithin equations.now.unknowns equations.now.classifiers (substitution_of solved)) }
    ensures types { IfOk result (λ solved. length solved.types ≡ equations.now.unknowns) }
    ensures classifiers { IfOk result
        (λ solved. length solved.classifiers ≡ equations.now.classifiers) }
    ensures fine { AreFine equations.now → IsSolvedOrMemory result }
    ensures unsolvable { (k : ℕ) → AreFirstUnsolvable equations.now k
        → IsFaultOrMemory result (SolveFault.Unsolvable k) }
    ensures too_big { (k : ℕ) → AreFirstTooBig equations.now k
        → IsFaultOrMemory result (SolveFault.TooBig k) }
    ensures fault { IfErr result (HaveFirstFault equations.now) }
{
    match settled(alloc, equations) {
        Ok(state) => Ok(answer(alloc, &state, equations.unknowns as usize)?),
        Err(fault) => Err(fault),
    }
}

/// The principal type of an unknown: its type in a most general solution of equations, where no type of that has over
/// 10,000 nodes; else the first fault, as `solve`. No other unknown's type is made.
pub fn principal_type(alloc: Global, equations: &Equations, unknown: u64) -> Result<Ty, SolveFault>
    requires within { AreWithin equations.now }
    requires inside { unknown < equations.now.unknowns }
    ensures principal { IfOk result
        (λ ty. GivePrincipalType equations.now unknown (type_of ty)) }
    ensures fault { IfErr result (HaveFirstFault equations.now) }
{
    match settled(alloc, equations) {
        Ok(state) => Ok(type_at(alloc, &state, unknown as usize)?),
        Err(fault) => Err(fault),
    }
}
