//! Why a source is refused, and where: its first refusal, and for types the place, the two types that should be one,
//! what could be changed, and which variable keeps code open.
#![tactic(auto)]

ghost use Rattle.std.specs.Prelude.{length, IfOk};
ghost use Rattle.mw_term.specs.declared.refusal.Refusal.{Refusal as PureRefusal};
ghost use Rattle.mw_term.specs.Programs.{program_of};
ghost use Rattle.mw_term.specs.Parts.{IsResolved};
ghost use Rattle.mw_infer.specs.Checking.{IsFirstRefusal};
ghost use Rattle.mw_explain.specs.Verdicts.{HavePlaces, IsSourceRefusal, IsTypeVerdict, IsVerdict, RefusesOrMemory};

mod arena;
mod binders;
mod expressions;
mod forms;
mod placing;
mod reading;
mod repairs;
mod spans;
mod telling;

pub use crate::forms::{Bound, Form, Node, Span};
pub use crate::spans::{PartSpans, fits, spans as source_spans};
use crate::telling::tell;
pub use crate::telling::{Told, Unclosed, Unmet};
use mw_infer::check;
use mw_reading::read;
use mw_term::{Program, Refusal, Stop};
use std::alloc::{AllocError, Global};

/// A source's first refusal, and what is told of it.
#[derive(Debug, Drop)]
pub struct Explanation {
    pub refusal: Refusal,
    /// For the refusals of types always, and for no other.
    pub told: Option<Told>,
}

/// Why a source with these bytes is refused, if it is.
pub fn explain(alloc: Global, bytes: &[u8]) -> Result<Option<Explanation>, AllocError>
    ensures verdict { IfOk result (IsVerdict bytes.now) }
    ensures placed { IfOk result (HavePlaces (length bytes.now)) }
    ensures only { (r : PureRefusal) → IsSourceRefusal bytes.now r → RefusesOrMemory r result }
{
    match read(alloc, bytes) {
        Ok(program) => explain_types(alloc, bytes, &program),
        Err(Stop::Memory(error)) => Err(error),
        Err(Stop::Refused(refusal)) => {
            let told = None;
            Ok(Some(Explanation { refusal, told }))
        }
    }
}

/// Why a program with this source is refused for its types, if it is.
fn explain_types(
    alloc: Global,
    bytes: &[u8],
    program: &Program,
) -> Result<Option<Explanation>, AllocError>
    requires { IsResolved (program_of program.now) }
    ensures verdict { IfOk result (IsTypeVerdict (program_of program.now)) }
    ensures placed { IfOk result (HavePlaces (length bytes.now)) }
    ensures only { (r : PureRefusal) → IsFirstRefusal (program_of program.now) r
        → RefusesOrMemory r result }
{
    match check(alloc, program) {
        Ok(typed) => {
            drop(typed);
            Ok(None)
        }
        Err(Stop::Memory(error)) => Err(error),
        Err(Stop::Refused(refusal)) => {
            let told = tell(alloc, bytes, program)?;
            Ok(Some(Explanation { refusal, told }))
        }
    }
}
