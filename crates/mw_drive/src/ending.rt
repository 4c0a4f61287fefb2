// How a program ends, and its last line.

ghost use Rattle.std.specs.Prelude.{◌≡◌, ◌≤◌, ◌++◌, IfOk, IfErr};
ghost use Rattle.mw_console.specs.Texts.{ending_line, ending_status, refusal_line};
ghost use Rattle.mw_drive.specs.ProgramRuns.{ending_of, IsUsual};
ghost use Rattle.mw_drive.specs.RunFaults.{BlamesSink};
ghost use Rattle.mw_drive.specs.Written.{Writes};

use crate::fault::RunFault;
use mw_console::{Status, put_answer, put_bound, put_trap, write_lines};
use mw_outside::Sink;
use mw_term::{GroundValue, Limit, TrapKind};
use std::alloc::{AllocError, Global};

/// How a program ends: with main's value, or, in the item of a name or in main, by a trap or at a bound.
#[derive(Drop)]
pub enum End<'p> {
    Answered(GroundValue),
    Trapped(TrapKind, &'p [u8]),
    Bounded(Limit, &'p [u8]),
}

/// The last line, and the status that says the same.
fn put_end(alloc: Global, text: &mut Vec<u8>, end: &End<'_>) -> Result<Status, AllocError>
    ensures text { IfOk result
        (λ _. text.new.items ≡ text.old.items ++ ending_line (ending_of end.now)) }
    ensures status { IfOk result (λ status. status ≡ ending_status (ending_of end.now)) }
{
    match end {
        End::Answered(value) => {
            put_answer(alloc, text, value)?;
            Ok(Status::Answer)
        }
        End::Trapped(trap, name) => {
            put_trap(text, *trap, name)?;
            Ok(Status::Trap(*trap))
        }
        End::Bounded(limit, name) => {
            put_bound(text, *limit, name)?;
            Ok(Status::Bound(*limit))
        }
    }
}

/// Writes the last line. The status says the same.
pub fn write_end<K: Sink>(alloc: Global, sink: &mut K, end: &End<'_>) -> Result<Status, RunFault>
    ensures status { IfOk result (λ status. status ≡ ending_status (ending_of end.now)) }
    ensures usual { IfErr result IsUsual }
    ensures writes { Writes result K.tells (K.written sink.old) (K.written sink.new)
        (ending_line (ending_of end.now)) }
    ensures blames { BlamesSink result (K.faults sink.old) (K.faults sink.new) }
    ensures count { K.faults sink.old ≤ K.faults sink.new }
{
    let mut text = Vec::new(alloc);
    let status = put_end(alloc, &mut text, end)?;
    write_lines(sink, text.as_slice())?;
    Ok(status)
}
