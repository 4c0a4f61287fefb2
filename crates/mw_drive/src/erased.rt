// The erased program of a program.

ghost use Rattle.std.specs.Prelude.{◌≡◌, ◌≤◌, ◌<◌, ◌^◌, []};
ghost use Rattle.mw_term.specs.Programs.{program_of, program_size};
ghost use Rattle.mw_term.specs.Typable.{Typable};
ghost use Rattle.mw_drive.specs.ProgramRuns.{IsWrittenErased};
ghost use Rattle.mw_drive.specs.RunFaults.{BlamesSink};

use crate::ending::write_end;
use crate::fault::RunFault;
use crate::main_end::main_end;
use mw_cache::{Asked, Cache};
use mw_compile::{Entry, Steps};
use mw_console::Status;
use mw_meaning::{Mode, erase_program};
use mw_outside::Sink;
use mw_slots::{Receipts, Table};
use mw_store::Load;
use mw_tasks::{Outcomes, Phase};
use mw_term::Program;
use std::alloc::Global;
use std::sync::ledger::{Blank, Ledger};
use std::thread::Threads;

/// Evaluates main of an accepted program's erased program, which has no kernel items, with so many units, and writes
/// the last line.
pub fn write_erased<R: Threads, K: Sink, L: Ledger>(
    rt: &R,
    alloc: Global,
    table: &Table<Entry>,
    program: &Program,
    fuel: u64,
    sink: &mut K,
    blank: Blank,
) -> Result<Status, RunFault>
    requires name { blank.name ≡ L.name }
    requires parts { blank.parts ≡ L.parts }
    requires some { 0 < L.parts }
    requires typable { Typable (program_of program.now) }
    requires nodes { program_size (program_of program.now) < 2 ^ 31 }
    ensures run { let p = program_of program.now in
        IsWrittenErased fuel p result K.tells (K.written sink.old) (K.written sink.new) }
    ensures blames { BlamesSink result (K.faults sink.old) (K.faults sink.new) }
    ensures count { K.faults sink.old ≤ K.faults sink.new }
{
    let erased = erase_program(alloc, program)?;
    let cache = Cache::new(table, Load::new(alloc));
    let phase = no_kernels(rt, alloc);
    let mut steps = Steps::<L>::open(rt, blank);
    let mut asked = Asked::start(rt);
    let (end, _) = main_end(
        alloc,
        &erased,
        &phase,
        fuel,
        Mode::Plain,
        &cache,
        &mut steps,
        &mut asked,
    )?;
    write_end(alloc, sink, &end)
}

/// The phase of no kernel items.
fn no_kernels<R: Threads>(rt: &R, alloc: Global) -> Phase
    ensures { result.outcomes ≡ [] }
{
    Phase {
        outcomes: Outcomes::new(alloc),
        stored: Receipts::new(alloc),
        emitted: 0,
        asked: Asked::start(rt),
    }
}
