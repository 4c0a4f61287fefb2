//! The program `metaml`: it makes the real source, sink, keeper and gate, and a table of 1,024 slots for modules, calls
//! `mw_drive::run` with the words after its own name, and exits with the status' code. Where there is no memory for the
//! table it ends as with the status of want of memory. For the codes 2 and 5 to 9 it prints one line on standard error.
#![tactic(auto)]

use mw_drive::{Status, run, table};
use mw_outside::{FileKeeper, FileSource, OutSink, Pass};
use std::alloc::AllocError;
use std::env;
use std::io::ErrorKind;
use std::process::ExitCode;
use std::rt::{Env, Files};
use std::thread::Threads;

/// How many slots the table of modules has.
const SLOTS: u32 = 1_024;

fn main(rt: HostRuntime) -> ExitCode {
    let status = match words(&rt) {
        Ok(words) => carry_out(&rt, words.as_slice()),
        Err(status) => status,
    };
    let _ = explain(&rt, &status);
    ExitCode::from(status.code())
}

/// The words after the program's name. One that isn't UTF-8 is a faulty command line.
fn words(rt: &(impl Env + AllocGlobal)) -> Result<Vec<String>, Status> {
    match env::args(rt) {
        Ok(args) => args.skip(1).collect(rt.alloc()).map_err(Status::Memory),
        Err(error) if error.kind() == ErrorKind::OutOfMemory => Err(Status::Memory(AllocError)),
        Err(_) => Err(Status::Usage),
    }
}

/// Runs the command over the real files and standard output.
fn carry_out(rt: &(impl Files + Print + AllocGlobal + Threads + Sync), words: &[String]) -> Status {
    let alloc = rt.alloc();
    let table = match table(alloc, SLOTS) {
        Ok(table) => table,
        Err(error) => return Status::Memory(error),
    };
    let mut source = FileSource::new(rt);
    let mut sink = OutSink::new(rt);
    let mut keeper = FileKeeper::new(alloc, rt);
    run(
        rt,
        alloc,
        words,
        &mut source,
        &mut sink,
        &mut keeper,
        &Pass,
        &table,
    )
}

/// Says on standard error why there is no output, or why the cache isn't kept.
fn explain(rt: &(impl Eprint + AllocGlobal), status: &Status) -> std::io::Result<()> {
    match status {
        Status::Usage => eprintln!(rt;
            "metaml: usage: metaml run [--workers N] [--fuel N] [--cache PATH] FILE"
        ),
        Status::Read => eprintln!(rt; "metaml: cannot read the source"),
        Status::Write => eprintln!(rt; "metaml: cannot write"),
        Status::Cache => eprintln!(rt; "metaml: cannot keep the cache"),
        Status::Memory(_) => eprintln!(rt; "metaml: out of memory"),
        Status::BadCache(digest) => {
            let digest = hex::encode(rt.alloc(), digest)?;
            eprintln!(rt; "metaml: bad cache record {digest}")
        }
        Status::Answer
        | Status::Trap(_)
        | Status::Refused(_)
        | Status::Bound(_)
        | Status::BadModule
        | Status::Invalid
        | Status::NotTyped => Ok(()),
    }
}
