//! The program `metaml_explain`: it says in lines for tools why the source in a file is refused, and where.
#![tactic(auto)]

mod lines;

use crate::lines::put_explanation;
use mw_explain::explain;
use mw_outside::{FileSource, ReadStop, Source, read_up_to};
use std::alloc::{AllocError, Global};
use std::env;
use std::io::ErrorKind;
use std::process::ExitCode;
use std::rt::{Env, Files};

/// One byte more than the longest source: reading ends with it.
const MOST_OF_SOURCE: usize = 1_048_577;

/// Why nothing, or not all, was printed.
#[derive(Clone, Copy)]
enum Failure {
    Usage,
    Read,
    Write,
    Memory,
}

impl From<AllocError> for Failure {
    fn from(_error: AllocError) -> Failure {
        Failure::Memory
    }
}

impl Failure {
    fn code(self) -> u8 {
        match self {
            Failure::Usage => 2,
            Failure::Read => 5,
            Failure::Write => 6,
            Failure::Memory => 8,
        }
    }

    fn words(self) -> &'static str {
        match self {
            Failure::Usage => "usage: metaml_explain FILE",
            Failure::Read => "cannot read the source",
            Failure::Write => "cannot write",
            Failure::Memory => "out of memory",
        }
    }
}

fn main(rt: HostRuntime) -> ExitCode {
    match run(&rt) {
        Ok(()) => ExitCode::from(0),
        Err(failure) => {
            let _ = eprintln!(&rt; "metaml_explain: {}", failure.words());
            ExitCode::from(failure.code())
        }
    }
}

/// Prints the lines of the file that is named.
fn run(rt: &(impl Env + Files + Print + AllocGlobal)) -> Result<(), Failure> {
    let alloc = rt.alloc();
    let name = file_name(rt)?;
    let bytes = file_bytes(rt, alloc, name.as_str())?;
    let explanation = explain(alloc, bytes.as_slice())?;
    let mut text = String::new(alloc);
    put_explanation(&mut text, explanation.as_ref())?;
    match print!(rt; "{}", text.as_str()) {
        Ok(()) => Ok(()),
        Err(_) => Err(Failure::Write),
    }
}

/// The one word of the command line.
fn file_name(rt: &(impl Env + AllocGlobal)) -> Result<String, Failure> {
    let args = match env::args(rt) {
        Ok(args) => args,
        Err(error) if error.kind() == ErrorKind::OutOfMemory => return Err(Failure::Memory),
        Err(_) => return Err(Failure::Usage),
    };
    let mut words: Vec<String> = args.skip(1).collect(rt.alloc())?;
    match (words.pop(), words.is_empty()) {
        (Some(name), true) => Ok(name),
        _ => Err(Failure::Usage),
    }
}

/// The bytes of a file, up to one more than a source may have.
fn file_bytes(rt: &impl Files, alloc: Global, name: &str) -> Result<Vec<u8>, Failure> {
    let mut source = FileSource::new(rt);
    if source.start(name).is_err() {
        return Err(Failure::Read);
    }
    match read_up_to(alloc, &mut source, MOST_OF_SOURCE) {
        Ok(bytes) => Ok(bytes),
        Err(ReadStop::Failed) => Err(Failure::Read),
        Err(ReadStop::Memory(_)) => Err(Failure::Memory),
    }
}
