//! The program `mw_rows`: it reads the files of rows that its words name, carries each row out, and prints under the
//! row's name what came. It judges nothing: the stored output of the gate is what is expected. At the end it prints how
//! many rows of each kind there were.
//!
//!     mw_rows FILE..
//!
//! A row that cannot be read is an error: its file and line are told on standard error, nothing more is carried out,
//! and the status is 1.
#![tactic(auto)]

mod cached;
mod certificates;
mod code;
mod count;
mod fields;
mod invocations;
mod kernels;
mod linked;
mod machine;
mod modules;
mod outside;
mod phases;
mod programs;
mod reading;
mod runs;
mod shown;
mod sources;
mod texts;
mod wat;

use crate::count::Counts;
use crate::fields::{Fault, Kind, Row};
use crate::reading::rows_of;
use std::process::ExitCode;
use std::rt::Files;
use std::thread::Threads;
use std::{env, fs, io};

/// What came of a row, as lines of text.
fn carried_out<R: AllocGlobal + Threads + Sync>(
    rt: &R,
    row: &Row,
    before: &mut runs::Before,
) -> Result<String, Fault> {
    let alloc = rt.alloc();
    match row.kind {
        Kind::Run => runs::carried_out(rt, row, before),
        Kind::Tree => sources::tree(alloc, row),
        Kind::Verdicts => sources::verdicts(alloc, row),
        Kind::Followers => sources::followers(alloc, row),
        Kind::Fronts => sources::fronts(alloc, row),
        Kind::Program => programs::carried_out(alloc, row),
        Kind::Machine => machine::carried_out(alloc, row),
        Kind::Code => invocations::carried_out(alloc, row),
        Kind::Kernel => kernels::carried_out(rt, alloc, row),
        Kind::Module => kernels::module_bytes(rt, alloc, row),
        Kind::Text => texts::text(alloc, row),
        Kind::Digest => texts::digest_lines(alloc, row),
        Kind::Phases => phases::carried_out(rt, row),
        Kind::Cached => cached::carried_out(rt, row),
        Kind::Linked => linked::carried_out(rt, row),
        Kind::Wat => wat::carried_out(alloc, row),
        Kind::Certificate => certificates::carried_out(alloc, row),
    }
}

/// Says on standard error where a row is malformed, and why.
fn complain<R: Eprint>(rt: &R, file: &str, line: usize, why: &str) -> io::Result<()> {
    eprintln!(rt; "mw_rows: {file}:{line}: {why}")
}

/// Prints what came of a row.
fn show<R: Print>(rt: &R, row: &Row, lines: &str) -> io::Result<()> {
    print!(rt; "[{}] {}\n{}", row.kind.word(), row.name, lines)
}

/// Carries out a row. Says whether it could be read.
fn carry_out_row<R: AllocGlobal + Print + Eprint + Threads + Sync>(
    rt: &R,
    file: &str,
    row: &Row,
    before: &mut runs::Before,
) -> io::Result<bool> {
    match carried_out(rt, row, before) {
        Ok(lines) => {
            show(rt, row, lines.as_str())?;
            Ok(true)
        }
        Err(fault) => {
            complain(rt, file, row.line, fault.why())?;
            Ok(false)
        }
    }
}

/// Carries out rows, and counts them. Says whether all could be read.
fn carry_out_rows<R: AllocGlobal + Print + Eprint + Threads + Sync>(
    rt: &R,
    file: &str,
    rows: &[Row],
    counts: &mut Counts,
) -> io::Result<bool> {
    let mut before = runs::Before::none(rt.alloc());
    for row in rows {
        if !carry_out_row(rt, file, row, &mut before)? {
            return Ok(false);
        }
        counts.add(row.kind);
    }
    Ok(true)
}

/// Carries out the rows of a file, and counts them. Says whether all could be read.
fn carry_out_file<R: AllocGlobal + Files + Print + Eprint + Threads + Sync>(
    rt: &R,
    file: &str,
    counts: &mut Counts,
) -> anyhow::Result<bool> {
    let text = fs::read_to_string(rt, file)?;
    match rows_of(rt.alloc(), text.as_str()) {
        Ok(rows) => Ok(carry_out_rows(rt, file, rows.as_slice(), counts)?),
        Err(misread) => {
            complain(rt, file, misread.line, misread.why)?;
            Ok(false)
        }
    }
}

/// Carries out the rows of files, and counts them. Says whether all could be read.
fn carry_out_files<R: AllocGlobal + Files + Print + Eprint + Threads + Sync>(
    rt: &R,
    files: &[String],
    counts: &mut Counts,
) -> anyhow::Result<bool> {
    for file in files {
        if !carry_out_file(rt, file.as_str(), counts)? {
            return Ok(false);
        }
    }
    Ok(true)
}

fn main(rt: HostRuntime) -> anyhow::Result<ExitCode> {
    let files: Vec<String> = env::args(&rt)?.skip(1).collect(rt.alloc())?;
    let mut counts = Counts::none();
    if !carry_out_files(&rt, files.as_slice(), &mut counts)? {
        return Ok(ExitCode::from(1));
    }
    print!(rt; "{}", counts.lines(rt.alloc())?)?;
    Ok(ExitCode::from(0))
}
