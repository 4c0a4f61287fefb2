//! The program `mw_modules`: it decodes and validates modules, and prints what came.
//!
//!     mw_modules verdict FILE    the verdict of a file: `valid`, `invalid`, or its first fault and its place
//!     mw_modules rows FILE..     the verdict of each row of these files, under its name, and how many rows there were
//!     mw_modules records FILE    how many records of a cache file are undamaged and have a valid module, up to the
//!                                first that hasn't, to be timed
#![tactic(auto)]

mod records;
mod rows;
mod verdict;

use crate::records::sound_records;
use crate::rows::{Row, RowFault, row_of, stands_alone};
use crate::verdict::{verdict, verdict_of_row};
use std::process::ExitCode;
use std::rt::Files;
use std::{env, fs};

/// The code of a command line that is no command's.
const USAGE: u8 = 2;

/// The code where a line is no row.
const MALFORMED: u8 = 3;

/// Prints the verdict of a file.
fn print_verdict(rt: &(impl Files + Print + AllocGlobal), file: &str) -> anyhow::Result<()> {
    let bytes = fs::read(rt, file)?;
    println!(rt; "{}", verdict(rt.alloc(), bytes.as_slice())?.as_str())?;
    Ok(())
}

/// Prints how many records of a file are sound.
fn print_records(rt: &(impl Files + Print + AllocGlobal), file: &str) -> anyhow::Result<()> {
    let bytes = fs::read(rt, file)?;
    let count = sound_records(rt.alloc(), bytes.as_slice())?;
    println!(rt; "{count} records")?;
    Ok(())
}

/// Prints the verdict of a row under its name.
fn print_row(rt: &(impl Print + AllocGlobal), row: &Row) -> anyhow::Result<()> {
    let verdict = verdict_of_row(rt.alloc(), row.bytes.as_slice())?;
    println!(rt; "{}\n    {}", row.name.as_str(), verdict.as_str())?;
    Ok(())
}

/// Prints the verdicts of a file's rows, and says how many there are: none where a line is malformed, which it names.
fn print_rows(
    rt: &(impl Files + Print + Eprint + AllocGlobal),
    file: &str,
) -> anyhow::Result<Option<u64>> {
    let text = fs::read_to_string(rt, file)?;
    let mut count = 0u64;
    let mut at = 0u64;
    for line in text.lines() {
        at = at.saturating_add(1);
        if stands_alone(line) {
            continue;
        }
        match row_of(rt.alloc(), line) {
            Ok(row) => print_row(rt, &row)?,
            Err(RowFault::Malformed) => {
                eprintln!(rt; "mw_modules: {file}: line {at} is no row")?;
                return Ok(None);
            }
            Err(RowFault::Memory(error)) => return Err(error.into()),
        }
        count = count.saturating_add(1);
    }
    Ok(Some(count))
}

/// Prints the verdicts of the rows of some files, and how many rows there are.
fn print_files(
    rt: &(impl Files + Print + Eprint + AllocGlobal),
    files: &[String],
) -> anyhow::Result<ExitCode> {
    let mut count = 0u64;
    for file in files {
        match print_rows(rt, file.as_str())? {
            Some(rows) => count = count.saturating_add(rows),
            None => return Ok(ExitCode::from(MALFORMED)),
        }
    }
    println!(rt; "{count} rows")?;
    Ok(ExitCode::from(0))
}

fn main(rt: HostRuntime) -> anyhow::Result<ExitCode> {
    let words: Vec<String> = env::args(&rt)?.collect(rt.alloc())?;
    let command = words.get(1).map(|word| word.as_str());
    if let (Some("verdict"), Some(file), 3) = (command, words.get(2), words.len()) {
        print_verdict(&rt, file.as_str())?;
        return Ok(ExitCode::from(0));
    }
    if let (Some("records"), Some(file), 3) = (command, words.get(2), words.len()) {
        print_records(&rt, file.as_str())?;
        return Ok(ExitCode::from(0));
    }
    if let (Some("rows"), Some(files)) = (command, words.as_slice().get(2..)) {
        return print_files(&rt, files);
    }
    eprintln!(rt;
        "mw_modules: usage: mw_modules verdict FILE, mw_modules rows FILE.., or mw_modules records FILE"
    )?;
    Ok(ExitCode::from(USAGE))
}
