// Commands over what is outside, in memory.

use crate::fields::{Fault, Row, number_in};
use mw_console::Status;
use mw_drive::{run, table};
use mw_outside::{Bytes, Calls, Files, MemKeeper, MemSink, MemSource, NamedFile, Pass};
use std::alloc::{AllocError, Global};
use std::thread::Threads;

/// How many slots the table of modules has, which each run has anew.
const SLOTS: u32 = 1_024;

/// The name of the file with the row's source in it.
const SOURCE: &str = "source.metaml";

/// The name of the file with the row's certificate in it.
const CERTIFICATE: &str = "cert";

/// How a command ended: its status, what it wrote, and what the keeper held then.
#[derive(Drop)]
pub struct Ended {
    pub status: Status,
    pub written: Vec<u8>,
    pub held: Vec<u8>,
}

/// The numbers of the calls that fail.
fn calls(alloc: Global, row: &Row, name: &str) -> Result<Calls, Fault> {
    let mut calls = Calls::new(alloc);
    for word in row.text(name)?.split_whitespace() {
        calls.push(number_in(word)?)?;
    }
    Ok(calls)
}

/// A file of this name, with these bytes in it.
fn file_of(alloc: Global, name: &str, bytes: &[u8]) -> Result<NamedFile, AllocError> {
    let bytes = Bytes::copied(alloc, bytes)?;
    let name = Bytes::copied(alloc, name.as_bytes())?;
    Ok(NamedFile { name, bytes })
}

/// The files: the source's, and the certificate's where the row has one.
fn files_of(alloc: Global, row: &Row) -> Result<Files, AllocError> {
    let mut files = Files::new(alloc);
    files.push(file_of(alloc, SOURCE, row.bytes("source"))?)?;
    if row.has("cert") {
        files.push(file_of(alloc, CERTIFICATE, row.bytes("cert"))?)?;
    }
    Ok(files)
}

/// The source with its files, of which it gives so many bytes at once.
fn source_of(alloc: Global, row: &Row) -> Result<MemSource, Fault> {
    let piece = row.number("piece", 7)?;
    if piece == 0 {
        return Err(Fault::Malformed("a source that gives nothing"));
    }
    let failing = calls(alloc, row, "reads")?;
    let files = files_of(alloc, row)?;
    if !files.names_differ() {
        return Err(Fault::Malformed("two files of one name"));
    }
    Ok(MemSource::new(files, failing, piece as usize))
}

/// The sink, which takes so many bytes at once.
fn sink_of(alloc: Global, row: &Row) -> Result<MemSink, Fault> {
    let step = row.number("step", 10)?;
    if step == 0 {
        return Err(Fault::Malformed("a sink that takes nothing"));
    }
    let failing = calls(alloc, row, "writes")?;
    Ok(MemSink::new(alloc, failing, step as usize))
}

/// The keeper, which holds these bytes.
fn keeper_of(alloc: Global, row: &Row, held: &[u8]) -> Result<MemKeeper, Fault> {
    let failing = calls(alloc, row, "keeps")?;
    Ok(MemKeeper::new(alloc, Bytes::copied(alloc, held)?, failing))
}

/// How the command of these words ends, over a source and a sink of the row and a keeper that holds these bytes.
pub fn end_of<R: AllocGlobal + Threads + Sync>(
    rt: &R,
    row: &Row,
    words: &[String],
    held: &[u8],
) -> Result<Ended, Fault> {
    let alloc = rt.alloc();
    let mut source = source_of(alloc, row)?;
    let mut sink = sink_of(alloc, row)?;
    let mut keeper = keeper_of(alloc, row, held)?;
    let table = table(alloc, SLOTS)?;
    let status = run(
        rt,
        alloc,
        words,
        &mut source,
        &mut sink,
        &mut keeper,
        &Pass,
        &table,
    );
    Ok(Ended {
        status,
        written: Vec::from_slice(alloc, sink.written())?,
        held: Vec::from_slice(alloc, keeper.held())?,
    })
}
