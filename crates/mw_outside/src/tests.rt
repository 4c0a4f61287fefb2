// Reading and writing through the traits, at several steps and with calls that fail.

ghost use Rattle.std.specs.Prelude.{◌<◌, IsTrue, IfOk};
ghost use Rattle.mw_outside.specs.Lookup.{names_differ};

use crate::{
    Bytes, Calls, FileSource, Files, KeepFault, Keeper, MemSink, MemSource, NamedFile, OutSink,
    ReadFault, ReadStop, Sink, Source, StartFault, SureKeeper, SureSink, SureSource, WriteFault,
    read_up_to, write_whole,
};
use std::alloc::{AllocError, Global};

/// The numbers of calls.
pub fn calls(alloc: Global, numbers: &[u64]) -> Result<Calls, AllocError> {
    let mut calls = Calls::new(alloc);
    for number in numbers {
        calls.push(*number)?;
    }
    Ok(calls)
}

const FILES: &[(&str, &[u8])] = &[("first", b"one two"), ("empty", b""), ("second", b"three")];

fn add_file(alloc: Global, files: &mut Files, name: &str, bytes: &[u8]) -> Result<(), AllocError> {
    let name = Bytes::copied(alloc, name.as_bytes())?;
    let bytes = Bytes::copied(alloc, bytes)?;
    files.push(NamedFile { name, bytes })
}

fn three_files(alloc: Global) -> Result<Files, AllocError>
    ensures { IfOk result (λ files. IsTrue (names_differ files)) }
{
    let mut files = Files::new(alloc);
    for &(name, bytes) in FILES {
        add_file(alloc, &mut files, name, bytes)?;
    }
    if !files.names_differ() {
        return Err(AllocError);
    }
    Ok(files)
}

#[derive(Clone, Copy, Debug, PartialEq, Eq)]
enum Ending {
    Missing,
    NotStarted,
    Stopped,
    Read,
}

/// How reading at most `most` bytes of the file of this name ends, and what was read.
fn read_file<S: Source>(
    alloc: Global,
    source: &mut S,
    name: &str,
    most: usize,
) -> Result<(Ending, Vec<u8>), AllocError>
    requires { 0 < most }
{
    match source.start(name) {
        Err(StartFault::Missing) => return Ok((Ending::Missing, Vec::new(alloc))),
        Err(StartFault::Failed) => return Ok((Ending::NotStarted, Vec::new(alloc))),
        Ok(()) => {}
    }
    match read_up_to(alloc, source, most) {
        Ok(bytes) => Ok((Ending::Read, bytes)),
        Err(ReadStop::Failed) => Ok((Ending::Stopped, Vec::new(alloc))),
        Err(ReadStop::Memory(error)) => Err(error),
    }
}

/// Whether it ends so, with these bytes.
fn reads_so<S: Source>(
    alloc: Global,
    source: &mut S,
    name: &str,
    most: usize,
    ending: Ending,
    bytes: &[u8],
) -> Result<bool, AllocError>
    requires { 0 < most }
{
    let (found, read) = read_file(alloc, source, name, most)?;
    Ok(found == ending && read.as_slice() == bytes)
}

/// A file that is read by steps, where these calls fail, up to a length; how that ends, and what was read.
struct ReadRow {
    name: &'static str,
    step: usize,
    failing: &'static [u64],
    most: usize,
    ending: Ending,
    bytes: &'static [u8],
}

const READS: &[ReadRow] = &[
    ReadRow {
        name: "first",
        step: 1,
        failing: &[],
        most: 100,
        ending: Ending::Read,
        bytes: b"one two",
    },
    ReadRow {
        name: "first",
        step: 3,
        failing: &[],
        most: 100,
        ending: Ending::Read,
        bytes: b"one two",
    },
    ReadRow {
        name: "second",
        step: 100,
        failing: &[],
        most: 100,
        ending: Ending::Read,
        bytes: b"three",
    },
    ReadRow {
        name: "second",
        step: 3,
        failing: &[],
        most: 4,
        ending: Ending::Read,
        bytes: b"thre",
    },
    ReadRow {
        name: "empty",
        step: 3,
        failing: &[],
        most: 4,
        ending: Ending::Read,
        bytes: b"",
    },
    ReadRow {
        name: "third",
        step: 3,
        failing: &[],
        most: 4,
        ending: Ending::Missing,
        bytes: b"",
    },
    ReadRow {
        name: "first",
        step: 3,
        failing: &[0],
        most: 9,
        ending: Ending::NotStarted,
        bytes: b"",
    },
    ReadRow {
        name: "first",
        step: 3,
        failing: &[2],
        most: 9,
        ending: Ending::Stopped,
        bytes: b"",
    },
    ReadRow {
        name: "first",
        step: 3,
        failing: &[9, 4],
        most: 9,
        ending: Ending::Stopped,
        bytes: b"",
    },
    ReadRow {
        name: "first",
        step: 3,
        failing: &[5],
        most: 9,
        ending: Ending::Read,
        bytes: b"one two",
    },
];

/// The three files, read by this step, where these calls fail.
fn source_of(alloc: Global, failing: &[u64], step: usize) -> Result<MemSource, AllocError>
    requires { 0 < step }
{
    let failing = calls(alloc, failing)?;
    Ok(MemSource::new(three_files(alloc)?, failing, step))
}

fn row_is_read(alloc: Global, row: &ReadRow) -> Result<bool, AllocError>
    requires step { 0 < row.now.step }
    requires most { 0 < row.now.most }
{
    let mut source = source_of(alloc, row.failing, row.step)?;
    reads_so(
        alloc,
        &mut source,
        row.name,
        row.most,
        row.ending,
        row.bytes,
    )
}

#[test]
fn reads(rt: HostRuntime) -> Result<(), AllocError> {
    for row in READS {
        assert!(rt; 0 < row.step && 0 < row.most);
        let fine = row_is_read(rt.alloc(), row)?;
        assert!(rt;
            fine,
            "{} by {}, failing {:?}",
            row.name, row.step, row.failing
        );
    }
    Ok(())
}

/// Three pieces that are written by steps, where these calls fail; how that ends, and what was written.
struct WriteRow {
    step: usize,
    failing: &'static [u64],
    outcome: Result<(), WriteFault>,
    written: &'static [u8],
}

const WRITES: &[WriteRow] = &[
    WriteRow {
        step: 1,
        failing: &[],
        outcome: Ok(()),
        written: b"one twothree",
    },
    WriteRow {
        step: 3,
        failing: &[],
        outcome: Ok(()),
        written: b"one twothree",
    },
    WriteRow {
        step: 100,
        failing: &[2],
        outcome: Ok(()),
        written: b"one twothree",
    },
    WriteRow {
        step: 3,
        failing: &[1],
        outcome: Err(WriteFault::Failed),
        written: b"one",
    },
    WriteRow {
        step: 3,
        failing: &[4],
        outcome: Err(WriteFault::Failed),
        written: b"one twothr",
    },
];

fn write_pieces<K: Sink>(sink: &mut K) -> Result<(), WriteFault> {
    write_whole(sink, b"one two")?;
    write_whole(sink, b"")?;
    write_whole(sink, b"three")
}

fn row_is_written(alloc: Global, row: &WriteRow) -> Result<bool, AllocError>
    requires { 0 < row.now.step }
{
    let mut sink = MemSink::new(alloc, calls(alloc, row.failing)?, row.step);
    let outcome = write_pieces(&mut sink);
    Ok(outcome == row.outcome && sink.written() == row.written)
}

#[test]
fn writes(rt: HostRuntime) -> Result<(), AllocError> {
    for row in WRITES {
        assert!(rt; 0 < row.step);
        let fine = row_is_written(rt.alloc(), row)?;
        assert!(rt; fine, "by {}, failing {:?}", row.step, row.failing);
    }
    Ok(())
}

/// How many bytes each of three reads into four bytes and a first write of seven moves by a step; what is written then.
struct StepRow {
    step: usize,
    counts: [Result<usize, ReadFault>; 3],
    first: usize,
    written: &'static [u8],
}

const STEPS: &[StepRow] = &[
    StepRow {
        step: 1,
        counts: [Ok(1), Ok(1), Ok(1)],
        first: 1,
        written: b"oone twothree",
    },
    StepRow {
        step: 3,
        counts: [Ok(3), Ok(3), Ok(1)],
        first: 3,
        written: b"oneone twothree",
    },
    StepRow {
        step: 100,
        counts: [Ok(4), Ok(3), Ok(0)],
        first: 7,
        written: b"one twoone twothree",
    },
];

/// How many bytes each of three reads into four bytes moves.
fn three_counts(source: &mut SureSource) -> Option<[Result<usize, ReadFault>; 3]> {
    if source.start("first").is_err() {
        return None;
    }
    let mut piece = [0u8; 4];
    let counts = [
        source.read(&mut piece),
        source.read(&mut piece),
        source.read(&mut piece),
    ];
    Some(counts)
}

/// Whether a sure source finds no third file, reads a front of the second, and moves as many bytes of the first.
fn row_is_moved_in(alloc: Global, row: &StepRow) -> Result<bool, AllocError>
    requires { 0 < row.now.step }
{
    let mut source = SureSource::new(three_files(alloc)?, row.step);
    let missing = source.start("third") == Err(StartFault::Missing);
    let front = reads_so(alloc, &mut source, "second", 4, Ending::Read, b"thre")?;
    Ok(missing && front && three_counts(&mut source) == Some(row.counts))
}

/// Whether a sure sink takes as many bytes of a first write, and all of the pieces behind it.
fn row_is_moved_out(alloc: Global, row: &StepRow) -> bool
    requires { 0 < row.now.step }
{
    let mut sink = SureSink::new(alloc, row.step);
    let first = sink.write(b"one two") == Ok(row.first);
    let pieces = write_pieces(&mut sink).is_ok();
    first && pieces && sink.written() == row.written
}

#[test]
fn moves_by_steps(rt: HostRuntime) -> Result<(), AllocError> {
    for row in STEPS {
        assert!(rt; 0 < row.step);
        let fine = row_is_moved_in(rt.alloc(), row)?;
        assert!(rt; fine, "in by {}", row.step);
        let fine = row_is_moved_out(rt.alloc(), row);
        assert!(rt; fine, "out by {}", row.step);
    }
    Ok(())
}

/// Whether the keeper was started with two names, of which the second is empty.
fn was_opened_twice(keeper: &SureKeeper) -> bool {
    match keeper.opened() {
        [first, second] => first.as_slice() == b"any".as_slice() && second.as_slice().is_empty(),
        _ => false,
    }
}

/// Whether a keeper that wasn't started takes two names.
fn takes_names(keeper: &mut SureKeeper) -> Result<bool, KeepFault> {
    let fresh = keeper.opened().is_empty();
    keeper.start("any")?;
    keeper.start("")?;
    Ok(fresh && was_opened_twice(keeper))
}

/// Whether a keeper that holds `one ` takes `two`, and of what it keeps up to a length the front is read.
fn takes_bytes(alloc: Global, keeper: &mut SureKeeper) -> Result<bool, KeepFault> {
    keeper.append(b"two")?;
    let added = keeper.held() == b"one two".as_slice();
    keeper.cut(5)?;
    let read = keeper.read_all(alloc, 4)?;
    Ok(added && read.as_slice() == b"one ".as_slice() && keeper.held() == b"one t".as_slice())
}

#[test]
fn keeps(rt: HostRuntime) -> Result<(), AllocError> {
    let mut keeper = SureKeeper::new(rt.alloc(), Bytes::copied(rt.alloc(), b"one ")?);
    assert!(rt; takes_names(&mut keeper) == Ok(true));
    assert!(rt; takes_bytes(rt.alloc(), &mut keeper) == Ok(true));
    Ok(())
}

/// Real files, how reading at most nine bytes ends, and what was read.
const REAL_FILES: &[(&str, Ending, &[u8])] = &[
    ("/dev/no such file", Ending::Missing, b""),
    ("/dev/null", Ending::Read, b""),
    ("/proc/sys/kernel/ostype", Ending::Read, b"Linux\n"),
    ("/", Ending::Stopped, b""),
];

#[test]
fn reads_real_files(rt: HostRuntime) -> Result<(), AllocError> {
    let mut source = FileSource::new(&rt);
    for &(name, ending, bytes) in REAL_FILES {
        let fine = reads_so(rt.alloc(), &mut source, name, 9, ending, bytes)?;
        assert!(rt; fine, "{name}");
    }
    Ok(())
}

#[test]
fn writes_output(rt: HostRuntime) {
    let mut sink = OutSink::new(&rt);
    assert!(rt; write_pieces(&mut sink).is_ok());
}
