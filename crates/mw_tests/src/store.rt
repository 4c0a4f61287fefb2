// The record of the constant 7, and what is loaded of files that hold it. Its digest was worked out by another program.

use mw_store::{Load, load_of, record_of};
use std::alloc::{AllocError, Global};
use std::process::Abort;

/// The text of 7 at type int, of version 1.
const TEXT: &[u8] = b"emit1 int i 7";

/// Its module, of 64 bytes.
const MODULE: &[u8] = &[
    0x00, 0x61, 0x73, 0x6d, 0x01, 0x00, 0x00, 0x00, 0x01, 0x0b, 0x02, 0x60, 0x02, 0x7e, 0x7e, 0x01,
    0x7e, 0x60, 0x00, 0x01, 0x7e, 0x03, 0x02, 0x01, 0x01, 0x04, 0x05, 0x01, 0x70, 0x01, 0x00, 0x00,
    0x05, 0x04, 0x01, 0x01, 0x40, 0x40, 0x06, 0x06, 0x01, 0x7f, 0x01, 0x41, 0x00, 0x0b, 0x07, 0x08,
    0x01, 0x04, 0x69, 0x6e, 0x69, 0x74, 0x00, 0x00, 0x0a, 0x06, 0x01, 0x04, 0x00, 0x42, 0x07, 0x0b,
];

/// The SHA-256 of the record's other bytes.
const DIGEST: &[u8] = &[
    0x0f, 0xeb, 0x69, 0xc4, 0x97, 0x85, 0x1f, 0xdc, 0x18, 0x02, 0x2a, 0x1b, 0xc8, 0x2c, 0x24, 0xc0,
    0xc6, 0x4a, 0x17, 0xc3, 0x3b, 0xec, 0xab, 0x09, 0x73, 0x6d, 0x3f, 0x0c, 0xa4, 0xbd, 0x16, 0x1a,
];

/// The lengths of text and module, in four bytes each, the lowest first.
const LENGTHS: &[u8] = &[13, 0, 0, 0, 64, 0, 0, 0];

/// A file of so many records of 7, without its last bytes, with a byte changed, and with bytes behind.
struct File {
    records: usize,
    cut: usize,
    changed: Option<usize>,
    behind: &'static [u8],
    count: u32,
    good: usize,
}

const FILES: &[File] = &[
    File {
        records: 0,
        cut: 0,
        changed: None,
        behind: b"",
        count: 0,
        good: 0,
    },
    File {
        records: 1,
        cut: 0,
        changed: None,
        behind: b"",
        count: 1,
        good: 117,
    },
    File {
        records: 2,
        cut: 0,
        changed: None,
        behind: b"",
        count: 1,
        good: 234,
    },
    File {
        records: 1,
        cut: 1,
        changed: None,
        behind: b"",
        count: 0,
        good: 0,
    },
    File {
        records: 3,
        cut: 116,
        changed: None,
        behind: b"",
        count: 1,
        good: 234,
    },
    File {
        records: 1,
        cut: 0,
        changed: Some(20),
        behind: b"",
        count: 0,
        good: 0,
    },
    File {
        records: 1,
        cut: 0,
        changed: Some(116),
        behind: b"",
        count: 0,
        good: 0,
    },
    File {
        records: 2,
        cut: 0,
        changed: Some(117),
        behind: b"",
        count: 1,
        good: 117,
    },
    File {
        records: 1,
        cut: 0,
        changed: None,
        behind: b"\x0d\x00\x00\x00",
        count: 1,
        good: 117,
    },
];

/// Adds so many records of 7.
fn add_records(alloc: Global, bytes: &mut Vec<u8>, count: usize) -> Result<(), AllocError> {
    for _ in 0..count {
        let record_bytes = record_of(alloc, TEXT, MODULE)?;
        bytes.extend_from_slice(record_bytes.as_slice())?;
    }
    Ok(())
}

/// Cuts and changes bytes as those of the file are.
fn spoil<R: Abort>(rt: &R, bytes: &mut Vec<u8>, file: &File) {
    assert!(rt; file.cut <= bytes.len());
    bytes.truncate(bytes.len() - file.cut);
    if let Some(at) = file.changed {
        assert!(rt; at < bytes.len());
        bytes[at] ^= 1;
    }
}

/// The file's bytes.
fn bytes_of<R: Abort + AllocGlobal>(rt: &R, file: &File) -> Result<Vec<u8>, AllocError> {
    let mut bytes = Vec::new(rt.alloc());
    add_records(rt.alloc(), &mut bytes, file.records)?;
    spoil(rt, &mut bytes, file);
    bytes.extend_from_slice(file.behind)?;
    Ok(bytes)
}

/// The record of 7 has 117 bytes: both lengths, text, module and digest.
#[test]
fn record_of_seven(rt: HostRuntime) -> Result<(), AllocError> {
    let record_bytes = record_of(rt.alloc(), TEXT, MODULE)?;
    let bytes = record_bytes.as_slice();
    assert!(rt; bytes.len() == 117);
    assert!(rt; &bytes[..8] == LENGTHS);
    assert!(rt; &bytes[8..21] == TEXT);
    assert!(rt; &bytes[21..85] == MODULE);
    assert!(rt; &bytes[85..] == DIGEST);
    Ok(())
}

/// What is loaded of a file.
fn loaded<R: Abort + AllocGlobal>(rt: &R, file: &File) -> Result<Load, AllocError> {
    let bytes = bytes_of(rt, file)?;
    load_of(rt.alloc(), bytes.as_slice())
}

/// Whether the record of 7 counts alone, with its text and its module.
fn has_seven(load: &Load) -> bool {
    load.count() == 1
        && load.find(TEXT) == Some(0)
        && load.text(0) == TEXT
        && load.bytes(0) == MODULE
}

/// What is loaded of each file.
#[test]
fn loads_what_counts(rt: HostRuntime) -> Result<(), AllocError> {
    for file in FILES {
        let load = loaded(&rt, file)?;
        assert!(rt; load.count() == file.count);
        assert!(rt; load.good() == file.good);
        assert!(rt; has_seven(&load) == (file.count == 1));
    }
    Ok(())
}

fn load_of_seven(alloc: Global) -> Result<Load, AllocError> {
    let record_bytes = record_of(alloc, TEXT, MODULE)?;
    load_of(alloc, record_bytes.as_slice())
}

/// Whether the module that is given has two types and one function; false where there is none.
fn gives_module(alloc: Global, load: &Load) -> bool {
    if load.count() != 1 {
        return false;
    }
    match load.module(alloc, 0) {
        Ok(wasm) => wasm.module().types.len() == 2 && wasm.module().funcs.len() == 1,
        Err(_) => false,
    }
}

/// A loaded module is the same when it is asked for again.
#[test]
fn loaded_modules_stay(rt: HostRuntime) -> Result<(), AllocError> {
    let load = load_of_seven(rt.alloc())?;
    for time in 0..2u8 {
        assert!(rt; gives_module(rt.alloc(), &load), "time {time}");
    }
    Ok(())
}
