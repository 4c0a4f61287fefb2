// The texts of 7 in both versions, and what becomes of files that hold them.

ghost use Rattle.std.specs.Prelude.{◌≡◌, ◌<◌, ◌^◌, length};

use mw_cache::{Migration, migration_of};
use mw_compile::Steps;
use mw_store::{load_of, record_of};
use std::alloc::{AllocError, Global};
use std::marker::Brand;
use std::sync::ledger::{Blank, Ledger};
use std::thread::Threads;

/// The text of 7 at type int, of version One.
const OLD: &[u8] = b"emit1 int i 7";

/// The same of version Two.
const NEW: &[u8] = b"emit2 int i 7";

/// Its module, of 64 bytes, which is the same in both versions.
const MODULE: &[u8] = &[
    0x00, 0x61, 0x73, 0x6d, 0x01, 0x00, 0x00, 0x00, 0x01, 0x0b, 0x02, 0x60, 0x02, 0x7e, 0x7e, 0x01,
    0x7e, 0x60, 0x00, 0x01, 0x7e, 0x03, 0x02, 0x01, 0x01, 0x04, 0x05, 0x01, 0x70, 0x01, 0x00, 0x00,
    0x05, 0x04, 0x01, 0x01, 0x40, 0x40, 0x06, 0x06, 0x01, 0x7f, 0x01, 0x41, 0x00, 0x0b, 0x07, 0x08,
    0x01, 0x04, 0x69, 0x6e, 0x69, 0x74, 0x00, 0x00, 0x0a, 0x06, 0x01, 0x04, 0x00, 0x42, 0x07, 0x0b,
];

/// Which texts a file holds, how many of them are of version One, and how many records are added for these.
struct File {
    has_old: bool,
    has_new: bool,
    old: u32,
    added: usize,
}

const FILES: [File; 4] = [
    File {
        has_old: true,
        has_new: false,
        old: 1,
        added: 1,
    },
    File {
        has_old: true,
        has_new: true,
        old: 1,
        added: 0,
    },
    File {
        has_old: false,
        has_new: true,
        old: 0,
        added: 0,
    },
    File {
        has_old: false,
        has_new: false,
        old: 0,
        added: 0,
    },
];

/// Adds the record of a text.
fn add_record(alloc: Global, bytes: &mut Vec<u8>, text: &[u8]) -> Result<(), AllocError>
    requires { length text.now < 2 ^ 32 }
{
    let record_bytes = record_of(alloc, text, MODULE)?;
    bytes.extend_from_slice(record_bytes.as_slice())
}

/// The file's bytes.
fn bytes_of(alloc: Global, file: &File) -> Result<Vec<u8>, AllocError> {
    let mut bytes = Vec::new(alloc);
    if file.has_old {
        add_record(alloc, &mut bytes, OLD)?;
    }
    if file.has_new {
        add_record(alloc, &mut bytes, NEW)?;
    }
    Ok(bytes)
}

/// What becomes of a file's texts of version One.
fn migrated<R: Threads>(rt: &R, alloc: Global, bytes: &[u8]) -> Result<Migration, AllocError> {
    counted::<R, Brand>(rt, alloc, bytes, Blank::new(1))
}

/// The same, with a count of emissions that begins here.
fn counted<R: Threads, L: Ledger>(
    rt: &R,
    alloc: Global,
    bytes: &[u8],
    blank: Blank,
) -> Result<Migration, AllocError>
    requires name { blank.name ≡ L.name }
    requires parts { blank.parts ≡ L.parts }
    requires some { 0 < L.parts }
{
    let mut steps = Steps::<L>::open(rt, blank);
    let load = load_of(alloc, bytes)?;
    migration_of(alloc, &load, &mut steps)
}

/// Whether these bytes are the record of version Two.
fn is_new_record(alloc: Global, bytes: &[u8]) -> Result<bool, AllocError> {
    let record_bytes = record_of(alloc, NEW, MODULE)?;
    Ok(record_bytes.as_slice() == bytes)
}

/// Whether a migration has so many texts, and so many records to be added, each of which is that of version Two.
fn is_right(alloc: Global, migration: &Migration, file: &File) -> Result<bool, AllocError> {
    if migration.old != file.old || migration.records.len() != file.added {
        return Ok(false);
    }
    if migration.records.len() == 1 {
        return is_new_record(alloc, migration.records.get(0).as_slice());
    }
    Ok(true)
}

/// Whether a file's migration is right.
fn migrates<R: Threads>(rt: &R, alloc: Global, file: &File) -> Result<bool, AllocError> {
    let bytes = bytes_of(alloc, file)?;
    let migration = migrated(rt, alloc, bytes.as_slice())?;
    is_right(alloc, &migration, file)
}

/// A text of version One is counted, and the record of version Two is added where it isn't there.
#[test]
fn texts_of_version_one_migrate(rt: HostRuntime) -> Result<(), AllocError> {
    for file in FILES.as_slice() {
        let fine = migrates(&rt, rt.alloc(), file)?;
        assert!(rt; fine, "old {}, new {}", file.has_old, file.has_new);
    }
    Ok(())
}
