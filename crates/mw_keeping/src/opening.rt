// The cache file of a run, as it is before the run.

ghost use Rattle.std.specs.Prelude.{◌≡◌, ◌≤◌, take, IsTrue, IfOk, OnOk, IsNone};
ghost use Rattle.mw_keeping.specs.CacheFiles.{IsOpened, IsStartedWith, IsStartedAtMost, IsStartedFor, IsNoOtherStarted};
ghost use Rattle.mw_keeping.specs.CacheFiles.{BlamesOpening, BlamesKeeper};
ghost use Rattle.mw_store.specs.Loads.{file_limit};

use mw_outside::{KeepFault, Keeper};
use mw_store::{FILE_LIMIT, Load, load_of};
use std::alloc::{AllocError, Global};

/// What a run has of a cache file: none, as no words name one; one that couldn't be read; or one of which so many bytes
/// were read.
#[derive(Clone, Copy, Debug)]
pub enum CacheFile {
    Absent,
    Unread,
    Read(usize),
}

/// What was loaded before a run, and what it has of a cache file.
#[derive(Drop)]
pub struct Opened {
    pub load: Load,
    pub file: CacheFile,
}

/// Starts the keeper of the file of this name, if there is one, and loads the file's records. Where the keeper fails,
/// nothing is loaded. The error is want of memory.
pub fn open_cache<C: Keeper>(
    alloc: Global,
    keeper: &mut C,
    path: Option<&str>,
) -> Result<Opened, AllocError>
    ensures opened { IfOk result
        (λ o. IsOpened C.tells (C.held keeper.old) path.entry o.file o.load) }
    ensures same { IsTrue C.tells → C.held keeper.new ≡ C.held keeper.old }
    ensures started { IfOk result (λ o. IsTrue C.tells
        → IsStartedFor path.entry o.file (C.opened keeper.old) (C.opened keeper.new)) }
    ensures no_other { IsTrue C.tells
        → IsNoOtherStarted path.entry (C.opened keeper.old) (C.opened keeper.new) }
    ensures untouched { IsNone path.entry → keeper.new ≡ keeper.old }
    ensures blames { IfOk result
        (λ o. BlamesOpening o.file (C.faults keeper.old) (C.faults keeper.new)) }
    ensures count { C.faults keeper.old ≤ C.faults keeper.new }
{
    let Some(path) = path else {
        return Ok(Opened {
            load: Load::new(alloc),
            file: CacheFile::Absent,
        });
    };
    match read_cache(alloc, keeper, path) {
        Ok(bytes) => {
            let front = bytes.as_slice();
            Ok(Opened {
                load: load_of(alloc, front)?,
                file: CacheFile::Read(front.len()),
            })
        }
        Err(KeepFault::Failed) => Ok(Opened {
            load: Load::new(alloc),
            file: CacheFile::Unread,
        }),
        Err(KeepFault::Memory(error)) => Err(error),
    }
}

/// The bytes of the file of this name, up to the limit.
pub(crate) fn read_cache<C: Keeper>(
    alloc: Global,
    keeper: &mut C,
    path: &str,
) -> Result<Vec<u8>, KeepFault>
    ensures ok { IfOk result
        (λ bytes. IsTrue C.tells → bytes.items ≡ take file_limit (C.held keeper.old)) }
    ensures same { IsTrue C.tells → C.held keeper.new ≡ C.held keeper.old }
    ensures started { OnOk result (IsTrue C.tells
        → IsStartedWith path.now (C.opened keeper.old) (C.opened keeper.new)) }
    ensures no_other { IsTrue C.tells
        → IsStartedAtMost path.now (C.opened keeper.old) (C.opened keeper.new) }
    ensures blames { BlamesKeeper result (C.faults keeper.old) (C.faults keeper.new) }
    ensures count { C.faults keeper.old ≤ C.faults keeper.new }
{
    keeper.start(path)?;
    keeper.read_all(alloc, FILE_LIMIT)
}
