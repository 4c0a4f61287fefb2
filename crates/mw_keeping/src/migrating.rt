// What a migration of a cache file comes to, and what is kept of it.

ghost use Rattle.std.specs.Prelude.{◌≡◌, ◌≤◌, ◌+◌, List, length, map, IsTrue, IfOk, OnOk};
ghost use Rattle.mw_store.specs.Records.{Kept, record_bytes};
ghost use Rattle.mw_keeping.specs.CacheFiles.{IsStartedWith, IsStartedAtMost, BlamesKeeper};
ghost use Rattle.mw_keeping.specs.GrownFiles.{GrowsRight};
ghost use Rattle.mw_keeping.specs.KeptFiles.{HasGoodFront, fitting};
ghost use Rattle.mw_keeping.specs.Migrations.{IsMigrationHere, IsMigratedFile};

use crate::keeping::{append_fitting, cut_back};
use crate::opening::read_cache;
use mw_cache::{Migration, Records, migration_of};
use mw_compile::Steps;
use mw_outside::{KeepFault, Keeper};
use mw_store::{FILE_LIMIT, Load, load_of};
use std::alloc::Global;
use std::sync::ledger::Ledger;

/// What a migration of a cache file comes to: how many texts of version One count in it, and how many records of
/// version Two are added for them, those that have room; with what `keep_migration` needs to add them.
#[derive(Drop)]
pub struct FileMigration {
    /// How many loaded texts are of version One.
    pub old: u32,
    /// How many records are added for them.
    pub added: u32,
    load: Load,
    count: usize,
    records: Records,
}

/// What a migration of the file of this name comes to: starts its keeper, reads its first 67,108,864 bytes, loads what
/// counts of them, and finds what is added. The file stays as it is. Each record that is made is one step. `Failed`
/// where the keeper fails, `Memory` where memory runs out.
pub fn migration<C: Keeper, L: Ledger>(
    alloc: Global,
    keeper: &mut C,
    path: &str,
    steps: &mut Steps<L>,
) -> Result<FileMigration, KeepFault>
    ensures found { IfOk result (λ m. IsTrue C.tells → IsMigrationHere (C.held keeper.old) m) }
    ensures few { IfOk result (λ m. m.added ≤ m.old) }
    ensures spent { IfOk result (λ m. steps.new ≤ steps.old + m.old) }
    ensures same { IsTrue C.tells → C.held keeper.new ≡ C.held keeper.old }
    ensures started { OnOk result (IsTrue C.tells
        → IsStartedWith path.now (C.opened keeper.old) (C.opened keeper.new)) }
    ensures no_other { IsTrue C.tells
        → IsStartedAtMost path.now (C.opened keeper.old) (C.opened keeper.new) }
    ensures blames { BlamesKeeper result (C.faults keeper.old) (C.faults keeper.new) }
    ensures count { C.faults keeper.old ≤ C.faults keeper.new }
{
    let bytes = read_cache(alloc, keeper, path)?;
    let front = bytes.as_slice();
    let load = load_of(alloc, front)?;
    let Migration { old, records } = migration_of(alloc, &load, steps)?;
    let added = fitting_count(FILE_LIMIT - load.good(), &records) as u32;
    Ok(FileMigration {
        old,
        added,
        load,
        count: front.len(),
        records,
    })
}

/// Keeps what a migration of the file came to: cuts the file to the records that counted, where it may have more than
/// these, and then adds the records that have room, one call each. The first failure ends it.
pub fn keep_migration<C: Keeper>(keeper: &mut C, migration: &FileMigration) -> Result<(), KeepFault>
    requires { IsTrue C.tells → IsMigrationHere (C.held keeper.old) migration.now }
    ensures same_names { IsTrue C.tells → C.opened keeper.new ≡ C.opened keeper.old }
    ensures kept { OnOk result
        (IsTrue C.tells → IsMigratedFile (C.held keeper.old) (C.held keeper.new)) }
    ensures front { IsTrue C.tells → HasGoodFront (C.held keeper.old) (C.held keeper.new) }
    ensures right { IsTrue C.tells → GrowsRight (C.held keeper.old) (C.held keeper.new) }
    ensures blames { BlamesKeeper result (C.faults keeper.old) (C.faults keeper.new) }
    ensures rises { C.faults keeper.old ≤ C.faults keeper.new }
{
    let good = migration.load.good();
    cut_back(keeper, good, migration.count)?;
    append_fitting(keeper, FILE_LIMIT - good, &migration.records)
}

/// How many of the records, from the first on, have room for all of their bytes.
fn fitting_count(room: usize, records: &Records) -> usize
    ensures fitting { (ks : List Kept) → records.now ≡ map record_bytes ks
        → result ≡ length (fitting room ks) }
    ensures most { result ≤ length records.now }
{
    let mut left = room;
    for at in 0..records.len() {
        let record = records.get(at).as_slice();
        if record.len() > left {
            return at;
        }
        left -= record.len();
    }
    records.len()
}
