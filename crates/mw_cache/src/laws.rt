//! Laws of the cache, which no program calls.

ghost use denote.Param.Send.{IsSend, IsSync};
ghost use denote.Ref.{NamedLft};
ghost use Rattle.mw_cache.specs.contracts.asked.Asked as asked;
ghost use Rattle.mw_cache.specs.contracts.cache.Cache as cache;
ghost use Rattle.mw_cache.specs.contracts.got.Got as got;
ghost use Rattle.mw_store.specs.contracts.load.Load as load;
ghost use Rattle.mw_cache.specs.HonestLaws.{HonestBytesLoadHonestly, HonestFront, KeptIsWhole};
ghost use Rattle.mw_cache.specs.HonestLaws.{FrontsAreHonest, HonestFilesGrow};
ghost use Rattle.mw_cache.specs.MigrationLaws.{OneMigration, MigratedAreNew};

use crate::asked::Asked;
use mw_compile::laws::entries_cross;
use mw_validate::laws::valid_modules_cross;

/// Where a module is may be sent to other threads, and shared with them.
pub fn gots_cross()
    ensures send { IsSend got.the_row }
    ensures sync { IsSync got.the_row }
{
    entries_cross();
}

/// A type of this bound crosses threads.
fn crosses<E: Send>()
    ensures { IsSend E.row }
{}

/// What was asked of a cache may be sent to other threads.
pub fn asked_crosses()
    ensures { IsSend asked.the_row }
{
    crosses::<Asked>();
}

/// What was loaded may be shared with other threads.
fn loads_cross()
    ensures { IsSync load.the_row }
{
    valid_modules_cross();
}

/// A cache may be shared with other threads.
pub fn caches_cross()
    ensures { (a : NamedLft) → IsSync (cache.the_row a) }
{
    entries_cross();
    loads_cross();
}

/// Where each record that counts in a file has the emission of its text, each that is loaded has.
pub fn honest_bytes_load_honestly()
    ensures { HonestBytesLoadHonestly }
{}

/// Whether each record that counts has the emission of its text is said by the file's first bytes, as many as the
/// limit.
pub fn honest_front()
    ensures { HonestFront }
{}

/// A record of a text and its emission is whole, so that it counts when the file is loaded again.
pub fn kept_is_whole()
    ensures { KeptIsWhole }
{}

/// In any front of a file of records with the emissions of their texts, each record that counts has its emission.
pub fn fronts_are_honest()
    ensures { FrontsAreHonest }
{}

/// Where each record that counts has the emission of its text, this stays so when the file is cut behind them, and
/// records with the emissions of their texts are written there, or only a front of these.
pub fn honest_files_grow()
    ensures { HonestFilesGrow }
{}

/// Loaded records have one migration.
pub fn one_migration()
    ensures { OneMigration }
{}

/// Each record that a migration adds has the emission of its text, which wasn't loaded.
pub fn migrated_are_new()
    ensures { MigratedAreNew }
{}
