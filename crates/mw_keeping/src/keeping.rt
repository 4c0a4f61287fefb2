// What is kept in a cache file, after a run.

ghost use Rattle.std.specs.Prelude.{◌≡◌, ◌≤◌, ◌++◌, List, ℕ, length, map, take, All, IsTrue, OnOk, OnErr};
ghost use Rattle.mw_slots.specs.Receipts.{IsOf};
ghost use Rattle.mw_cache.specs.Gots.{IsHere, text_in, texts_of};
ghost use Rattle.mw_store.specs.Records.{Kept, record_bytes, file_of};
ghost use Rattle.mw_store.specs.Loads.{LoadState};
ghost use Rattle.mw_keeping.specs.CacheFiles.{IsReadFile, BlamesKeeper};
ghost use Rattle.mw_keeping.specs.GrownFiles.{GrowsRight, HasPartOf};
ghost use Rattle.mw_keeping.specs.KeptFiles.{IsKeptFile, HasGoodFront, fitting};

use mw_cache::{Cache, Got, Records};
use mw_compile::Entry;
use mw_outside::{KeepFault, Keeper};
use mw_slots::Receipt;
use mw_store::FILE_LIMIT;
use std::alloc::Global;

/// Keeps the records of the receipts' entries and of these modules in the file of which so many bytes were read, where
/// they weren't loaded. First the file is cut to the records that counted, if it has more than these; then each record
/// is added that has room, in the order of the texts' bytes. The first failure ends it.
pub fn keep<C: Keeper>(
    alloc: Global,
    keeper: &mut C,
    cache: &Cache<'_>,
    count: usize,
    receipts: &[Receipt<Entry>],
    gots: &[&Got],
) -> Result<(), KeepFault>
    requires table { All (IsOf cache.now.cells) receipts.now }
    requires here { All (λ g. IsHere cache.now g.now) gots.now }
    requires read { IsTrue C.tells → IsReadFile (C.held keeper.old) count cache.now.load }
    ensures kept { let texts =
        texts_of receipts.now ++ map (λ g. text_in cache.now g.now) gots.now in
        OnOk result (IsTrue C.tells → IsKeptFile (C.held keeper.old) (C.held keeper.new) texts) }
    ensures front { IsTrue C.tells → HasGoodFront (C.held keeper.old) (C.held keeper.new) }
    ensures right { IsTrue C.tells → GrowsRight (C.held keeper.old) (C.held keeper.new) }
    ensures same_names { IsTrue C.tells → C.opened keeper.new ≡ C.opened keeper.old }
    ensures blames { BlamesKeeper result (C.faults keeper.old) (C.faults keeper.new) }
    ensures rises { C.faults keeper.old ≤ C.faults keeper.new }
{
    let good = cache.load().good();
    cut_back(keeper, good, count)?;
    let records = cache.records(alloc, receipts, gots)?;
    append_fitting(keeper, FILE_LIMIT - good, &records)
}

/// Cuts the file, of which so many bytes were read, to the records that counted, if it may have more than these.
pub(crate) fn cut_back<C: Keeper>(
    keeper: &mut C,
    good: usize,
    count: usize,
) -> Result<(), KeepFault>
    requires { IsTrue C.tells → good ≤ length (C.held keeper.old) }
    ensures cut { OnOk result (IsTrue C.tells → (load : LoadState) → load.good ≡ good
        → IsReadFile (C.held keeper.old) count load → C.held keeper.new ≡ take good (C.held keeper.old)) }
    ensures same { OnErr result (IsTrue C.tells → C.held keeper.new ≡ C.held keeper.old) }
    ensures same_names { IsTrue C.tells → C.opened keeper.new ≡ C.opened keeper.old }
    ensures blames { BlamesKeeper result (C.faults keeper.old) (C.faults keeper.new) }
    ensures rises { C.faults keeper.old ≤ C.faults keeper.new }
{
    if good < count || count == FILE_LIMIT {
        keeper.cut(good)?;
    }
    Ok(())
}

/// Adds the records in order, up to the first for whose bytes there is no room.
pub(crate) fn append_fitting<C: Keeper>(
    keeper: &mut C,
    room: usize,
    records: &Records,
) -> Result<(), KeepFault>
    ensures fitting { OnOk result
        ((ks : List Kept) → records.now ≡ map record_bytes ks → IsTrue C.tells
        → C.held keeper.new ≡ C.held keeper.old ++ file_of (fitting room ks)) }
    ensures front { (ks : List Kept) → records.now ≡ map record_bytes ks → IsTrue C.tells
        → HasPartOf ks (C.held keeper.old) (C.held keeper.new) }
    ensures same_names { IsTrue C.tells → C.opened keeper.new ≡ C.opened keeper.old }
    ensures blames { BlamesKeeper result (C.faults keeper.old) (C.faults keeper.new) }
    ensures rises { C.faults keeper.old ≤ C.faults keeper.new }
{
    let mut left = room;
    for at in 0..records.len() {
        let record = records.get(at).as_slice();
        if record.len() > left {
            return Ok(());
        }
        keeper.append(record)?;
        left -= record.len();
    }
    Ok(())
}
