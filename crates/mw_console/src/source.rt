// The source's file, whole.

ghost use Rattle.std.specs.Prelude.{◌≡◌, ◌≤◌, ◌<◌, ◌⊎◌, Some, IsTrue, IsErrOf, IfOk, OnOk, alloc_error};
ghost use Rattle.mw_outside.specs.Count.{Rose};
ghost use Rattle.mw_outside.specs.Lookup.{file_of, LacksFile};
ghost use Rattle.mw_console.specs.Reading.{IsFront, IsRest};

use mw_outside::{ReadStop, Source, read_up_to};
use std::alloc::Global;

/// The bytes of the file of this name, or as many of the first of them as are read at most, where there are more. Where
/// the source lacks the file or a call on it fails, the answer is `Failed`.
pub fn file_bytes<S: Source>(
    alloc: Global,
    source: &mut S,
    name: &str,
    most: usize,
) -> Result<Vec<u8>, ReadStop>
    requires some { 0 < most }
    ensures ok { IfOk result (λ bytes. IsTrue S.tells
        → IsFront most (file_of (S.told source.old) name.now) bytes.items) }
    ensures rest { IfOk result (λ _. IsTrue S.tells
        → IsRest most (file_of (S.told source.old) name.now) (S.left source.new)) }
    ensures missing { LacksFile S.tells (S.told source.old) name.now
        → IsErrOf result ReadStop.Failed }
    ensures failed { IsErrOf result ReadStop.Failed
        → Rose (S.faults source.old) (S.faults source.new) ⊎ LacksFile S.tells (S.told source.old) name.now }
    ensures same_count { OnOk result (S.faults source.new ≡ S.faults source.old) }
    ensures memory { IsErrOf result (ReadStop.Memory alloc_error)
        → S.faults source.new ≡ S.faults source.old }
    ensures same_files { S.told source.new ≡ S.told source.old }
    ensures count { S.faults source.old ≤ S.faults source.new }
{
    source.start(name)?;
    Ok(read_up_to(alloc, source, most)?)
}
