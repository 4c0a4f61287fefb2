// Reading a started file to its end, or to a length.

ghost use Rattle.std.specs.Prelude.{◌≡◌, ◌<◌, ◌≤◌, ◌++◌, take, drop, IsTrue, IsErrOf, IfOk, OnOk, vec_len, alloc_error};
ghost use Rattle.mw_outside.specs.Count.{Rose, IsEndWithin};

use crate::errors::ReadStop;
use crate::sources::Source;
use std::alloc::Global;

/// The most bytes that one call asks for.
const PIECE: usize = 4096;

/// Reads what is left of the started file, or its first `most` bytes where there are more, in memory of
/// `alloc`. After an error some front of what was left, of at most `most` bytes, has been read and is given
/// up. A call that fails ends the reading: where the source's count of faults rose, the answer is `Failed`.
pub fn read_up_to<S: Source>(
    alloc: Global,
    source: &mut S,
    most: usize,
) -> Result<Vec<u8>, ReadStop>
    requires started { S.IsStarted source.old }
    requires some { 0 < most }
    ensures ok { IfOk result
        (λ bytes. IsTrue S.tells → bytes.items ≡ take most (S.left source.old)) }
    ensures moved { IfOk result
        (λ bytes. IsTrue S.tells → S.left source.old ≡ bytes.items ++ S.left source.new) }
    ensures left { OnOk result
        (IsTrue S.tells → S.left source.new ≡ drop most (S.left source.old)) }
    ensures bound { IfOk result (λ bytes. vec_len bytes ≤ most) }
    ensures rest { IsTrue S.tells → IsEndWithin most (S.left source.new) (S.left source.old) }
    ensures same_count { OnOk result (S.faults source.new ≡ S.faults source.old) }
    ensures memory { IsErrOf result (ReadStop.Memory alloc_error)
        → S.faults source.new ≡ S.faults source.old }
    ensures failed { IsErrOf result ReadStop.Failed
        → Rose (S.faults source.old) (S.faults source.new) }
    ensures still_ready { S.IsStarted source.new }
    ensures same_files { S.told source.new ≡ S.told source.old }
    ensures count { S.faults source.old ≤ S.faults source.new }
{
    let mut piece = [0u8; PIECE];
    let mut taken = Vec::new(alloc);
    while taken.len() < most {
        let room = PIECE.min(most - taken.len());
        let count = source.read(&mut piece[..room])?;
        if count == 0 {
            return Ok(taken);
        }
        taken.extend_from_slice(&piece[..count])?;
    }
    Ok(taken)
}
