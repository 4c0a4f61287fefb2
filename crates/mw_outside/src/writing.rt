// Writing a whole piece.

ghost use Rattle.std.specs.Prelude.{◌≡◌, ◌≤◌, ◌++◌, IsTrue, IsErrOf, OnOk, OnErr, alloc_error};
ghost use Rattle.mw_outside.specs.Count.{Rose, GrowsByFront};

use crate::errors::WriteFault;
use crate::sinks::Sink;

/// Writes a whole piece, in as many calls as the sink needs. After an error a front of it was written. A
/// call that fails ends the writing: where the sink's count of faults rose, the answer is `Failed`.
pub fn write_whole<K: Sink>(sink: &mut K, piece: &[u8]) -> Result<(), WriteFault>
    ensures ok { OnOk result
        (IsTrue K.tells → K.written sink.new ≡ K.written sink.old ++ piece.now) }
    ensures front { OnErr result
        (IsTrue K.tells → GrowsByFront (K.written sink.old) (K.written sink.new) piece.now) }
    ensures same_count { OnOk result (K.faults sink.new ≡ K.faults sink.old) }
    ensures memory { IsErrOf result (WriteFault.Memory alloc_error)
        → K.faults sink.new ≡ K.faults sink.old }
    ensures failed { IsErrOf result WriteFault.Failed
        → Rose (K.faults sink.old) (K.faults sink.new) }
    ensures count { K.faults sink.old ≤ K.faults sink.new }
{
    let mut done = 0;
    while done < piece.len() {
        match sink.write(&piece[done..]) {
            Ok(count) => done += count,
            Err(fault) => return Err(fault),
        }
    }
    Ok(())
}
