// Where bytes are written.

ghost use Rattle.std.specs.Prelude.{◌≡◌, ◌<◌, ◌≤◌, ◌++◌, ℕ, List, Bool, length, take, IsTrue, IsErrOf};
ghost use Rattle.std.specs.Prelude.{IfOk, OnOk, OnErr, alloc_error};
ghost use Rattle.mw_outside.specs.Count.{Rose};

use crate::errors::WriteFault;

/// Bytes that are written, each after those before it.
pub trait Sink {
    /// Whether this kind of sink tells what was written. One that doesn't says nothing of content.
    ghost tells: { Bool };

    /// The bytes written so far.
    ghost written: { Self → List ℕ };

    /// How often it has failed. The count never falls, and stands in a call that succeeds or only lacked memory.
    ghost faults: { Self → ℕ };

    /// Writes a front of a piece that isn't empty, and answers how many bytes that is: at least one.
    /// After an error nothing was written.
    fn write(&mut self, bytes: &[u8]) -> Result<usize, WriteFault>
        requires { 0 < length bytes.now }
        ensures some { IfOk result (λ count. 0 < count) }
        ensures bound { IfOk result (λ count. count ≤ length bytes.now) }
        ensures ok { IfOk result
            (λ count. IsTrue tells → written self.new ≡ written self.old ++ take count bytes.now) }
        ensures err { OnErr result (IsTrue tells → written self.new ≡ written self.old) }
        ensures same_count { OnOk result (faults self.new ≡ faults self.old) }
        ensures memory { IsErrOf result (WriteFault.Memory alloc_error)
            → faults self.new ≡ faults self.old }
        ensures failed { IsErrOf result WriteFault.Failed
            → Rose (faults self.old) (faults self.new) }
        ensures count { faults self.old ≤ faults self.new };
}
