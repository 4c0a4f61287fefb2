// Where a file is kept.

ghost use Rattle.std.specs.Prelude.{◌≡◌, ◌≤◌, ◌++◌, [], ◌∷◌, ℕ, List, Bool, take, IsTrue, IsErrOf, IfOk, OnOk, OnErr};
ghost use Rattle.std.specs.Prelude.{vec_len, alloc_error};
ghost use Rattle.mw_outside.specs.Count.{Rose, GrowsByFront, IsWithin};

use crate::errors::KeepFault;
use std::alloc::Global;

/// One file that is read whole, cut to a front and appended to.
pub trait Keeper {
    /// Whether this kind of keeper tells what it holds. One that doesn't says nothing of content.
    ghost tells: { Bool };

    /// The bytes held: those of the file to be named, before its start as well. A missing file holds none.
    ghost held: { Self → List ℕ };

    /// The names with which it was started, in order.
    ghost opened: { Self → List (List ℕ) };

    /// How often it has failed. The count never falls, and stands in a call that succeeds or only lacked memory.
    ghost faults: { Self → ℕ };

    /// Names the file. The bytes held stay. After an error no file was named.
    fn start(&mut self, name: &str) -> Result<(), KeepFault>
        ensures named { OnOk result
            (IsTrue tells → opened self.new ≡ opened self.old ++ name.now ∷ []) }
        ensures unnamed { OnErr result (IsTrue tells → opened self.new ≡ opened self.old) }
        ensures kept { IsTrue tells → held self.new ≡ held self.old }
        ensures same_count { OnOk result (faults self.new ≡ faults self.old) }
        ensures memory_count { IsErrOf result (KeepFault.Memory alloc_error)
            → faults self.new ≡ faults self.old }
        ensures failed { IsErrOf result KeepFault.Failed
            → Rose (faults self.old) (faults self.new) }
        ensures count { faults self.old ≤ faults self.new };

    /// The first `most` bytes held, or all where there are fewer, in memory of `alloc`. The bytes held stay.
    fn read_all(&mut self, alloc: Global, most: usize) -> Result<Vec<u8>, KeepFault>
        ensures same_names { IsTrue tells → opened self.new ≡ opened self.old }
        ensures ok { IfOk result (λ bytes. IsTrue tells → bytes.items ≡ take most (held self.old)) }
        ensures bound { IfOk result (λ bytes. vec_len bytes ≤ most) }
        ensures kept { IsTrue tells → held self.new ≡ held self.old }
        ensures same_count { OnOk result (faults self.new ≡ faults self.old) }
        ensures memory_count { IsErrOf result (KeepFault.Memory alloc_error)
            → faults self.new ≡ faults self.old }
        ensures failed { IsErrOf result KeepFault.Failed
            → Rose (faults self.old) (faults self.new) }
        ensures count { faults self.old ≤ faults self.new };

    /// Keeps the front of this length, which is at most that of the bytes held. An error changes nothing.
    fn cut(&mut self, length: usize) -> Result<(), KeepFault>
        requires { IsTrue tells → IsWithin length (held self.old) }
        ensures same_names { IsTrue tells → opened self.new ≡ opened self.old }
        ensures ok { OnOk result (IsTrue tells → held self.new ≡ take length (held self.old)) }
        ensures err { OnErr result (IsTrue tells → held self.new ≡ held self.old) }
        ensures same_count { OnOk result (faults self.new ≡ faults self.old) }
        ensures memory_count { IsErrOf result (KeepFault.Memory alloc_error)
            → faults self.new ≡ faults self.old }
        ensures failed { IsErrOf result KeepFault.Failed
            → Rose (faults self.old) (faults self.new) }
        ensures count { faults self.old ≤ faults self.new };

    /// Adds the bytes after those held. After `Failed` a front of the piece may have been added; for want
    /// of memory nothing was.
    fn append(&mut self, bytes: &[u8]) -> Result<(), KeepFault>
        ensures same_names { IsTrue tells → opened self.new ≡ opened self.old }
        ensures ok { OnOk result (IsTrue tells → held self.new ≡ held self.old ++ bytes.now) }
        ensures front { OnErr result
            (IsTrue tells → GrowsByFront (held self.old) (held self.new) bytes.now) }
        ensures memory { IsErrOf result (KeepFault.Memory alloc_error) → IsTrue tells
            → held self.new ≡ held self.old }
        ensures same_count { OnOk result (faults self.new ≡ faults self.old) }
        ensures memory_count { IsErrOf result (KeepFault.Memory alloc_error)
            → faults self.new ≡ faults self.old }
        ensures failed { IsErrOf result KeepFault.Failed
            → Rose (faults self.old) (faults self.new) }
        ensures count { faults self.old ≤ faults self.new };
}
