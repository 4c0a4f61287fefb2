// Where files are read.

ghost use Rattle.std.specs.Prelude.{◌≡◌, ◌<◌, ◌≤◌, ◌⊎◌, ◌++◌, [], ℕ, List, Bool, length, take, IsTrue, Some, IsErrOf};
ghost use Rattle.std.specs.Prelude.{IfOk, OnOk, OnErr};
ghost use Rattle.mw_outside.specs.declared.named.NamedFile.{NamedFile};
ghost use Rattle.mw_outside.specs.Count.{Rose};
ghost use Rattle.mw_outside.specs.Lookup.{file_of, LacksFile};

use crate::errors::{ReadFault, StartFault};

/// Files by their names, of which one at a time is read from its front.
pub trait Source {
    /// Whether this kind of source tells which files it has. One that doesn't says nothing of content.
    ghost tells: { Bool };

    /// The files that it tells, by their names.
    ghost told: { Self → List NamedFile };

    /// A file was started, so that there is one to read.
    ghost IsStarted: { Self → Type 0 };

    /// What is left of the started file.
    ghost left: { Self → List ℕ };

    /// How often it has failed. The count never falls, and stands in a call that succeeds.
    ghost faults: { Self → ℕ };

    /// Starts the file of this name at its front. `Missing` says that there is none, or that the source
    /// failed; `Failed` that it failed. After an error what was started before goes on.
    fn start(&mut self, name: &str) -> Result<(), StartFault>
        ensures found { OnOk result
            (IsTrue tells → file_of (told self.old) name.now ≡ Some (left self.new)) }
        ensures ready { OnOk result (IsStarted self.new) }
        ensures same_count { OnOk result (faults self.new ≡ faults self.old) }
        ensures missing { IsErrOf result StartFault.Missing
            → Rose (faults self.old) (faults self.new)
            ⊎ LacksFile tells (told self.old) name.now }
        ensures failed { IsErrOf result StartFault.Failed
            → Rose (faults self.old) (faults self.new) }
        ensures still_ready { OnErr result (IsStarted self.old → IsStarted self.new) }
        ensures still_left { OnErr result (IsTrue tells → left self.new ≡ left self.old) }
        ensures same_files { told self.new ≡ told self.old }
        ensures count { faults self.old ≤ faults self.new };

    /// Moves the next bytes of the started file into the front of a slice that isn't empty, and answers
    /// how many: 0 only at the file's end. After an error the same bytes are still to come.
    fn read(&mut self, into: &mut [u8]) -> Result<usize, ReadFault>
        requires started { IsStarted self.old }
        requires room { 0 < length into.old }
        ensures bound { IfOk result (λ count. count ≤ length into.new) }
        ensures moved { IfOk result
            (λ count. IsTrue tells → left self.old ≡ take count into.new ++ left self.new) }
        ensures end { IfOk result (λ count. IsTrue tells → count ≡ 0 → left self.old ≡ []) }
        ensures same_count { OnOk result (faults self.new ≡ faults self.old) }
        ensures failed { OnErr result (Rose (faults self.old) (faults self.new)) }
        ensures still_left { OnErr result (IsTrue tells → left self.new ≡ left self.old) }
        ensures still_ready { IsStarted self.new }
        ensures same_files { told self.new ≡ told self.old }
        ensures count { faults self.old ≤ faults self.new };
}
