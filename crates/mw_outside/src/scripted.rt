// A source, a sink and a keeper in memory, with calls that fail by plan.

ghost use Rattle.std.specs.Prelude.{◌≡◌, ◌<◌, ◌≤◌, ◌↔◌, ◌++◌, [], ◌∷◌, ℕ, length, min, take, true, IsTrue, Some};
ghost use Rattle.std.specs.Prelude.{IsNone, IsErr, IsErrOf, IsOkUnless, IfOk, OnOk, OnErr, alloc_error};

use crate::errors::{KeepFault, ReadFault, StartFault, WriteFault};
use crate::keepers::Keeper;
use crate::lists::{Bytes, Calls};
use crate::named::Files;
use crate::plan::Plan;
use crate::sinks::Sink;
use crate::sources::Source;
use crate::sure::{SureKeeper, SureSink, SureSource};
use std::alloc::Global;

/// Files in memory. The calls on it whose numbers were given fail; `start` and `read` are numbered in one
/// count, from 0.
#[derive(Debug, Drop)]
pub struct MemSource {
    source: SureSource,
    plan: Plan,
}

impl MemSource {
    ghost use Rattle.mw_outside.specs.Lookup.{names_differ};
    ghost use Rattle.mw_outside.specs.Plan.{fresh_plan, fault_count};
    ghost use Rattle.mw_outside.specs.Scripted.{files_of, source_plan, source_step, IsUnderWay};

    /// A source of these files, whose names differ. The calls whose numbers stand in `failing` fail, and
    /// one call moves at most `step` bytes, at least 1. No file is started. Takes no memory.
    pub fn new(files: Files, failing: Calls, step: usize) -> MemSource
        requires step { 0 < step }
        requires names { IsTrue (names_differ files) }
        ensures files { files_of result ≡ files }
        ensures plan { source_plan result ≡ fresh_plan failing }
        ensures count { fault_count (source_plan result) ≡ 0 }
        ensures step { source_step result ≡ step }
        ensures none { ¬ IsUnderWay result }
    {
        MemSource {
            source: SureSource::new(files, step),
            plan: Plan::new(failing),
        }
    }
}

impl Source for MemSource {
    ghost use Rattle.mw_outside.specs.Count.{Rose};
    ghost use Rattle.mw_outside.specs.Lookup.{file_of};
    ghost use Rattle.mw_outside.specs.Plan.{fails_next, after_call, fault_count};
    ghost use Rattle.mw_outside.specs.Scripted.{files_of, source_plan, source_step, IsUnderWay, left_of};

    ghost tells = { true };

    ghost told = { files_of };

    ghost IsStarted = { IsUnderWay };

    ghost left = { left_of };

    ghost faults = { λ source. fault_count (source_plan source) };

    /// Starts a file. The call fails exactly by plan, and is `Missing` where no file has the name.
    fn start(&mut self, name: &str) -> Result<(), StartFault>
        ensures by_plan { IsErrOf result StartFault.Failed
            ↔ IsTrue (fails_next (source_plan self.old)) }
        ensures plan { source_plan self.new ≡ after_call (source_plan self.old) }
        ensures step { source_step self.new ≡ source_step self.old }
        ensures found { OnOk result
            (file_of (files_of self.old) name.now ≡ Some (left_of self.new)) }
        ensures ready { OnOk result (IsUnderWay self.new) }
        ensures same_count { OnOk result (fault_count (source_plan self.new)
            ≡ fault_count (source_plan self.old)) }
        ensures missing { IsErrOf result StartFault.Missing
            → IsNone (file_of (files_of self.old) name.now) }
        ensures failed { IsErrOf result StartFault.Failed
            → Rose (fault_count (source_plan self.old)) (fault_count (source_plan self.new)) }
        ensures still_ready { OnErr result (IsUnderWay self.old → IsUnderWay self.new) }
        ensures still_left { OnErr result (left_of self.new ≡ left_of self.old) }
        ensures same_files { files_of self.new ≡ files_of self.old }
        ensures count { fault_count (source_plan self.old) ≤ fault_count (source_plan self.new) }
    {
        if self.plan.fails_call() {
            return Err(StartFault::Failed);
        }
        self.source.start(name)
    }

    /// Moves the next bytes: as many as are left, fit and make a step. The call fails exactly by plan.
    fn read(&mut self, into: &mut [u8]) -> Result<usize, ReadFault>
        requires started { IsUnderWay self.old }
        requires room { 0 < length into.old }
        ensures by_plan { IsErr result ↔ IsTrue (fails_next (source_plan self.old)) }
        ensures plan { source_plan self.new ≡ after_call (source_plan self.old) }
        ensures step { source_step self.new ≡ source_step self.old }
        ensures size { IfOk result (λ count. count
            ≡ min (source_step self.old) (min (length (left_of self.old)) (length into.old))) }
        ensures bound { IfOk result (λ count. count ≤ length into.new) }
        ensures moved { IfOk result
            (λ count. left_of self.old ≡ take count into.new ++ left_of self.new) }
        ensures end { IfOk result (λ count. count ≡ 0 → left_of self.old ≡ []) }
        ensures same_count { OnOk result (fault_count (source_plan self.new)
            ≡ fault_count (source_plan self.old)) }
        ensures failed { OnErr result
            (Rose (fault_count (source_plan self.old)) (fault_count (source_plan self.new))) }
        ensures still_left { OnErr result (left_of self.new ≡ left_of self.old) }
        ensures still_ready { IsUnderWay self.new }
        ensures same_files { files_of self.new ≡ files_of self.old }
        ensures count { fault_count (source_plan self.old) ≤ fault_count (source_plan self.new) }
    {
        if self.plan.fails_call() {
            return Err(ReadFault::Failed);
        }
        self.source.read(into)
    }
}

/// Bytes in memory. The calls on it whose numbers were given, from 0, fail.
#[derive(Debug, Drop)]
pub struct MemSink {
    sink: SureSink,
    plan: Plan,
}

impl MemSink {
    ghost use Rattle.mw_outside.specs.Plan.{fresh_plan, fault_count};
    ghost use Rattle.mw_outside.specs.Scripted.{written_of, sink_plan, sink_step};

    /// A sink to which nothing was written. The calls whose numbers stand in `failing` fail, and one call
    /// writes at most `step` bytes, at least 1. Takes no memory; the bytes written are kept by `alloc`.
    pub fn new(alloc: Global, failing: Calls, step: usize) -> MemSink
        requires { 0 < step }
        ensures written { written_of result ≡ [] }
        ensures plan { sink_plan result ≡ fresh_plan failing }
        ensures count { fault_count (sink_plan result) ≡ 0 }
        ensures step { sink_step result ≡ step }
    {
        MemSink {
            sink: SureSink::new(alloc, step),
            plan: Plan::new(failing),
        }
    }

    /// The bytes written so far.
    pub fn written(&self) -> &[u8]
        ensures { result.now ≡ written_of self.now }
    {
        self.sink.written()
    }
}

impl Sink for MemSink {
    ghost use Rattle.mw_outside.specs.Count.{Rose};
    ghost use Rattle.mw_outside.specs.Plan.{fails_next, after_call, fault_count};
    ghost use Rattle.mw_outside.specs.Scripted.{written_of, sink_plan, sink_step};

    ghost tells = { true };

    ghost written = { written_of };

    ghost faults = { λ sink. fault_count (sink_plan sink) };

    /// Writes the piece, or a step of it. The call fails exactly by plan.
    fn write(&mut self, bytes: &[u8]) -> Result<usize, WriteFault>
        requires { 0 < length bytes.now }
        ensures by_plan { IsErrOf result WriteFault.Failed
            ↔ IsTrue (fails_next (sink_plan self.old)) }
        ensures plan { sink_plan self.new ≡ after_call (sink_plan self.old) }
        ensures step { sink_step self.new ≡ sink_step self.old }
        ensures size { IfOk result (λ count. count ≡ min (sink_step self.old) (length bytes.now)) }
        ensures some { IfOk result (λ count. 0 < count) }
        ensures ok { IfOk result (λ count. written_of self.new
            ≡ written_of self.old ++ take count bytes.now) }
        ensures err { OnErr result (written_of self.new ≡ written_of self.old) }
        ensures same_count { OnOk result (fault_count (sink_plan self.new)
            ≡ fault_count (sink_plan self.old)) }
        ensures memory { IsErrOf result (WriteFault.Memory alloc_error)
            → fault_count (sink_plan self.new) ≡ fault_count (sink_plan self.old) }
        ensures failed { IsErrOf result WriteFault.Failed
            → Rose (fault_count (sink_plan self.old)) (fault_count (sink_plan self.new)) }
        ensures count { fault_count (sink_plan self.old) ≤ fault_count (sink_plan self.new) }
    {
        if self.plan.fails_call() {
            return Err(WriteFault::Failed);
        }
        self.sink.write(bytes)
    }
}

/// One file in memory, whatever its name. The calls on it whose numbers were given fail; `start`,
/// `read_all`, `cut` and `append` are numbered in one count, from 0.
#[derive(Debug, Drop)]
pub struct MemKeeper {
    keeper: SureKeeper,
    plan: Plan,
}

impl MemKeeper {
    ghost use Rattle.mw_outside.specs.Plan.{fresh_plan, fault_count};
    ghost use Rattle.mw_outside.specs.Scripted.{held_of, opened_of, keeper_plan};

    /// A keeper that holds these bytes, and wasn't started. The calls whose numbers stand in `failing` fail. Takes no
    /// memory; the names are kept by `alloc`.
    pub fn new(alloc: Global, held: Bytes, failing: Calls) -> MemKeeper
        ensures held { held_of result ≡ held }
        ensures opened { opened_of result ≡ [] }
        ensures plan { keeper_plan result ≡ fresh_plan failing }
        ensures count { fault_count (keeper_plan result) ≡ 0 }
    {
        MemKeeper {
            keeper: SureKeeper::new(alloc, held),
            plan: Plan::new(failing),
        }
    }

    /// The bytes held.
    pub fn held(&self) -> &[u8]
        ensures { result.now ≡ held_of self.now }
    {
        self.keeper.held()
    }

    /// The names with which it was started, in order.
    pub fn opened(&self) -> &[Bytes]
        ensures { result.now ≡ opened_of self.now }
    {
        self.keeper.opened()
    }
}

impl Keeper for MemKeeper {
    ghost use Rattle.mw_outside.specs.Count.{Rose};
    ghost use Rattle.mw_outside.specs.Plan.{fails_next, after_call, fault_count};
    ghost use Rattle.mw_outside.specs.Scripted.{held_of, opened_of, keeper_plan};

    ghost tells = { true };

    ghost held = { held_of };

    ghost opened = { opened_of };

    ghost faults = { λ keeper. fault_count (keeper_plan keeper) };

    /// Takes any name. The call is `Failed` exactly by plan, and else fails only for want of memory.
    fn start(&mut self, name: &str) -> Result<(), KeepFault>
        ensures by_plan { IsErrOf result KeepFault.Failed
            ↔ IsTrue (fails_next (keeper_plan self.old)) }
        ensures plan { keeper_plan self.new ≡ after_call (keeper_plan self.old) }
        ensures named { OnOk result (opened_of self.new ≡ opened_of self.old ++ name.now ∷ []) }
        ensures unnamed { OnErr result (opened_of self.new ≡ opened_of self.old) }
        ensures kept { held_of self.new ≡ held_of self.old }
        ensures same_count { OnOk result (fault_count (keeper_plan self.new)
            ≡ fault_count (keeper_plan self.old)) }
        ensures memory_count { IsErrOf result (KeepFault.Memory alloc_error)
            → fault_count (keeper_plan self.new) ≡ fault_count (keeper_plan self.old) }
        ensures failed { IsErrOf result KeepFault.Failed
            → Rose (fault_count (keeper_plan self.old)) (fault_count (keeper_plan self.new)) }
        ensures count { fault_count (keeper_plan self.old) ≤ fault_count (keeper_plan self.new) }
    {
        if self.plan.fails_call() {
            return Err(KeepFault::Failed);
        }
        self.keeper.start(name)
    }

    /// The first `most` bytes held. The call is `Failed` exactly by plan, and else fails only for want of
    /// memory.
    fn read_all(&mut self, alloc: Global, most: usize) -> Result<Vec<u8>, KeepFault>
        ensures by_plan { IsErrOf result KeepFault.Failed
            ↔ IsTrue (fails_next (keeper_plan self.old)) }
        ensures plan { keeper_plan self.new ≡ after_call (keeper_plan self.old) }
        ensures ok { IfOk result (λ bytes. bytes.items ≡ take most (held_of self.old)) }
        ensures kept { held_of self.new ≡ held_of self.old }
        ensures same_names { opened_of self.new ≡ opened_of self.old }
        ensures same_count { OnOk result (fault_count (keeper_plan self.new)
            ≡ fault_count (keeper_plan self.old)) }
        ensures memory_count { IsErrOf result (KeepFault.Memory alloc_error)
            → fault_count (keeper_plan self.new) ≡ fault_count (keeper_plan self.old) }
        ensures failed { IsErrOf result KeepFault.Failed
            → Rose (fault_count (keeper_plan self.old)) (fault_count (keeper_plan self.new)) }
        ensures count { fault_count (keeper_plan self.old) ≤ fault_count (keeper_plan self.new) }
    {
        if self.plan.fails_call() {
            return Err(KeepFault::Failed);
        }
        self.keeper.read_all(alloc, most)
    }

    /// Keeps the front of this length. The call fails exactly by plan, and changes nothing then.
    fn cut(&mut self, length: usize) -> Result<(), KeepFault>
        ensures by_plan { IsErrOf result KeepFault.Failed
            ↔ IsTrue (fails_next (keeper_plan self.old)) }
        ensures plan { keeper_plan self.new ≡ after_call (keeper_plan self.old) }
        ensures sure { IsOkUnless result KeepFault.Failed }
        ensures ok { OnOk result (held_of self.new ≡ take length (held_of self.old)) }
        ensures err { OnErr result (held_of self.new ≡ held_of self.old) }
        ensures same_names { opened_of self.new ≡ opened_of self.old }
        ensures same_count { OnOk result (fault_count (keeper_plan self.new)
            ≡ fault_count (keeper_plan self.old)) }
        ensures failed { IsErrOf result KeepFault.Failed
            → Rose (fault_count (keeper_plan self.old)) (fault_count (keeper_plan self.new)) }
        ensures count { fault_count (keeper_plan self.old) ≤ fault_count (keeper_plan self.new) }
    {
        if self.plan.fails_call() {
            return Err(KeepFault::Failed);
        }
        self.keeper.cut(length)
    }

    /// Adds the bytes. The call is `Failed` exactly by plan, and else fails only for want of memory;
    /// nothing is added then.
    fn append(&mut self, bytes: &[u8]) -> Result<(), KeepFault>
        ensures by_plan { IsErrOf result KeepFault.Failed
            ↔ IsTrue (fails_next (keeper_plan self.old)) }
        ensures plan { keeper_plan self.new ≡ after_call (keeper_plan self.old) }
        ensures ok { OnOk result (held_of self.new ≡ held_of self.old ++ bytes.now) }
        ensures err { OnErr result (held_of self.new ≡ held_of self.old) }
        ensures same_names { opened_of self.new ≡ opened_of self.old }
        ensures same_count { OnOk result (fault_count (keeper_plan self.new)
            ≡ fault_count (keeper_plan self.old)) }
        ensures memory_count { IsErrOf result (KeepFault.Memory alloc_error)
            → fault_count (keeper_plan self.new) ≡ fault_count (keeper_plan self.old) }
        ensures failed { IsErrOf result KeepFault.Failed
            → Rose (fault_count (keeper_plan self.old)) (fault_count (keeper_plan self.new)) }
        ensures count { fault_count (keeper_plan self.old) ≤ fault_count (keeper_plan self.new) }
    {
        if self.plan.fails_call() {
            // No front of the piece is added either.
            return Err(KeepFault::Failed);
        }
        self.keeper.append(bytes)
    }
}

#[cfg(test)]
mod tests;
