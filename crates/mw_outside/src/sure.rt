// A source, a sink and a keeper in memory that never fail.

ghost use Rattle.std.specs.Prelude.{◌≡◌, ◌<◌, ◌≤◌, ◌↔◌, ◌++◌, [], ◌∷◌, ℕ, length, min, take, true, IsTrue, Some};
ghost use Rattle.std.specs.Prelude.{IsNone, IsOk, IsErr, IsOkUnless, IfOk, OnOk, OnErr, alloc_error};
ghost use Rattle.mw_outside.specs.Lookup.{bytes_at};

use crate::errors::{KeepFault, ReadFault, StartFault, WriteFault};
use crate::keepers::Keeper;
use crate::lists::{Bytes, Names};
use crate::named::{Files, find_file};
use crate::sinks::Sink;
use crate::sources::Source;
use std::alloc::Global;

/// Files in memory. Its calls don't fail; a name that no file has is `Missing`.
#[derive(Debug, Drop)]
pub struct SureSource {
    files: Files,
    step: usize,
    started: bool,
    index: usize,
    place: usize,
    ghost moves: { 0 < step },
    ghost is_file: { IsTrue started → index < length files },
    ghost in_file: { place ≤ length (bytes_at files index) },
}

impl SureSource {
    ghost use Rattle.mw_outside.specs.Lookup.{names_differ};
    ghost use Rattle.mw_outside.specs.Sure.{sure_files, sure_source_step, IsSureUnderWay};

    /// A source of these files, whose names differ. One call moves at most `step` bytes, at least 1. No
    /// file is started. Takes no memory.
    pub fn new(files: Files, step: usize) -> SureSource
        requires step { 0 < step }
        requires names { IsTrue (names_differ files) }
        ensures files { sure_files result ≡ files }
        ensures step { sure_source_step result ≡ step }
        ensures none { ¬ IsSureUnderWay result }
    {
        SureSource {
            files,
            step,
            started: false,
            index: 0,
            place: 0,
        }
    }
}

impl Source for SureSource {
    ghost use Rattle.mw_outside.specs.Lookup.{file_of};
    ghost use Rattle.mw_outside.specs.Sure.{sure_files, sure_source_step, IsSureUnderWay, sure_left};

    ghost tells = { true };

    ghost told = { sure_files };

    ghost IsStarted = { IsSureUnderWay };

    ghost left = { sure_left };

    ghost faults = { λ _. 0 };

    /// Starts a file, and is `Missing` exactly where no file has the name.
    fn start(&mut self, name: &str) -> Result<(), StartFault>
        ensures missing { IsErr result ↔ IsNone (file_of (sure_files self.old) name.now) }
        ensures sure { IsOkUnless result StartFault.Missing }
        ensures step { sure_source_step self.new ≡ sure_source_step self.old }
        ensures found { OnOk result
            (file_of (sure_files self.old) name.now ≡ Some (sure_left self.new)) }
        ensures ready { OnOk result (IsSureUnderWay self.new) }
        ensures still_ready { OnErr result (IsSureUnderWay self.old → IsSureUnderWay self.new) }
        ensures still_left { OnErr result (sure_left self.new ≡ sure_left self.old) }
        ensures same_files { sure_files self.new ≡ sure_files self.old }
    {
        match find_file(self.files.as_slice(), name.as_bytes()) {
            None => Err(StartFault::Missing),
            Some(index) => {
                self.index = index;
                self.place = 0;
                self.started = true;
                Ok(())
            }
        }
    }

    /// Moves the next bytes: as many as are left, fit and make a step.
    fn read(&mut self, into: &mut [u8]) -> Result<usize, ReadFault>
        requires started { IsSureUnderWay self.old }
        requires room { 0 < length into.old }
        ensures ok { IsOk result }
        ensures step { sure_source_step self.new ≡ sure_source_step self.old }
        ensures size { IfOk result (λ count. count
            ≡ min (sure_source_step self.old) (min (length (sure_left self.old)) (length into.old))) }
        ensures bound { IfOk result (λ count. count ≤ length into.new) }
        ensures moved { IfOk result (λ count. sure_left self.old
            ≡ take count into.new ++ sure_left self.new) }
        ensures end { IfOk result (λ count. count ≡ 0 → sure_left self.old ≡ []) }
        ensures still_ready { IsSureUnderWay self.new }
        ensures same_files { sure_files self.new ≡ sure_files self.old }
    {
        let rest = &self.files.bytes_at(self.index)[self.place..];
        let count = move_front(rest, into, self.step);
        self.place += count;
        Ok(count)
    }
}

/// Bytes in memory. Its calls don't fail, but for want of memory.
#[derive(Debug, Drop)]
pub struct SureSink {
    content: Bytes,
    step: usize,
    ghost moves: { 0 < step },
}

impl SureSink {
    ghost use Rattle.mw_outside.specs.Sure.{sure_written, sure_sink_step};

    /// A sink to which nothing was written. One call writes at most `step` bytes, at least 1. Takes no
    /// memory; the bytes written are kept by `alloc`.
    pub fn new(alloc: Global, step: usize) -> SureSink
        requires { 0 < step }
        ensures written { sure_written result ≡ [] }
        ensures step { sure_sink_step result ≡ step }
    {
        SureSink {
            content: Bytes::new(alloc),
            step,
        }
    }

    /// The bytes written so far.
    pub fn written(&self) -> &[u8]
        ensures { result.now ≡ sure_written self.now }
    {
        self.content.as_slice()
    }
}

impl Sink for SureSink {
    ghost use Rattle.mw_outside.specs.Sure.{sure_written, sure_sink_step};

    ghost tells = { true };

    ghost written = { sure_written };

    ghost faults = { λ _. 0 };

    /// Writes the piece, or a step of it. Fails only for want of memory, and writes nothing then.
    fn write(&mut self, bytes: &[u8]) -> Result<usize, WriteFault>
        requires { 0 < length bytes.now }
        ensures sure { IsOkUnless result (WriteFault.Memory alloc_error) }
        ensures step { sure_sink_step self.new ≡ sure_sink_step self.old }
        ensures size { IfOk result
            (λ count. count ≡ min (sure_sink_step self.old) (length bytes.now)) }
        ensures some { IfOk result (λ count. 0 < count) }
        ensures ok { IfOk result (λ count. sure_written self.new
            ≡ sure_written self.old ++ take count bytes.now) }
        ensures err { OnErr result (sure_written self.new ≡ sure_written self.old) }
    {
        let count = self.step.min(bytes.len());
        self.content.append(&bytes[..count])?;
        Ok(count)
    }
}

/// One file in memory, whatever its name. Its calls don't fail, but for want of memory.
#[derive(Debug, Drop)]
pub struct SureKeeper {
    bytes: Bytes,
    opened: Names,
}

impl SureKeeper {
    ghost use Rattle.mw_outside.specs.Sure.{sure_held, sure_opened};

    /// A keeper that holds these bytes, and wasn't started. Takes no memory; the names are kept by `alloc`.
    pub fn new(alloc: Global, held: Bytes) -> SureKeeper
        ensures held { sure_held result ≡ held }
        ensures opened { sure_opened result ≡ [] }
    {
        SureKeeper {
            bytes: held,
            opened: Names::new(alloc),
        }
    }

    /// The names with which it was started, in order.
    pub fn opened(&self) -> &[Bytes]
        ensures { result.now ≡ sure_opened self.now }
    {
        self.opened.as_slice()
    }

    /// The bytes held.
    pub fn held(&self) -> &[u8]
        ensures { result.now ≡ sure_held self.now }
    {
        self.bytes.as_slice()
    }
}

impl Keeper for SureKeeper {
    ghost use Rattle.mw_outside.specs.Sure.{sure_held, sure_opened};

    ghost tells = { true };

    ghost held = { sure_held };

    ghost opened = { sure_opened };

    ghost faults = { λ _. 0 };

    /// Fails only for want of memory.
    fn start(&mut self, name: &str) -> Result<(), KeepFault>
        ensures named { OnOk result (sure_opened self.new ≡ sure_opened self.old ++ name.now ∷ []) }
        ensures unnamed { OnErr result (sure_opened self.new ≡ sure_opened self.old) }
        ensures kept { sure_held self.new ≡ sure_held self.old }
        ensures sure { IsOkUnless result (KeepFault.Memory alloc_error) }
    {
        self.opened.add(name.as_bytes())?;
        Ok(())
    }

    /// Fails only for want of memory.
    fn read_all(&mut self, alloc: Global, most: usize) -> Result<Vec<u8>, KeepFault>
        ensures ok { IfOk result (λ bytes. bytes.items ≡ take most (sure_held self.old)) }
        ensures kept { sure_held self.new ≡ sure_held self.old }
        ensures same_names { sure_opened self.new ≡ sure_opened self.old }
        ensures sure { IsOkUnless result (KeepFault.Memory alloc_error) }
    {
        let count = most.min(self.bytes.len());
        Ok(Vec::from_slice(alloc, &self.bytes.as_slice()[..count])?)
    }

    /// Succeeds.
    fn cut(&mut self, length: usize) -> Result<(), KeepFault>
        ensures ok { IsOk result }
        ensures kept { sure_held self.new ≡ take length (sure_held self.old) }
        ensures same_names { sure_opened self.new ≡ sure_opened self.old }
    {
        self.bytes.truncate(length);
        Ok(())
    }

    /// Fails only for want of memory, and changes nothing then.
    fn append(&mut self, bytes: &[u8]) -> Result<(), KeepFault>
        ensures ok { OnOk result (sure_held self.new ≡ sure_held self.old ++ bytes.now) }
        ensures err { OnErr result (sure_held self.new ≡ sure_held self.old) }
        ensures same_names { sure_opened self.new ≡ sure_opened self.old }
        ensures sure { IsOkUnless result (KeepFault.Memory alloc_error) }
    {
        self.bytes.append(bytes)?;
        Ok(())
    }
}

/// Moves the next bytes of a file into the front of a slice: as many as there are and fit, but at most
/// `step`. Answers how many.
fn move_front(from: &[u8], into: &mut [u8], step: usize) -> usize
    ensures count { result ≡ min step (min (length from.now) (length into.old)) }
    ensures moved { take result into.new ≡ take result from.now }
{
    let count = step.min(from.len().min(into.len()));
    let front = &mut into[..count];
    front.copy_from_slice(&from[..count]);
    count
}
