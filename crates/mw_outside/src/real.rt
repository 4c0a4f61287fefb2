// The real outside: files and standard output. They tell nothing of content.

ghost use Rattle.std.specs.Prelude.{◌≡◌, ◌≤◌, [], false, vec_len, IsSome, IsOkUnless, IfOk, OnOk, OnErr};

use crate::errors::{KeepFault, ReadFault, ReadStop, StartFault, WriteFault};
use crate::keepers::Keeper;
use crate::reading::read_up_to;
use crate::sinks::Sink;
use crate::sources::Source;
use std::alloc::Global;
use std::fs::{File, OpenFile, OpenOptions};
use std::io;
use std::io::{ErrorKind, Read, Write};
use std::rt::Files;

/// The files of the system, opened by the runtime `R`.
#[derive(Drop)]
pub struct FileSource<R: Files> {
    runtime: R,
    file: Option<R::File>,
    faults: u64,
}

impl<R: Files> FileSource<R> {
    /// A source of the files that `rt` opens. None is started.
    pub fn new(rt: R) -> FileSource<R>
        ensures count { ⟦<FileSource<R> as Source>⟧.faults result ≡ 0 }
        ensures none { ¬ ⟦<FileSource<R> as Source>⟧.IsStarted result }
    {
        FileSource {
            runtime: rt,
            file: None,
            faults: 0,
        }
    }
}

impl<R: Files> Source for FileSource<R> {
    ghost tells = { false };

    ghost told = { λ _. [] };

    ghost IsStarted = { λ source. IsSome source.file };

    ghost left = { λ _. [] };

    ghost faults = { λ source. source.faults };

    fn start(&mut self, name: &str) -> Result<(), StartFault> {
        match File::open(&self.runtime, name) {
            Ok(file) => {
                self.file = Some(file);
                Ok(())
            }
            Err(error) => {
                self.faults = self.faults.saturating_add(1);
                if error.kind() == ErrorKind::NotFound {
                    Err(StartFault::Missing)
                } else {
                    Err(StartFault::Failed)
                }
            }
        }
    }

    fn read(&mut self, into: &mut [u8]) -> Result<usize, ReadFault> {
        match &mut self.file {
            None => unreachable!(),
            Some(file) => match file.read(into) {
                Ok(count) => Ok(count),
                Err(_) => {
                    self.faults = self.faults.saturating_add(1);
                    Err(ReadFault::Failed)
                }
            },
        }
    }
}

/// Standard output, as the runtime `R` prints.
#[derive(Drop)]
pub struct OutSink<R: Print> {
    runtime: R,
    faults: u64,
}

impl<R: Print> OutSink<R> {
    /// A sink that writes what `rt` prints.
    pub fn new(rt: R) -> OutSink<R>
        ensures { ⟦<OutSink<R> as Sink>⟧.faults result ≡ 0 }
    {
        OutSink {
            runtime: rt,
            faults: 0,
        }
    }
}

impl<R: Print> Sink for OutSink<R> {
    ghost tells = { false };

    ghost written = { λ _. [] };

    ghost faults = { λ sink. sink.faults };

    fn write(&mut self, bytes: &[u8]) -> Result<usize, WriteFault> {
        let count = self.runtime.write_some(bytes).unwrap_or(0);
        if count == 0 {
            self.faults = self.faults.saturating_add(1);
            return Err(WriteFault::Failed);
        }
        Ok(count)
    }
}

/// A file of the system, opened anew for each call by the runtime `R`. Symbolic links are followed.
#[derive(Drop)]
pub struct FileKeeper<R: Files> {
    runtime: R,
    name: String,
    faults: u64,
}

impl<R: Files> FileKeeper<R> {
    ghost use Rattle.mw_outside.specs.Count.{Rose};

    /// A keeper of a file that `rt` opens. No file is named. Takes no memory; the name is kept by `alloc`.
    pub fn new(alloc: Global, rt: R) -> FileKeeper<R>
        ensures { ⟦<FileKeeper<R> as Keeper>⟧.faults result ≡ 0 }
    {
        FileKeeper {
            runtime: rt,
            name: String::new(alloc),
            faults: 0,
        }
    }

    /// Counts a fault where the system gave an error, and is `Failed` then.
    fn counted(&mut self, outcome: io::Result<()>) -> Result<(), KeepFault>
        ensures sure { IsOkUnless result KeepFault.Failed }
        ensures same_count { OnOk result (self.new.faults ≡ self.old.faults) }
        ensures failed { OnErr result (Rose self.old.faults self.new.faults) }
        ensures count { self.old.faults ≤ self.new.faults }
    {
        if outcome.is_err() {
            self.faults = self.faults.saturating_add(1);
            return Err(KeepFault::Failed);
        }
        Ok(())
    }
}

impl<R: Files> Keeper for FileKeeper<R> {
    ghost tells = { false };

    ghost held = { λ _. [] };

    ghost opened = { λ _. [] };

    ghost faults = { λ keeper. keeper.faults };

    /// Remembers the name, and looks: a folder, or a file that can't be opened to be read, is `Failed`. A
    /// missing file isn't made.
    fn start(&mut self, name: &str) -> Result<(), KeepFault> {
        self.name.clear();
        self.name.push_str(name)?;
        let outcome = look_at(&self.runtime, name);
        self.counted(outcome)
    }

    /// Reads in growing pieces. A missing file gives nothing.
    fn read_all(&mut self, alloc: Global, most: usize) -> Result<Vec<u8>, KeepFault> {
        match read_front(&self.runtime, self.name.as_str(), alloc, most) {
            Ok(bytes) => Ok(bytes),
            Err(ReadStop::Memory(error)) => Err(KeepFault::Memory(error)),
            Err(ReadStop::Failed) => {
                self.faults = self.faults.saturating_add(1);
                Err(KeepFault::Failed)
            }
        }
    }

    /// Needs a file that can be written, and never lengthens it. A missing one isn't made, and has no front
    /// but the empty one.
    fn cut(&mut self, length: usize) -> Result<(), KeepFault> {
        let outcome = cut_file(&self.runtime, self.name.as_str(), length as u64);
        self.counted(outcome)
    }

    /// Makes the file where it is missing. Where the system takes the piece whole, it is one write.
    fn append(&mut self, bytes: &[u8]) -> Result<(), KeepFault> {
        let outcome = append_to(&self.runtime, self.name.as_str(), bytes);
        self.counted(outcome)
    }
}

/// Is Ok where the file is missing, or is no folder and can be opened to be read.
fn look_at<R: Files>(rt: &R, name: &str) -> io::Result<()> {
    match File::open(rt, name) {
        Ok(file) if file.metadata()?.is_dir() => Err(ErrorKind::IsADirectory.into()),
        Ok(_) => Ok(()),
        Err(error) if error.kind() == ErrorKind::NotFound => Ok(()),
        Err(error) => Err(error),
    }
}

/// The first `most` bytes of a file, and none of a missing one.
fn read_front<R: Files>(rt: &R, name: &str, alloc: Global, most: usize) -> Result<Vec<u8>, ReadStop>
    ensures bound { IfOk result (λ bytes. vec_len bytes ≤ most) }
{
    let mut source = FileSource::new(rt);
    match source.start(name) {
        Ok(()) if most > 0 => read_up_to(alloc, &mut source, most),
        Ok(()) | Err(StartFault::Missing) => Ok(Vec::new(alloc)),
        Err(StartFault::Failed) => Err(ReadStop::Failed),
    }
}

/// Shortens a file to this length; a shorter one stays. A missing file is an error unless the length is 0.
fn cut_file<R: Files>(rt: &R, name: &str, length: u64) -> io::Result<()> {
    match OpenOptions::new().write(true).open(rt, name) {
        Ok(file) if length < file.metadata()?.len() => file.set_len(length),
        Ok(_) => Ok(()),
        Err(error) if error.kind() == ErrorKind::NotFound && length == 0 => Ok(()),
        Err(error) => Err(error),
    }
}

/// Writes the whole piece at the file's end. A write that takes nothing is an error.
fn append_to<R: Files>(rt: &R, name: &str, bytes: &[u8]) -> io::Result<()> {
    let mut file = OpenOptions::new().append(true).create(true).open(rt, name)?;
    file.write_all(bytes)
}

#[cfg(test)]
mod tests;
