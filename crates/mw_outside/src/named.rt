// Files in memory, each under its name.

ghost use Rattle.std.specs.Prelude.{◌≡◌, ◌<◌, [], ◌∷◌, ◌++◌, length, IfSome, option_map, OnOk, OnErr, slice_get, Some};
ghost use Rattle.mw_outside.specs.Lookup.{file_of, bytes_at, is_named, names_differ};

use crate::lists::Bytes;
use std::alloc::{AllocError, Global};
use std::marker::Model;

/// A file: its name and its bytes.
#[derive(Debug, Drop)]
pub struct NamedFile {
    pub name: Bytes,
    pub bytes: Bytes,
}

/// A list of files.
#[derive(Debug, Drop)]
pub struct Files {
    items: Vec<NamedFile>,
}

impl Model for Files {
    ghost use Rattle.std.specs.Prelude.{List};
    ghost use Rattle.mw_outside.specs.declared.named.NamedFile.{NamedFile};

    ghost Value = { List NamedFile };

    ghost view = { λ list. list.items.items };
}

impl Files {
    /// No files. Takes no memory; the list grows by `alloc`.
    pub fn new(alloc: Global) -> Files
        ensures { result ≡ [] }
    {
        Files {
            items: Vec::new(alloc),
        }
    }

    /// How many files there are.
    pub fn len(&self) -> usize
        ensures { result ≡ length self.now }
    {
        self.items.len()
    }

    /// The file at a place below the length.
    pub fn get(&self, at: usize) -> &NamedFile
        requires { at < length self.now }
        ensures { slice_get self.now at ≡ Some result.now }
    {
        &self.items[at]
    }

    /// The bytes of the file at a place below the length.
    pub fn bytes_at(&self, at: usize) -> &[u8]
        requires { at < length self.now }
        ensures { result.now ≡ bytes_at self.now at }
    {
        self.get(at).bytes.as_slice()
    }

    /// All of them, in order.
    pub fn as_slice(&self) -> &[NamedFile]
        ensures { result.now ≡ self.now }
    {
        self.items.as_slice()
    }

    /// Adds a file at the end. The error is want of memory, and leaves the list unchanged.
    pub fn push(&mut self, file: NamedFile) -> Result<(), AllocError>
        ensures ok { OnOk result (self.new ≡ self.old ++ file ∷ []) }
        ensures err { OnErr result (self.new ≡ self.old) }
    {
        self.items.push(file)?;
        Ok(())
    }

    /// Whether no two files have one name.
    pub fn names_differ(&self) -> bool
        ensures { result ≡ names_differ self.now }
    {
        names_differ_in(self.items.as_slice())
    }
}

/// The place of the first file of this name, if there is one.
pub fn find_file(files: &[NamedFile], name: &[u8]) -> Option<usize>
    ensures bound { IfSome result (λ at. at < length files.now) }
    ensures first { file_of files.now name.now ≡ option_map (bytes_at files.now) result }
{
    let (first, others) = files.split_first()?;
    if first.name.as_slice() == name {
        return Some(0);
    }
    let at = find_file(others, name)?;
    Some(at + 1)
}

/// Whether a file of this name is among these.
fn is_named(files: &[NamedFile], name: &[u8]) -> bool
    ensures { result ≡ is_named files.now name.now }
{
    match files.split_first() {
        None => false,
        Some((first, others)) => first.name.as_slice() == name || is_named(others, name),
    }
}

/// Whether no two of these files have one name.
fn names_differ_in(files: &[NamedFile]) -> bool
    ensures { result ≡ names_differ files.now }
{
    match files.split_first() {
        None => true,
        Some((first, others)) => {
            !is_named(others, first.name.as_slice()) && names_differ_in(others)
        }
    }
}
