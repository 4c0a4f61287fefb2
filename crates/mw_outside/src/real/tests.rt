// A kept file of the system, in a folder of the test's own.

use super::FileKeeper;
use crate::{KeepFault, Keeper};
use std::alloc::Global;
use std::io::ErrorKind;
use std::os::unix::fs::{MetadataExt, PermissionsExt, symlink};
use std::process::Abort;
use std::rt::Files;
use std::{fs, io};

#[derive(Clone, Copy, Debug)]
enum Call {
    Start(&'static str),
    ReadAll(usize),
    Cut(usize),
    Append(&'static [u8]),
}

/// A call, the bytes that it gives, or nothing where it fails, and the bytes of the file after it, or nothing where
/// there is no file.
type Step = (Call, Option<&'static [u8]>, Option<&'static [u8]>);

/// A file that is missing at first.
const KEPT: &[Step] = &[
    (Call::Start("mw_outside_kept/file"), Some(b""), None),
    (Call::ReadAll(9), Some(b""), None),
    (Call::Cut(0), Some(b""), None),
    (Call::Append(b"one "), Some(b""), Some(b"one ")),
    (
        Call::Append(b"two three"),
        Some(b""),
        Some(b"one two three"),
    ),
    (Call::ReadAll(0), Some(b""), Some(b"one two three")),
    (Call::ReadAll(9), Some(b"one two t"), Some(b"one two three")),
    (
        Call::ReadAll(13),
        Some(b"one two three"),
        Some(b"one two three"),
    ),
    (
        Call::ReadAll(67_108_864),
        Some(b"one two three"),
        Some(b"one two three"),
    ),
    (Call::Cut(14), Some(b""), Some(b"one two three")),
    (Call::Cut(5), Some(b""), Some(b"one t")),
    (Call::Append(b"!"), Some(b""), Some(b"one t!")),
];

/// A link to a file that is missing at first.
const LINKED: &[Step] = &[
    (Call::Start("mw_outside_links/link"), Some(b""), None),
    (Call::ReadAll(9), Some(b""), None),
    (Call::Append(b"one two"), Some(b""), Some(b"one two")),
    (Call::Cut(3), Some(b""), Some(b"one")),
    (Call::ReadAll(9), Some(b"one"), Some(b"one")),
];

/// A folder, a file in place of a folder, a byte 0 and a missing folder, beside a file that holds `one`.
const FAULTY: &[Step] = &[
    (Call::Start("mw_outside_faults"), None, Some(b"one")),
    (Call::Append(b"two"), None, Some(b"one")),
    (Call::Cut(0), None, Some(b"one")),
    (Call::ReadAll(9), None, Some(b"one")),
    (
        Call::Start("mw_outside_faults/file/below"),
        None,
        Some(b"one"),
    ),
    (Call::Append(b"two"), None, Some(b"one")),
    (Call::Cut(0), None, Some(b"one")),
    (Call::ReadAll(9), None, Some(b"one")),
    (Call::Start("mw_outside_faults/file\0"), None, Some(b"one")),
    (Call::Append(b"two"), None, Some(b"one")),
    (Call::Cut(0), None, Some(b"one")),
    (Call::ReadAll(9), None, Some(b"one")),
    (
        Call::Start("mw_outside_faults/none/below"),
        Some(b""),
        Some(b"one"),
    ),
    (Call::Cut(1), None, Some(b"one")),
    (Call::Append(b"two"), None, Some(b"one")),
];

/// A file that can't be written.
const READ_ONLY: &[Step] = &[
    (
        Call::Start("mw_outside_modes/file"),
        Some(b""),
        Some(b"one"),
    ),
    (Call::ReadAll(9), Some(b"one"), Some(b"one")),
    (Call::Cut(1), None, Some(b"one")),
    (Call::Append(b"two"), None, Some(b"one")),
];

/// A file that can't be read, beside no file.
const UNREADABLE: &[Step] = &[(Call::Start("mw_outside_modes/file"), None, None)];

/// The bytes that the call gives; none where it gives no bytes.
fn answer_of<R: Files>(
    alloc: Global,
    keeper: &mut FileKeeper<R>,
    call: Call,
) -> Result<Vec<u8>, KeepFault> {
    match call {
        Call::ReadAll(most) => return keeper.read_all(alloc, most),
        Call::Start(name) => keeper.start(name)?,
        Call::Cut(length) => keeper.cut(length)?,
        Call::Append(bytes) => keeper.append(bytes)?,
    }
    Ok(Vec::new(alloc))
}

/// Makes the call, and says whether it gives these bytes, or is `Failed` where there are none.
fn gives<R: Files>(
    alloc: Global,
    keeper: &mut FileKeeper<R>,
    call: Call,
    bytes: Option<&[u8]>,
) -> bool {
    match answer_of(alloc, keeper, call) {
        Ok(found) => bytes == Some(found.as_slice()),
        Err(fault) => bytes.is_none() && fault == KeepFault::Failed,
    }
}

/// Whether the file holds these bytes, or is missing where there are none.
fn holds<R: AllocGlobal + Files>(rt: &R, path: &str, bytes: Option<&[u8]>) -> bool {
    match fs::read(rt, path) {
        Ok(found) => bytes == Some(found.as_slice()),
        Err(error) => bytes.is_none() && error.kind() == ErrorKind::NotFound,
    }
}

/// Makes the calls on one keeper. Each gives what it should, leaves the file of this path as it should, and counts a
/// fault exactly where it fails.
fn take_steps<R: Abort + AllocGlobal + Files>(rt: &R, path: &str, steps: &[Step]) {
    let mut keeper = FileKeeper::new(rt.alloc(), rt);
    let mut faults = 0u64;
    for &(call, given, held) in steps {
        let answer = gives(rt.alloc(), &mut keeper, call, given);
        assert!(rt; answer, "{call:?} gives something else");
        assert!(rt; holds(rt, path, held), "{call:?} leaves something else");
        faults = faults.saturating_add(u64::from(given.is_none()));
        assert!(rt; keeper.faults == faults, "{call:?} counts something else");
    }
}

/// Makes an empty folder, where a test that was cut off may have left one.
fn make_folder<R: Alloc + Files>(rt: &R, folder: &str) -> io::Result<()> {
    let _ = fs::remove_dir_all(rt, folder);
    fs::create_dir(rt, folder)
}

#[test]
fn keeps_a_file(rt: HostRuntime) -> io::Result<()> {
    make_folder(&rt, "mw_outside_kept")?;
    take_steps(&rt, "mw_outside_kept/file", KEPT);
    fs::remove_dir_all(&rt, "mw_outside_kept")
}

#[test]
fn follows_links(rt: HostRuntime) -> io::Result<()> {
    make_folder(&rt, "mw_outside_links")?;
    symlink(&rt, "file", "mw_outside_links/link")?;
    take_steps(&rt, "mw_outside_links/file", LINKED);
    fs::remove_dir_all(&rt, "mw_outside_links")
}

#[test]
fn counts_faults(rt: HostRuntime) -> io::Result<()> {
    make_folder(&rt, "mw_outside_faults")?;
    fs::write(&rt, "mw_outside_faults/file", b"one".as_slice())?;
    take_steps(&rt, "mw_outside_faults/file", FAULTY);
    fs::remove_dir_all(&rt, "mw_outside_faults")
}

/// A file that can't be written is read, and one that can't be read isn't started. The user root may do both, and sees
/// nothing of this.
#[test]
fn needs_permission(rt: HostRuntime) -> io::Result<()> {
    make_folder(&rt, "mw_outside_modes")?;
    let path = "mw_outside_modes/file";
    fs::write(&rt, path, b"one".as_slice())?;
    if fs::metadata(&rt, path)?.uid() != 0 {
        fs::set_permissions(&rt, path, fs::Permissions::from_mode(0o444))?;
        take_steps(&rt, path, READ_ONLY);
        fs::set_permissions(&rt, path, fs::Permissions::from_mode(0o000))?;
        take_steps(&rt, "mw_outside_modes/none", UNREADABLE);
        fs::set_permissions(&rt, path, fs::Permissions::from_mode(0o644))?;
        assert!(rt; holds(&rt, path, Some(b"one")));
    }
    fs::remove_dir_all(&rt, "mw_outside_modes")
}
