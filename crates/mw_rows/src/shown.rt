// What is printed of bytes that were written.

use mw_key::digest;
use std::alloc::{AllocError, Global};
use std::fmt::Debug;

/// A value as a line. The value is let go here, so that no caller does.
pub fn line<T: Debug + Drop>(alloc: Global, value: T) -> Result<String, AllocError> {
    format!(in alloc; "{value:?}\n")
}

/// The same with the units left.
pub fn line_with_units<T: Debug + Drop>(
    alloc: Global,
    value: T,
    left: u64,
) -> Result<String, AllocError> {
    format!(in alloc; "{value:?} {left}\n")
}

/// Adds a value as a line.
pub fn push_value<T: Debug>(alloc: Global, text: &mut String, value: &T) -> Result<(), AllocError> {
    let line = format!(in alloc; "{value:?}\n")?;
    text.push_str(line.as_str())
}

/// Which lines are printed.
#[derive(Clone, Copy, Drop)]
pub enum Shows {
    All,
    /// All but the bytes of modules.
    Keys,
    /// All, with how many bytes a module has and their digest in place of them.
    Sums,
    /// Those with the names and types of kernels.
    Kernels,
    /// The last alone.
    Last,
}

/// What a word shows.
pub fn shows_of(word: &str) -> Option<Shows> {
    match word {
        "all" => Some(Shows::All),
        "keys" => Some(Shows::Keys),
        "sums" => Some(Shows::Sums),
        "kernels" => Some(Shows::Kernels),
        "last" => Some(Shows::Last),
        _ => None,
    }
}

/// Whether a line is printed, which is the last or isn't.
fn is_shown(shows: Shows, line: &[u8], is_last: bool) -> bool {
    match shows {
        Shows::All | Shows::Sums => true,
        Shows::Keys => !line.starts_with(b"module "),
        Shows::Kernels => line.starts_with(b"kernel "),
        Shows::Last => is_last,
    }
}

/// Adds a byte: what isn't a printable character of ASCII, and a backslash, by an escape.
fn push_byte(alloc: Global, text: &mut String, byte: u8) -> Result<(), AllocError> {
    match byte {
        b'\\' => text.push_str("\\\\"),
        b' '..=b'~' => text.push(byte as char),
        _ => text.push_str(format!(in alloc; "\\x{byte:02x}")?.as_str()),
    }
}

/// Adds a line after a mark.
fn push_line(alloc: Global, text: &mut String, mark: &str, line: &[u8]) -> Result<(), AllocError> {
    text.push_str(mark)?;
    for byte in line {
        push_byte(alloc, text, *byte)?;
    }
    text.push_str("\n")
}

/// The bytes of the module that a line spells, where it spells one.
fn module_bytes(alloc: Global, line: &[u8]) -> Option<Vec<u8>> {
    if !line.starts_with(b"module ") {
        return None;
    }
    hex::decode(alloc, line.get(7..).unwrap_or(&[])).ok()
}

/// Adds how many bytes a module has, and their digest.
fn push_sum(alloc: Global, text: &mut String, bytes: &[u8]) -> Result<(), AllocError> {
    let digest = hex::encode(alloc, &digest(bytes))?;
    let line = format!(in alloc; "> module of {} bytes, {digest}\n", bytes.len())?;
    text.push_str(line.as_str())
}

/// Adds a line that has its line feed, or what is shown in its place.
fn push_shown(
    alloc: Global,
    text: &mut String,
    line: &[u8],
    shows: Shows,
) -> Result<(), AllocError> {
    match (shows, module_bytes(alloc, line)) {
        (Shows::Sums, Some(bytes)) => push_sum(alloc, text, bytes.as_slice()),
        _ => push_line(alloc, text, "> ", line),
    }
}

/// Adds lines that were written: `> ` stands before one that has its line feed, and `: ` before a last one that has
/// none.
pub fn push_lines(
    alloc: Global,
    text: &mut String,
    written: &[u8],
    shows: Shows,
) -> Result<(), AllocError> {
    let mut left = written;
    for _ in 0..written.len() {
        let Some(end) = left.iter().position(|byte| *byte == b'\n') else {
            break;
        };
        let (line, rest) = left.split_at(end);
        left = rest.get(1..).unwrap_or(&[]);
        if is_shown(shows, line, left.is_empty()) {
            push_shown(alloc, text, line, shows)?;
        }
    }
    if !left.is_empty() {
        push_line(alloc, text, ": ", left)?;
    }
    Ok(())
}

/// Adds how many bytes are held, and their digest.
pub fn push_held(alloc: Global, text: &mut String, held: &[u8]) -> Result<(), AllocError> {
    let digest = hex::encode(alloc, &digest(held))?;
    text.push_str(format!(in alloc; "held {} bytes, {digest}\n", held.len())?.as_str())
}
