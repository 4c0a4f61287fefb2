// The lines about a file.

ghost use Rattle.std.specs.Prelude.{◌≡◌, ◌++◌, IfOk};
ghost use Rattle.mw_judge.specs.FileLines.{bad_file_line, place_line, verdict_line};

use crate::fault::BadFile;
use mw_decode::BadModule;
use std::alloc::{AllocError, Global};

/// Appends the line of a file's fault. The one error is want of memory.
pub fn put_bad_file(alloc: Global, text: &mut Vec<u8>, fault: BadFile) -> Result<(), AllocError>
    ensures { IfOk result (λ _. text.new.items ≡ text.old.items ++ bad_file_line fault) }
{
    match fault {
        BadFile::Module(BadModule::Magic) => put(text, b"bad magic\n"),
        BadFile::Module(BadModule::Section(at)) => put_place(alloc, text, b"bad section", at),
        BadFile::Module(BadModule::Size(at)) => put_place(alloc, text, b"bad size", at),
        BadFile::Module(BadModule::Number(at)) => put_place(alloc, text, b"bad number", at),
        BadFile::Module(BadModule::Opcode(at)) => put_place(alloc, text, b"bad opcode", at),
        BadFile::Module(BadModule::OutsideProfile(at)) => {
            put_place(alloc, text, b"outside profile", at)
        }
        BadFile::Module(BadModule::Short(at)) => put_place(alloc, text, b"short", at),
        BadFile::Text(at) => put_place(alloc, text, b"bad text", at),
    }
}

/// Appends the line of a verdict. The one error is want of memory.
pub fn put_verdict(text: &mut Vec<u8>, valid: bool) -> Result<(), AllocError>
    ensures { IfOk result (λ _. text.new.items ≡ text.old.items ++ verdict_line valid) }
{
    if valid {
        put(text, b"valid\n")
    } else {
        put(text, b"invalid\n")
    }
}

/// Appends the line of a place.
fn put_place(alloc: Global, text: &mut Vec<u8>, words: &[u8], at: u32) -> Result<(), AllocError>
    ensures { IfOk result (λ _. text.new.items ≡ text.old.items ++ place_line words.now at) }
{
    let place = format!(in alloc; " at {at}\n")?;
    put(text, words)?;
    put(text, place.as_bytes())
}

/// Appends bytes.
fn put(text: &mut Vec<u8>, more: &[u8]) -> Result<(), AllocError>
    ensures { IfOk result (λ _. text.new.items ≡ text.old.items ++ more.now) }
{
    text.extend_from_slice(more)?;
    Ok(())
}
