// Texts of modules, read and written again.
//
// `text` and each `next` are texts. Of the first the canonical text of its module is printed, or its first bad place;
// of each next one that the same comes of it, or what does.

use crate::fields::{Fault, Row};
use crate::shown::{Shows, push_lines};
use mw_wat::{WatFault, read_wat, write_wat};
use std::alloc::{AllocError, Global};

/// The line of a first bad place.
fn bad_line(alloc: Global, at: u32) -> Result<Vec<u8>, AllocError> {
    let line = format!(in alloc; "bad text at {at}\n")?;
    Vec::from_slice(alloc, line.as_bytes())
}

/// The canonical text of the module that a text is of, or the line of its first bad place.
fn rewritten(alloc: Global, text: &[u8]) -> Result<Vec<u8>, AllocError> {
    match read_wat(alloc, text) {
        Ok(wasm) => write_wat(alloc, &wasm),
        Err(WatFault::Bad(at)) => bad_line(alloc, at),
        Err(WatFault::Memory(error)) => Err(error),
    }
}

/// Adds what comes of a next text, beside what came of the first.
fn push_next(
    alloc: Global,
    text: &mut String,
    first: &[u8],
    next: &[u8],
) -> Result<(), AllocError> {
    let written = rewritten(alloc, next)?;
    if written.as_slice() == first {
        text.push_str("the same lines\n")
    } else {
        push_lines(alloc, text, written.as_slice(), Shows::All)
    }
}

/// What comes of a row's texts.
pub fn carried_out(alloc: Global, row: &Row) -> Result<String, Fault> {
    let first = rewritten(alloc, row.bytes("text"))?;
    let mut text = String::new(alloc);
    push_lines(alloc, &mut text, first.as_slice(), Shows::All)?;
    for field in row.fields.as_slice() {
        if field.name.as_str() == "next" {
            push_next(alloc, &mut text, first.as_slice(), field.bytes.as_slice())?;
        }
    }
    Ok(text)
}
