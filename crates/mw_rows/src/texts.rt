// Canonical texts, and digests.
//
// A `text` row prints the version, the code and the type that its text spells, and the text that is written of these. A
// `digest` row prints the digest of its bytes, and the number from which a table looks for their name.

ghost use Rattle.mw_term.specs.Terms.{expression_of};
ghost use Rattle.mw_term.specs.Closed.{IsCode};

use crate::fields::{Fault, Row};
use mw_key::{TextFault, Version, digest, read_text, start_of, text_of};
use mw_term::{KType, Term};
use std::alloc::Global;

/// How long a text may be so that its code is printed.
const SHORT: usize = 1_000;

/// Adds the text that is written of code and a type.
fn push_written(alloc: Global, text: &mut String, code: &Term, kind: &KType) -> Result<(), Fault>
    requires { IsCode (expression_of code.now) }
{
    let written = text_of(alloc, code, kind)?;
    text.push_str(std::str::from_utf8(written.as_slice()).unwrap_or(""))?;
    text.push_str("\n")?;
    Ok(())
}

/// What a text of this length spells, and the text that is written of it. Of a long one it is said alone that it is
/// one.
fn spelled(
    alloc: Global,
    length: usize,
    version: Version,
    code: &Term,
    kind: &KType,
) -> Result<String, Fault>
    requires { IsCode (expression_of code.now) }
{
    if length > SHORT {
        return Ok(String::from_str(alloc, "a text\n")?);
    }
    let mut text = format!(in alloc; "{version:?} {code:?} {kind:?}\n")?;
    push_written(alloc, &mut text, code, kind)?;
    Ok(text)
}

/// What a row's text spells, or that it is none.
pub fn text(alloc: Global, row: &Row) -> Result<String, Fault> {
    let bytes = row.bytes("text");
    match read_text(alloc, bytes) {
        Ok((version, code, kind)) => {
            let lines = spelled(alloc, bytes.len(), version, &code, &kind);
            drop(code);
            drop(kind);
            lines
        }
        Err(TextFault::BadText) => Ok(String::from_str(alloc, "no text\n")?),
        Err(TextFault::Memory(error)) => Err(Fault::Memory(error)),
    }
}

/// The digest of a row's bytes.
pub fn digest_lines(alloc: Global, row: &Row) -> Result<String, Fault> {
    let bytes = row.bytes("text");
    let start = start_of(bytes);
    let digest = hex::encode(alloc, digest(bytes))?;
    Ok(format!(in alloc; "{digest}\n{start}\n")?)
}
