// Commands over a source in memory.
//
// `source` is the file `source.metaml`, and `cert` the file `cert`, which is there where the field is. `words` are the
// command's, with a blank between two; `''` is an empty one, and `run source.metaml` stands there where the field
// doesn't. `reads`, `writes` and `keeps` number the calls of source, sink and keeper that fail, from 0 on. The source
// gives `piece` bytes at once, 7 where the field isn't there, and the sink takes `step` bytes, 10 where it isn't. The
// keeper holds the bytes `held`. `shows` says which lines are printed. `beside` names the row before: where the same
// bytes were written, that is said in place of the lines. Where the words name a cache file, what the keeper holds in
// the end stands after the lines, with all its bytes where `holds` is `bytes`.

use crate::fields::{Fault, Row};
use crate::outside::{Ended, end_of};
use crate::shown::{Shows, push_held, push_lines, shows_of};
use mw_console::Status;
use std::alloc::{AllocError, Global};
use std::thread::Threads;

/// The row before, and what was written.
#[derive(Drop)]
pub struct Before {
    name: String,
    written: Vec<u8>,
}

impl Before {
    /// No row.
    pub fn none(alloc: Global) -> Before {
        Before {
            name: String::new(alloc),
            written: Vec::new(alloc),
        }
    }
}

/// The word that a text spells: `''` is the empty one.
fn spelled(alloc: Global, text: &str) -> Result<String, AllocError> {
    if text == "''" {
        Ok(String::new(alloc))
    } else {
        String::from_str(alloc, text)
    }
}

/// The words of the command: those of the row, or these where it has none.
pub fn words(alloc: Global, row: &Row, otherwise: &str) -> Result<Vec<String>, Fault> {
    let text = if row.has("words") {
        row.text("words")?
    } else {
        otherwise
    };
    let mut words = Vec::new(alloc);
    for word in text.split_whitespace() {
        words.push(spelled(alloc, word)?)?;
    }
    Ok(words)
}

/// Which lines are printed.
pub fn shows(row: &Row) -> Result<Shows, Fault> {
    if !row.has("shows") {
        return Ok(Shows::All);
    }
    match shows_of(row.text("shows")?) {
        Some(shows) => Ok(shows),
        None => Err(Fault::Malformed("no such lines are shown")),
    }
}

/// Whether a row stands beside the row before.
fn is_beside(row: &Row, before: &Before) -> Result<bool, Fault> {
    if !row.has("beside") {
        return Ok(false);
    }
    if row.text("beside")? != before.name.as_str() {
        return Err(Fault::Malformed("not the name of the row before"));
    }
    Ok(true)
}

/// The exit code, and the digest of a record that is told as bad.
pub fn push_status(alloc: Global, text: &mut String, status: &Status) -> Result<(), AllocError> {
    text.push_str(format!(in alloc; "status {}\n", status.code())?.as_str())?;
    if let Status::BadCache(digest) = status {
        let digest = hex::encode(alloc, digest)?;
        text.push_str(format!(in alloc; "bad cache record {digest}\n")?.as_str())?;
    }
    Ok(())
}

/// The exit code, and the lines that were written, which may be those of the row before.
fn lines(
    alloc: Global,
    ended: &Ended,
    shows: Shows,
    are_the_same: bool,
) -> Result<String, AllocError> {
    let mut text = String::new(alloc);
    push_status(alloc, &mut text, &ended.status)?;
    if are_the_same {
        text.push_str("the same lines\n")?;
    } else {
        push_lines(alloc, &mut text, ended.written.as_slice(), shows)?;
    }
    Ok(text)
}

/// Whether the words name a cache file.
fn name_a_cache(words: &[String]) -> bool {
    words.iter().any(|word| word.as_str() == "--cache" || word.as_str().starts_with("--cache="))
}

/// Whether all bytes that the keeper holds are printed.
fn shows_bytes(row: &Row) -> Result<bool, Fault> {
    match row.text("holds")? {
        "" => Ok(false),
        "bytes" => Ok(true),
        _ => Err(Fault::Malformed("nothing of this is shown")),
    }
}

/// Adds what the keeper holds.
fn push_keeper(alloc: Global, text: &mut String, row: &Row, ended: &Ended) -> Result<(), Fault> {
    let held = ended.held.as_slice();
    if held == row.bytes("held") {
        text.push_str("held as before\n")?;
        return Ok(());
    }
    push_held(alloc, text, held)?;
    if shows_bytes(row)? {
        let bytes = hex::encode(alloc, held)?;
        text.push_str(format!(in alloc; "bytes {bytes}\n")?.as_str())?;
    }
    Ok(())
}

/// The exit code, and the lines that were written; what the keeper holds, where the words name a cache file.
pub fn carried_out<R: AllocGlobal + Threads + Sync>(
    rt: &R,
    row: &Row,
    before: &mut Before,
) -> Result<String, Fault> {
    let alloc = rt.alloc();
    let shows = shows(row)?;
    let is_beside = is_beside(row, before)?;
    before.name = row.name.clone()?;
    let words = words(alloc, row, "run source.metaml")?;
    let ended = end_of(rt, row, words.as_slice(), row.bytes("held"))?;
    let are_the_same = is_beside && ended.written.as_slice() == before.written.as_slice();
    let mut text = lines(alloc, &ended, shows, are_the_same)?;
    if name_a_cache(words.as_slice()) {
        push_keeper(alloc, &mut text, row, &ended)?;
    }
    let Ended { written, .. } = ended;
    before.written = written;
    Ok(text)
}
