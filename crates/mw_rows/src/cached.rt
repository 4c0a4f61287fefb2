// Sweeps over the cache file that a command leaves.
//
// `source` is the one file, and `words` are the command's, `run --cache c source.metaml` where the field isn't there.
// `workers` are numbers of workers, 1 where the field isn't there. With each of them the command is carried out over an
// empty cache file; again over what that left; over each shorter front of it; and over it with each byte in turn
// changed in its lowest bit. What the very first wrote and left is printed. Of the others it is only said that they
// wrote and left the same, or which is the first that didn't.

use crate::fields::{Fault, Row};
use crate::outside::{Ended, end_of};
use crate::runs::{push_status, shows, words};
use crate::shown::{push_held, push_lines};
use std::alloc::{AllocError, Global};
use std::thread::Threads;

/// The command where the row has none.
const WORDS: &str = "run --cache c source.metaml";

/// What is done to a cache file at a place.
#[derive(Clone, Copy, Drop)]
enum Damage {
    /// It ends there.
    Cut,
    /// The byte there is changed in its lowest bit.
    Changed,
}

impl Damage {
    fn word(self) -> &'static str {
        match self {
            Damage::Cut => "cut",
            Damage::Changed => "changed",
        }
    }
}

/// The file after the damage at a place.
fn damaged(alloc: Global, file: &[u8], damage: Damage, at: usize) -> Result<Vec<u8>, AllocError> {
    let mut bytes = Vec::from_slice(alloc, file)?;
    match damage {
        Damage::Cut => bytes.truncate(at),
        Damage::Changed => {
            if let Some(byte) = bytes.get_mut(at) {
                *byte ^= 1;
            }
        }
    }
    Ok(bytes)
}

/// What the next command has that the first one hasn't.
fn difference(first: &Ended, next: &Ended) -> Option<&'static str> {
    if next.status.code() != first.status.code() {
        Some("another status")
    } else if next.written.as_slice() != first.written.as_slice() {
        Some("another output")
    } else if next.held.as_slice() != first.held.as_slice() {
        Some("another file")
    } else {
        None
    }
}

/// What is said of a difference.
fn said(difference: Option<&'static str>) -> &'static str {
    difference.unwrap_or("the same output, the same file")
}

/// The first place of a damage after which the command ends otherwise than over an empty file, and what is another
/// then.
fn first_difference<R: AllocGlobal + Threads + Sync>(
    rt: &R,
    row: &Row,
    words: &[String],
    first: &Ended,
    damage: Damage,
) -> Result<Option<(usize, &'static str)>, Fault> {
    for at in 0..first.held.len() {
        let file = damaged(rt.alloc(), first.held.as_slice(), damage, at)?;
        let next = end_of(rt, row, words, file.as_slice())?;
        if let Some(other) = difference(first, &next) {
            return Ok(Some((at, other)));
        }
    }
    Ok(None)
}

/// Adds what comes of a damage at each place.
fn push_damage<R: AllocGlobal + Threads + Sync>(
    rt: &R,
    text: &mut String,
    row: &Row,
    words: &[String],
    first: &Ended,
    damage: Damage,
) -> Result<(), Fault> {
    let alloc = rt.alloc();
    let word = damage.word();
    let line = match first_difference(rt, row, words, first, damage)? {
        Some((at, other)) => format!(in alloc; "{word} at byte {at}: {other}\n")?,
        None => {
            let count = first.held.len();
            format!(in alloc; "{word} at each of {count} bytes: {}\n", said(None))?
        }
    };
    text.push_str(line.as_str())?;
    Ok(())
}

/// The row's words and so many workers.
fn words_with(alloc: Global, row: &Row, workers: &str) -> Result<Vec<String>, Fault> {
    let mut words = words(alloc, row, WORDS)?;
    words.push(String::from_str(alloc, "--workers")?)?;
    words.push(String::from_str(alloc, workers)?)?;
    Ok(words)
}

/// Adds what comes of the command with so many workers over what the first one left: whole, and damaged at each place.
fn push_sweeps<R: AllocGlobal + Threads + Sync>(
    rt: &R,
    text: &mut String,
    row: &Row,
    words: &[String],
    first: &Ended,
) -> Result<(), Fault> {
    let alloc = rt.alloc();
    let again = end_of(rt, row, words, first.held.as_slice())?;
    let again = said(difference(first, &again));
    text.push_str(format!(in alloc; "again: {again}\n")?.as_str())?;
    push_damage(rt, text, row, words, first, Damage::Cut)?;
    push_damage(rt, text, row, words, first, Damage::Changed)
}

/// Adds what the first command wrote and left.
fn push_first(alloc: Global, text: &mut String, row: &Row, first: &Ended) -> Result<(), Fault> {
    push_status(alloc, text, &first.status)?;
    push_lines(alloc, text, first.written.as_slice(), shows(row)?)?;
    push_held(alloc, text, first.held.as_slice())?;
    Ok(())
}

/// What comes of the command and of all the others.
pub fn carried_out<R: AllocGlobal + Threads + Sync>(rt: &R, row: &Row) -> Result<String, Fault> {
    let alloc = rt.alloc();
    let numbers = if row.has("workers") {
        row.text("workers")?
    } else {
        "1"
    };
    let plain = words(alloc, row, WORDS)?;
    let first = end_of(rt, row, plain.as_slice(), &[])?;
    let mut text = String::new(alloc);
    push_first(alloc, &mut text, row, &first)?;
    for workers in numbers.split_whitespace() {
        let words = words_with(alloc, row, workers)?;
        let anew = end_of(rt, row, words.as_slice(), &[])?;
        let anew = said(difference(&first, &anew));
        text.push_str(format!(in alloc; "{workers} workers: {anew}\n")?.as_str())?;
        push_sweeps(rt, &mut text, row, words.as_slice(), &first)?;
    }
    Ok(text)
}
