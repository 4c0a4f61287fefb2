// Sources and their trees.
//
// A `tree` row prints the tree of its source, or the refusal. A `verdicts` row has several sources: each begins with
// what `source` says and ends with one of the texts of `next`; for each it is printed whether it has a tree, or the
// refusal. A `followers` row has tokens that stand, each alone, behind its front: it prints those that the reader
// takes, those that are refused at themselves, and all others. A `fronts` row prints the verdict of each front of its
// source, the shortest first.

use crate::fields::{Fault, Row};
use crate::shown::line;
use mw_lex::lex;
use mw_parse::{Surface, parse};
use mw_term::{Refusal, Stop};
use std::alloc::{AllocError, Global};

/// The tree of bytes.
fn surface(alloc: Global, bytes: &[u8]) -> Result<Surface, Stop> {
    let tokens = lex(alloc, bytes)?;
    parse(alloc, &tokens, bytes.len() as u32)
}

/// The refusal of bytes that have no tree.
fn refusal(alloc: Global, bytes: &[u8]) -> Result<Option<Refusal>, AllocError> {
    match surface(alloc, bytes) {
        Ok(tree) => {
            drop(tree);
            Ok(None)
        }
        Err(Stop::Refused(refusal)) => Ok(Some(refusal)),
        Err(Stop::Memory(error)) => Err(error),
    }
}

/// `accepted`, or the refusal.
fn verdict(alloc: Global, bytes: &[u8]) -> Result<String, AllocError> {
    match refusal(alloc, bytes)? {
        None => String::from_str(alloc, "accepted"),
        Some(refusal) => format!(in alloc; "{refusal:?}"),
    }
}

/// The tree of a row's source, or the refusal.
pub fn tree(alloc: Global, row: &Row) -> Result<String, Fault> {
    match surface(alloc, row.bytes("source")) {
        Ok(tree) => Ok(line(alloc, tree)?),
        Err(Stop::Refused(refusal)) => Ok(line(alloc, refusal)?),
        Err(Stop::Memory(error)) => Err(Fault::Memory(error)),
    }
}

/// Adds the verdict of a front with what comes next, as a line.
fn push_verdict(
    alloc: Global,
    text: &mut String,
    front: &[u8],
    next: &[u8],
) -> Result<(), AllocError> {
    let mut source = Vec::from_slice(alloc, front)?;
    source.extend_from_slice(next)?;
    text.push_str(verdict(alloc, source.as_slice())?.as_str())?;
    text.push_str("\n")
}

/// A verdict for each of a row's texts.
pub fn verdicts(alloc: Global, row: &Row) -> Result<String, Fault> {
    let front = row.bytes("source");
    let mut text = String::new(alloc);
    for field in row.fields.as_slice() {
        if field.name.as_str() == "next" {
            push_verdict(alloc, &mut text, front, field.bytes.as_slice())?;
        }
    }
    Ok(text)
}

/// What the reader does with the last token of a source.
enum Behind {
    /// The source has a tree, or it ends too soon.
    Taken,
    /// It is refused at the token.
    Refused,
    Other,
}

/// What the reader does with a token behind a front.
fn follows(alloc: Global, front: &[u8], token: &str) -> Result<Behind, AllocError> {
    let mut source = Vec::from_slice(alloc, front)?;
    source.extend_from_slice(token.as_bytes())?;
    let end = source.len();
    Ok(match refusal(alloc, source.as_slice())? {
        None => Behind::Taken,
        Some(Refusal::Syntax(at)) if at as usize == end => Behind::Taken,
        Some(Refusal::Syntax(at)) if at as usize == front.len() => Behind::Refused,
        Some(_) => Behind::Other,
    })
}

/// Tokens behind a front: those that the reader takes, those that it refuses at themselves, and the others.
#[derive(Drop)]
struct Sorted {
    taken: String,
    refused: String,
    others: String,
}

impl Sorted {
    fn none(alloc: Global) -> Sorted {
        Sorted {
            taken: String::new(alloc),
            refused: String::new(alloc),
            others: String::new(alloc),
        }
    }

    /// Adds a token after a blank.
    fn add(&mut self, alloc: Global, front: &[u8], token: &str) -> Result<(), AllocError> {
        let list = match follows(alloc, front, token)? {
            Behind::Taken => &mut self.taken,
            Behind::Refused => &mut self.refused,
            Behind::Other => &mut self.others,
        };
        list.push_str(" ")?;
        list.push_str(token)
    }

    fn lines(&self, alloc: Global) -> Result<String, AllocError> {
        let (taken, refused, others) = (&self.taken, &self.refused, &self.others);
        format!(in alloc; "taken:{taken}\nrefused:{refused}\nothers:{others}\n")
    }
}

/// Which tokens may follow a row's front, and which may not.
pub fn followers(alloc: Global, row: &Row) -> Result<String, Fault> {
    let front = row.bytes("front");
    let mut sorted = Sorted::none(alloc);
    for token in row.text("tokens")?.split_whitespace() {
        sorted.add(alloc, front, token)?;
    }
    Ok(sorted.lines(alloc)?)
}

/// Adds a length and the verdict of the front that has it.
fn push_front(
    alloc: Global,
    text: &mut String,
    source: &[u8],
    length: usize,
) -> Result<(), AllocError> {
    let front = source.get(..length).unwrap_or(&[]);
    text.push_str(format!(in alloc; "{length} ")?.as_str())?;
    push_verdict(alloc, text, front, &[])
}

/// The verdict of each front of a row's source, with its length.
pub fn fronts(alloc: Global, row: &Row) -> Result<String, Fault> {
    let source = row.bytes("source");
    let mut text = String::new(alloc);
    for length in 0..source.len().saturating_add(1) {
        push_front(alloc, &mut text, source, length)?;
    }
    Ok(text)
}
