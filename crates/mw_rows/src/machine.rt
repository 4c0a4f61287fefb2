// Evaluations on the machine, over kernels that answer from a list.
//
// `source` is evaluated with `fuel` units: main, or the definition of the kernel item at the place `item`. Each `reply`
// is what the kernels answer next: `number N`, `truth true`, `both N N`, `function`, `divides`, `full`, `no memory`, or
// `bad N`, with a digest of 32 such bytes.

use crate::fields::{Fault, Row, number_in};
use mw_script::{Reply, answer};
use std::alloc::Global;

/// The replies that are spelled by one text each.
const REPLIES: &[(&str, Reply)] = &[
    ("truth true", Reply::Truth(true)),
    ("truth false", Reply::Truth(false)),
    ("function", Reply::Function),
    ("divides", Reply::Divides),
    ("full", Reply::Full),
    ("no memory", Reply::NoMemory),
];

/// The integer that a word spells.
fn integer(word: &str) -> Result<i64, Fault> {
    match word.parse::<i64>() {
        Ok(number) => Ok(number),
        Err(_) => Err(Fault::Malformed("not an integer")),
    }
}

/// The reply of two integers.
fn both(words: &str) -> Result<Reply, Fault> {
    match words.split_once(' ') {
        Some((first, second)) => Ok(Reply::Both(integer(first)?, integer(second)?)),
        None => Err(Fault::Malformed("no reply")),
    }
}

/// The reply that a text spells.
fn reply(text: &str) -> Result<Reply, Fault> {
    for (spelling, reply) in REPLIES {
        if *spelling == text {
            return Ok(*reply);
        }
    }
    match text.split_once(' ') {
        Some(("number", word)) => Ok(Reply::Number(integer(word)?)),
        Some(("bad", word)) => Ok(Reply::Bad((number_in(word)? % 256) as u8)),
        Some(("both", words)) => both(words),
        _ => Err(Fault::Malformed("no reply")),
    }
}

/// What the kernels answer in turn.
fn replies(alloc: Global, row: &Row) -> Result<Vec<Reply>, Fault> {
    let mut replies = Vec::new(alloc);
    for field in row.fields.as_slice() {
        if field.name.as_str() == "reply" {
            replies.push(reply(field.text()?)?)?;
        }
    }
    Ok(replies)
}

/// The place of the row's kernel item, if it has one.
fn item(row: &Row) -> Result<Option<usize>, Fault> {
    if row.has("item") {
        Ok(Some(row.number("item", 0)? as usize))
    } else {
        Ok(None)
    }
}

/// What the machine asks of the kernels, and how the evaluation ends.
pub fn carried_out(alloc: Global, row: &Row) -> Result<String, Fault> {
    let fuel = row.number("fuel", 0)?;
    let item = item(row)?;
    let source = row.text("source")?;
    let replies = replies(alloc, row)?;
    let mut answer = answer(alloc, source, item, fuel, replies.as_slice())?;
    answer.push_str("\n")?;
    Ok(answer)
}
