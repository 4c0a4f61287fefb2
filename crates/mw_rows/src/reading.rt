// Files of rows.
//
// A row begins with a line `[kind] name`. The lines after it are its fields: a name, a colon, a blank and a text. A
// name may come more than once: its texts stand one after the other. `name*9: text` stands for nine times the text.
// `name^9: text` puts the text of the line before, which has the same name, in the place of each `$`, nine times over:
// what comes is the next time's. In a text `\n`, `\r`, `\t`, `\\` and `\xHH` are a byte each. Empty lines and lines
// that begin with `#` are passed over.

use crate::fields::{Fault, Field, KINDS, Kind, Row, number_in};
use std::alloc::{AllocError, Global};

/// Why a file has no rows, and the number of the line.
#[derive(Drop)]
pub struct Misread {
    pub line: usize,
    pub why: &'static str,
}

/// The kind that a word stands for.
fn kind_of(word: &str) -> Option<Kind> {
    KINDS.iter().copied().find(|kind| kind.word() == word)
}

fn digit(byte: u8) -> Option<u8> {
    match byte {
        b'0'..=b'9' => Some(byte - b'0'),
        b'a'..=b'f' => Some(byte - b'a' + 10),
        _ => None,
    }
}

/// The byte that an escape stands for, from what follows its backslash, and what follows the escape.
fn escaped(after: &[u8]) -> Option<(u8, &[u8])> {
    match after {
        [b'n', rest @ ..] => Some((b'\n', rest)),
        [b'r', rest @ ..] => Some((b'\r', rest)),
        [b't', rest @ ..] => Some((b'\t', rest)),
        [b'\\', rest @ ..] => Some((b'\\', rest)),
        [b'x', high, low, rest @ ..] => {
            let high = digit(*high)?;
            let low = digit(*low)?;
            Some((high.wrapping_mul(16) | low, rest))
        }
        _ => None,
    }
}

/// The bytes that a text stands for.
fn unescaped(alloc: Global, text: &[u8]) -> Result<Vec<u8>, Fault> {
    let mut bytes = Vec::new(alloc);
    let mut left = text;
    for _ in 0..text.len() {
        match left {
            [] => break,
            [b'\\', after @ ..] => {
                let Some((byte, rest)) = escaped(after) else {
                    return Err(Fault::Malformed("an escape that isn't one"));
                };
                bytes.push(byte)?;
                left = rest;
            }
            [byte, rest @ ..] => {
                bytes.push(*byte)?;
                left = rest;
            }
        }
    }
    Ok(bytes)
}

/// What a field's line does with its text.
#[derive(Clone, Copy, Drop)]
enum Times {
    /// It stands there so many times.
    Repeated(u64),
    /// The text before is put into it so many times.
    Nested(u64),
}

/// So many times the bytes.
fn repeated(alloc: Global, bytes: &[u8], times: u64) -> Result<Vec<u8>, AllocError> {
    let mut all = Vec::new(alloc);
    for _ in 0..times {
        all.extend_from_slice(bytes)?;
    }
    Ok(all)
}

/// The bytes of a frame with these in the place of each `$`.
fn framed(alloc: Global, frame: &[u8], inner: &[u8]) -> Result<Vec<u8>, AllocError> {
    let mut all = Vec::new(alloc);
    for byte in frame {
        if *byte == b'$' {
            all.extend_from_slice(inner)?;
        } else {
            all.push(*byte)?;
        }
    }
    Ok(all)
}

/// Puts the bytes into the frame so many times.
fn nested(alloc: Global, frame: &[u8], inner: &mut Vec<u8>, times: u64) -> Result<(), AllocError> {
    for _ in 0..times {
        *inner = framed(alloc, frame, inner.as_slice())?;
    }
    Ok(())
}

/// What stands before a field's colon, and its text.
fn front_and_text(line: &str) -> Result<(&str, &str), Fault> {
    match line.split_once(':') {
        None => Err(Fault::Malformed("a line that is no row's and no field's")),
        Some((front, "")) => Ok((front, "")),
        Some((front, text)) => match text.strip_prefix(" ") {
            Some(rest) => Ok((front, rest)),
            None => Err(Fault::Malformed("no blank after the colon")),
        },
    }
}

/// A field's name, and what is done with its text.
fn name_and_times(front: &str) -> Result<(&str, Times), Fault> {
    if let Some((name, times)) = front.split_once('*') {
        return Ok((name, Times::Repeated(number_in(times)?)));
    }
    if let Some((name, times)) = front.split_once('^') {
        return Ok((name, Times::Nested(number_in(times)?)));
    }
    Ok((front, Times::Repeated(1)))
}

/// The row that begins on a line.
fn row(alloc: Global, head: &str, line: usize) -> Result<Row, Fault> {
    let Some((word, name)) = head.split_once("] ") else {
        return Err(Fault::Malformed("a row without a name"));
    };
    let Some(kind) = kind_of(word) else {
        return Err(Fault::Malformed("no kind of row"));
    };
    Ok(Row {
        kind,
        name: String::from_str(alloc, name)?,
        line,
        fields: Vec::new(alloc),
        joined: Vec::new(alloc),
    })
}

/// Nests the last field, which has this name.
fn nest(
    alloc: Global,
    fields: &mut Vec<Field>,
    name: &str,
    frame: &[u8],
    times: u64,
) -> Result<(), Fault> {
    match fields.last_mut() {
        Some(last) if last.name.as_str() == name => {
            nested(alloc, frame, &mut last.bytes, times)?;
            Ok(())
        }
        _ => Err(Fault::Malformed("no line before to be nested")),
    }
}

/// A field with so many times these bytes.
fn field(alloc: Global, name: &str, bytes: &[u8], times: u64) -> Result<Field, AllocError> {
    let bytes = repeated(alloc, bytes, times)?;
    let name = String::from_str(alloc, name)?;
    Ok(Field { name, bytes })
}

/// Adds what a line says to a row's fields.
fn add_to(alloc: Global, row: &mut Row, line: &str) -> Result<(), Fault> {
    let (front, text) = front_and_text(line)?;
    let (name, times) = name_and_times(front)?;
    if !row.kind.fields().contains(&name) {
        return Err(Fault::Malformed("a field that rows of this kind don't have"));
    }
    let bytes = unescaped(alloc, text.as_bytes())?;
    match times {
        Times::Nested(times) => nest(alloc, &mut row.fields, name, bytes.as_slice(), times),
        Times::Repeated(times) => {
            row.fields
                .push(field(alloc, name, bytes.as_slice(), times)?)?;
            Ok(())
        }
    }
}

/// Adds a field to the last row.
fn add(alloc: Global, rows: &mut Vec<Row>, line: &str) -> Result<(), Fault> {
    match rows.last_mut() {
        Some(last) => add_to(alloc, last, line),
        None => Err(Fault::Malformed("a field before the first row")),
    }
}

/// Ends the last row.
fn end_last(alloc: Global, rows: &mut Vec<Row>) -> Result<(), Fault> {
    if let Some(last) = rows.last_mut() {
        last.join(alloc)?;
    }
    Ok(())
}

/// Begins a row after the last one.
fn begin(alloc: Global, rows: &mut Vec<Row>, head: &str, number: usize) -> Result<(), Fault> {
    end_last(alloc, rows)?;
    rows.push(row(alloc, head, number)?)?;
    Ok(())
}

/// What a line adds to the rows.
fn read_line(alloc: Global, rows: &mut Vec<Row>, line: &str, number: usize) -> Result<(), Fault> {
    if line.is_empty() || line.starts_with('#') {
        return Ok(());
    }
    match line.strip_prefix("[") {
        Some(head) => begin(alloc, rows, head, number),
        None => add(alloc, rows, line),
    }
}

/// Why a row can't be read, with the number of a line.
fn misread_at(line: usize, fault: &Fault) -> Misread {
    Misread {
        line,
        why: fault.why(),
    }
}

/// Reads the rows of a text.
fn read(alloc: Global, rows: &mut Vec<Row>, text: &str) -> Result<(), Misread> {
    let mut number = 0usize;
    for line in text.lines() {
        number = number.saturating_add(1);
        if let Err(fault) = read_line(alloc, rows, line, number) {
            return Err(misread_at(number, &fault));
        }
    }
    match end_last(alloc, rows) {
        Ok(()) => Ok(()),
        Err(fault) => Err(misread_at(number, &fault)),
    }
}

/// The rows of a file's text.
pub fn rows_of(alloc: Global, text: &str) -> Result<Vec<Row>, Misread> {
    let mut rows = Vec::new(alloc);
    read(alloc, &mut rows, text)?;
    Ok(rows)
}
