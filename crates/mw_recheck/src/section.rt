// The sections of a certificate, read.

ghost use Rattle.std.specs.Prelude.{ℕ, ◌≡◌, ◌<◌, ◌++◌, ◌∷◌, [], map, IfOk};
ghost use Rattle.std.specs.Option.{option_map};
ghost use Rattle.mw_lines.specs.TypeLines.{TypeLine, line_of};
ghost use Rattle.mw_lines.specs.Tables.{lines_of, AreHeld};
ghost use Rattle.mw_recheck.specs.Reading.{two_at, type_line_at, numbers_at, node_lines_at, nodes_at};
ghost use Rattle.mw_recheck.specs.Answers.{Gives, numbers_of, lines_after, held_at};

use crate::stop::Stop;
use crate::text::{behind, number, number_before};
use mw_lines::{Line, LineReader, TypeLines};
use std::alloc::Global;

/// The numbers of a node's line, of which there are three at most.
#[derive(Clone, Copy, Debug)]
pub enum NodeLine {
    One(u64),
    Two(u64, u64),
    Three(u64, u64, u64),
}

/// Two numbers at the front, with a blank between them, to the end of their line.
fn two_numbers(bytes: &[u8]) -> Option<(u64, u64, &[u8])>
    ensures { (line : ℕ → ℕ → TypeLine)
        → option_map (λ x. (line x.0 x.1, x.2.now)) result ≡ two_at line bytes.now }
{
    let (first, rest) = number_before(b" ", bytes)?;
    let (second, rest) = number_before(b"\n", rest)?;
    Some((first, second, rest))
}

/// The type line at the front, and what is behind it.
fn type_line(bytes: &[u8]) -> Option<(Line, &[u8])>
    ensures { option_map (λ x. (line_of x.0, x.1.now)) result ≡ type_line_at bytes.now }
{
    if let Some(rest) = behind(b"int\n", bytes) {
        return Some((Line::Int, rest));
    }
    if let Some(rest) = behind(b"bool\n", bytes) {
        return Some((Line::Bool, rest));
    }
    if let Some(rest) = behind(b"u ", bytes) {
        let (unknown, rest) = number_before(b"\n", rest)?;
        return Some((Line::Unknown(unknown), rest));
    }
    if let Some(rest) = behind(b"pair ", bytes) {
        let (left, right, rest) = two_numbers(rest)?;
        return Some((Line::Pair(left as usize, right as usize), rest));
    }
    if let Some(rest) = behind(b"arrow ", bytes) {
        let (from, to, rest) = two_numbers(rest)?;
        return Some((Line::Arrow(from as usize, to as usize), rest));
    }
    if let Some(rest) = behind(b"code ", bytes) {
        let (classifier, content, rest) = two_numbers(rest)?;
        return Some((Line::Code(classifier, content as usize), rest));
    }
    let rest = behind(b"closed ", bytes)?;
    let (content, rest) = number_before(b"\n", rest)?;
    Some((Line::Closed(content as usize), rest))
}

/// The node line at the front, and what is behind it.
fn node_line(bytes: &[u8]) -> Option<(NodeLine, &[u8])>
    ensures { option_map (λ x. (numbers_of x.0, x.1.now)) result ≡ numbers_at 3 bytes.now }
{
    let (first, rest) = number(bytes)?;
    if let Some(rest) = behind(b"\n", rest) {
        return Some((NodeLine::One(first), rest));
    }
    let rest = behind(b" ", rest)?;
    let (second, rest) = number(rest)?;
    if let Some(rest) = behind(b"\n", rest) {
        return Some((NodeLine::Two(first, second), rest));
    }
    let rest = behind(b" ", rest)?;
    let (third, rest) = number_before(b"\n", rest)?;
    Some((NodeLine::Three(first, second, third), rest))
}

/// So many type lines at the front, each of which names a type after those before it, and what is behind them.
fn type_lines(alloc: Global, count: u64, bytes: &[u8]) -> Result<(TypeLines, &[u8]), Stop>
    ensures lines { Gives (λ x. (lines_of x.0, x.1.now)) result (lines_after [] count bytes.now) }
    ensures held { IfOk result (λ x. AreHeld x.0) }
{
    let mut lines = LineReader::new(alloc);
    let mut rest = bytes;
    for _line in 0..count {
        let Some((line, more)) = type_line(rest) else {
            return Err(Stop::Wrong);
        };
        if !lines.push(line)? {
            return Err(Stop::Wrong);
        }
        rest = more;
    }
    Ok((lines.finish(), rest))
}

/// The type lines at the front, behind their number, and what is behind them.
pub fn types(alloc: Global, bytes: &[u8]) -> Result<(TypeLines, &[u8]), Stop>
    ensures lines { Gives (λ x. (lines_of x.0, x.1.now)) result (held_at bytes.now) }
    ensures held { IfOk result (λ x. AreHeld x.0) }
{
    let rest = behind(b"types ", bytes).ok_or(Stop::Wrong)?;
    let (count, rest) = number_before(b"\n", rest).ok_or(Stop::Wrong)?;
    type_lines(alloc, count, rest)
}

/// So many node lines at the front, and what is behind them.
fn node_lines(alloc: Global, count: u64, bytes: &[u8]) -> Result<(Vec<NodeLine>, &[u8]), Stop>
    ensures { Gives (λ x. (map numbers_of x.0.items, x.1.now)) result
        (node_lines_at count bytes.now) }
{
    let mut nodes = Vec::new(alloc);
    let mut rest = bytes;
    for _node in 0..count {
        let Some((node, more)) = node_line(rest) else {
            return Err(Stop::Wrong);
        };
        nodes.push(node)?;
        rest = more;
    }
    Ok((nodes, rest))
}

/// The node lines of a term of so many nodes at the front, behind their number, and what is behind them.
pub fn nodes(alloc: Global, size: u64, bytes: &[u8]) -> Result<(Vec<NodeLine>, &[u8]), Stop>
    ensures { Gives (λ x. (map numbers_of x.0.items, x.1.now)) result (nodes_at size bytes.now) }
{
    let rest = behind(b"nodes ", bytes).ok_or(Stop::Wrong)?;
    let (count, rest) = number_before(b"\n", rest).ok_or(Stop::Wrong)?;
    if count != size {
        return Err(Stop::Wrong);
    }
    node_lines(alloc, size, rest)
}
