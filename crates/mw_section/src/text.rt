// The bytes of certificates, as they are written.

ghost use Rattle.std.specs.Prelude.{◌≡◌, ◌<◌, ◌^◌, ◌++◌, ◌∷◌, [], map, length, codes, IfOk};
ghost use Rattle.std.specs.Fmt.{decimal};
ghost use Rattle.std.specs.List.{flat_map};
ghost use Rattle.mw_lines.specs.TypeLines.{line_of};
ghost use Rattle.mw_recheck.specs.Sections.{FitsLine, FitNumbers, FitLines, FitNodes, FitsSection};
ghost use Rattle.mw_recheck.specs.Texts.{numbers_text, type_text, types_text, nodes_text, section_text};
ghost use Rattle.mw_recheck.specs.Answers.{numbers_of};

use mw_lines::Line;
use mw_recheck::NodeLine;
use std::alloc::AllocError;

/// Puts the line with which a certificate begins behind a text. The error is want of memory.
pub fn put_head(text: &mut Vec<u8>) -> Result<(), AllocError>
    ensures { IfOk result (λ _. text.new.items ≡ text.old.items ++ codes "cert1\n") }
{
    put(text, b"cert1\n")
}

/// Puts the section of these type lines and node lines behind a text. All their numbers and counts are below 2^64. The
/// error is want of memory.
pub fn put_section(text: &mut Vec<u8>, lines: &[Line], nodes: &[NodeLine]) -> Result<(), AllocError>
    ensures text { IfOk result (λ _. text.new.items ≡ text.old.items
        ++ section_text (record { types = map line_of lines.now; nodes = map numbers_of nodes.now })) }
    ensures fits { IfOk result (λ _. FitsSection
        (record { types = map line_of lines.now; nodes = map numbers_of nodes.now })) }
{
    put_types(text, lines)?;
    put_nodes(text, nodes)
}

/// More text.
fn put(text: &mut Vec<u8>, more: &[u8]) -> Result<(), AllocError>
    ensures { IfOk result (λ _. text.new.items ≡ text.old.items ++ more.now) }
{
    text.extend_from_slice(more)?;
    Ok(())
}

/// Type lines behind their number.
fn put_types(text: &mut Vec<u8>, lines: &[Line]) -> Result<(), AllocError>
    ensures text { IfOk result (λ _. text.new.items
        ≡ text.old.items ++ types_text (map line_of lines.now)) }
    ensures fits { IfOk result (λ _. FitLines (map line_of lines.now)) }
    ensures count { IfOk result (λ _. length lines.now < 2 ^ 64) }
{
    put(text, b"types ")?;
    put_one(text, lines.len() as u64)?;
    put_type_lines(text, lines)
}

/// Type lines.
fn put_type_lines(text: &mut Vec<u8>, lines: &[Line]) -> Result<(), AllocError>
    ensures text { IfOk result (λ _. text.new.items
        ≡ text.old.items ++ flat_map type_text (map line_of lines.now)) }
    ensures fits { IfOk result (λ _. FitLines (map line_of lines.now)) }
{
    for line in lines {
        put_type_line(text, *line)?;
    }
    Ok(())
}

/// Node lines behind their number.
fn put_nodes(text: &mut Vec<u8>, nodes: &[NodeLine]) -> Result<(), AllocError>
    ensures text { IfOk result (λ _. text.new.items
        ≡ text.old.items ++ nodes_text (map numbers_of nodes.now)) }
    ensures fits { IfOk result (λ _. FitNodes (map numbers_of nodes.now)) }
    ensures count { IfOk result (λ _. length nodes.now < 2 ^ 64) }
{
    put(text, b"nodes ")?;
    put_one(text, nodes.len() as u64)?;
    put_node_lines(text, nodes)
}

/// Node lines.
fn put_node_lines(text: &mut Vec<u8>, nodes: &[NodeLine]) -> Result<(), AllocError>
    ensures text { IfOk result (λ _. text.new.items
        ≡ text.old.items ++ flat_map numbers_text (map numbers_of nodes.now)) }
    ensures fits { IfOk result (λ _. FitNodes (map numbers_of nodes.now)) }
{
    for node in nodes {
        put_node_line(text, *node)?;
    }
    Ok(())
}

/// A type line.
fn put_type_line(text: &mut Vec<u8>, line: Line) -> Result<(), AllocError>
    ensures text { IfOk result (λ _. text.new.items ≡ text.old.items ++ type_text (line_of line)) }
    ensures fits { IfOk result (λ _. FitsLine (line_of line)) }
{
    match line {
        Line::Int => put(text, b"int\n"),
        Line::Bool => put(text, b"bool\n"),
        Line::Unknown(unknown) => {
            put(text, b"u ")?;
            put_one(text, unknown)
        }
        Line::Pair(left, right) => {
            put(text, b"pair ")?;
            put_two(text, left as u64, right as u64)
        }
        Line::Arrow(from, to) => {
            put(text, b"arrow ")?;
            put_two(text, from as u64, to as u64)
        }
        Line::Code(classifier, content) => {
            put(text, b"code ")?;
            put_two(text, classifier, content as u64)
        }
        Line::Closed(content) => {
            put(text, b"closed ")?;
            put_one(text, content as u64)
        }
    }
}

/// A node line.
fn put_node_line(text: &mut Vec<u8>, node: NodeLine) -> Result<(), AllocError>
    ensures text { IfOk result
        (λ _. text.new.items ≡ text.old.items ++ numbers_text (numbers_of node)) }
    ensures fits { IfOk result (λ _. FitNumbers (numbers_of node)) }
{
    match node {
        NodeLine::One(first) => put_one(text, first),
        NodeLine::Two(first, second) => put_two(text, first, second),
        NodeLine::Three(first, second, third) => {
            put_before_blank(text, first)?;
            put_two(text, second, third)
        }
    }
}

/// Two numbers to the end of their line.
fn put_two(text: &mut Vec<u8>, first: u64, second: u64) -> Result<(), AllocError>
    ensures { IfOk result
        (λ _. text.new.items ≡ text.old.items ++ numbers_text (first ∷ second ∷ [])) }
{
    put_before_blank(text, first)?;
    put_one(text, second)
}

/// A number and the end of its line.
fn put_one(text: &mut Vec<u8>, number: u64) -> Result<(), AllocError>
    ensures { IfOk result (λ _. text.new.items ≡ text.old.items ++ numbers_text (number ∷ [])) }
{
    put_decimal(text, number)?;
    put(text, b"\n")
}

/// A number and a blank.
fn put_before_blank(text: &mut Vec<u8>, number: u64) -> Result<(), AllocError>
    ensures { IfOk result (λ _. text.new.items ≡ text.old.items ++ (decimal number ++ codes " ")) }
{
    put_decimal(text, number)?;
    put(text, b" ")
}

/// The number in decimal, with no leading zero.
#[tactic(auto, using(std::proofs::lemmas::Fmt::decimal_digit))]
fn put_decimal(text: &mut Vec<u8>, number: u64) -> Result<(), AllocError>
    ensures { IfOk result (λ _. text.new.items ≡ text.old.items ++ decimal number) }
{
    if number < 10 {
        return put(text, &[b'0' + number as u8]);
    }
    put_decimal(text, number / 10)?;
    put(text, &[b'0' + (number % 10) as u8])
}
