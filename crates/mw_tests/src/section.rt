// Types whose lines are known by hand.

use mw_lines::Line;
use mw_recheck::NodeLine;
use mw_section::{LineWriter, put_head, put_section};
use mw_types::Ty;
use std::alloc::{AllocError, Global};

fn pair(alloc: Global, left: Ty, right: Ty) -> Result<Ty, AllocError> {
    Ok(Ty::Pair(Box::new(alloc, left)?, Box::new(alloc, right)?))
}

fn arrow(alloc: Global, from: Ty, to: Ty) -> Result<Ty, AllocError> {
    Ok(Ty::Arrow(Box::new(alloc, from)?, Box::new(alloc, to)?))
}

fn code(alloc: Global, classifier: u64, content: Ty) -> Result<Ty, AllocError> {
    Ok(Ty::Code(classifier, Box::new(alloc, content)?))
}

fn closed(alloc: Global, content: Ty) -> Result<Ty, AllocError> {
    Ok(Ty::Closed(Box::new(alloc, content)?))
}

/// Writes code of a type under a classifier.
fn put_code(
    alloc: Global,
    writer: &mut LineWriter,
    classifier: u64,
    content: Ty,
) -> Result<usize, AllocError> {
    writer.put_type(&code(alloc, classifier, content)?)
}

/// Writes the function from pairs of two unknowns to such pairs.
fn put_swap(alloc: Global, writer: &mut LineWriter) -> Result<usize, AllocError> {
    let from = pair(alloc, Ty::Unknown(9), Ty::Unknown(4))?;
    let to = pair(alloc, Ty::Unknown(9), Ty::Unknown(4))?;
    writer.put_type(&arrow(alloc, from, to)?)
}

/// Writes types, which have parts in common, and two classifiers, of which no type has the second yet.
fn put_parts(alloc: Global, writer: &mut LineWriter) -> Result<[usize; 7], AllocError> {
    Ok([
        put_swap(alloc, writer)?,
        writer.put_type(&Ty::Unknown(4))?,
        put_code(alloc, writer, 7, Ty::Unknown(9))?,
        put_code(alloc, writer, 3, Ty::Int)?,
        writer.put_classifier(7)? as usize,
        writer.put_classifier(8)? as usize,
        put_code(alloc, writer, 8, Ty::Bool)?,
    ])
}

/// Their places: that of the line of each type, and the number of each classifier.
const PLACES: [usize; 7] = [3, 1, 4, 6, 0, 2, 8];

/// Their lines.
const PARTS: &[Line] = &[
    Line::Unknown(0),
    Line::Unknown(1),
    Line::Pair(0, 1),
    Line::Arrow(2, 2),
    Line::Code(0, 0),
    Line::Int,
    Line::Code(1, 5),
    Line::Bool,
    Line::Code(2, 7),
];

#[test]
fn writes_parts_once(rt: HostRuntime) -> Result<(), AllocError> {
    let mut writer = LineWriter::new(rt.alloc());
    let places = put_parts(rt.alloc(), &mut writer)?;
    assert_eq!(rt; places, PLACES);
    assert_eq!(rt; writer.finish().as_slice(), PARTS);
    Ok(())
}

/// Writes a tree that is a pair of integer and truth value.
fn put_pair(alloc: Global, writer: &mut LineWriter, tree: u64) -> Result<usize, AllocError> {
    writer.put_tree(tree, &pair(alloc, Ty::Int, Ty::Bool)?)
}

/// Writes trees, the first of them again at the end.
fn put_trees(alloc: Global, writer: &mut LineWriter) -> Result<[usize; 4], AllocError> {
    Ok([
        put_pair(alloc, writer, 5)?,
        put_pair(alloc, writer, 0)?,
        writer.put_tree(3, &Ty::Bool)?,
        put_pair(alloc, writer, 5)?,
    ])
}

#[test]
fn writes_trees(rt: HostRuntime) -> Result<(), AllocError> {
    let mut writer = LineWriter::new(rt.alloc());
    let places = put_trees(rt.alloc(), &mut writer)?;
    assert_eq!(rt; places, [2, 2, 1, 2]);
    let wanted = [Line::Int, Line::Bool, Line::Pair(0, 1)];
    assert_eq!(rt; writer.finish().as_slice(), wanted.as_slice());
    Ok(())
}

/// Writes the types of a section.
fn put_types(alloc: Global, writer: &mut LineWriter) -> Result<[usize; 3], AllocError> {
    Ok([
        writer.put_tree(0, &Ty::Int)?,
        writer.put_tree(1, &closed(alloc, Ty::Int)?)?,
        writer.put_tree(2, &code(alloc, 5, Ty::Int)?)?,
    ])
}

const NODES: &[NodeLine] = &[
    NodeLine::One(0),
    NodeLine::Three(1, 0, 0),
    NodeLine::Two(2, 0),
    NodeLine::One(0),
];

/// Lines with long numbers.
const LONG: &[Line] = &[
    Line::Bool,
    Line::Unknown(18_446_744_073_709_551_615),
    Line::Pair(0, 1),
    Line::Arrow(10, 109),
];

const SECTIONS: &str = "cert1\ntypes 3\nint\nclosed 0\ncode 0 0\nnodes 4\n0\n1 0 0\n2 0\n0\n\
    types 4\nbool\nu 18446744073709551615\npair 0 1\narrow 10 109\nnodes 0\n";

/// Writes the head and both sections.
fn put_sections(text: &mut Vec<u8>, lines: &[Line]) -> Result<(), AllocError> {
    put_head(text)?;
    put_section(text, lines, NODES)?;
    put_section(text, LONG, &[])
}

#[test]
fn writes_sections(rt: HostRuntime) -> Result<(), AllocError> {
    let mut writer = LineWriter::new(rt.alloc());
    let places = put_types(rt.alloc(), &mut writer)?;
    assert_eq!(rt; places, [0, 1, 2]);
    let lines = writer.finish();
    let mut text = Vec::new(rt.alloc());
    put_sections(&mut text, lines.as_slice())?;
    assert_eq!(rt; text.as_slice(), SECTIONS.as_bytes());
    Ok(())
}
