// Lines whose answers are known by hand.

ghost use Rattle.mw_lines.specs.Tables.{AreHeld};
ghost use Rattle.std.specs.Prelude.{IfOk};

use mw_lines::{Line, LineReader, TypeLines, holds_classifier, is_made};
use std::alloc::{AllocError, Global};
use std::process::Abort;

/// The lines that are taken, and for each line whether it is.
fn read(alloc: Global, lines: &[Line]) -> Result<(TypeLines, Vec<bool>), AllocError>
    ensures { IfOk result (λ read. AreHeld read.0) }
{
    let mut reader = LineReader::new(alloc);
    let mut taken = Vec::new(alloc);
    for line in lines {
        let yes = reader.push(*line)?;
        taken.push(yes)?;
    }
    Ok((reader.finish(), taken))
}

/// Lines, of which some have no type.
const LINES: &[Line] = &[
    Line::Pair(0, 0),
    Line::Int,
    Line::Pair(0, 1),
    Line::Code(7, 0),
    Line::Int,
    Line::Closed(1),
    Line::Closed(0),
    Line::Arrow(1, 2),
];

/// Whether each of them is taken.
const TAKEN: &[bool] = &[false, true, false, true, false, false, true, true];

#[test]
fn takes_lines(rt: HostRuntime) -> Result<(), AllocError> {
    let (types, taken) = read(rt.alloc(), LINES)?;
    assert_eq!(rt; taken.as_slice(), TAKEN);
    assert_eq!(rt; types.len(), 4);
    assert_eq!(rt; types.get(3), Some(Line::Arrow(1, 2)));
    assert!(rt; types.holds_code(3) && !types.holds_code(0));
    let front = types.front(2);
    assert_eq!(rt; front.len(), 2);
    Ok(())
}

const ROOT: &[Line] = &[
    Line::Unknown(3),
    Line::Code(0, 0),
    Line::Code(1, 0),
    Line::Pair(1, 2),
    Line::Pair(1, 1),
];

const HERE: &[Line] = &[
    Line::Bool,
    Line::Code(5, 0),
    Line::Code(6, 0),
    Line::Pair(1, 1),
    Line::Pair(1, 2),
];

/// A place in the root's lines, one in the lines here, and whether the type there is made from the root's.
const MADE: &[(usize, usize, bool)] = &[
    (0, 4, true),
    (1, 0, false),
    (3, 3, true),
    (3, 4, true),
    (4, 3, true),
    (4, 4, false),
];

fn assert_made<R: Abort + AllocGlobal>(
    rt: &R,
    root: &TypeLines,
    here: &TypeLines,
) -> Result<(), AllocError>
    requires root { AreHeld root.now }
    requires here { AreHeld here.now }
{
    for &(from, to, wanted) in MADE {
        assert!(rt; from < root.len() && to < here.len());
        let made = is_made(rt.alloc(), root, from, here, to)?;
        assert_eq!(rt; made, wanted, "{to} from {from}");
    }
    Ok(())
}

#[test]
fn makes_types(rt: HostRuntime) -> Result<(), AllocError> {
    let (root, _) = read(rt.alloc(), ROOT)?;
    let (here, _) = read(rt.alloc(), HERE)?;
    assert_made(&rt, &root, &here)
}

const CLASSIFIED: &[Line] = &[
    Line::Int,
    Line::Code(3, 0),
    Line::Arrow(0, 1),
    Line::Closed(0),
    Line::Pair(2, 3),
];

/// A place, a classifier, and whether the type there holds it.
const HELD: &[(usize, u64, bool)] = &[(4, 3, true), (4, 4, false), (3, 3, false), (0, 3, false)];

fn assert_held<R: Abort + AllocGlobal>(rt: &R, types: &TypeLines) -> Result<(), AllocError>
    requires { AreHeld types.now }
{
    for &(place, classifier, wanted) in HELD {
        assert!(rt; place < types.len());
        let found = holds_classifier(rt.alloc(), types, &[place, 0], classifier)?;
        assert_eq!(rt; found, wanted, "{classifier} in {place}");
    }
    Ok(())
}

#[test]
fn finds_classifiers(rt: HostRuntime) -> Result<(), AllocError> {
    let (types, _) = read(rt.alloc(), CLASSIFIED)?;
    assert_held(&rt, &types)
}
