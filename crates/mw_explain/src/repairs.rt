// Where a change would help: the smallest expressions without whose equations a part's equations are fine.

ghost use Rattle.mw_infer.specs.Failing.{IsWhole};

use crate::forms::{Node, Span};
use mw_infer::FailingPart;
use std::alloc::{AllocError, Global};

/// A part of more nodes isn't searched: each try solves its equations anew.
const MOST_NODES: usize = 2_000;

/// So many places are kept at most.
const MOST_PLACES: usize = 4;

/// An expression that could be replaced, and the number of the node after its nodes.
#[derive(Clone, Copy)]
struct Candidate {
    span: Span,
    end: usize,
}

/// The places of the smallest expressions that, replaced by one of any type, leave the part's equations fine, in
/// pre-order. Of a large part none are sought.
pub fn repairs(
    alloc: Global,
    failing: &FailingPart,
    nodes: &[Node],
) -> Result<Vec<Span>, AllocError>
    requires { IsWhole failing.now }
{
    let mut found = Vec::new(alloc);
    if nodes.len() > MOST_NODES {
        return Ok(found);
    }
    let mut last = None;
    let mut done = 0;
    for (at, node) in nodes.iter().enumerate() {
        if at < done {
            continue;
        }
        let end = at.saturating_add(node.size);
        if node.is_written && failing.is_fine_without(alloc, at, end)? {
            keep(&mut found, last, at)?;
            let span = node.span;
            last = Some(Candidate { span, end });
        } else {
            done = end;
        }
    }
    keep(&mut found, last, nodes.len())?;
    Ok(found)
}

/// Keeps the last candidate, unless the one at this number is a part of it.
fn keep(found: &mut Vec<Span>, last: Option<Candidate>, at: usize) -> Result<(), AllocError> {
    if let Some(candidate) = last {
        if candidate.end <= at && found.len() < MOST_PLACES {
            found.push(candidate.span)?;
        }
    }
    Ok(())
}
