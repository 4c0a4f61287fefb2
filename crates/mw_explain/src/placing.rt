// Places that lie within a source.

ghost use Rattle.std.specs.Prelude.{◌↔◌, All, IfOk, IfSome, IsTrue};
ghost use Rattle.mw_explain.specs.Placing.{IsWithin};

use crate::forms::Span;
use std::alloc::{AllocError, Global};

/// Whether a place is in order, and lies within so many bytes.
fn is_within(span: Span, length: usize) -> bool
    ensures { IsTrue result ↔ IsWithin length span }
{
    span.first <= span.end && span.end as usize <= length
}

/// The place, if it lies within so many bytes.
pub fn within(span: Option<Span>, length: usize) -> Option<Span>
    ensures { IfSome result (IsWithin length) }
{
    match span {
        None => None,
        Some(span) => {
            if is_within(span, length) {
                Some(span)
            } else {
                None
            }
        }
    }
}

/// Those places that lie within so many bytes.
pub fn all_within(alloc: Global, spans: &[Span], length: usize) -> Result<Vec<Span>, AllocError>
    ensures { IfOk result (λ kept. All (IsWithin length) kept.items) }
{
    let mut kept = Vec::new(alloc);
    for span in spans {
        if is_within(*span, length) {
            kept.push(*span)?;
        }
    }
    Ok(kept)
}
