// The types that lines name, beside a line and beside types of the language.

ghost use Rattle.std.specs.Prelude.{◌≡◌, slice_get};
ghost use Rattle.mw_term.specs.Terms.{ground_of, kernel_type_of};
ghost use Rattle.mw_lines.specs.TypeLines.{line_of};
ghost use Rattle.mw_lines.specs.Tables.{lines_of};
ghost use Rattle.mw_recheck.specs.Judging.{is_line, has_content, primitive_line};
ghost use Rattle.mw_recheck.specs.Kernels.{pair_of, arrow_of, closed_of, ground_at, kernel_at, closed_kernel_at};

use mw_lines::{Line, TypeLines};
use mw_term::{Base, Ground, KType, Prim};

/// Whether the line at a place is this one.
pub fn is_line(types: &TypeLines, at: usize, line: Line) -> bool
    ensures { result ≡ is_line (lines_of types.now) at (line_of line) }
{
    match types.get(at) {
        Some(own) => own == line,
        None => false,
    }
}

/// Whether the line at a place is of code under the classifier, and its content's line this one.
pub fn has_content(types: &TypeLines, at: usize, classifier: u64, line: Line) -> bool
    ensures { result
        ≡ has_content (lines_of types.now) classifier (line_of line) (slice_get (lines_of types.now) at) }
{
    match types.get(at) {
        Some(Line::Code(own, content)) => own == classifier && is_line(types, content, line),
        _ => false,
    }
}

/// The line of what a primitive gives.
pub fn primitive_line(prim: Prim) -> Line
    ensures { line_of result ≡ primitive_line prim }
{
    match prim {
        Prim::Add | Prim::Sub | Prim::Mul | Prim::Div | Prim::Mod => Line::Int,
        Prim::Eq | Prim::Lt | Prim::Le => Line::Bool,
    }
}

/// The places of the parts of the pair that the line at a place names, if it does.
fn pair_of(types: &TypeLines, at: usize) -> Option<(usize, usize)>
    ensures { result ≡ pair_of (slice_get (lines_of types.now) at) }
{
    match types.get(at) {
        Some(Line::Pair(left, right)) => Some((left, right)),
        _ => None,
    }
}

/// The places of argument and answer of the functions that the line at a place names, if it does.
fn arrow_of(types: &TypeLines, at: usize) -> Option<(usize, usize)>
    ensures { result ≡ arrow_of (slice_get (lines_of types.now) at) }
{
    match types.get(at) {
        Some(Line::Arrow(from, to)) => Some((from, to)),
        _ => None,
    }
}

/// The place of the content of the closed code that the line at a place names, if it does.
fn closed_of(types: &TypeLines, at: usize) -> Option<usize>
    ensures { result ≡ closed_of (slice_get (lines_of types.now) at) }
{
    match types.get(at) {
        Some(Line::Closed(content)) => Some(content),
        _ => None,
    }
}

/// Whether the line at a place names this ground type.
pub fn is_ground(types: &TypeLines, at: usize, ground: &Ground) -> bool
    ensures { result ≡ ground_at (lines_of types.now) at (ground_of ground.now) }
{
    match ground {
        Ground::Base(Base::Int) => is_line(types, at, Line::Int),
        Ground::Base(Base::Bool) => is_line(types, at, Line::Bool),
        Ground::Pair(first, second) => match pair_of(types, at) {
            Some((left, right)) => {
                is_ground(types, left, first) && is_ground(types, right, second)
            }
            None => false,
        },
    }
}

/// Whether the line at a place names this kernel type.
pub fn is_kernel(types: &TypeLines, at: usize, kind: &KType) -> bool
    ensures { result ≡ kernel_at (lines_of types.now) at (kernel_type_of kind.now) }
{
    match kind {
        KType::Ground(ground) => is_ground(types, at, ground),
        KType::Fun(argument, answer) => match arrow_of(types, at) {
            Some((from, to)) => is_ground(types, from, argument) && is_ground(types, to, answer),
            None => false,
        },
    }
}

/// Whether the line at a place names closed code of this kernel type.
pub fn is_closed_kernel(types: &TypeLines, at: usize, kind: &KType) -> bool
    ensures { result ≡ closed_kernel_at (lines_of types.now) at (kernel_type_of kind.now) }
{
    match closed_of(types, at) {
        Some(content) => is_kernel(types, content, kind),
        None => false,
    }
}
