// Whether a node's line agrees with the types of its parts.

ghost use Rattle.std.specs.Prelude.{◌≡◌, ◌<◌, length, List, IfOk};
ghost use Rattle.mw_term.specs.Terms.{expression_of};
ghost use Rattle.mw_lines.specs.TypeLines.{line_of};
ghost use Rattle.mw_lines.specs.Tables.{lines_of, AreHeld};
ghost use Rattle.mw_recheck.specs.Judging.{agrees, classifier_of, closes, lifts, IsAlone};
ghost use Rattle.mw_recheck.specs.Forms.{line_at};
ghost use Rattle.mw_recheck.specs.Notes.{TopNote};
ghost use Rattle.mw_recheck.specs.Parts.{places_of_parts};
ghost use Rattle.mw_recheck.specs.Roots.{AreRoots, AreWithin, tops_of};
ghost use Rattle.mw_recheck.specs.Views.{level_at, binders_of};

use crate::kinds::{has_content, is_kernel, is_line, primitive_line};
use crate::lines::Own;
use crate::names::{Setting, is_use, stands_in};
use crate::scope::{Level, Scope, is_bound};
use mw_lines::{Line, TypeLines};
use mw_term::Term;
use std::alloc::AllocError;

/// The places of the types of a node's parts, of which there are up to three; 0 where there is none.
#[derive(Clone, Copy)]
pub struct Parts {
    pub first: usize,
    pub second: usize,
    pub third: usize,
}

/// The classifier of level 1; 0 at level 0.
fn classifier_of(level: Level) -> u64
    ensures { result ≡ classifier_of (level_at level) }
{
    match level {
        Level::Live => 0,
        Level::Under(classifier) => classifier,
    }
}

/// No parts.
pub fn no_parts() -> Parts
    ensures { places_of_parts result ≡ record { first = 0; second = 0; third = 0 } }
{
    Parts {
        first: 0,
        second: 0,
        third: 0,
    }
}

/// Whether the line of a `lift` agrees with the place of its part's type, at the base type of a line.
fn lifts(types: &TypeLines, line: Own, first: usize, base: Line) -> bool
    ensures { result ≡ lifts (lines_of types.now) (line_at line) first (line_of base) }
{
    has_content(types, line.own, line.second, base) && is_line(types, first, base)
}

/// Whether the line of a `close` agrees with the place of its part's type. The error is want of memory.
fn closes(setting: &Setting, scope: &Scope, line: Own, first: usize) -> Result<bool, AllocError>
    requires held { AreHeld setting.now.types.now }
    requires within { AreWithin (lines_of setting.now.types.now) (binders_of scope.now) }
    ensures { IfOk result (λ yes.
        yes ≡ closes (lines_of setting.now.types.now) (binders_of scope.now) (line_at line) first) }
{
    let content = line.second as usize;
    if !is_line(setting.types, line.own, Line::Closed(content)) {
        return Ok(false);
    }
    if stands_in(setting, scope, line.third)? {
        return Ok(false);
    }
    Ok(is_line(setting.types, first, Line::Code(line.third, content)))
}

/// Whether a node's line agrees with the places of its parts' types, where neither a name nor a classifier or a kernel
/// type is looked for.
fn agrees_alone(
    term: &Term,
    types: &TypeLines,
    scope: &Scope,
    level: Level,
    line: Own,
    parts: Parts,
) -> bool
    ensures { (tops : List TopNote) → IsAlone (expression_of term.now)
        → result ≡ agrees (lines_of types.now) tops (binders_of scope.now) (level_at level)
        (expression_of term.now) (line_at line) parts.first parts.second parts.third }
{
    let (own, other) = (line.own, line.second as usize);
    let (first, second) = (parts.first, parts.second);
    match term {
        Term::Int(_) => is_line(types, own, Line::Int),
        Term::Bool(_) => is_line(types, own, Line::Bool),
        Term::Var(number) => is_bound(scope, *number, level, own),
        Term::Fun(_) => is_line(types, own, Line::Arrow(other, first)),
        Term::Rec(_) => {
            other == own && is_line(types, own, Line::Arrow(line.third as usize, first))
        }
        Term::App(_, _) => is_line(types, first, Line::Arrow(second, own)),
        Term::Let(_, _) => first == other && second == own,
        Term::If(_, _, _) => {
            is_line(types, first, Line::Bool) && (second == own && parts.third == own)
        }
        Term::Pair(_, _) => is_line(types, own, Line::Pair(first, second)),
        Term::Fst(_) => is_line(types, first, Line::Pair(own, other)),
        Term::Snd(_) => is_line(types, first, Line::Pair(other, own)),
        Term::Prim(prim, _, _) => {
            is_line(types, own, primitive_line(*prim))
                && (is_line(types, first, Line::Int) && is_line(types, second, Line::Int))
        }
        Term::Bracket(_) => is_line(types, own, Line::Code(line.second, first)),
        Term::Escape(_) => is_line(types, first, Line::Code(classifier_of(level), own)),
        Term::OpenCode(_) => {
            is_line(types, own, Line::Code(line.third, other))
                && is_line(types, first, Line::Closed(other))
        }
        Term::Lift(_) => lifts(types, line, first, Line::Int),
        Term::LiftB(_) => lifts(types, line, first, Line::Bool),
        Term::Glob(_) | Term::Run(_, _) | Term::CloseCode(_, _) => false,
    }
}

/// Whether a node's line agrees with the places of its parts' types. The error is want of memory.
pub fn agrees(
    term: &Term,
    setting: &Setting,
    scope: &Scope,
    level: Level,
    line: Own,
    parts: Parts,
) -> Result<bool, AllocError>
    requires held { AreHeld setting.now.types.now }
    requires roots { AreRoots setting.now.roots.now }
    requires within { AreWithin (lines_of setting.now.types.now) (binders_of scope.now) }
    requires own { line.own < length (lines_of setting.now.types.now) }
    ensures { IfOk result (λ yes. yes ≡ agrees (lines_of setting.now.types.now)
        (tops_of setting.now.kernels setting.now.roots.now) (binders_of scope.now) (level_at level)
        (expression_of term.now) (line_at line) parts.first parts.second parts.third) }
{
    let types = setting.types;
    match term {
        Term::Glob(index) => is_use(setting, *index, line.own),
        Term::CloseCode(_, _) => closes(setting, scope, line, parts.first),
        Term::Run(kind, _) => {
            let first = Line::Closed(line.own);
            Ok(is_kernel(types, line.own, kind) && is_line(types, parts.first, first))
        }
        _ => Ok(agrees_alone(term, types, scope, level, line, parts)),
    }
}
