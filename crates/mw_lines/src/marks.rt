// Whether a classifier stands in the types of lines.

ghost use Rattle.std.specs.Prelude.{◌≡◌, ◌<◌, true, false, length, IfOk};
ghost use Rattle.mw_lines.specs.TypeLines.{line_of};
ghost use Rattle.mw_lines.specs.Deciding.{holds_code, is_in};
ghost use Rattle.mw_lines.specs.Images.{HasPartsBelow};
ghost use Rattle.mw_lines.specs.Marks.{EndsCode, AreUnmarked, is_marked, marks_with};
ghost use Rattle.mw_lines.specs.Marks.{marks_of_parts, names_classifier, Passes, IsPassed};
ghost use Rattle.mw_lines.specs.Tables.{type_at, AreHeld, AreWithin, is_in_one};

use crate::lines::Line;
use crate::table::TypeLines;
use std::alloc::{AllocError, Global};

/// Whether a classifier stands in the type of a line at one of the places. No type is expanded: it goes once down from
/// the greatest of the places whose types hold code. The error is want of memory; where there is no such place, none is
/// taken.
pub fn holds_classifier(
    alloc: Global,
    types: &TypeLines,
    places: &[usize],
    classifier: u64,
) -> Result<bool, AllocError>
    requires held { AreHeld types.now }
    requires within { AreWithin types.now places.now }
    ensures { IfOk result (λ yes. yes ≡ is_in_one types.now classifier places.now) }
{
    let end = code_end(types, places);
    if end == 0 {
        return Ok(false);
    }
    let mut marks = vec![in alloc; false; end]?;
    Ok(reaches(types, places, marks.as_mut_slice(), classifier))
}

// One more than the greatest of the places whose types hold code; 0 where there is none.
fn code_end(types: &TypeLines, places: &[usize]) -> usize
    requires { AreHeld types.now }
    ensures { EndsCode types.now places.now (length places.now) result }
{
    let mut end = 0;
    for place in places {
        if types.holds_code(*place) {
            end = end.max(*place + 1);
        }
    }
    end
}

// Whether the classifier stands in the type of a line at one of the places, where nothing is marked.
fn reaches(types: &TypeLines, places: &[usize], marks: &mut [bool], classifier: u64) -> bool
    requires held { AreHeld types.now }
    requires ends { EndsCode types.now places.now (length places.now) (length marks.old) }
    requires unmarked { AreUnmarked marks.old }
    ensures { result ≡ is_in_one types.now classifier places.now }
{
    for place in places {
        mark(types, marks, *place);
    }
    let mut left = marks.len();
    while left > 0 {
        left -= 1;
        if pass(types, marks, left, classifier) {
            return true;
        }
    }
    false
}

// Where a place is marked, marks its line's parts; `true` where that line names code under the classifier.
fn pass(types: &TypeLines, marks: &mut [bool], place: usize, classifier: u64) -> bool
    requires held { AreHeld types.now }
    requires within { place < length marks.old }
    ensures passes { Passes types.now classifier marks.old marks.new place }
    ensures found { result ≡ true → is_marked marks.old place ≡ true }
    ensures here { result ≡ true → is_in classifier (type_at types.now place) ≡ true }
    ensures passed { result ≡ false → is_marked marks.old place ≡ true
        → IsPassed types.now classifier marks.new place }
{
    if !marks[place] {
        return false;
    }
    match types.get(place) {
        Some(line) => mark_parts(types, marks, line, classifier),
        None => false,
    }
}

// Marks a line's parts; `true` where the line names code under the classifier, whose content holds no code.
fn mark_parts(types: &TypeLines, marks: &mut [bool], line: Line, classifier: u64) -> bool
    requires held { AreHeld types.now }
    requires below { HasPartsBelow (length marks.old) (line_of line) }
    ensures marks { marks.new ≡ marks_of_parts types.now (line_of line) marks.old }
    ensures found { result ≡ names_classifier classifier (line_of line) }
{
    match line {
        Line::Pair(left, right) | Line::Arrow(left, right) => {
            mark(types, marks, left);
            mark(types, marks, right);
            false
        }
        Line::Code(other, _) => other == classifier,
        Line::Int | Line::Bool | Line::Unknown(_) | Line::Closed(_) => false,
    }
}

// Marks a place whose type holds code.
fn mark(types: &TypeLines, marks: &mut [bool], place: usize)
    requires held { AreHeld types.now }
    requires within { holds_code (type_at types.now place) ≡ true → place < length marks.old }
    ensures { marks.new ≡ marks_with types.now place marks.old }
{
    if types.holds_code(place) {
        marks[place] = true;
    }
}
