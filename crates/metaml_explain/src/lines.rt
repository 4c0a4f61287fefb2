// The lines that are printed: one for each fact, in words and numbers.

use mw_explain::{Explanation, Span, Told, Unclosed, Unmet};
use mw_term::Refusal;
use mw_types::Ty;
use std::alloc::AllocError;
use std::fmt::Write;

/// What a refusal's number stands with.
#[derive(Clone, Copy)]
enum Place {
    Nowhere,
    At(u32),
    Part(u32),
}

/// The number of a refusal, and its place.
fn numbered(refusal: &Refusal) -> (u8, Place) {
    match refusal {
        Refusal::TooLarge => (1, Place::Nowhere),
        Refusal::Char(at) => (2, Place::At(*at)),
        Refusal::Number(at) => (3, Place::At(*at)),
        Refusal::Name(at) => (4, Place::At(*at)),
        Refusal::Syntax(at) => (5, Place::At(*at)),
        Refusal::TooDeep(at) => (6, Place::At(*at)),
        Refusal::TooMany => (7, Place::Nowhere),
        Refusal::Unbound(at) => (8, Place::At(*at)),
        Refusal::Twice(at) => (9, Place::At(*at)),
        Refusal::NotValue(at) => (10, Place::At(*at)),
        Refusal::Level(at) => (11, Place::At(*at)),
        Refusal::IllTyped(part) => (12, Place::Part(*part)),
        Refusal::TypeTooBig(part) => (13, Place::Part(*part)),
        Refusal::NotClosed(at) => (14, Place::At(*at)),
    }
}

/// Appends a line of a word and numbers, with a blank before each.
fn put_line(text: &mut String, word: &str, numbers: &[u32]) -> Result<(), AllocError> {
    text.push_str(word)?;
    for number in numbers {
        put_number(text, u64::from(*number))?;
    }
    text.push_str("\n")
}

/// Appends a blank and a number.
fn put_number(text: &mut String, number: u64) -> Result<(), AllocError> {
    match write!(text, " {number}") {
        Ok(()) => Ok(()),
        Err(_) => Err(AllocError),
    }
}

/// Appends a line of a word and a place, where it is known.
fn put_span(text: &mut String, word: &str, span: Option<Span>) -> Result<(), AllocError> {
    match span {
        None => Ok(()),
        Some(span) => put_line(text, word, &[span.first, span.end]),
    }
}

/// Appends a type, with a blank before each of its words: what it is made with, and then its parts.
fn put_type(text: &mut String, ty: &Ty) -> Result<(), AllocError> {
    match ty {
        Ty::Int => text.push_str(" int"),
        Ty::Bool => text.push_str(" bool"),
        Ty::Unknown(number) => {
            text.push_str(" u")?;
            put_number(text, *number)
        }
        Ty::Pair(left, right) => {
            text.push_str(" pair")?;
            put_type(text, left)?;
            put_type(text, right)
        }
        Ty::Arrow(from, to) => {
            text.push_str(" arrow")?;
            put_type(text, from)?;
            put_type(text, to)
        }
        Ty::Code(classifier, content) => {
            text.push_str(" code")?;
            put_number(text, *classifier)?;
            put_type(text, content)
        }
        Ty::Closed(content) => {
            text.push_str(" closed")?;
            put_type(text, content)
        }
    }
}

/// Appends a line of a word and a type.
fn put_typed(text: &mut String, word: &str, ty: &Ty) -> Result<(), AllocError> {
    text.push_str(word)?;
    put_type(text, ty)?;
    text.push_str("\n")
}

/// Appends the line of a refusal, and that of its place.
fn put_refusal(text: &mut String, refusal: &Refusal) -> Result<(), AllocError> {
    let (number, place) = numbered(refusal);
    put_line(text, "refusal", &[u32::from(number)])?;
    match place {
        Place::Nowhere => Ok(()),
        Place::At(at) => put_line(text, "at", &[at]),
        Place::Part(part) => put_line(text, "part", &[part]),
    }
}

fn put_unmet(text: &mut String, unmet: &Unmet) -> Result<(), AllocError> {
    put_span(text, "span", unmet.span)?;
    put_typed(text, "left", &unmet.left)?;
    put_typed(text, "right", &unmet.right)?;
    for repair in unmet.repairs.as_slice() {
        put_span(text, "repair", Some(*repair))?;
    }
    Ok(())
}

fn put_unclosed(text: &mut String, unclosed: &Unclosed) -> Result<(), AllocError> {
    put_line(text, "part", &[unclosed.part])?;
    put_span(text, "close", unclosed.span)?;
    put_span(text, "binder", unclosed.name)
}

/// Appends the lines of an explanation, or the one that says that there is nothing to explain.
pub fn put_explanation(
    text: &mut String,
    explanation: Option<&Explanation>,
) -> Result<(), AllocError> {
    match explanation {
        None => text.push_str("accepted\n"),
        Some(explanation) => {
            put_refusal(text, &explanation.refusal)?;
            match &explanation.told {
                None => Ok(()),
                Some(Told::Types(unmet)) => put_unmet(text, unmet),
                Some(Told::Close(unclosed)) => put_unclosed(text, unclosed),
            }
        }
    }
}
