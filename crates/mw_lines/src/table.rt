// Lines that name types.

ghost use Rattle.std.specs.Prelude.{◌≡◌, ◌++◌, ◌∷◌, [], true, false, length, take, slice_get, IfOk};
ghost use Rattle.std.specs.Option.{option_map};
ghost use Rattle.mw_lines.specs.TypeLines.{line_of};
ghost use Rattle.mw_lines.specs.Naming.{type_named};
ghost use Rattle.mw_lines.specs.Deciding.{holds_code, has_parts, may_follow};
ghost use Rattle.mw_lines.specs.Tables.{lines_of, types_of, type_at, AreHeld, IsReading};

use crate::lines::Line;
use std::alloc::{AllocError, Global};
use std::collections::BTreeSet;

/// Lines that name types, and of each whether its type holds a code type.
#[derive(Drop)]
pub struct TypeLines {
    lines: Vec<Line>,
    codes: Vec<bool>,
}

impl TypeLines {
    /// How many lines there are.
    pub fn len(&self) -> usize
        ensures { result ≡ length (lines_of self.now) }
    {
        self.lines.len()
    }

    /// The line at a place, if there is one.
    pub fn get(&self, at: usize) -> Option<Line>
        ensures { option_map line_of result ≡ slice_get (lines_of self.now) at }
    {
        self.lines.get(at).copied()
    }

    /// Whether the type of the line at a place holds a code type; `false` where there is no line. No type is expanded.
    pub fn holds_code(&self, at: usize) -> bool
        requires { AreHeld self.now }
        ensures { result ≡ holds_code (type_at self.now at) }
    {
        self.codes.get(at).copied().unwrap_or(false)
    }

    /// The first so many lines, or all where there are no more. The others are dropped; no memory is taken.
    pub fn front(mut self, count: usize) -> TypeLines
        requires { AreHeld self }
        ensures lines { lines_of result ≡ take count (lines_of self) }
        ensures held { AreHeld result }
    {
        self.lines.truncate(count);
        self.codes.truncate(count);
        self
    }

    // Whether a line names a type after these lines.
    fn has_parts(&self, line: Line) -> bool
        requires { AreHeld self.now }
        ensures { result ≡ has_parts (types_of self.now) (line_of line) }
    {
        let count = self.lines.len();
        match line {
            Line::Int | Line::Bool | Line::Unknown(_) => true,
            Line::Pair(left, right) | Line::Arrow(left, right) => left < count && right < count,
            Line::Code(_, content) | Line::Closed(content) => {
                content < count && !self.holds_code(content)
            }
        }
    }

    // Whether the type that a line names after these lines holds a code type.
    fn makes_code(&self, line: Line) -> bool
        requires { AreHeld self.now }
        ensures { result ≡ holds_code (type_named (types_of self.now) (line_of line)) }
    {
        match line {
            Line::Int | Line::Bool | Line::Unknown(_) => false,
            Line::Pair(left, right) | Line::Arrow(left, right) => {
                self.holds_code(left) || self.holds_code(right)
            }
            Line::Code(_, _) | Line::Closed(_) => true,
        }
    }
}

/// Lines as they are read, one after the other.
#[derive(Drop)]
pub struct LineReader {
    known: TypeLines,
    seen: BTreeSet<Line>,
}

impl LineReader {
    /// No line yet.
    pub fn new(alloc: Global) -> LineReader
        ensures { IsReading result [] }
    {
        LineReader {
            known: TypeLines {
                lines: Vec::new(alloc),
                codes: Vec::new(alloc),
            },
            seen: BTreeSet::new(alloc),
        }
    }

    /// Adds a line. Where it names no type after those that are there, or is one of them, it isn't added, and the
    /// answer is `false`. The error is want of memory; what is read then is of no further use.
    pub fn push(&mut self, line: Line) -> Result<bool, AllocError>
        requires { IsReading self.old (lines_of self.old.known) }
        ensures answer { IfOk result
            (λ yes. yes ≡ may_follow (lines_of self.old.known) (line_of line)) }
        ensures added { IfOk result (λ yes. yes ≡ true
            → IsReading self.new (lines_of self.old.known ++ line_of line ∷ [])) }
        ensures same { IfOk result (λ yes. yes ≡ false
            → IsReading self.new (lines_of self.old.known)) }
    {
        if !self.known.has_parts(line) || !self.seen.insert(line)? {
            return Ok(false);
        }
        let code = self.known.makes_code(line);
        self.known.lines.push(line)?;
        self.known.codes.push(code)?;
        Ok(true)
    }

    /// The lines that were added, in their order.
    pub fn finish(self) -> TypeLines
        requires { IsReading self (lines_of self.known) }
        ensures lines { lines_of result ≡ lines_of self.known }
        ensures held { AreHeld result }
    {
        let LineReader { known, .. } = self;
        known
    }
}
