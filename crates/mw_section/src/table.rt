// Lines in order, each once.

ghost use Rattle.std.specs.Prelude.{◌≡◌, List, [], map, IfOk};
ghost use Rattle.mw_lines.specs.TypeLines.{TypeLine, line_of};
ghost use Rattle.mw_section.specs.Writing.{line_place, with_line};
ghost use Rattle.mw_section.specs.Writers.{AreLines};

use mw_lines::Line;
use std::alloc::{AllocError, Global};
use std::collections::BTreeMap;

/// Lines in order, each once, and the place of each.
#[derive(Drop)]
pub struct LineTable {
    places: BTreeMap<Line, usize>,
    lines: Vec<Line>,
}

impl LineTable {
    /// No line yet.
    pub fn new(alloc: Global) -> LineTable
        ensures { AreLines result [] }
    {
        LineTable {
            places: BTreeMap::new(alloc),
            lines: Vec::new(alloc),
        }
    }

    /// The place of a line, which is put behind the others where it is none of them. The error is want of memory; the
    /// table is of no further use then.
    pub fn put(&mut self, line: Line) -> Result<usize, AllocError>
        ensures { IfOk result (λ place. (ls : List TypeLine) → AreLines self.old ls
            → (place ≡ line_place (line_of line) ls) × AreLines self.new (with_line (line_of line) ls)) }
    {
        if let Some(place) = self.places.get(&line) {
            return Ok(*place);
        }
        let place = self.lines.len();
        self.places.insert(line, place)?;
        self.lines.push(line)?;
        Ok(place)
    }

    /// The lines in order.
    pub fn finish(self) -> Vec<Line>
        ensures { (ls : List TypeLine) → AreLines self ls → map line_of result.items ≡ ls }
    {
        let LineTable { lines, .. } = self;
        lines
    }
}
