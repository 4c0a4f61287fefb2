// Types written as lines.

ghost use Rattle.std.specs.Prelude.{IfOk};
ghost use Rattle.mw_types.specs.Types.{type_of};
ghost use Rattle.mw_lines.specs.TypeLines.{line_of};
ghost use Rattle.mw_section.specs.Writers.{AreAllLines, HasWrittenNothing, PutsClassifier, PutsLine, PutsTree, PutsType};
ghost use Rattle.mw_section.specs.Writers.{PutsUnknown};

use crate::numbers::Numbers;
use crate::table::LineTable;
use mw_lines::Line;
use mw_types::Ty;
use std::alloc::{AllocError, Global};
use std::collections::BTreeMap;

/// Types as they are written as lines: parts first, each line once, unknowns and classifiers numbered as they are met.
/// Of a tree of a term it knows by the tree's number the place of its type's line.
#[derive(Drop)]
pub struct LineWriter {
    unknowns: Numbers,
    classifiers: Numbers,
    table: LineTable,
    trees: BTreeMap<u64, usize>,
}

impl LineWriter {
    /// Nothing is written yet.
    pub fn new(alloc: Global) -> LineWriter
        ensures { HasWrittenNothing result }
    {
        LineWriter {
            unknowns: Numbers::new(alloc),
            classifiers: Numbers::new(alloc),
            table: LineTable::new(alloc),
            trees: BTreeMap::new(alloc),
        }
    }

    /// Writes a type, and gives the place of its line. The error is want of memory; the writer is of no further use
    /// then.
    pub fn put_type(&mut self, ty: &Ty) -> Result<usize, AllocError>
        ensures { IfOk result (PutsType (type_of ty.now) self.old self.new) }
    {
        match ty {
            Ty::Int => self.put_line(Line::Int),
            Ty::Bool => self.put_line(Line::Bool),
            Ty::Unknown(unknown) => {
                let number = self.put_unknown(*unknown)?;
                self.put_line(Line::Unknown(number))
            }
            Ty::Pair(left, right) => {
                let first = self.put_type(left)?;
                let second = self.put_type(right)?;
                self.put_line(Line::Pair(first, second))
            }
            Ty::Arrow(argument, outcome) => {
                let from = self.put_type(argument)?;
                let to = self.put_type(outcome)?;
                self.put_line(Line::Arrow(from, to))
            }
            Ty::Code(classifier, content) => {
                let number = self.put_classifier(*classifier)?;
                let place = self.put_type(content)?;
                self.put_line(Line::Code(number, place))
            }
            Ty::Closed(content) => {
                let place = self.put_type(content)?;
                self.put_line(Line::Closed(place))
            }
        }
    }

    /// Writes the type of the tree of this number, and gives the place of its line. Where the tree came before, with
    /// the same type, the type isn't walked again. The error is want of memory; the writer is of no further use then.
    pub fn put_tree(&mut self, tree: u64, ty: &Ty) -> Result<usize, AllocError>
        ensures { IfOk result (PutsTree tree (type_of ty.now) self.old self.new) }
    {
        if let Some(place) = self.trees.get(&tree) {
            return Ok(*place);
        }
        let place = self.put_type(ty)?;
        self.trees.insert(tree, place)?;
        Ok(place)
    }

    /// The number of a classifier: the one that it has, or the next. The error is want of memory; the writer is of no
    /// further use then.
    pub fn put_classifier(&mut self, classifier: u64) -> Result<u64, AllocError>
        ensures { IfOk result (PutsClassifier classifier self.old self.new) }
    {
        self.classifiers.put(classifier)
    }

    /// The number of an unknown: the one that it has, or the next.
    fn put_unknown(&mut self, unknown: u64) -> Result<u64, AllocError>
        ensures { IfOk result (PutsUnknown unknown self.old self.new) }
    {
        self.unknowns.put(unknown)
    }

    /// The place of a line.
    fn put_line(&mut self, line: Line) -> Result<usize, AllocError>
        ensures { IfOk result (PutsLine (line_of line) self.old self.new) }
    {
        self.table.put(line)
    }

    /// The lines that were written, in order.
    pub fn finish(self) -> Vec<Line>
        ensures { AreAllLines self result.items }
    {
        let LineWriter { table, .. } = self;
        table.finish()
    }
}
