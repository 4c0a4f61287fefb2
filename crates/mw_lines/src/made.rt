// Whether the type of one line is made from that of another.

ghost use Rattle.std.specs.Prelude.{ℕ, ◌≡◌, ◌<◌, ◌+◌, ◌↔◌, true, false, length, Some, IfOk};
ghost use Rattle.mw_lines.specs.TypeLines.{line_of};
ghost use Rattle.mw_lines.specs.Made.{IsMadeFrom};
ghost use Rattle.mw_lines.specs.Images.{IsImage, HasImage, Adds, Refuses, HasPartsBelow, IsFirst};
ghost use Rattle.mw_lines.specs.Tables.{lines_of, type_at, AreHeld};

use crate::lines::Line;
use crate::table::TypeLines;
use std::alloc::{AllocError, Global};
use std::collections::BTreeMap;

/// Whether types for unknowns, and classifiers for classifiers, make the type of line `at` of `here` from the type of
/// line `root_at` of `root`. No type is expanded: it goes once down from `root_at`. The error is want of memory.
pub fn is_made(
    alloc: Global,
    root: &TypeLines,
    root_at: usize,
    here: &TypeLines,
    at: usize,
) -> Result<bool, AllocError>
    requires root { AreHeld root.now }
    requires here { AreHeld here.now }
    requires root_within { root_at < length (lines_of root.now) }
    requires within { at < length (lines_of here.now) }
    ensures { IfOk result (λ yes. (yes ≡ true)
        ↔ IsMadeFrom (type_at root.now root_at) (type_at here.now at)) }
{
    let mut images = Images::new(alloc, root_at, at)?;
    let mut left = images.places.len();
    while left > 0 {
        left -= 1;
        if !images.follow(root, here, left)? {
            return Ok(false);
        }
    }
    Ok(true)
}

// Images, among other lines, of a root's lines, as many as there are places, where they have one; and what classifiers
// become.
#[derive(Drop)]
struct Images {
    places: Vec<Option<usize>>,
    classifiers: BTreeMap<u64, u64>,
}

impl Images {
    // Line `last`, and no line before it, has an image.
    fn new(alloc: Global, last: usize, image: usize) -> Result<Images, AllocError>
        ensures { IfOk result (λ images. IsFirst images last image) }
    {
        let mut places = Vec::new(alloc);
        for _line in 0..last {
            places.push(None)?;
        }
        places.push(Some(image))?;
        Ok(Images {
            places,
            classifiers: BTreeMap::new(alloc),
        })
    }

    // Gives a line an image; `false` where it has another.
    fn set(&mut self, line: usize, image: usize) -> bool
        requires { line < length self.old.places.items }
        ensures added { result ≡ true
            → Adds self.old self.new (line + 1) (λ f g. f line ≡ Some image) }
        ensures refused { result ≡ false → Refuses self.old (λ f g. f line ≡ Some image) }
    {
        match self.places[line] {
            None => {
                self.places[line] = Some(image);
                true
            }
            Some(other) => other == image,
        }
    }

    // Gives two lines images; `false` where one has another.
    fn set_both(&mut self, lines: (usize, usize), images: (usize, usize)) -> bool
        requires left { lines.0 < length self.old.places.items }
        requires right { lines.1 < length self.old.places.items }
        ensures added { result ≡ true → (p : ℕ) → lines.0 < p → lines.1 < p
            → Adds self.old self.new p
            (λ f g. (f lines.0 ≡ Some images.0) × (f lines.1 ≡ Some images.1)) }
        ensures refused { result ≡ false
            → Refuses self.old (λ f g. (f lines.0 ≡ Some images.0) × (f lines.1 ≡ Some images.1)) }
    {
        if !self.set(lines.0, images.0) {
            return false;
        }
        self.set(lines.1, images.1)
    }

    // Says what a classifier becomes; `false` where it becomes another.
    fn name(&mut self, classifier: u64, image: u64) -> Result<bool, AllocError>
        ensures added { IfOk result (λ yes. yes ≡ true
            → Adds self.old self.new 0 (λ f g. g classifier ≡ Some image)) }
        ensures refused { IfOk result (λ yes. yes ≡ false
            → Refuses self.old (λ f g. g classifier ≡ Some image)) }
    {
        match self.classifiers.insert(classifier, image)? {
            None => Ok(true),
            Some(other) => Ok(other == image),
        }
    }

    // Gives a code line's classifier and content theirs; `false` where one has another.
    fn set_code(&mut self, line: (u64, usize), image: (u64, usize)) -> Result<bool, AllocError>
        requires { line.1 < length self.old.places.items }
        ensures added { IfOk result (λ yes. yes ≡ true → (p : ℕ) → line.1 < p
            → Adds self.old self.new p
            (λ f g. (g line.0 ≡ Some image.0) × (f line.1 ≡ Some image.1))) }
        ensures refused { IfOk result (λ yes. yes ≡ false
            → Refuses self.old (λ f g. (g line.0 ≡ Some image.0) × (f line.1 ≡ Some image.1))) }
    {
        if !self.name(line.0, image.0)? {
            return Ok(false);
        }
        Ok(self.set(line.1, image.1))
    }

    // Gives the parts of a line the parts of another as images; `false` where that one is no image of it.
    fn step(&mut self, line: Line, image: Line) -> Result<bool, AllocError>
        requires { HasPartsBelow (length self.old.places.items) (line_of line) }
        ensures added { IfOk result (λ yes. yes ≡ true → (p : ℕ) → HasPartsBelow p (line_of line)
            → Adds self.old self.new p (λ f g. IsImage f g (line_of line) (line_of image))) }
        ensures refused { IfOk result (λ yes. yes ≡ false
            → Refuses self.old (λ f g. IsImage f g (line_of line) (line_of image))) }
    {
        match line {
            Line::Unknown(_) => Ok(true),
            Line::Int => Ok(image == Line::Int),
            Line::Bool => Ok(image == Line::Bool),
            Line::Pair(left, right) => match image {
                Line::Pair(first, second) => Ok(self.set_both((left, right), (first, second))),
                _ => Ok(false),
            },
            Line::Arrow(left, right) => match image {
                Line::Arrow(first, second) => Ok(self.set_both((left, right), (first, second))),
                _ => Ok(false),
            },
            Line::Code(classifier, content) => match image {
                Line::Code(other, first) => self.set_code((classifier, content), (other, first)),
                _ => Ok(false),
            },
            Line::Closed(content) => match image {
                Line::Closed(first) => Ok(self.set(content, first)),
                _ => Ok(false),
            },
        }
    }

    // Gives the parts of a root's line images, where it has one; `false` where that is no image of it.
    fn follow(
        &mut self,
        root: &TypeLines,
        here: &TypeLines,
        place: usize,
    ) -> Result<bool, AllocError>
        requires held { AreHeld root.now }
        requires within { place < length self.old.places.items }
        ensures added { IfOk result (λ yes. yes ≡ true → Adds self.old self.new place
            (λ f g. HasImage f g (lines_of root.now) (lines_of here.now) place)) }
        ensures refused { IfOk result (λ yes. yes ≡ false → Refuses self.old
            (λ f g. HasImage f g (lines_of root.now) (lines_of here.now) place)) }
    {
        let Some(image) = self.places[place] else {
            return Ok(true);
        };
        let Some(line) = root.get(place) else {
            return Ok(true);
        };
        let Some(other) = here.get(image) else {
            return Ok(false);
        };
        self.step(line, other)
    }
}
