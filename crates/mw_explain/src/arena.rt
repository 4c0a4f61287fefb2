// Nodes as they are made, each after its parts, and the same in pre-order.

use crate::forms::{Bound, Form, Node, Span};
use std::alloc::{AllocError, Global};

/// The parts of a node, from left to right, by their places in the arena.
#[derive(Clone, Copy)]
pub enum Parts {
    Zero,
    One(usize),
    Two(usize, usize),
    Three(usize, usize, usize),
}

#[derive(Clone, Copy)]
struct Entry {
    node: Node,
    parts: Parts,
}

/// Nodes, each after its parts.
#[derive(Drop)]
pub struct Arena {
    entries: Vec<Entry>,
}

impl Arena {
    /// No nodes.
    pub fn new(alloc: Global) -> Arena {
        Arena {
            entries: Vec::new(alloc),
        }
    }

    /// How many nodes the one at a place has with its parts; none where there is none.
    fn size(&self, at: usize) -> usize {
        match self.entries.get(at) {
            None => 0,
            Some(entry) => entry.node.size,
        }
    }

    fn size_of_parts(&self, parts: Parts) -> usize {
        match parts {
            Parts::Zero => 0,
            Parts::One(only) => self.size(only),
            Parts::Two(left, right) => self.size(left).saturating_add(self.size(right)),
            Parts::Three(first, left, right) => self
                .size(first)
                .saturating_add(self.size(left))
                .saturating_add(self.size(right)),
        }
    }

    /// Adds a node that the source has text for, and answers its place.
    pub fn add(
        &mut self,
        form: Form,
        span: Span,
        bound: Bound,
        parts: Parts,
    ) -> Result<usize, AllocError> {
        let at = self.entries.len();
        let node = Node {
            form,
            span,
            is_written: true,
            bound,
            size: self.size_of_parts(parts).saturating_add(1),
        };
        self.entries.push(Entry { node, parts })?;
        Ok(at)
    }

    /// Adds a truth value that an operator stands for, which has the place of the whole.
    pub fn add_truth(&mut self, span: Span) -> Result<usize, AllocError> {
        let at = self.entries.len();
        let node = Node {
            form: Form::Bool,
            span,
            is_written: false,
            bound: Bound::Nothing,
            size: 1,
        };
        let parts = Parts::Zero;
        self.entries.push(Entry { node, parts })?;
        Ok(at)
    }

    /// The nodes in pre-order from the root at this place, where these are all.
    pub fn in_order(&self, alloc: Global, root: usize) -> Result<Option<Vec<Node>>, AllocError> {
        let mut ordered = Vec::new(alloc);
        let mut waiting = Vec::new(alloc);
        waiting.push(root)?;
        for _ in 0..self.entries.len() {
            let Some(at) = waiting.pop() else {
                return Ok(None);
            };
            let Some(entry) = self.entries.get(at) else {
                return Ok(None);
            };
            ordered.push(entry.node)?;
            await_parts(&mut waiting, entry.parts)?;
        }
        Ok(if waiting.is_empty() {
            Some(ordered)
        } else {
            None
        })
    }
}

/// Puts parts upon those that wait, so that the left one comes first.
fn await_parts(waiting: &mut Vec<usize>, parts: Parts) -> Result<(), AllocError> {
    match parts {
        Parts::Zero => {}
        Parts::One(only) => waiting.push(only)?,
        Parts::Two(left, right) => {
            waiting.push(right)?;
            waiting.push(left)?;
        }
        Parts::Three(first, left, right) => {
            waiting.push(right)?;
            waiting.push(left)?;
            waiting.push(first)?;
        }
    }
    Ok(())
}
