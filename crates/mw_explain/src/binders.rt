// Which name a binder around a node has.

use crate::forms::{Bound, Form, Node, Span};

/// The number of the `close` at an offset.
pub fn close_at(nodes: &[Node], offset: u32) -> Option<usize> {
    nodes.iter().position(|node| node.form == Form::Close && node.span.first == offset)
}

/// What the node of one number binds at the node of another, a higher one.
fn bound_at(nodes: &[Node], above: usize, at: usize) -> Bound {
    let (Some(node), Some(part)) = (nodes.get(above), nodes.get(above.saturating_add(1))) else {
        return Bound::Nothing;
    };
    if above.saturating_add(node.size) <= at {
        return Bound::Nothing;
    }
    if node.form == Form::Let && at <= above.saturating_add(part.size) {
        return Bound::Nothing;
    }
    node.bound
}

/// The place of the name of a binder around a node, by the number of binders between.
pub fn name_around(nodes: &[Node], at: usize, between: usize) -> Option<Span> {
    let mut left = between;
    for above in (0..at).rev() {
        match bound_at(nodes, above, at) {
            Bound::Nothing => {}
            Bound::One(name) => {
                if left == 0 {
                    return Some(name);
                }
                left -= 1;
            }
            Bound::Two(own, argument) => {
                if left == 0 {
                    return Some(argument);
                }
                if left == 1 {
                    return Some(own);
                }
                left -= 2;
            }
        }
    }
    None
}
