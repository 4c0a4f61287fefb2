// Type lines.

/// A line that names a type: by itself, by the number of an unknown, by the places, from 0 on, of earlier lines that
/// name its parts, and for code by its classifier before the place of its content.
#[derive(Clone, Copy, Debug, PartialEq, Eq, PartialOrd, Ord)]
pub enum Line {
    Int,
    Bool,
    Unknown(u64),
    Pair(usize, usize),
    Arrow(usize, usize),
    Code(u64, usize),
    Closed(usize),
}
