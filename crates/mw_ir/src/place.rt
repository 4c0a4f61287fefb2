// Where functions find variables.

use mw_list::Sequence;

/// Where a function finds a variable.
#[derive(Clone, Copy, Debug, PartialEq, Eq)]
pub enum Place {
    /// The function's argument.
    Argument,
    /// The function's closure, which is what a recursive function's own name means.
    Own,
    /// A let of the function.
    Slot(u32),
    /// A free variable, in the closure.
    Free(u32),
}

/// Places in order, which contracts see as a list.
pub type Places = Sequence<Place>;
