// Faults of scope and level.

/// A fault of scope or level, with its offset.
#[derive(Clone, Copy, Debug, PartialEq, Eq)]
pub enum Fault {
    /// A name in use without binder in scope.
    Unbound(u32),
    /// A top-level name that an earlier item has.
    Twice(u32),
    /// A top-level let that binds no syntactic value.
    NotValue(u32),
    /// A name, bracket, escape or word at the wrong level.
    WrongLevel(u32),
}
