// Why a source is refused.

ghost use Rattle.std.specs.Prelude.{◌≡◌};
ghost use Rattle.mw_term.specs.declared.refusal.Stop.TheVariants.{Memory};

use std::alloc::{AllocError, AllocFailed};

/// A refusal of a source. A number is an offset in bytes, or for the types the index of an item, which for `main` is
/// the number of items.
#[derive(Clone, Copy, Debug, PartialEq, Eq)]
pub enum Refusal {
    /// More than 1,048,576 bytes.
    TooLarge,
    /// A byte that begins no token, or isn't allowed.
    Char(u32),
    /// A number that is misspelt or out of range.
    Number(u32),
    /// A word of more than 64 bytes.
    Name(u32),
    /// The first token with which no program begins, or the end of the file.
    Syntax(u32),
    /// The first token with which the tree is deeper than 200.
    TooDeep(u32),
    /// More than 1,000 items, or more than 100 kernel items.
    TooMany,
    /// A name with no binder in scope.
    Unbound(u32),
    /// A top-level name that was bound before.
    Twice(u32),
    /// A top-level `let` that binds no syntactic value.
    NotValue(u32),
    /// A name, bracket, escape or word at the wrong level.
    Level(u32),
    /// An item whose equations have no solution.
    IllTyped(u32),
    /// An item with a type of more than 10,000 nodes.
    TypeTooBig(u32),
    /// A `close` whose classifier stands in its environment.
    NotClosed(u32),
}

/// Why there is no answer: a refusal of the source, or want of memory.
#[derive(Clone, Copy, Debug, PartialEq, Eq)]
pub enum Stop {
    Refused(Refusal),
    Memory(AllocError),
}

impl From<AllocError> for Stop {
    ghost from_gives = { λ e s. s ≡ Memory e };

    fn from(e: AllocError) -> Stop {
        Stop::Memory(e)
    }
}

impl<T: Drop> From<AllocFailed<T>> for Stop {
    ghost use Rattle.std.specs.Prelude.{alloc_error};

    ghost from_gives = { λ _ s. s ≡ Memory alloc_error };

    fn from(e: AllocFailed<T>) -> Stop {
        Stop::Memory(AllocError::from(e))
    }
}
