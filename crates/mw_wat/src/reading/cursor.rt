// A place in a text, and why nothing was read from it.

ghost use Rattle.std.specs.Prelude.{◌≡◌};

use std::alloc::AllocError;

/// A place in a text.
#[derive(Clone, Copy, Debug)]
pub struct Cursor<'a> {
    /// The bytes from the place on.
    pub left: &'a [u8],
    /// The length of the whole text.
    pub end: usize,
}

/// Why nothing was read.
#[derive(Debug, Drop)]
pub enum Fault<'a> {
    /// The token that stands here, or what stands here and is none, can't.
    Bad(Cursor<'a>),
    /// Memory ran out.
    Memory(AllocError),
}

/// What was read, and the place behind it.
pub type Read<'a, T> = Result<(T, Cursor<'a>), Fault<'a>>;

impl From<AllocError> for Fault<'_> {
    ghost use Rattle.mw_wat.specs.declared.reading.cursor.Fault.TheVariants.{Memory};

    ghost from_gives = { λ e f. f ≡ Memory e };

    fn from(e: AllocError) -> Self {
        Fault::Memory(e)
    }
}
