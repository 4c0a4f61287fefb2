// Why no tree was made.

ghost use Rattle.std.specs.Prelude.{◌≡◌};
ghost use Rattle.mw_grammar.specs.declared.fault.Fault.TheVariants.{Memory};

use mw_lex::Token;
use std::alloc::{AllocError, AllocFailed};

/// A fault, with the tokens from it on.
#[derive(Drop)]
pub enum Fault<'a> {
    Memory(AllocError),
    Syntax(&'a [Token]),
    Deep(&'a [Token]),
}

/// What was read, the height of its nodes, and the tokens left.
pub type Read<'a, T> = Result<(T, u32, &'a [Token]), Fault<'a>>;

impl<'a> From<AllocError> for Fault<'a> {
    ghost from_gives = { λ e f. f ≡ Memory e };

    fn from(e: AllocError) -> Fault<'a> {
        Fault::Memory(e)
    }
}

impl<'a, T: Drop> From<AllocFailed<T>> for Fault<'a> {
    ghost use Rattle.std.specs.Prelude.{alloc_error};

    ghost from_gives = { λ _ f. f ≡ Memory alloc_error };

    fn from(e: AllocFailed<T>) -> Fault<'a> {
        Fault::Memory(AllocError::from(e))
    }
}
