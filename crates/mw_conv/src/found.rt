// What is found of a function.

ghost use Rattle.std.specs.Prelude.{◌≡◌, ◌<◌, [], ◌∷◌, ◌++◌, OnOk, OnErr, slice_get, Some};

use std::alloc::{AllocError, Global};
use std::marker::Model;

/// Levels of variables in order, which contracts see as a list.
#[derive(Debug, Drop)]
pub(crate) struct Levels {
    inner: Vec<u32>,
}

/// A function: how many slots its lets need, and the levels of its free variables, the outermost first.
#[derive(Debug, Drop)]
pub(crate) struct FoundFunction {
    pub(crate) slots: u32,
    pub(crate) free: Levels,
}

impl Model for Levels {
    ghost use Rattle.std.specs.Prelude.{ℕ, List};

    ghost Value = { List ℕ };

    ghost view = { λ list. list.inner.items };
}

impl Levels {
    /// No levels.
    pub(crate) fn new(alloc: Global) -> Levels
        ensures { result ≡ [] }
    {
        Levels {
            inner: Vec::new(alloc),
        }
    }

    /// All levels.
    pub(crate) fn as_slice(&self) -> &[u32]
        ensures { result.now ≡ self.now }
    {
        self.inner.as_slice()
    }

    /// Adds one level at the end; a refusal of memory changes nothing.
    pub(crate) fn push(&mut self, level: u32) -> Result<(), AllocError>
        ensures ok { OnOk result (self.new ≡ self.old ++ level ∷ []) }
        ensures err { OnErr result (self.new ≡ self.old) }
    {
        self.inner.push(level)?;
        Ok(())
    }
}
