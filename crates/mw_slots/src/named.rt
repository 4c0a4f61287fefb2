// Entries that have names, and what makes them.

ghost use Rattle.std.specs.Prelude.{◌≡◌, ℕ, List, IfOk};
ghost use Rattle.std.specs.Arc.{arc_value};

use std::alloc::{AllocError, Global};
use std::sync::Arc;

/// An entry that is looked up by its name. Each name has a home, the slot at which its window begins, modulo their
/// number.
pub trait Named {
    /// The name of an entry, and the home of a name.
    ghost name_of: { Self → List ℕ };

    ghost home: { List ℕ → ℕ };

    /// The entry's name. Takes no memory.
    fn name(&self) -> &[u8]
        ensures { result.now ≡ name_of self.now };
}

/// Makes entries.
pub trait Make<E> {
    /// What it asks of a name, which entries it may give for one, and as what one call may leave it.
    ghost takes: { Self → List ℕ → Type 0 };

    ghost gives: { Self → List ℕ → E → Type 0 };

    ghost leaves: { Self → List ℕ → Self → Type 0 };

    /// An entry for a name.
    fn make(&mut self, alloc: Global, name: &[u8]) -> Result<Arc<E>, AllocError>
        requires { takes self.old name.now }
        ensures gives { IfOk result (λ made. gives self.old name.now (arc_value made)) }
        ensures leaves { leaves self.old name.now self.new };
}
