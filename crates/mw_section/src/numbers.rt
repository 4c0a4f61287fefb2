// Numbers for what is met, in the order in which it is.

ghost use Rattle.std.specs.Prelude.{ℕ, ◌≡◌, List, [], IfOk};
ghost use Rattle.mw_section.specs.Writing.{place_of, with_number};
ghost use Rattle.mw_section.specs.Writers.{AreNumbers};

use std::alloc::{AllocError, Global};
use std::collections::BTreeMap;

/// The numbers, from 0 on, of what was met, in the order in which it was.
#[derive(Drop)]
pub struct Numbers {
    numbers: BTreeMap<u64, u64>,
}

impl Numbers {
    /// Nothing was met yet.
    pub fn new(alloc: Global) -> Numbers
        ensures { AreNumbers result [] }
    {
        Numbers {
            numbers: BTreeMap::new(alloc),
        }
    }

    /// The number of what is met now: the one that it has, or the next. The error is want of memory; the numbers are of
    /// no further use then.
    pub fn put(&mut self, met: u64) -> Result<u64, AllocError>
        ensures { IfOk result (λ number. (ns : List ℕ) → AreNumbers self.old ns
            → (number ≡ place_of met ns) × AreNumbers self.new (with_number met ns)) }
    {
        if let Some(number) = self.numbers.get(&met) {
            return Ok(*number);
        }
        let number = self.numbers.len() as u64;
        self.numbers.insert(met, number)?;
        Ok(number)
    }
}
