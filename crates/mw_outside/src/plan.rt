// Which calls on an object in memory fail.

ghost use Rattle.std.specs.Prelude.{◌≡◌, ◌≤◌, IsTrue};
ghost use Rattle.mw_outside.specs.Plan.{fails_next, after_call, fresh_plan, fault_count};
ghost use Rattle.mw_outside.specs.Count.{Rose};

use crate::lists::Calls;

/// The numbers of the calls that fail, the number of the next call, and how many calls have failed.
/// Both counts stay at the last value of a `u64` once they are there.
#[derive(Debug, Drop)]
pub struct Plan {
    numbers: Calls,
    next: u64,
    faults: u64,
}

impl Plan {
    /// The calls of these numbers, from 0, are to fail.
    pub fn new(numbers: Calls) -> Plan
        ensures { result ≡ fresh_plan numbers }
    {
        Plan {
            numbers,
            next: 0,
            faults: 0,
        }
    }

    /// Counts a call, and says whether it is to fail, which then counts as a fault.
    pub fn fails_call(&mut self) -> bool
        ensures fails { result ≡ fails_next self.old }
        ensures after { self.new ≡ after_call self.old }
        ensures fault { IsTrue result → Rose (fault_count self.old) (fault_count self.new) }
        ensures count { fault_count self.old ≤ fault_count self.new }
    {
        let fails = self.numbers.as_slice().contains(&self.next);
        self.next = self.next.saturating_add(1);
        if fails {
            self.faults = self.faults.saturating_add(1);
        }
        fails
    }
}

#[cfg(test)]
impl Plan {
    /// How many calls have failed.
    pub fn faults(&self) -> u64
        ensures { result ≡ fault_count self.now }
    {
        self.faults
    }
}
