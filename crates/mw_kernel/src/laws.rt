// Laws of the definitions, which no program calls.

ghost use Rattle.mw_kernel.specs.KernelMeanings.{ShortIntegersAreKept};

/// Where the integers of a kernel's value have 64 bits, the value that is given for it is the same.
pub fn short_integers_are_kept()
    ensures { ShortIntegersAreKept }
{}
