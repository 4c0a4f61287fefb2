// Laws of the definitions, which no program calls.

ghost use Rattle.mw_link.specs.LinkLaw.{LinkedIsSpelled, LinkedIsValid, LinkedIsWithinProfile, LinkedMeansAll};
ghost use Rattle.mw_link.specs.Moved.{MovedIsNumbered};
ghost use Rattle.mw_link.specs.Examples.{SevenIsLinked, SevenHas70Bytes, TwoAreLinked, TwoHaveTheseBytes, NoneIsLinked};
ghost use Rattle.mw_link.specs.Examples.{OneAfterTheOther};

/// Worked examples.
pub fn example_modules_are_linked()
    ensures seven { SevenIsLinked }
    ensures seventy { SevenHas70Bytes }
    ensures two { TwoAreLinked }
    ensures bytes { TwoHaveTheseBytes }
    ensures none { NoneIsLinked }
    ensures runs { OneAfterTheOther }
{}

/// The linked module is valid, and means each of its kernels whatever was invoked before.
pub fn linked_modules()
    ensures spelled { LinkedIsSpelled }
    ensures profile { LinkedIsWithinProfile }
    ensures valid { LinkedIsValid }
    ensures means { LinkedMeansAll }
{}

/// Code behind other code has the same functions with other numbers.
pub fn moved_code()
    ensures { MovedIsNumbered }
{}
