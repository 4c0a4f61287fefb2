// Laws of the definitions, which no program calls.

ghost use Rattle.mw_scope.specs.Examples.{ExamplesHold};
ghost use Rattle.mw_scope.specs.Scoped.{NamelessIsScoped};
ghost use Rattle.mw_scope.specs.Resolving.{NamelessWhereFaultless, OneNameless, NearestIsNearest, TopNamesAreItems};

/// The examples are the programs, or have the faults, that they are said to.
pub fn examples_hold()
    ensures { ExamplesHold }
{}

/// A surface program is some program exactly where it has no fault.
pub fn nameless_where_faultless()
    ensures { NamelessWhereFaultless }
{}

/// A surface program is one program at most.
pub fn one_nameless()
    ensures { OneNameless }
{}

/// The binder that a name stands for is the nearest of that name.
pub fn nearest_is_nearest()
    ensures { NearestIsNearest }
{}

/// The item that a top-level name stands for is one of that name.
pub fn top_names_are_items()
    ensures { TopNamesAreItems }
{}

/// In the program that a surface program is, each variable is bound and each form stands at its level.
pub fn nameless_is_scoped()
    ensures { NamelessIsScoped }
{}
