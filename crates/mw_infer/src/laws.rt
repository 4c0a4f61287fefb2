// Laws of how the equations of items and their types go together, which no program calls.

ghost use Rattle.mw_infer.specs.InferenceLaws.{CheckedOrRefused, EquationsAreOwn, FaultlessAreTypable};
ghost use Rattle.mw_infer.specs.InferenceLaws.{MostGeneralIsScheme, RefusalsAreOne};
ghost use Rattle.mw_infer.specs.InferenceLaws.{SchemesInOrderAreOne, TypableAreNotRefused, TypableIsSolvable};
ghost use Rattle.mw_infer.specs.InferenceLaws.{TypableWhereFresh};

/// The equations of an item name its own unknowns and classifier unknowns alone.
pub fn equations_are_own()
    ensures { EquationsAreOwn }
{}

/// The equations of an item that has a type as its place asks have a solution.
pub fn typable_is_solvable()
    ensures { TypableIsSolvable }
{}

/// An item has such a type exactly where its closes are fresh on a most general solution of its equations.
pub fn typable_where_fresh()
    ensures { TypableWhereFresh }
{}

/// Where the closes of a let are fresh on a most general solution, the let's types are exactly the instances of the
/// type that this solution gives it.
pub fn most_general_is_scheme()
    ensures { MostGeneralIsScheme }
{}

/// A definition has one scheme at most whose numbers are in order.
pub fn schemes_in_order_are_one()
    ensures { SchemesInOrderAreOne }
{}

/// A program has one refusal at most.
pub fn refusals_are_one()
    ensures { RefusalsAreOne }
{}

/// A program whose parts are without fault is typable, and none of its types is too big.
pub fn faultless_are_typable()
    ensures { FaultlessAreTypable }
{}

/// A typable program without a type that is too big is not refused.
pub fn typable_are_not_refused()
    ensures { TypableAreNotRefused }
{}

/// A program is typable and none of its types is too big, or it has a first refusal.
pub fn checked_or_refused()
    ensures { CheckedOrRefused }
{}
