// Invocations, by their arguments, and what they leave as it was.

ghost use Rattle.mw_wasm.specs.Invocations.{ArgumentsAreTaken, OtherArgumentsAreLost, TwoParametersWantTwo};
ghost use Rattle.mw_wasm.specs.StoreShape.{StoresKeepShape};

/// With arguments of its parameters' types a function's invocation is the execution of its body; with others it is
/// lost.
pub fn arguments_have_their_types()
    ensures taken { ArgumentsAreTaken }
    ensures lost { OtherArgumentsAreLost }
{}

/// A valid module whose `init` has two parameters: without them its invocation is lost.
pub fn two_parameters_want_two()
    ensures { TwoParametersWantTwo }
{}

/// An invocation that ended left the table as it was, and the pages of a memory that has as many as it may.
pub fn stores_keep_shape()
    ensures { StoresKeepShape }
{}
