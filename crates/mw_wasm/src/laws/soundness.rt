// A valid module never gets lost.

ghost use Rattle.mw_wasm.specs.Soundness.{ProgressAndPreservation, RunsAreSound, InvocationsAreSound};
ghost use Rattle.mw_wasm.specs.Soundness.{InstancesAreTyped, ValidModulesAreNeverLost};

/// Some rule applies to a typed state, and what it makes is typed again.
pub fn progress_and_preservation()
    ensures { ProgressAndPreservation }
{}

/// A run of a typed state ends with values of the right types, traps or is spent.
pub fn runs_are_sound()
    ensures { RunsAreSound }
{}

/// On a typed store, so does an invocation with arguments of its function's types.
pub fn invocations_are_sound()
    ensures { InvocationsAreSound }
{}

/// The instance of a valid module begins with a typed store.
pub fn instances_are_typed()
    ensures { InstancesAreTyped }
{}

/// On the instance of a valid module, no invocation of exported functions one after another is ever lost.
pub fn valid_modules_are_never_lost()
    ensures { ValidModulesAreNeverLost }
{}
