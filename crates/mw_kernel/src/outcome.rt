// Invocations of functions that give one i64, as a kernel's.

ghost use Rattle.std.specs.Prelude.{◌≡◌, ℕ, Some, Ok, IfOk};
ghost use Rattle.std.specs.Arc.{arc_value};
ghost use Rattle.mw_wasm.specs.Instances.{exported, instantiated, invoked};
ghost use Rattle.mw_wasm.specs.Validity.{IsValid};
ghost use Rattle.mw_wasm.specs.Views.{module_of};
ghost use Rattle.mw_exec.specs.Instancing.{first_store};
ghost use Rattle.mw_exec.specs.InstanceStates.{store_in};
ghost use Rattle.mw_kernel.specs.RunningStates.{IsInstanceOf, store_held};
ghost use Rattle.mw_kernel.specs.Invoking.{GivesWord, IsOneWord, IsOutcomeOf, EndsAsOutcome, LeavesStore};

use mw_exec::{Ended, Instance, InstanceFault};
use mw_term::{Limit, TrapKind};
use mw_validate::Valid;
use mw_wasm::{Trap, Value};
use std::alloc::{AllocError, Global};
use std::sync::Arc;

/// How an invocation ends, as a kernel's.
#[derive(Clone, Copy)]
pub enum Outcome {
    /// With a word, and the units left.
    Word(u64, u64),
    /// By a kernel's trap.
    Trap(TrapKind),
    /// At a kernel's bound.
    Bound(Limit),
    /// By a trap that no kernel has.
    Stray,
}

/// What an end with one i64, a trap or a spent end is to a kernel.
pub fn outcome_of(end: Ended) -> Outcome
    requires { IsOneWord end }
    ensures { IsOutcomeOf end result }
{
    match end {
        Ended::Ended(Some(Value::I64(word)), left) => Outcome::Word(word, left),
        Ended::Ended(_, _) => unreachable!(),
        Ended::Trapped(Trap::Divide) => Outcome::Trap(TrapKind::Divide),
        Ended::Trapped(Trap::Overflow) => Outcome::Trap(TrapKind::Overflow),
        Ended::Trapped(Trap::OutOfBounds) => Outcome::Bound(Limit::Heap),
        Ended::Trapped(_) => Outcome::Stray,
        Ended::Spent => Outcome::Bound(Limit::Fuel),
    }
}

/// The invocation of the function under a name, which gives one i64, on a store of the module.
pub fn invoke_word(
    alloc: Global,
    instance: &mut Instance,
    name: &[u8],
    args: &[Value],
    fuel: u64,
) -> Result<Outcome, AllocError>
    requires { GivesWord instance.old.wasm (store_in instance.old) name.now args.now }
    ensures same { instance.new.wasm ≡ instance.old.wasm }
    ensures ends { IfOk result
        (λ outcome. (f : ℕ) → exported (module_of instance.old.wasm) name.now ≡ Some f
        → EndsAsOutcome outcome (store_in instance.new)
        (invoked (module_of instance.old.wasm) (store_in instance.old) f args.now fuel)) }
    ensures store { IfOk result
        (λ outcome. LeavesStore outcome (module_of instance.old.wasm) (store_in instance.new)) }
{
    Ok(outcome_of(instance.invoke(alloc, name, args, fuel)?))
}

/// The instance that a module begins as, whose segments fit.
pub fn first_instance(alloc: Global, wasm: &Arc<Valid>) -> Result<Instance, AllocError>
    requires { instantiated (module_of (arc_value wasm.now))
        ≡ Ok (first_store (module_of (arc_value wasm.now))) }
    ensures of { IfOk result (λ instance. instance.wasm ≡ arc_value wasm.now) }
    ensures store { IfOk result
        (λ instance. store_in instance ≡ first_store (module_of (arc_value wasm.now))) }
    ensures valid { IsValid (module_of (arc_value wasm.now)) }
{
    // The module is a valid one.
    let _valid = wasm.module();
    match Instance::new(alloc, Arc::try_clone(wasm)?) {
        Ok(instance) => Ok(instance),
        Err(InstanceFault::Memory(error)) => Err(error),
        Err(InstanceFault::Element(_)) => unreachable!(),
        Err(InstanceFault::Segment(_)) => unreachable!(),
    }
}

/// The instance that is held, and otherwise the one that the module begins as.
pub fn ready_instance(
    alloc: Global,
    held: Option<Instance>,
    wasm: &Arc<Valid>,
) -> Result<Instance, AllocError>
    requires begins { instantiated (module_of (arc_value wasm.now))
        ≡ Ok (first_store (module_of (arc_value wasm.now))) }
    requires held { IsInstanceOf (arc_value wasm.now) held }
    ensures of { IfOk result (λ instance. instance.wasm ≡ arc_value wasm.now) }
    ensures store { IfOk result
        (λ instance. store_in instance ≡ store_held (arc_value wasm.now) held) }
{
    match held {
        Some(instance) => Ok(instance),
        None => first_instance(alloc, wasm),
    }
}
