// Runs of kernels, and calls of the functions that they gave.

ghost use Rattle.std.specs.Prelude.{◌≡◌, ◌≤◌};
ghost use Rattle.std.specs.Arc.{arc_value};
ghost use Rattle.mw_term.specs.Terms.{ground_of, ground_value_of, kernel_type_of};
ghost use Rattle.mw_meaning.specs.GroundValues.{HasGroundType};
ghost use Rattle.mw_meaning.specs.Shapes.{HasShape};
ghost use Rattle.mw_wasm.specs.Views.{module_of};
ghost use Rattle.mw_wasm.specs.Validity.{IsValid};
ghost use Rattle.mw_exec.specs.InstanceStates.{store_in};
ghost use Rattle.mw_kernel.specs.RunningStates.{IsRunnable};
ghost use Rattle.mw_kernel.specs.KernelAnswers.{AnswersStart, AnswersCall, StoreAfterCall, IsSameFunction};
ghost use Rattle.mw_kernel.specs.KernelAnswers.{HasStartType, HasCallType, StartLeavesAtMost, CallLeavesAtMost};
ghost use Rattle.mw_kernel.specs.KernelAnswers.{FitsUnlessMemory};
ghost use Rattle.mw_kernel.specs.KernelMeanings.{MeansStart, MeansCall, KeepsOn};
ghost use Rattle.mw_kernel.specs.Straying.{BadStartIsStray, IsStartOver, StartsPlay, BadCallIsStray, PlaysOn};
ghost use Rattle.mw_kernel.specs.Answering.{HasFewPages, IsAnswerOf, IsNoFunction, IsBegunAnswer, IsHeldAfter};

use crate::arguments::arguments_of;
use crate::fault::RunFault;
use crate::outcome::{Outcome, first_instance, invoke_word, ready_instance};
use crate::reading::read_value;
use mw_exec::Instance;
use mw_machine::Ran;
use mw_term::{Ground, GroundValue, KType, Limit, TrapKind, copied_ground};
use mw_validate::Valid;
use std::alloc::Global;
use std::marker::Model;
use std::sync::Arc;

/// A function that a run of a kernel gave: the module with its instance, and the function's word. Contracts see the
/// module, what its instance holds, the word, and the kernel's argument and result types.
#[derive(Drop)]
pub struct Running {
    module: Arc<Valid>,
    instance: Option<Instance>,
    function: u64,
    argument: Ground,
    result: Ground,
}

impl Model for Running {
    ghost use Rattle.std.specs.Coded.{codes};
    ghost use Rattle.std.specs.Arc.{arc_value};
    ghost use Rattle.mw_wasm.specs.contracts.instructions.Instr as instr;
    ghost use Rattle.mw_kernel.specs.GroundCodes.{ground_code};
    ghost use Rattle.mw_kernel.specs.RunningStates.{RunningState, running_state, IsRunnable};

    ghost Value = { RunningState };

    ghost coded = { Prim.hlevel (codes, ground_code, instr.the_row.coded) };

    ghost view = { λ r. running_state (arc_value r.module) r.instance r.function r.argument r.result };

    ghost invariant = { λ r.
        IsRunnable (running_state (arc_value r.module) r.instance r.function r.argument r.result) };
}

/// How a run of a kernel ends. The last number is the units left.
#[derive(Drop)]
pub enum Began {
    /// With a value of a ground type, and the units left.
    Value(GroundValue, u64),
    /// With a function, which is kept, and the units left.
    Function(Running, u64),
    /// By a trap.
    Trap(TrapKind),
    /// At a bound.
    Bound(Limit),
}

impl Running {
    /// The run of a kernel of this type, with so many units: `init` of its module, on the instance that the module
    /// begins as. Bad where the module gives what no kernel of the type gives.
    pub fn start(
        alloc: Global,
        module: &Arc<Valid>,
        kind: &KType,
        fuel: u64,
    ) -> Result<Began, RunFault>
        requires shape { HasShape (module_of (arc_value «module».now)) (kernel_type_of kind.now) }
        ensures answers { AnswersStart result (arc_value «module».now) (kernel_type_of kind.now)
            fuel }
        ensures types { HasStartType result (kernel_type_of kind.now) }
        ensures left { StartLeavesAtMost result fuel }
        ensures means { MeansStart result (arc_value «module».now) (kernel_type_of kind.now) fuel }
        ensures stray { BadStartIsStray result (arc_value «module».now) (kernel_type_of kind.now) }
        ensures over { IsStartOver result (arc_value «module».now) }
        ensures plays { StartsPlay result }
    {
        begin(alloc, module, kind, fuel)
    }

    /// The call of the function with an argument and so many units. Bad where the module gives what no kernel of the
    /// type gives.
    pub fn call(
        &mut self,
        alloc: Global,
        argument: &GroundValue,
        fuel: u64,
    ) -> Result<Ran, RunFault>
        requires argument { HasGroundType self.old.argument (ground_value_of argument.now) }
        ensures answers { AnswersCall result self.old (ground_value_of argument.now) fuel }
        ensures types { HasCallType result self.old.result }
        ensures left { CallLeavesAtMost result fuel }
        ensures means { MeansCall result self.old (ground_value_of argument.now) fuel }
        ensures store { StoreAfterCall result self.old self.new (ground_value_of argument.now)
            fuel }
        ensures keeps { KeepsOn result self.old self.new }
        ensures stray { BadCallIsStray result self.old }
        ensures plays { PlaysOn result self.old self.new }
        ensures same { IsSameFunction self.old self.new }
        ensures fits { FitsUnlessMemory result (ground_value_of argument.now) }
        ensures runnable { IsRunnable self.old }
    {
        self.invoke(alloc, argument, fuel)
    }

    /// The call, as its module's `call` ends.
    fn invoke(&mut self, alloc: Global, argument: &GroundValue, fuel: u64) -> Result<Ran, RunFault>
        requires argument { HasGroundType self.old.argument (ground_value_of argument.now) }
        ensures answers { AnswersCall result self.old (ground_value_of argument.now) fuel }
        ensures store { StoreAfterCall result self.old self.new (ground_value_of argument.now)
            fuel }
        ensures same { IsSameFunction self.old self.new }
        ensures fits { FitsUnlessMemory result (ground_value_of argument.now) }
        ensures runnable { IsRunnable self.old }
    {
        let mut instance = ready_instance(alloc, self.instance.take(), &self.module)?;
        let args = arguments_of(alloc, self.function, argument)?;
        let outcome = invoke_word(alloc, &mut instance, b"call", args.as_slice(), fuel)?;
        let answer = answer_of(alloc, &instance, &self.result, outcome);
        self.instance = unless_spent(instance, outcome);
        answer
    }
}

/// The instance after an invocation; none where the units were spent, since what it holds is unknown then.
fn unless_spent(instance: Instance, outcome: Outcome) -> Option<Instance>
    ensures { IsHeldAfter outcome instance result }
{
    match outcome {
        Outcome::Bound(Limit::Fuel) => None,
        _ => Some(instance),
    }
}

/// The run, as its module's `init` ends.
fn begin(alloc: Global, module: &Arc<Valid>, kind: &KType, fuel: u64) -> Result<Began, RunFault>
    requires { HasShape (module_of (arc_value «module».now)) (kernel_type_of kind.now) }
    ensures { AnswersStart result (arc_value «module».now) (kernel_type_of kind.now) fuel }
{
    let mut instance = first_instance(alloc, module)?;
    let outcome = invoke_word(alloc, &mut instance, b"init", &[], fuel)?;
    match kind {
        KType::Ground(ground) => begun_as(answer_of(alloc, &instance, ground, outcome)),
        KType::Fun(argument, result) => match outcome {
            Outcome::Word(function, left) => {
                let running = Running {
                    module: Arc::try_clone(module)?,
                    instance: Some(instance),
                    function,
                    argument: copied_ground(alloc, argument)?,
                    result: copied_ground(alloc, result)?,
                };
                Ok(Began::Function(running, left))
            }
            Outcome::Trap(trap) => Ok(Began::Trap(trap)),
            Outcome::Bound(limit) => Ok(Began::Bound(limit)),
            Outcome::Stray => Err(RunFault::Bad),
        },
    }
}

/// The answer that an outcome is at a ground type, where a word's value is read from the instance's memory.
fn answer_of(
    alloc: Global,
    instance: &Instance,
    ground: &Ground,
    outcome: Outcome,
) -> Result<Ran, RunFault>
    requires { HasFewPages outcome (store_in instance.now) }
    ensures { IsAnswerOf result outcome (ground_of ground.now) (store_in instance.now).memory }
{
    match outcome {
        Outcome::Word(word, left) => match read_value(alloc, instance, ground, word)? {
            Some(value) => Ok(Ran::Value(value, left)),
            None => Err(RunFault::Bad),
        },
        Outcome::Trap(trap) => Ok(Ran::Trap(trap)),
        Outcome::Bound(limit) => Ok(Ran::Bound(limit)),
        Outcome::Stray => Err(RunFault::Bad),
    }
}

/// The same answer, of a run.
fn begun_as(answer: Result<Ran, RunFault>) -> Result<Began, RunFault>
    requires { IsNoFunction answer }
    ensures { IsBegunAnswer answer result }
{
    match answer {
        Ok(Ran::Value(value, left)) => Ok(Began::Value(value, left)),
        Ok(Ran::Trap(trap)) => Ok(Began::Trap(trap)),
        Ok(Ran::Bound(limit)) => Ok(Began::Bound(limit)),
        Ok(Ran::Function(_, _)) => unreachable!(),
        Err(fault) => Err(fault),
    }
}
