// The functions that runs gave.

ghost use Rattle.std.specs.Prelude.{◌≡◌, ◌||◌, ℕ, [], true, false, length, None, Some, IsSome, slice_get};
ghost use Rattle.std.specs.Arc.{arc_value};
ghost use Rattle.mw_term.specs.Terms.{Expression, KernelType, expression_of, kernel_type_of, ground_value_of};
ghost use Rattle.mw_meaning.specs.Simplification.{in_mode};
ghost use Rattle.mw_meaning.specs.StandingFor.{StandsFor};
ghost use Rattle.mw_wasm.specs.Views.{module_of};
ghost use Rattle.mw_machine.specs.KernelCalls.{IsRunnable, IsCallable, IsRunAt, IsCallAt, LeavesAtMost, AnswersRun};
ghost use Rattle.mw_machine.specs.KernelCalls.{AnswersCall, kept_after, ends_all};
ghost use Rattle.mw_cached.specs.Answers.{told, BadIsStray};
ghost use Rattle.mw_cached.specs.FunctionStates.{Kept, kept_as, run_of_kept, functions_of, with_function, MeansItsCode};
ghost use Rattle.mw_cached.specs.Modules.{IsOfShape};

use crate::fault::{FunctionFault, fault_of};
use crate::function::Function;
use mw_kernel::{Began, Running};
use mw_machine::{KernelFault, Ran};
use mw_meaning::Mode;
use mw_term::{GroundValue, KType, Term};
use mw_validate::Valid;
use std::alloc::{AllocError, Global};
use std::marker::Model;
use std::sync::Arc;

/// A running instance for each function that a run gave. Contracts see how code is run, whether the functions are
/// stopped, and of each its code and type, its module, and the record that this was loaded from.
#[derive(Drop)]
pub struct Functions {
    mode: Mode,
    functions: Vec<Function>,
    stopped: bool,
}

impl Model for Functions {
    ghost use Rattle.std.specs.Prelude.{◌≡◌, false, map, All};
    ghost use Rattle.std.specs.Coded.{codes};
    ghost use Rattle.mw_term.specs.contracts.term.Ground as ground;
    ghost use Rattle.mw_term.specs.contracts.term.Term as term;
    ghost use Rattle.mw_wasm.specs.contracts.instructions.Instr as instr;
    ghost use Rattle.mw_cached.specs.FunctionStates.{FunctionState};
    ghost use Rattle.mw_cached.specs.KeptFunctions.{IsKept, kept_of};

    ghost Value = { FunctionState };

    ghost coded = { Prim.hlevel (codes, ground.the_row.coded, term.the_row.coded, instr.the_row.coded) };

    ghost view = { λ s. record {
      mode = s.mode;
      functions = map
          (λ f. kept_of f) s.functions.items;
      stopped = s.stopped;
    } };

    ghost invariant = { λ s. s.stopped ≡ false → All (IsKept s.mode) s.functions.items };
}

impl Functions {
    /// No functions, of runs in the mode.
    pub fn new(alloc: Global, mode: Mode) -> Functions
        ensures { result ≡ record { mode = mode; functions = []; stopped = false } }
    {
        Functions {
            mode,
            functions: Vec::new(alloc),
            stopped: false,
        }
    }

    /// How code is run.
    pub fn mode(&self) -> Mode
        ensures { result ≡ self.now.mode }
    {
        self.mode
    }

    /// The answer to a run of code by a module, whose function is kept. The module was loaded from the record of a
    /// number, or is the emission of what is run. Bad where one that was loaded gives what no kernel of the type gives.
    pub fn run(
        &mut self,
        alloc: Global,
        module: &Arc<Valid>,
        loaded: Option<u32>,
        code: &Term,
        kind: &KType,
        fuel: u64,
    ) -> Result<Ran, FunctionFault>
        requires runnable { IsRunnable (expression_of code.now) (kernel_type_of kind.now) }
        requires shape { IsOfShape (arc_value «module».now)
            (in_mode self.old.mode (expression_of code.now)) (kernel_type_of kind.now) }
        requires emitted { loaded ≡ None → StandsFor (module_of (arc_value «module».now))
            (in_mode self.old.mode (expression_of code.now)) (kernel_type_of kind.now) }
        ensures types { IsRunAt (told result) (kernel_type_of kind.now)
            (length self.old.functions) }
        ensures left { LeavesAtMost (told result) fuel }
        ensures means { (IsSome loaded → StandsFor (module_of (arc_value «module».now))
            (in_mode self.old.mode (expression_of code.now)) (kernel_type_of kind.now))
            → AnswersRun self.old.mode (told result) (expression_of code.now)
            (kernel_type_of kind.now) fuel }
        ensures stray { BadIsStray result (arc_value «module».now) loaded
            (kernel_type_of kind.now) }
        ensures functions { functions_of self.new
            ≡ kept_after (told result) (expression_of code.now) (kernel_type_of kind.now)
            (functions_of self.old) }
        ensures kept { self.new.functions ≡ with_function (told result)
            (kept_as code.now kind.now (arc_value «module».now) loaded)
            self.old.functions }
        ensures stopped { self.new.stopped ≡ self.old.stopped }
        ensures mode { self.new.mode ≡ self.old.mode }
    {
        match Running::start(alloc, module, kind, fuel) {
            Ok(Began::Value(value, left)) => Ok(Ran::Value(value, left)),
            Ok(Began::Function(running, left)) => {
                let which = self.functions.len();
                let function = Function::of(code, kind, running, loaded);
                self.functions.push(function).map_err(AllocError::from)?;
                Ok(Ran::Function(which, left))
            }
            Ok(Began::Trap(trap)) => Ok(Ran::Trap(trap)),
            Ok(Began::Bound(limit)) => Ok(Ran::Bound(limit)),
            Err(fault) => Err(fault_of(fault, loaded)),
        }
    }

    /// No more calls after an answer that is no value and no function.
    pub fn stop_after(&mut self, answer: &Result<Ran, KernelFault>)
        ensures functions { self.new.functions ≡ self.old.functions }
        ensures mode { self.new.mode ≡ self.old.mode }
        ensures stopped { self.new.stopped ≡ (self.old.stopped || ends_all answer.now) }
    {
        self.stopped |= is_last(answer);
    }

    /// Calls the kept function of a number. Bad where its module was loaded and gives what no kernel of its type gives.
    pub fn call(
        &mut self,
        alloc: Global,
        which: usize,
        argument: &GroundValue,
        fuel: u64,
    ) -> Result<Ran, FunctionFault>
        requires function { IsCallable (functions_of self.old) which
            (ground_value_of argument.now) }
        requires open { self.old.stopped ≡ false }
        ensures types { (c : Expression) (k : KernelType)
            → slice_get (functions_of self.old) which ≡ Some (c, k) → IsCallAt (told result) k }
        ensures left { LeavesAtMost (told result) fuel }
        ensures means { (f : Kept) → slice_get self.old.functions which ≡ Some f
            → MeansItsCode self.old.mode f
            → AnswersCall self.old.mode (told result) (run_of_kept f).0 (run_of_kept f).1
            (ground_value_of argument.now) fuel }
        ensures stray { (f : Kept) → slice_get self.old.functions which ≡ Some f
            → BadIsStray result f.wasm f.loaded (run_of_kept f).1 }
        ensures functions { self.new.functions ≡ self.old.functions }
        ensures stopped { self.new.stopped ≡ ends_all (told result) }
        ensures mode { self.new.mode ≡ self.old.mode }
    {
        let answer = self.functions[which].call(alloc, argument, fuel);
        self.stopped = is_last_call(&answer);
        answer
    }
}

/// Whether the answer is no value and no function.
fn is_last(answer: &Result<Ran, KernelFault>) -> bool
    ensures { result ≡ ends_all answer.now }
{
    !matches!(answer, Ok(Ran::Value(_, _) | Ran::Function(_, _)))
}

/// The same of what a call answers.
fn is_last_call(answer: &Result<Ran, FunctionFault>) -> bool
    ensures { result ≡ ends_all (told answer.now) }
{
    !matches!(answer, Ok(Ran::Value(_, _) | Ran::Function(_, _)))
}
