// A function that a run gave.

ghost use Rattle.std.specs.Prelude.{◌≡◌, false};
ghost use Rattle.mw_term.specs.Terms.{expression_of, kernel_type_of, ground_value_of};
ghost use Rattle.mw_meaning.specs.declared.mode.Mode.{Mode};
ghost use Rattle.mw_machine.specs.KernelCalls.{IsArgumentOf, IsCallAt, LeavesAtMost, AnswersCall, ends_all};
ghost use Rattle.mw_cached.specs.Answers.{told, BadIsStray};
ghost use Rattle.mw_cached.specs.FunctionStates.{kept_as, MeansItsCode};
ghost use Rattle.mw_cached.specs.KeptFunctions.{IsKept, kept_of};

use crate::fault::{FunctionFault, fault_of};
use mw_kernel::Running;
use mw_machine::Ran;
use mw_term::{GroundValue, KType, Term};
use std::alloc::Global;
use std::snapshot::Snapshot;

/// A function that a run gave in some mode, with the run's code, as it was built, and its type, which contracts alone
/// see. Its module was loaded from the record of a number, or is the emission of what was run.
#[derive(Drop)]
pub struct Function {
    pub code: Snapshot<Term>,
    pub kind: Snapshot<KType>,
    pub running: Running,
    pub loaded: Option<u32>,
}

impl Function {
    /// The function that a run of the code at the type gave. Takes no memory.
    pub fn of(code: &Term, kind: &KType, running: Running, loaded: Option<u32>) -> Function
        ensures running { result.running ≡ running }
        ensures kept { kept_of result ≡ kept_as code.now kind.now running.wasm loaded }
    {
        Function {
            code: Snapshot::of(code),
            kind: Snapshot::of(kind),
            running,
            loaded,
        }
    }

    /// Calls the function, in the mode in which it is kept. After a value it is kept as it was.
    pub fn call(
        &mut self,
        alloc: Global,
        argument: &GroundValue,
        fuel: u64,
    ) -> Result<Ran, FunctionFault>
        requires kept { (mode : Mode) × IsKept mode self.old }
        requires argument { IsArgumentOf (kernel_type_of self.old.kind.value)
            (ground_value_of argument.now) }
        ensures types { IsCallAt (told result) (kernel_type_of self.old.kind.value) }
        ensures left { LeavesAtMost (told result) fuel }
        ensures means { (mode : Mode) → IsKept mode self.old → MeansItsCode mode (kept_of self.old)
            → AnswersCall mode (told result) (expression_of self.old.code.value)
            (kernel_type_of self.old.kind.value) (ground_value_of argument.now) fuel }
        ensures stray { BadIsStray result self.old.running.wasm self.old.loaded
            (kernel_type_of self.old.kind.value) }
        ensures kept { kept_of self.new ≡ kept_of self.old }
        ensures keeps { ends_all (told result) ≡ false
            → (mode : Mode) → IsKept mode self.old → IsKept mode self.new }
    {
        match self.running.call(alloc, argument, fuel) {
            Ok(ran) => Ok(ran),
            Err(fault) => Err(fault_of(fault, self.loaded)),
        }
    }
}
