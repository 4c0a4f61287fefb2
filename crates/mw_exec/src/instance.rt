// Instances.

ghost use Rattle.std.specs.Prelude.{◌≡◌, IfOk, IfErr, IfSome, IfNone, None};
ghost use Rattle.std.specs.Arc.{arc_value};
ghost use Rattle.mw_wasm.specs.declared.modules.Func.{Func as WasmFunc};
ghost use Rattle.mw_wasm.specs.Instances.{exported};
ghost use Rattle.mw_wasm.specs.Views.{module_of};
ghost use Rattle.mw_exec.specs.InstanceStates.{store_in};
ghost use Rattle.mw_exec.specs.Instancing.{AnswersInvocation, IsFunctionAt, CanInvoke, BeginsAs, Refuses, word_at};

use crate::ended::{Ended, InstanceFault};
use crate::exports::{function_index, function_named};
use crate::first_store::first_held;
use crate::held::Contents;
use crate::invocation::invoke_function;
use crate::memory::word_of;
use crate::segments::first_fault;
use mw_validate::Valid;
use mw_wasm::{FuncType, Value};
use std::alloc::{AllocError, Global};
use std::marker::Model;
use std::sync::Arc;

/// A module's instance. Contracts see its module and the store that it holds.
#[derive(Drop)]
pub struct Instance {
    module: Arc<Valid>,
    held: Contents,
}

impl Model for Instance {
    ghost use Rattle.std.specs.Coded.{codes};
    ghost use Rattle.std.specs.Arc.{arc_value};
    ghost use Rattle.mw_wasm.specs.contracts.instructions.Instr as instr;
    ghost use Rattle.mw_exec.specs.InstanceStates.{InstanceState, state_of, IsReady};

    ghost Value = { InstanceState };

    ghost view = { λ instance. state_of (arc_value instance.module) instance.held };

    ghost coded = { Prim.hlevel (codes, instr.the_row.coded) };

    ghost invariant = { λ instance. IsReady (state_of (arc_value instance.module) instance.held) };
}

impl Instance {
    /// The instance that a module begins as. Every element segment is tested, and then every data segment; the first
    /// that doesn't fit is the fault, and otherwise all are written.
    pub fn new(alloc: Global, module: Arc<Valid>) -> Result<Instance, InstanceFault>
        ensures of { IfOk result (λ instance. instance.wasm ≡ arc_value «module») }
        ensures begins { IfOk result
            (λ instance. BeginsAs (arc_value «module») (store_in instance)) }
        ensures fault { IfErr result (λ fault. Refuses fault (arc_value «module»)) }
    {
        if let Some(fault) = first_fault(module.module()) {
            return Err(fault);
        }
        let held = first_held(alloc, module.module())?;
        Ok(Instance { module, held })
    }

    /// The type of the function that is exported under a name. Takes no memory.
    pub fn export(&self, name: &[u8]) -> Option<&FuncType>
        ensures some { IfSome result
            (λ t. (g : WasmFunc) × IsFunctionAt self.now.wasm name.now g t.now) }
        ensures none { IfNone result (exported (module_of self.now.wasm) name.now ≡ None) }
    {
        let (_, kind) = function_named(self.module.module(), name)?;
        Some(kind)
    }

    /// The invocation of the function that is exported under a name, with arguments of its parameters' types and so
    /// many units, on what the instance holds. Where it ends or traps, the instance holds what it left.
    pub fn invoke(
        &mut self,
        alloc: Global,
        name: &[u8],
        args: &[Value],
        fuel: u64,
    ) -> Result<Ended, AllocError>
        requires can { CanInvoke self.old.wasm name.now args.now }
        ensures same { self.new.wasm ≡ self.old.wasm }
        ensures ends { IfOk result
            (λ end. AnswersInvocation self.old.wasm name.now args.now fuel
            (store_in self.old) end (store_in self.new)) }
    {
        let Some(f) = function_index(self.module.module(), name) else {
            unreachable!();
        };
        invoke_function(alloc, self.module.module(), &mut self.held, f, args, fuel)
    }

    /// The number in the eight bytes from an address on, the lowest first; none where one of them is past the memory's
    /// end. Takes no memory.
    pub fn word(&self, at: u64) -> Option<u64>
        ensures { result ≡ word_at at (store_in self.now).memory }
    {
        word_of(&self.held, at)
    }
}
