// Invocations that are timed.

ghost use Rattle.std.specs.Prelude.{◌≡◌, ◌∷◌, [], true, map};
ghost use Rattle.mw_wasm.specs.declared.values.Value.TheVariants.{I64};
ghost use Rattle.mw_wasm.specs.NumericTypes.{type_of_value};

use crate::modules::{Timed, module_with};
use mw_exec::{Ended, Instance, InstanceFault};
use mw_validate::ValidFault;
use mw_wasm::{FuncType, ValType, Value};
use std::alloc::{AllocError, Global};
use std::sync::Arc;

/// Whether functions of a type have one parameter, an i64.
fn takes_one_large(kind: &FuncType) -> bool
    ensures { result ≡ true → map type_of_value (I64 0 ∷ []) ≡ kind.now.params }
{
    matches!(kind.params.as_slice(), [ValType::I64])
}

/// What the invocation of `run` with a number gives, with 10^9 units; 0 where it is not valid or gives no i64.
pub fn run(alloc: Global, code: Timed, count: u64) -> Result<u64, AllocError> {
    let wasm = match module_with(alloc, code) {
        Ok(wasm) => Arc::new(alloc, wasm)?,
        Err(ValidFault::Bad(_)) => return Ok(0),
        Err(ValidFault::Memory(error)) => return Err(error),
    };
    let mut instance = match Instance::new(alloc, wasm) {
        Ok(instance) => instance,
        Err(InstanceFault::Memory(error)) => return Err(error),
        Err(InstanceFault::Element(_)) => return Ok(0),
        Err(InstanceFault::Segment(_)) => return Ok(0),
    };
    let Some(kind) = instance.export(b"run") else {
        return Ok(0);
    };
    if !takes_one_large(kind) {
        return Ok(0);
    }
    match instance.invoke(alloc, b"run", &[Value::I64(count)], 1_000_000_000)? {
        Ended::Ended(Some(Value::I64(n)), _) => Ok(n),
        _ => Ok(0),
    }
}
