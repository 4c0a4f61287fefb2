// The arguments of a module's `call`.

ghost use Rattle.std.specs.Prelude.{◌≡◌, [], ◌∷◌, ◌++◌, IfOk, OnOk};
ghost use Rattle.mw_term.specs.Terms.{base_value_of, ground_value, ground_value_of};
ghost use Rattle.mw_meaning.specs.StandingFor.{leaves};
ghost use Rattle.mw_wasm.specs.declared.values.Value.TheVariants.{I64};
ghost use Rattle.mw_kernel.specs.KernelAnswers.{FitsWords};

use mw_term::{BaseValue, GroundValue};
use mw_wasm::Value;
use std::alloc::{AllocError, Global};

/// The function's word, and then the leaves of its argument from left to right.
pub fn arguments_of(
    alloc: Global,
    function: u64,
    argument: &GroundValue,
) -> Result<Vec<Value>, AllocError>
    ensures values { IfOk result
        (λ args. args.items ≡ I64 function ∷ leaves (ground_value (ground_value_of argument.now))) }
    ensures fits { IfOk result (λ _. FitsWords (ground_value_of argument.now)) }
{
    let mut args = Vec::new(alloc);
    args.push(Value::I64(function))?;
    push_leaves(&mut args, argument)?;
    Ok(args)
}

/// Adds the leaves of a value at the end.
fn push_leaves(args: &mut Vec<Value>, value: &GroundValue) -> Result<(), AllocError>
    ensures pushed { OnOk result
        (args.new.items ≡ args.old.items ++ leaves (ground_value (ground_value_of value.now))) }
    ensures fits { OnOk result (FitsWords (ground_value_of value.now)) }
{
    match value {
        GroundValue::Base(base) => args.push(leaf_of(*base))?,
        GroundValue::Pair(first, second) => {
            push_leaves(args, first)?;
            push_leaves(args, second)?;
        }
    }
    Ok(())
}

/// The word of a base value.
fn leaf_of(value: BaseValue) -> Value
    ensures leaf { leaves (ground_value (base_value_of value)) ≡ result ∷ [] }
    ensures fits { FitsWords (base_value_of value) }
{
    match value {
        BaseValue::Int(n) => Value::I64(n.cast_unsigned()),
        BaseValue::Bool(b) => Value::I64(u64::from(b)),
    }
}
