// Calls.

ghost use Rattle.std.specs.Prelude.{◌≡◌, ◌≤◌, ◌<◌, ◌^◌, ◌∷◌, ◌++◌, [], ℕ, Option, Some, None, List, length, map, take};
ghost use Rattle.std.specs.Prelude.{drop, IfOk, slice_get};
ghost use Rattle.mw_wasm.specs.declared.values.Value.{Value as WasmValue};
ghost use Rattle.mw_wasm.specs.Store.{Store, zero_of as zero_value};
ghost use Rattle.std.specs.List.{AllByRecursion};
ghost use Rattle.mw_wasm.specs.Views.{function_of, module_of};
ghost use Rattle.mw_exec.specs.Views.{IsFormed, count_of};
ghost use Rattle.mw_exec.specs.Turns.{RuleIn, RunsIn, entered_by, called_by, FewResults};

use crate::state::{Kind, State, Turn, Waiting};
use mw_wasm::{Func, FuncType, Module, ValType, Value};
use std::alloc::AllocError;

/// The zero of a type.
fn zero_of(t: ValType) -> Value
    ensures { result ≡ zero_value t }
{
    match t {
        ValType::I32 => Value::I32(0),
        ValType::I64 => Value::I64(0),
    }
}

/// Arguments and then zeros, after the locals that are there.
#[tactic(auto, using(crate::proofs::MappedSlices::mapped_more, crate::proofs::MappedSlices::mapped_all))]
pub fn push_locals(
    locals: &mut Vec<Value>,
    arguments: &[Value],
    further: &[ValType],
) -> Result<(), AllocError>
    ensures { IfOk result
        (λ _. locals.new.items ≡ locals.old.items ++ arguments.now ++ map zero_value further.now) }
{
    locals.extend_from_slice(arguments)?;
    for t in further {
        locals.push(zero_of(*t))?;
    }
    Ok(())
}

/// Whether functions of a type give a value.
#[inline(always)]
pub fn gives_one(kind: &FuncType) -> bool
    requires { length kind.now.results ≤ 1 }
    ensures { count_of result ≡ length kind.now.results }
{
    kind.results.len() > 0
}

/// A frame round a function's body; its arguments are the last operands.
pub fn enter_function<'m>(
    state: &mut State<'m>,
    function: &'m Func,
    kind: &'m FuncType,
) -> Result<Turn, AllocError>
    requires formed { IsFormed state.old }
    requires one { length kind.now.results ≤ 1 }
    ensures { IfOk result
        (λ t. RuleIn (entered_by (function_of function.now) kind.now state.old) state.old.fuel t
        state.new) }
{
    let count = kind.params.len();
    if state.stack.len() - state.height < count {
        return Ok(Turn::Lost);
    }
    if state.fuel == 0 {
        return Ok(Turn::Spent);
    }
    let begin = state.stack.len() - count;
    let base = state.locals.len();
    push_locals(
        &mut state.locals,
        &state.stack[begin..],
        function.locals.as_slice(),
    )?;
    state.waiting.push(Waiting {
        kind: Kind::Frame(gives_one(kind), state.base),
        code: state.code,
        at: state.at,
        height: state.height,
    })?;
    state.stack.truncate(begin);
    state.fuel -= 1;
    state.base = base;
    state.code = function.body.as_slice();
    state.at = 0;
    state.height = begin;
    Ok(Turn::On)
}

/// A call of the function of an index.
#[tactic(auto, using(crate::proofs::CallRules::all_at, crate::proofs::CallRules::calls_there))]
#[inline(always)]
pub fn call<'m>(wasm: &'m Module, state: &mut State<'m>, f: u32) -> Result<Turn, AllocError>
    requires formed { IsFormed state.old }
    requires few { AllByRecursion FewResults wasm.now.types }
    ensures { IfOk result
        (λ t. RunsIn (module_of wasm.now) (called_by f state.old) state.old.fuel t state.new) }
{
    if (f as usize) < wasm.funcs.len() {
        let function = wasm.funcs.get(f as usize);
        if (function.kind as usize) < wasm.types.len() {
            return enter_function(state, function, wasm.types.get(function.kind as usize));
        }
    }
    Ok(Turn::Lost)
}
