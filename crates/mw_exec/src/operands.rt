// Operands.

ghost use Rattle.std.specs.Prelude.{◌≡◌, ◌≤◌, ◌++◌, ◌∷◌, [], true, false, length, IfSome, IfNone, IfOk};
ghost use Rattle.mw_wasm.specs.declared.values.Value.TheVariants as value;
ghost use Rattle.mw_wasm.specs.NumericTypes.{type_of_value};
ghost use Rattle.mw_exec.specs.Lists.{above, HasRoom, Kept, Popped, Empty, LacksI32, LacksType};
ghost use Rattle.mw_exec.specs.Views.{IsFormed};
ghost use Rattle.mw_exec.specs.Turns.{IsPopped};

use crate::state::State;
use mw_wasm::{ValType, Value};
use std::alloc::AllocError;

/// The last operand, taken from the stack.
#[inline(always)]
pub fn pop(stack: &mut Vec<Value>, height: usize) -> Option<Value>
    requires { height ≤ length stack.old.items }
    ensures some { IfSome result (λ v. Popped height stack.old.items stack.new.items v) }
    ensures room { IfSome result (λ _. HasRoom stack.new) }
    ensures none { IfNone result (Empty height stack.old.items stack.new.items) }
{
    if height < stack.len() {
        stack.pop()
    } else {
        None
    }
}

/// The last operand, taken from the stack, where it is an i32.
#[inline(always)]
pub fn pop_i32(stack: &mut Vec<Value>, height: usize) -> Option<u32>
    requires { height ≤ length stack.old.items }
    ensures some { IfSome result
        (λ n. Popped height stack.old.items stack.new.items (value.I32 n)) }
    ensures room { IfSome result (λ _. HasRoom stack.new) }
    ensures none { IfNone result (LacksI32 (above height stack.old.items)) }
    ensures kept { Kept height stack.old.items stack.new.items }
{
    match pop(stack, height) {
        Some(Value::I32(n)) => Some(n),
        Some(Value::I64(_)) => None,
        None => None,
    }
}

/// The last operand of the code in hand, taken from the stack, where it is an i32.
#[inline(always)]
pub fn take_i32(state: &mut State<'_>) -> Option<u32>
    requires { IsFormed state.old }
    ensures some { IfSome result (λ n. IsPopped n state.old state.new) }
    ensures formed { IfSome result (λ _. IsFormed state.new) }
    ensures none { IfNone result (LacksI32 (above state.old.height state.old.stack.items)) }
{
    let height = state.height;
    let n = pop_i32(&mut state.stack, height)?;
    Some(n)
}

/// Whether a value is of a type.
#[inline(always)]
fn has_type(operand: Value, t: ValType) -> bool
    ensures yes { result ≡ true → type_of_value operand ≡ t }
    ensures no { result ≡ false → type_of_value operand ≡ t → ⊥ }
{
    match operand {
        Value::I32(_) => match t {
            ValType::I32 => true,
            ValType::I64 => false,
        },
        Value::I64(_) => match t {
            ValType::I32 => false,
            ValType::I64 => true,
        },
    }
}

/// The last operand, taken from the stack, where it is of a type.
#[inline(always)]
pub fn pop_of(stack: &mut Vec<Value>, height: usize, t: ValType) -> Option<Value>
    requires { height ≤ length stack.old.items }
    ensures some { IfSome result (λ v. Popped height stack.old.items stack.new.items v) }
    ensures typed { IfSome result (λ v. type_of_value v ≡ t) }
    ensures room { IfSome result (λ _. HasRoom stack.new) }
    ensures none { IfNone result (LacksType t (above height stack.old.items)) }
    ensures kept { Kept height stack.old.items stack.new.items }
{
    match pop(stack, height) {
        Some(operand) => {
            if has_type(operand, t) {
                Some(operand)
            } else {
                None
            }
        }
        None => None,
    }
}

/// One operand more.
#[inline(always)]
pub fn push(stack: &mut Vec<Value>, operand: Value) -> Result<(), AllocError>
    ensures { IfOk result (λ _. stack.new.items ≡ stack.old.items ++ operand ∷ []) }
{
    stack.push(operand)?;
    Ok(())
}

/// One operand more, where there is room for it, as there is once one was taken.
#[inline(always)]
pub fn put(stack: &mut Vec<Value>, operand: Value)
    requires { HasRoom stack.old }
    ensures { stack.new.items ≡ stack.old.items ++ operand ∷ [] }
{
    stack.push_reserved(operand);
}
