// Branches and calls by a table.

ghost use Rattle.std.specs.Prelude.{◌≡◌, ◌≤◌, List, length, IfOk, slice_get};
ghost use Rattle.std.specs.List.{AllByRecursion};
ghost use Rattle.mw_wasm.specs.Syntax.{PureModule, br_table, call_indirect as call_indirect_instruction};
ghost use Rattle.mw_wasm.specs.Act.{same_value_type, same_value_types, same_type as same_function_type};
ghost use Rattle.mw_wasm.specs.Views.{module_of};
ghost use Rattle.mw_exec.specs.declared.held.Contents.{Contents as WasmHeld};
ghost use Rattle.mw_exec.specs.Views.{IsFormed};
ghost use Rattle.mw_exec.specs.Turns.{FewResults, TurnsBy};

use crate::calls::{call, enter_function};
use crate::held::Contents;
use crate::jumps::branch;
use crate::operands::take_i32;
use crate::state::{State, Turn};
use mw_wasm::{FuncType, Module, Trap, ValType};
use std::alloc::AllocError;

/// A branch to the label at the place that the last operand names, or to another.
#[tactic(auto, using(crate::proofs::TableRules::table_laws))]
pub fn jump_by_table<'m>(state: &mut State<'m>, labels: &'m [u32], l: u32) -> Turn
    requires { IsFormed state.old }
    ensures { (m : PureModule) (h : WasmHeld) → TurnsBy m (br_table labels.now l) h state.old result
        state.new }
{
    let Some(n) = take_i32(state) else {
        return Turn::Lost;
    };
    if (n as usize) < labels.len() {
        branch(state, labels[n as usize])
    } else {
        branch(state, l)
    }
}

fn same_value_kind(a: ValType, b: ValType) -> bool
    ensures { result ≡ same_value_type a b }
{
    match a {
        ValType::I32 => match b {
            ValType::I32 => true,
            ValType::I64 => false,
        },
        ValType::I64 => match b {
            ValType::I32 => false,
            ValType::I64 => true,
        },
    }
}

/// Types are compared by their content.
fn same_kinds(a: &[ValType], b: &[ValType]) -> bool
    ensures { result ≡ same_value_types a.now b.now }
{
    if a.len() != b.len() {
        return false;
    }
    for i in 0..a.len() {
        if !same_value_kind(a[i], b[i]) {
            return false;
        }
    }
    true
}

fn same_type(a: &FuncType, b: &FuncType) -> bool
    ensures { result ≡ same_function_type a.now b.now }
{
    same_kinds(a.params.as_slice(), b.params.as_slice())
        && same_kinds(a.results.as_slice(), b.results.as_slice())
}

/// The element of the table at a place.
#[inline(always)]
fn element_at(held: &Contents, n: u32) -> Option<Option<u32>>
    ensures { result ≡ slice_get held.now.table.items n }
{
    if (n as usize) < held.table.len() {
        Some(held.table[n as usize])
    } else {
        None
    }
}

/// A call of the function that the table has at the place that the last operand names.
#[tactic(auto, using(crate::proofs::CallRules::all_at, crate::proofs::TableRules::indirect_laws))]
pub fn call_indirect_now<'m>(
    wasm: &'m Module,
    held: &Contents,
    state: &mut State<'m>,
    t: u32,
) -> Result<Turn, AllocError>
    requires formed { IsFormed state.old }
    requires few { AllByRecursion FewResults wasm.now.types }
    ensures { IfOk result
        (λ u. TurnsBy (module_of wasm.now) (call_indirect_instruction t) held.now state.old u
        state.new) }
{
    let Some(n) = take_i32(state) else {
        return Ok(Turn::Lost);
    };
    let Some(element) = element_at(held, n) else {
        return Ok(Turn::Trap(Trap::UndefinedElement));
    };
    let Some(f) = element else {
        return Ok(Turn::Trap(Trap::Uninitialized));
    };
    if (f as usize) >= wasm.funcs.len() {
        return Ok(Turn::Lost);
    }
    let function = wasm.funcs.get(f as usize);
    if (function.kind as usize) >= wasm.types.len() {
        return Ok(Turn::Lost);
    }
    let kind = wasm.types.get(function.kind as usize);
    if (t as usize) >= wasm.types.len() {
        return Ok(Turn::Lost);
    }
    if same_type(kind, wasm.types.get(t as usize)) {
        enter_function(state, function, kind)
    } else {
        Ok(Turn::Trap(Trap::WrongType))
    }
}
