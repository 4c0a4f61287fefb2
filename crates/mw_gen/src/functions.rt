// Functions of converted code.

ghost use Rattle.std.specs.Prelude.{◌≡◌, ◌+◌, ◌<◌, ◌≤◌, ◌++◌, true, false, map, replicate, IfOk};
ghost use Rattle.mw_wasm.specs.declared.values.ValType.TheVariants.{I64};
ghost use Rattle.mw_wasm.specs.Views.{code_of, function_of};
ghost use Rattle.mw_ir.specs.Ranges.{ir_depth};
ghost use Rattle.mw_ir.specs.Views.{ir_func_of, ir_of};
ghost use Rattle.mw_key.specs.declared.version.Version.TheVariants.{Two};
ghost use Rattle.mw_gen.specs.Generate.{function_for, init_function as init_with, restarting, loop_code, has_self_tail_call, spare_count};
ghost use Rattle.mw_gen.specs.Listing.{AllShort, IsShort};
ghost use Rattle.mw_gen.specs.Parts.{moved, moved_function};

use crate::code::{code_alone, restarting_code};
use crate::tails::{loops, put_tail, tail_uses, uses};
use mw_ir::{Ir, IrFunc, IrFuncs};
use mw_wasm::{Func, Funcs, Instr, Instrs, ValType, ValTypes};
use std::alloc::{AllocError, Global};

/// So many types of words.
#[tactic(auto, using(crate::proofs::InstructionLists::replicate_more))]
pub fn words(alloc: Global, count: u32) -> Result<ValTypes, AllocError>
    ensures { IfOk result (λ types. types ≡ replicate count I64) }
{
    let mut types = ValTypes::new(alloc);
    for _ in 0..count {
        types.push(ValType::I64)?;
    }
    Ok(types)
}

/// How many spare locals code has.
fn spare_locals(wanted: bool) -> u32
    ensures { result ≡ spare_count wanted }
{
    if wanted { 2 } else { 0 }
}

/// The body of a function with self tail calls: a loop.
fn loop_alone(alloc: Global, code: &Ir, from: u32, spare: u32) -> Result<Instrs, AllocError>
    requires short { IsShort (ir_of code.now) }
    requires spare { spare < 1000000000 }
    requires depth { ir_depth (ir_of code.now) ≤ 400 }
    ensures { IfOk result (λ r. code_of r ≡ loop_code (moved from (ir_of code.now)) spare) }
{
    let mut body = Instrs::new(alloc);
    put_tail(alloc, &mut body, code, from, spare, 0)?;
    let mut out = Instrs::new(alloc);
    out.push(Instr::Loop(Some(ValType::I64), body))?;
    Ok(out)
}

/// A function without self tail calls.
#[tactic(auto, using(crate::proofs::Moves::loops_moved, crate::proofs::Moves::uses_moved))]
fn plain_function(alloc: Global, func: &IrFunc, from: u32) -> Result<Func, AllocError>
    requires short { IsShort (ir_of func.now.body) }
    requires slots { func.now.slots ≤ 400 }
    requires plain { has_self_tail_call (ir_of func.now.body) ≡ false }
    ensures { IfOk result (λ r. function_of r
        ≡ function_for Two (moved_function from (ir_func_of func.now))) }
{
    let locals = words(alloc, func.slots + spare_locals(uses(&func.body)))?;
    let body = code_alone(alloc, &func.body, from, 2, 2 + func.slots)?;
    Ok(Func {
        kind: 0,
        locals,
        body,
    })
}

/// A function with self tail calls.
#[tactic(auto, using(crate::proofs::Moves::loops_moved, crate::proofs::Moves::tail_uses_moved))]
fn looping_function(alloc: Global, func: &IrFunc, from: u32) -> Result<Func, AllocError>
    requires short { IsShort (ir_of func.now.body) }
    requires slots { func.now.slots ≤ 400 }
    requires depth { ir_depth (ir_of func.now.body) ≤ 400 }
    requires looping { has_self_tail_call (ir_of func.now.body) ≡ true }
    ensures { IfOk result (λ r. function_of r
        ≡ function_for Two (moved_function from (ir_func_of func.now))) }
{
    let locals = words(alloc, func.slots + spare_locals(tail_uses(&func.body)))?;
    let body = loop_alone(alloc, &func.body, from, 2 + func.slots)?;
    Ok(Func {
        kind: 0,
        locals,
        body,
    })
}

/// A function of the code.
fn function(alloc: Global, func: &IrFunc, from: u32) -> Result<Func, AllocError>
    requires short { IsShort (ir_of func.now.body) }
    requires slots { func.now.slots ≤ 400 }
    requires depth { ir_depth (ir_of func.now.body) ≤ 400 }
    ensures { IfOk result (λ r. function_of r
        ≡ function_for Two (moved_function from (ir_func_of func.now))) }
{
    if loops(&func.body) {
        looping_function(alloc, func, from)
    } else {
        plain_function(alloc, func, from)
    }
}

/// Appends the functions of the code, with numbers from `from` on.
pub fn put_functions(
    alloc: Global,
    out: &mut Funcs,
    funcs: &IrFuncs,
    from: u32,
) -> Result<(), AllocError>
    requires { AllShort (map ir_func_of funcs.now) }
    ensures { IfOk result (λ _. map function_of out.new ≡ map function_of out.old
        ++ map (function_for Two) (map (moved_function from) (map ir_func_of funcs.now))) }
{
    let list = funcs.as_slice();
    for func in list {
        out.push(function(alloc, func, from)?)?;
    }
    Ok(())
}

/// The function `init`, which runs the code outside all functions, whose numbers are from `from` on.
#[tactic(auto, using(crate::proofs::Moves::uses_moved))]
pub fn init_function(alloc: Global, outer: &IrFunc, from: u32) -> Result<Func, AllocError>
    requires short { IsShort (ir_of outer.now.body) }
    requires slots { outer.now.slots ≤ 400 }
    ensures { IfOk result (λ r. function_of r
        ≡ init_with outer.now.slots (moved from (ir_of outer.now.body))) }
{
    let locals = words(alloc, outer.slots + spare_locals(uses(&outer.body)))?;
    let body = code_alone(alloc, &outer.body, from, 0, outer.slots)?;
    Ok(Func {
        kind: 1,
        locals,
        body,
    })
}

/// The function `init` of a kernel among others, which first gives the heap back.
#[tactic(auto, using(crate::proofs::Moves::uses_moved))]
pub fn restarting_init(alloc: Global, outer: &IrFunc, from: u32) -> Result<Func, AllocError>
    requires short { IsShort (ir_of outer.now.body) }
    requires slots { outer.now.slots ≤ 400 }
    ensures { IfOk result (λ r. function_of r
        ≡ restarting (init_with outer.now.slots (moved from (ir_of outer.now.body)))) }
{
    let locals = words(alloc, outer.slots + spare_locals(uses(&outer.body)))?;
    let body = restarting_code(alloc, &outer.body, from, outer.slots)?;
    Ok(Func {
        kind: 1,
        locals,
        body,
    })
}

/// Appends the functions of code that stands alone in its module.
#[tactic(auto, using(crate::proofs::Moves::all_moved_nothing))]
pub fn put_all(alloc: Global, out: &mut Funcs, funcs: &IrFuncs) -> Result<(), AllocError>
    requires { AllShort (map ir_func_of funcs.now) }
    ensures { IfOk result (λ _. map function_of out.new
        ≡ map function_of out.old ++ map (function_for Two) (map ir_func_of funcs.now)) }
{
    put_functions(alloc, out, funcs, 0)
}

/// The function `init` of code that stands alone in its module.
#[tactic(auto, using(crate::proofs::Moves::moved_nothing))]
pub fn init_alone(alloc: Global, outer: &IrFunc) -> Result<Func, AllocError>
    requires short { IsShort (ir_of outer.now.body) }
    requires slots { outer.now.slots ≤ 400 }
    ensures { IfOk result (λ r. function_of r ≡ init_with outer.now.slots (ir_of outer.now.body)) }
{
    init_function(alloc, outer, 0)
}
