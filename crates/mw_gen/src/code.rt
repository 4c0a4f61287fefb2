// Code of expressions.

#![tactic(auto, using(crate::proofs::InstructionLists::code_is))]

ghost use Rattle.std.specs.Prelude.{◌≡◌, ◌+◌, ◌<◌, ◌≤◌, IfOk};
ghost use Rattle.mw_wasm.specs.Syntax.{const_i32, end, global_set, next};
ghost use Rattle.mw_wasm.specs.Views.{code_of};
ghost use Rattle.mw_ir.specs.Views.{ir_of};
ghost use Rattle.mw_gen.specs.Generate.{expression_code, truth_code};
ghost use Rattle.mw_gen.specs.Listing.{Appends, choice_list, code_list, IsShort};
ghost use Rattle.mw_gen.specs.Parts.{moved};

use crate::parts::{put_application, put_closure, put_pair, put_place, put_primitive, put_word};
use mw_ir::Ir;
use mw_wasm::{Instr, Instrs, NumOp, ValType};
use std::alloc::{AllocError, Global};

/// A truth value as a word.
fn word_of_truth(truth: bool) -> u64
    ensures { result ≡ truth_code truth }
{
    if truth { 1 } else { 0 }
}

/// Appends the code of an expression, where the lets' slots begin at local `base`, and `spare` and the next are two
/// locals for operands. The code's functions have the numbers from `from` on.
pub fn put_code(
    alloc: Global,
    out: &mut Instrs,
    code: &Ir,
    from: u32,
    base: u32,
    spare: u32,
) -> Result<(), AllocError>
    requires short { IsShort (ir_of code.now) }
    requires base { base ≤ 2 }
    requires spare { spare < 1000000000 }
    ensures { IfOk result (λ _. Appends out.old out.new
        (code_list (moved from (ir_of code.now)) base spare)) }
{
    match code {
        Ir::Int(number) => out.push(Instr::ConstI64(number.cast_unsigned())),
        Ir::Bool(truth) => out.push(Instr::ConstI64(word_of_truth(*truth))),
        Ir::Get(place) => put_place(out, *place, base),
        Ir::Closure(number, places) => put_closure(
            out,
            u64::from(from) + u64::from(*number),
            places,
            base,
        ),
        Ir::App(function, argument) => {
            put_code(alloc, out, function, from, base, spare)?;
            put_code(alloc, out, argument, from, base, spare)?;
            put_application(out, spare)
        }
        Ir::Let(slot, definition, rest) => {
            put_code(alloc, out, definition, from, base, spare)?;
            out.push(Instr::LocalSet(base + *slot))?;
            put_code(alloc, out, rest, from, base, spare)
        }
        Ir::If(condition, then, otherwise) => {
            put_code(alloc, out, condition, from, base, spare)?;
            let mut first = Instrs::new(alloc);
            put_code(alloc, &mut first, then, from, base, spare)?;
            let mut second = Instrs::new(alloc);
            put_code(alloc, &mut second, otherwise, from, base, spare)?;
            put_choice(out, first, second)
        }
        Ir::Pair(first, second) => {
            put_code(alloc, out, first, from, base, spare)?;
            put_code(alloc, out, second, from, base, spare)?;
            put_pair(out, spare)
        }
        Ir::Fst(pair) => {
            put_code(alloc, out, pair, from, base, spare)?;
            put_word(out, 0)
        }
        Ir::Snd(pair) => {
            put_code(alloc, out, pair, from, base, spare)?;
            put_word(out, 8)
        }
        Ir::Prim(primitive, first, second) => {
            put_code(alloc, out, first, from, base, spare)?;
            put_code(alloc, out, second, from, base, spare)?;
            put_primitive(out, *primitive)
        }
    }
}

/// The code of an expression alone.
pub fn code_alone(
    alloc: Global,
    code: &Ir,
    from: u32,
    base: u32,
    spare: u32,
) -> Result<Instrs, AllocError>
    requires short { IsShort (ir_of code.now) }
    requires base { base ≤ 2 }
    requires spare { spare < 1000000000 }
    ensures { IfOk result (λ r. code_of r
        ≡ expression_code (moved from (ir_of code.now)) base spare end) }
{
    let mut out = Instrs::new(alloc);
    put_code(alloc, &mut out, code, from, base, spare)?;
    Ok(out)
}

/// The code outside all functions, after the heap was given back.
pub fn restarting_code(
    alloc: Global,
    code: &Ir,
    from: u32,
    spare: u32,
) -> Result<Instrs, AllocError>
    requires short { IsShort (ir_of code.now) }
    requires spare { spare < 1000000000 }
    ensures { IfOk result (λ r. code_of r ≡ next (const_i32 0) (next (global_set 0)
        (expression_code (moved from (ir_of code.now)) 0 spare end))) }
{
    let mut out = Instrs::new(alloc);
    out.push(Instr::ConstI32(0))?;
    out.push(Instr::GlobalSet(0))?;
    put_code(alloc, &mut out, code, from, 0, spare)?;
    Ok(out)
}

/// Appends the choice between two lists of instructions by the operand.
pub fn put_choice(out: &mut Instrs, then: Instrs, otherwise: Instrs) -> Result<(), AllocError>
    ensures { IfOk result
        (λ _. Appends out.old out.new (choice_list (code_of then) (code_of otherwise))) }
{
    out.push(Instr::Num(NumOp::Wrap))?;
    out.push(Instr::If(Some(ValType::I64), then, otherwise))
}
