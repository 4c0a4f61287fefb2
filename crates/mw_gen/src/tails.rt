// Code at tail places, where a self tail call is a branch to the loop that the function's body is.

ghost use Rattle.std.specs.Prelude.{◌≡◌, ◌+◌, ◌^◌, ◌<◌, [], ◌∷◌, IfOk};
ghost use Rattle.mw_wasm.specs.Syntax.{br, local_set};
ghost use Rattle.mw_ir.specs.Ranges.{ir_depth};
ghost use Rattle.mw_ir.specs.Views.{ir_of};
ghost use Rattle.mw_gen.specs.Generate.{
  is_own as is_own_name,
  has_self_tail_call,
  tail_wants_spare,
  wants_spare,
};
ghost use Rattle.mw_gen.specs.Listing.{Appends, IsShort, tail_list};
ghost use Rattle.mw_gen.specs.Parts.{moved};

use crate::code::{put_choice, put_code};
use crate::parts::put_application;
use mw_ir::{Ir, Place};
use mw_wasm::{Instr, Instrs};
use std::alloc::{AllocError, Global};

/// Whether code is the own name of the function round it.
fn is_own(code: &Ir) -> bool
    ensures { result ≡ is_own_name (ir_of code.now) }
{
    match code {
        Ir::Get(Place::Own) => true,
        Ir::Get(_) => false,
        Ir::Int(_) => false,
        Ir::Bool(_) => false,
        Ir::Closure(_, _) => false,
        Ir::App(_, _) => false,
        Ir::Let(_, _, _) => false,
        Ir::If(_, _, _) => false,
        Ir::Pair(_, _) => false,
        Ir::Fst(_) => false,
        Ir::Snd(_) => false,
        Ir::Prim(_, _, _) => false,
    }
}

/// Whether a self tail call stands in a function's body.
pub fn loops(code: &Ir) -> bool
    ensures { result ≡ has_self_tail_call (ir_of code.now) }
{
    match code {
        Ir::App(function, _) => is_own(function),
        Ir::Let(_, _, rest) => loops(rest),
        Ir::If(_, then, otherwise) => loops(then) || loops(otherwise),
        Ir::Int(_) => false,
        Ir::Bool(_) => false,
        Ir::Get(_) => false,
        Ir::Closure(_, _) => false,
        Ir::Pair(_, _) => false,
        Ir::Fst(_) => false,
        Ir::Snd(_) => false,
        Ir::Prim(_, _, _) => false,
    }
}

/// Whether code has an application or a pair, and so wants two spare locals.
pub fn uses(code: &Ir) -> bool
    ensures { result ≡ wants_spare (ir_of code.now) }
{
    match code {
        Ir::App(_, _) => true,
        Ir::Let(_, definition, rest) => uses(definition) || uses(rest),
        Ir::If(condition, then, otherwise) => uses(condition) || (uses(then) || uses(otherwise)),
        Ir::Pair(_, _) => true,
        Ir::Fst(pair) => uses(pair),
        Ir::Snd(pair) => uses(pair),
        Ir::Prim(_, first, second) => uses(first) || uses(second),
        Ir::Int(_) => false,
        Ir::Bool(_) => false,
        Ir::Get(_) => false,
        Ir::Closure(_, _) => false,
    }
}

/// The same of a loop's body, where a self tail call is no application.
pub fn tail_uses(code: &Ir) -> bool
    ensures { result ≡ tail_wants_spare (ir_of code.now) }
{
    match code {
        Ir::App(function, argument) => {
            if is_own(function) {
                uses(argument)
            } else {
                true
            }
        }
        Ir::Let(_, definition, rest) => uses(definition) || tail_uses(rest),
        Ir::If(condition, then, otherwise) => {
            uses(condition) || (tail_uses(then) || tail_uses(otherwise))
        }
        Ir::Pair(_, _) => true,
        Ir::Fst(pair) => uses(pair),
        Ir::Snd(pair) => uses(pair),
        Ir::Prim(_, first, second) => uses(first) || uses(second),
        Ir::Int(_) => false,
        Ir::Bool(_) => false,
        Ir::Get(_) => false,
        Ir::Closure(_, _) => false,
    }
}

/// Appends the code of a loop's body at a tail place, where the loop's label has number `label`.
#[tactic(auto, using(crate::proofs::Moves::own_moved))]
pub fn put_tail(
    alloc: Global,
    out: &mut Instrs,
    code: &Ir,
    from: u32,
    spare: u32,
    label: u32,
) -> Result<(), AllocError>
    requires short { IsShort (ir_of code.now) }
    requires spare { spare < 1000000000 }
    requires label { label + ir_depth (ir_of code.now) < 2 ^ 32 }
    ensures { IfOk result (λ _. Appends out.old out.new
        (tail_list (moved from (ir_of code.now)) 2 spare label)) }
{
    match code {
        Ir::App(function, argument) => {
            if is_own(function) {
                put_code(alloc, out, argument, from, 2, spare)?;
                put_branch(out, label)
            } else {
                put_code(alloc, out, function, from, 2, spare)?;
                put_code(alloc, out, argument, from, 2, spare)?;
                put_application(out, spare)
            }
        }
        Ir::Let(slot, definition, rest) => {
            put_code(alloc, out, definition, from, 2, spare)?;
            out.push(Instr::LocalSet(2 + *slot))?;
            put_tail(alloc, out, rest, from, spare, label)
        }
        Ir::If(condition, then, otherwise) => {
            put_code(alloc, out, condition, from, 2, spare)?;
            let mut first = Instrs::new(alloc);
            put_tail(alloc, &mut first, then, from, spare, label + 1)?;
            let mut second = Instrs::new(alloc);
            put_tail(alloc, &mut second, otherwise, from, spare, label + 1)?;
            put_choice(out, first, second)
        }
        Ir::Int(_) => put_code(alloc, out, code, from, 2, spare),
        Ir::Bool(_) => put_code(alloc, out, code, from, 2, spare),
        Ir::Get(_) => put_code(alloc, out, code, from, 2, spare),
        Ir::Closure(_, _) => put_code(alloc, out, code, from, 2, spare),
        Ir::Pair(_, _) => put_code(alloc, out, code, from, 2, spare),
        Ir::Fst(_) => put_code(alloc, out, code, from, 2, spare),
        Ir::Snd(_) => put_code(alloc, out, code, from, 2, spare),
        Ir::Prim(_, _, _) => put_code(alloc, out, code, from, 2, spare),
    }
}

/// Appends a self tail call: the operand becomes the function's argument, and the loop goes on.
fn put_branch(out: &mut Instrs, label: u32) -> Result<(), AllocError>
    ensures { IfOk result (λ _. Appends out.old out.new (local_set 1 ∷ br label ∷ [])) }
{
    out.push(Instr::LocalSet(1))?;
    out.push(Instr::Br(label))
}
