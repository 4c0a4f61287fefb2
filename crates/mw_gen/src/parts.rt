// Pieces of code.

ghost use Rattle.std.specs.Prelude.{◌≡◌, ◌+◌, ◌*◌, ◌<◌, ◌≤◌, length, IfOk};
ghost use Rattle.std.specs.Prelude.{[], ◌∷◌};
ghost use Rattle.mw_wasm.specs.declared.numbers.NumOp.TheVariants as number;
ghost use Rattle.mw_wasm.specs.Syntax.{numeric};
ghost use Rattle.std.specs.List.{AllByRecursion};
ghost use Rattle.mw_gen.specs.Listing.{
  Appends,
  address_list,
  apply_list,
  closure_list,
  IsShortPlace,
  pair_list,
  parts_list,
  place_list,
  prim_list,
  stored_list,
  stores_list,
  word_list,
};

use mw_ir::{Place, Places};
use mw_term::Prim;
use mw_wasm::{Instr, Instrs, IntOp, LoadOp, NumOp, StoreOp};
use std::alloc::AllocError;

/// Appends the reading of a place, where the lets' slots begin at local `base`.
pub fn put_place(out: &mut Instrs, place: Place, base: u32) -> Result<(), AllocError>
    requires short { IsShortPlace place }
    requires base { base ≤ 2 }
    ensures { IfOk result (λ _. Appends out.old out.new (place_list place base)) }
{
    match place {
        Place::Argument => out.push(Instr::LocalGet(1)),
        Place::Own => out.push(Instr::LocalGet(0)),
        Place::Slot(slot) => out.push(Instr::LocalGet(base + slot)),
        Place::Free(index) => {
            out.push(Instr::LocalGet(0))?;
            put_word(out, 8 * (index + 1))
        }
    }
}

/// Appends the reading of a word at an offset from the address that is the operand.
pub fn put_word(out: &mut Instrs, offset: u32) -> Result<(), AllocError>
    ensures { IfOk result (λ _. Appends out.old out.new (word_list offset)) }
{
    out.push(Instr::Num(NumOp::Wrap))?;
    out.push(Instr::Load(LoadOp::I64, 3, offset))
}

/// Appends the writing of places as a closure's words, from word 1 on.
fn put_stores(out: &mut Instrs, places: &Places, base: u32) -> Result<(), AllocError>
    requires few { length places.now < 1000000 }
    requires short { AllByRecursion IsShortPlace places.now }
    requires base { base ≤ 2 }
    ensures { IfOk result (λ _. Appends out.old out.new (stores_list places.now 1 base)) }
{
    let list = places.as_slice();
    let mut word = 1;
    for place in list {
        out.push(Instr::GlobalGet(0))?;
        put_place(out, *place, base)?;
        out.push(Instr::Store(StoreOp::I64, 3, 8 * word))?;
        word += 1;
    }
    Ok(())
}

/// Appends the address of words that were written at the heap's end, which moves by so many bytes.
pub fn put_address(out: &mut Instrs, bytes: u32) -> Result<(), AllocError>
    ensures { IfOk result (λ _. Appends out.old out.new (address_list bytes)) }
{
    out.push(Instr::GlobalGet(0))?;
    out.push(Instr::Num(NumOp::ExtendU))?;
    out.push(Instr::GlobalGet(0))?;
    out.push(Instr::ConstI32(bytes))?;
    out.push(Instr::Num(NumOp::I32(IntOp::Add)))?;
    out.push(Instr::GlobalSet(0))
}

/// Appends the making of a closure of function `number`.
pub fn put_closure(
    out: &mut Instrs,
    number: u64,
    places: &Places,
    base: u32,
) -> Result<(), AllocError>
    requires few { length places.now < 1000000 }
    requires short { AllByRecursion IsShortPlace places.now }
    requires base { base ≤ 2 }
    ensures { IfOk result (λ _. Appends out.old out.new (closure_list number places.now base)) }
{
    out.push(Instr::GlobalGet(0))?;
    out.push(Instr::ConstI64(number))?;
    out.push(Instr::Store(StoreOp::I64, 3, 0))?;
    put_stores(out, places, base)?;
    put_address(out, 8 * (places.len() as u32 + 1))
}

/// Appends the application of a closure to an argument, which are the operands, by way of the locals `first` and the
/// next.
pub fn put_application(out: &mut Instrs, first: u32) -> Result<(), AllocError>
    requires { first < 1000000000 }
    ensures { IfOk result (λ _. Appends out.old out.new (apply_list first)) }
{
    out.push(Instr::LocalSet(first + 1))?;
    out.push(Instr::LocalTee(first))?;
    out.push(Instr::LocalGet(first + 1))?;
    out.push(Instr::LocalGet(first))?;
    out.push(Instr::Num(NumOp::Wrap))?;
    out.push(Instr::Load(LoadOp::I32, 2, 0))?;
    out.push(Instr::CallIndirect(0))
}

/// Appends the making of a pair of the operands, by way of the locals `first` and the next.
pub fn put_pair(out: &mut Instrs, first: u32) -> Result<(), AllocError>
    requires { first < 1000000000 }
    ensures { IfOk result (λ _. Appends out.old out.new (pair_list first)) }
{
    out.push(Instr::LocalSet(first + 1))?;
    out.push(Instr::LocalSet(first))?;
    put_locals_stored(out, first)
}

/// Appends the writing of two locals as a pair, and the pair's address.
fn put_locals_stored(out: &mut Instrs, first: u32) -> Result<(), AllocError>
    requires { first < 1000000000 }
    ensures { IfOk result (λ _. Appends out.old out.new (parts_list first)) }
{
    put_local_stored(out, first, 0)?;
    put_local_stored(out, first + 1, 8)?;
    put_address(out, 16)
}

/// Appends the writing of a local at an offset from the heap's end.
fn put_local_stored(out: &mut Instrs, local: u32, offset: u32) -> Result<(), AllocError>
    ensures { IfOk result (λ _. Appends out.old out.new (stored_list local offset)) }
{
    out.push(Instr::GlobalGet(0))?;
    out.push(Instr::LocalGet(local))?;
    out.push(Instr::Store(StoreOp::I64, 3, offset))
}

/// Appends a comparison of the operands, whose answer becomes 64 bits wide.
fn put_comparison(out: &mut Instrs, op: IntOp) -> Result<(), AllocError>
    ensures { IfOk result
        (λ _. Appends out.old out.new (numeric (number.I64 op) ∷ numeric number.ExtendU ∷ [])) }
{
    out.push(Instr::Num(NumOp::I64(op)))?;
    out.push(Instr::Num(NumOp::ExtendU))
}

/// Appends a primitive on the operands.
pub fn put_primitive(out: &mut Instrs, primitive: Prim) -> Result<(), AllocError>
    ensures { IfOk result (λ _. Appends out.old out.new (prim_list primitive)) }
{
    match primitive {
        Prim::Add => out.push(Instr::Num(NumOp::I64(IntOp::Add))),
        Prim::Sub => out.push(Instr::Num(NumOp::I64(IntOp::Sub))),
        Prim::Mul => out.push(Instr::Num(NumOp::I64(IntOp::Mul))),
        Prim::Div => out.push(Instr::Num(NumOp::I64(IntOp::DivS))),
        Prim::Mod => out.push(Instr::Num(NumOp::I64(IntOp::RemS))),
        Prim::Eq => put_comparison(out, IntOp::Eq),
        Prim::Lt => put_comparison(out, IntOp::LtS),
        Prim::Le => put_comparison(out, IntOp::LeS),
    }
}
