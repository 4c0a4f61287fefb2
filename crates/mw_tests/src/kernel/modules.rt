// A valid module with the shape of a kernel's.

ghost use Rattle.std.specs.Prelude.{◌≡◌, [], ◌∷◌, map, IfOk, codes};
ghost use Rattle.std.specs.Arc.{arc_value};
ghost use Rattle.mw_wasm.specs.declared.numbers.IntOp.TheVariants.{DivS};
ghost use Rattle.mw_wasm.specs.declared.numbers.NumOp.TheVariants as number;
ghost use Rattle.mw_wasm.specs.declared.numbers.StoreOp.TheVariants as store_op;
ghost use Rattle.mw_wasm.specs.Syntax.{const_i32, const_i64, numeric, store, unreachable, end, next};
ghost use Rattle.mw_wasm.specs.Views.{code_of, export_of, function_of, module_of, segment_of};
ghost use Rattle.mw_tests.specs.KernelModules.{IsInitCode, call_body, test_types, test_functions, test_exports};
ghost use Rattle.mw_tests.specs.KernelModules.{test_segments, HasTestShapes};

use crate::parts::{func_type, octets};
use mw_validate::Valid;
use mw_wasm::{
    Elements, Export, Exported, Exports, Func, FuncTypes, Funcs, Globals, Instr, Instrs, IntOp,
    Limits, LoadOp, Module, NumOp, Segment, Segments, StoreOp, ValType, ValTypes,
};
use std::alloc::{AllocError, Global};
use std::sync::Arc;

/// What `init` gives: a word, or a trap.
#[derive(Clone, Copy, Debug)]
pub enum Init {
    Word(u64),
    Unreachable,
    Divide,
    Overflow,
    Store,
}

fn word(alloc: Global, n: u64) -> Result<Instrs, AllocError>
    ensures { IfOk result (λ c. code_of c ≡ next (const_i64 n) end) }
{
    let mut body = Instrs::new(alloc);
    body.push(Instr::ConstI64(n))?;
    Ok(body)
}

fn stop(alloc: Global) -> Result<Instrs, AllocError>
    ensures { IfOk result (λ c. code_of c ≡ next unreachable end) }
{
    let mut body = Instrs::new(alloc);
    body.push(Instr::Unreachable)?;
    Ok(body)
}

fn quotient(alloc: Global, x: u64, y: u64) -> Result<Instrs, AllocError>
    ensures { IfOk result
        (λ c. code_of c ≡ next (const_i64 x) (next (const_i64 y) (next (numeric (number.I64 DivS)) end))) }
{
    let mut body = Instrs::new(alloc);
    body.push(Instr::ConstI64(x))?;
    body.push(Instr::ConstI64(y))?;
    body.push(Instr::Num(NumOp::I64(IntOp::DivS)))?;
    Ok(body)
}

fn store_past_the_end(alloc: Global) -> Result<Instrs, AllocError>
    ensures { IfOk result
        (λ c. code_of c ≡ next (const_i32 65529)
        (next (const_i64 1) (next (store store_op.I64 3 0) (next (const_i64 0) end)))) }
{
    let mut body = Instrs::new(alloc);
    body.push(Instr::ConstI32(65_529))?;
    body.push(Instr::ConstI64(1))?;
    body.push(Instr::Store(StoreOp::I64, 3, 0))?;
    body.push(Instr::ConstI64(0))?;
    Ok(body)
}

fn init_code(alloc: Global, init: Init) -> Result<Instrs, AllocError>
    ensures { IfOk result (λ c. IsInitCode (code_of c)) }
{
    match init {
        Init::Word(n) => word(alloc, n),
        Init::Unreachable => stop(alloc),
        Init::Divide => quotient(alloc, 1, 0),
        Init::Overflow => quotient(alloc, 0x8000_0000_0000_0000, 0xffff_ffff_ffff_ffff),
        Init::Store => store_past_the_end(alloc),
    }
}

fn call_code(alloc: Global) -> Result<Instrs, AllocError>
    ensures { IfOk result (λ c. code_of c ≡ call_body) }
{
    let mut body = Instrs::new(alloc);
    body.push(Instr::Call(0))?;
    body.push(Instr::Drop)?;
    body.push(Instr::ConstI32(8))?;
    body.push(Instr::ConstI32(8))?;
    body.push(Instr::Load(LoadOp::I64, 3, 0))?;
    body.push(Instr::LocalGet(0))?;
    body.push(Instr::Num(NumOp::I64(IntOp::Add)))?;
    body.push(Instr::LocalGet(1))?;
    body.push(Instr::Num(NumOp::I64(IntOp::Add)))?;
    body.push(Instr::Store(StoreOp::I64, 3, 0))?;
    body.push(Instr::ConstI32(8))?;
    body.push(Instr::Load(LoadOp::I64, 3, 0))?;
    Ok(body)
}

fn types(alloc: Global) -> Result<FuncTypes, AllocError>
    ensures { IfOk result (λ types. types ≡ test_types) }
{
    let mut types = FuncTypes::new(alloc);
    types.push(func_type(alloc, &[], &[ValType::I64])?)?;
    types.push(func_type(alloc, &[ValType::I64, ValType::I64], &[ValType::I64])?)?;
    Ok(types)
}

fn funcs(alloc: Global, init: Instrs) -> Result<Funcs, AllocError>
    ensures { IfOk result (λ funcs. map function_of funcs ≡ test_functions (code_of init)) }
{
    let mut funcs = Funcs::new(alloc);
    funcs.push(Func {
        kind: 0,
        locals: ValTypes::new(alloc),
        body: init,
    })?;
    funcs.push(Func {
        kind: 1,
        locals: ValTypes::new(alloc),
        body: call_code(alloc)?,
    })?;
    Ok(funcs)
}

fn exports(alloc: Global) -> Result<Exports, AllocError>
    ensures { IfOk result (λ exports. map export_of exports ≡ test_exports) }
{
    let mut exports = Exports::new(alloc);
    exports.push(Export {
        name: octets(alloc, b"init")?,
        what: Exported::Func(0),
    })?;
    exports.push(Export {
        name: octets(alloc, b"call")?,
        what: Exported::Func(1),
    })?;
    Ok(exports)
}

fn segment(alloc: Global, at: u32, bytes: &[u8]) -> Result<Segment, AllocError>
    ensures { IfOk result
        (λ s. segment_of s ≡ record { offset = next (const_i32 at) end; bytes = bytes.now }) }
{
    let mut offset = Instrs::new(alloc);
    offset.push(Instr::ConstI32(at))?;
    Ok(Segment {
        offset,
        bytes: octets(alloc, bytes)?,
    })
}

/// The words 1, 2, 32 and 32.
const WORDS: &[u8] = &[
    1, 0, 0, 0, 0, 0, 0, 0, 2, 0, 0, 0, 0, 0, 0, 0, 32, 0, 0, 0, 0, 0, 0, 0, 32, 0, 0, 0, 0, 0, 0,
    0,
];

/// The words 3 and 0.
const LAST_WORDS: &[u8] = &[3, 0, 0, 0, 0, 0, 0, 0, 0, 0, 0, 0, 0, 0, 0, 0];

fn segments(alloc: Global) -> Result<Segments, AllocError>
    ensures { IfOk result (λ segments. map segment_of segments ≡ test_segments) }
{
    let mut segments = Segments::new(alloc);
    segments.push(segment(alloc, 16, WORDS)?)?;
    segments.push(segment(alloc, 65_520, LAST_WORDS)?)?;
    Ok(segments)
}

/// The module with this `init`.
pub fn built(alloc: Global, init: Init) -> Result<Arc<Valid>, AllocError>
    ensures { IfOk result (λ wasm. HasTestShapes (module_of (arc_value wasm))) }
{
    let wasm = Module {
        types: types(alloc)?,
        funcs: funcs(alloc, init_code(alloc, init)?)?,
        table: None,
        memory: Some(Limits { min: 1, max: None }),
        globals: Globals::new(alloc),
        exports: exports(alloc)?,
        elements: Elements::new(alloc),
        segments: segments(alloc)?,
    };
    Ok(Arc::new(alloc, Valid::sure(wasm))?)
}
