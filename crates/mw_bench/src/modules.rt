// Three modules whose export `run` is timed, by hand.

ghost use Rattle.std.specs.Prelude.{◌≡◌, [], IfOk};

use mw_validate::{Valid, ValidFault, validate};
use mw_wasm::{
    Elements, Export, Exported, Exports, Func, FuncType, FuncTypes, Funcs, Globals, Instr, Instrs,
    IntOp, Limits, LoadOp, Module, NumOp, Octets, Segments, StoreOp, ValType, ValTypes,
};
use std::alloc::{AllocError, Global};

/// A module whose runs are timed.
#[derive(Clone, Copy, Drop)]
pub enum Timed {
    /// A loop of ten simple instructions.
    Loop,
    /// Fibonacci's numbers by calls.
    Calls,
    /// A loop that stores a word and loads it.
    Memory,
}

fn turn(alloc: Global) -> Result<Instrs, AllocError> {
    let mut code = Instrs::new(alloc);
    code.push(Instr::LocalGet(1))?;
    code.push(Instr::LocalGet(0))?;
    code.push(Instr::Num(NumOp::I64(IntOp::Add)))?;
    code.push(Instr::LocalSet(1))?;
    code.push(Instr::LocalGet(0))?;
    code.push(Instr::ConstI64(1))?;
    code.push(Instr::Num(NumOp::I64(IntOp::Sub)))?;
    code.push(Instr::LocalTee(0))?;
    code.push(Instr::Num(NumOp::I64(IntOp::Eqz)))?;
    code.push(Instr::Num(NumOp::I32(IntOp::Eqz)))?;
    code.push(Instr::BrIf(0))?;
    Ok(code)
}

fn loop_code(alloc: Global) -> Result<Instrs, AllocError> {
    let mut code = Instrs::new(alloc);
    code.push(Instr::Loop(None, turn(alloc)?))?;
    code.push(Instr::LocalGet(1))?;
    Ok(code)
}

fn again(alloc: Global) -> Result<Instrs, AllocError> {
    let mut code = Instrs::new(alloc);
    code.push(Instr::LocalGet(0))?;
    code.push(Instr::ConstI64(1))?;
    code.push(Instr::Num(NumOp::I64(IntOp::Sub)))?;
    code.push(Instr::Call(0))?;
    code.push(Instr::LocalGet(0))?;
    code.push(Instr::ConstI64(2))?;
    code.push(Instr::Num(NumOp::I64(IntOp::Sub)))?;
    code.push(Instr::Call(0))?;
    code.push(Instr::Num(NumOp::I64(IntOp::Add)))?;
    Ok(code)
}

fn calls_code(alloc: Global) -> Result<Instrs, AllocError> {
    let mut first = Instrs::new(alloc);
    first.push(Instr::LocalGet(0))?;
    let mut code = Instrs::new(alloc);
    code.push(Instr::LocalGet(0))?;
    code.push(Instr::ConstI64(2))?;
    code.push(Instr::Num(NumOp::I64(IntOp::LtU)))?;
    code.push(Instr::If(Some(ValType::I64), first, again(alloc)?))?;
    Ok(code)
}

fn access(alloc: Global) -> Result<Instrs, AllocError> {
    let mut code = Instrs::new(alloc);
    code.push(Instr::LocalGet(2))?;
    code.push(Instr::ConstI32(65_528))?;
    code.push(Instr::Num(NumOp::I32(IntOp::And)))?;
    code.push(Instr::LocalGet(0))?;
    code.push(Instr::Store(StoreOp::I64, 0, 0))?;
    code.push(Instr::LocalGet(1))?;
    code.push(Instr::LocalGet(2))?;
    code.push(Instr::ConstI32(65_528))?;
    code.push(Instr::Num(NumOp::I32(IntOp::And)))?;
    code.push(Instr::Load(LoadOp::I64, 0, 0))?;
    code.push(Instr::Num(NumOp::I64(IntOp::Add)))?;
    code.push(Instr::LocalSet(1))?;
    code.push(Instr::LocalGet(2))?;
    code.push(Instr::ConstI32(1))?;
    code.push(Instr::Num(NumOp::I32(IntOp::Sub)))?;
    code.push(Instr::LocalTee(2))?;
    code.push(Instr::BrIf(0))?;
    Ok(code)
}

fn memory_code(alloc: Global) -> Result<Instrs, AllocError> {
    let mut code = Instrs::new(alloc);
    code.push(Instr::LocalGet(0))?;
    code.push(Instr::Num(NumOp::Wrap))?;
    code.push(Instr::LocalSet(2))?;
    code.push(Instr::Loop(None, access(alloc)?))?;
    code.push(Instr::LocalGet(1))?;
    Ok(code)
}

/// The module with this body.
fn timed_module(alloc: Global, body: Instrs) -> Result<Module, AllocError>
    ensures elements { IfOk result (λ wasm. wasm.elements ≡ []) }
    ensures segments { IfOk result (λ wasm. wasm.segments ≡ []) }
{
    let mut params = ValTypes::new(alloc);
    params.push(ValType::I64)?;
    let mut results = ValTypes::new(alloc);
    results.push(ValType::I64)?;
    let mut types = FuncTypes::new(alloc);
    types.push(FuncType { params, results })?;
    let mut locals = ValTypes::new(alloc);
    locals.push(ValType::I64)?;
    locals.push(ValType::I32)?;
    let mut funcs = Funcs::new(alloc);
    funcs.push(Func {
        kind: 0,
        locals,
        body,
    })?;
    let mut name = Octets::new(alloc);
    name.push(b'r')?;
    name.push(b'u')?;
    name.push(b'n')?;
    let mut exports = Exports::new(alloc);
    exports.push(Export {
        name,
        what: Exported::Func(0),
    })?;
    Ok(Module {
        types,
        funcs,
        table: None,
        memory: Some(Limits { min: 1, max: None }),
        globals: Globals::new(alloc),
        exports,
        elements: Elements::new(alloc),
        segments: Segments::new(alloc),
    })
}

/// The module with this code.
pub fn module_with(alloc: Global, code: Timed) -> Result<Valid, ValidFault> {
    let body = match code {
        Timed::Loop => loop_code(alloc)?,
        Timed::Calls => calls_code(alloc)?,
        Timed::Memory => memory_code(alloc)?,
    };
    validate(alloc, timed_module(alloc, body)?)
}
