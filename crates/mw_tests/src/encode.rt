// The two worked examples of the format, built and encoded: the expected bytes stand in its page.

ghost use Rattle.std.specs.Prelude.{◌≡◌, ◌∷◌, [], length, map, IfOk};
ghost use Rattle.mw_wasm.specs.declared.values.ValType.TheVariants.{I32, I64};
ghost use Rattle.mw_wasm.specs.declared.modules.Exported.TheVariants as exported;
ghost use Rattle.mw_wasm.specs.ExampleModules.{
  call_body,
  call_name,
  closure_body,
  closure_type,
  cube_body,
  example_a,
  example_b,
  heap_top,
  init_name,
  init_type,
  zero_code,
};
ghost use Rattle.mw_wasm.specs.Syntax.{const_i64, end, next};
ghost use Rattle.mw_wasm.specs.Views.{code_of, element_of, export_of, function_of, global_of, module_of};

use crate::parts::{func_type, octets, value_types};
use mw_encode::encode;
use mw_wasm::laws::format::{example_a_is_spelled, example_b_is_spelled};
use mw_wasm::{
    Element, Elements, Export, Exported, Exports, Func, FuncType, FuncTypes, Funcs, GlobalVar,
    Globals, Indices, Instr, Instrs, IntOp, Limits, LoadOp, Module, NumOp, Segments, StoreOp,
    ValType, ValTypes,
};
use std::alloc::{AllocError, Global};

/// (i64, i64) -> i64.
fn closure(alloc: Global) -> Result<FuncType, AllocError>
    ensures { IfOk result (λ t. t ≡ closure_type) }
{
    func_type(alloc, &[ValType::I64, ValType::I64], &[ValType::I64])
}

/// () -> i64.
fn init(alloc: Global) -> Result<FuncType, AllocError>
    ensures { IfOk result (λ t. t ≡ init_type) }
{
    func_type(alloc, &[], &[ValType::I64])
}

fn zero(alloc: Global) -> Result<Instrs, AllocError>
    ensures { IfOk result (λ c. code_of c ≡ zero_code) }
{
    let mut code = Instrs::new(alloc);
    code.push(Instr::ConstI32(0))?;
    Ok(code)
}

fn seven(alloc: Global) -> Result<Func, AllocError>
    ensures { IfOk result
        (λ f. function_of f ≡ record { kind = 1; locals = []; body = next (const_i64 7) end }) }
{
    let mut body = Instrs::new(alloc);
    body.push(Instr::ConstI64(7))?;
    Ok(Func {
        kind: 1,
        locals: ValTypes::new(alloc),
        body,
    })
}

fn heap(alloc: Global) -> Result<GlobalVar, AllocError>
    ensures { IfOk result (λ g. global_of g ≡ heap_top) }
{
    Ok(GlobalVar {
        kind: ValType::I32,
        variable: true,
        init: zero(alloc)?,
    })
}

fn init_export(alloc: Global, index: u32) -> Result<Export, AllocError>
    ensures { IfOk result
        (λ e. export_of e ≡ record { name = init_name; what = exported.Func index }) }
{
    Ok(Export {
        name: octets(alloc, b"init")?,
        what: Exported::Func(index),
    })
}

fn types_a(alloc: Global) -> Result<FuncTypes, AllocError>
    ensures { IfOk result (λ types. types ≡ example_a.types) }
{
    let mut types = FuncTypes::new(alloc);
    types.push(closure(alloc)?)?;
    types.push(init(alloc)?)?;
    Ok(types)
}

fn functions_a(alloc: Global) -> Result<Funcs, AllocError>
    ensures { IfOk result (λ list. map function_of list ≡ example_a.funcs) }
{
    let mut funcs = Funcs::new(alloc);
    funcs.push(seven(alloc)?)?;
    Ok(funcs)
}

/// The one global variable of both modules.
fn heap_global(alloc: Global) -> Result<Globals, AllocError>
    ensures { IfOk result (λ list. map global_of list ≡ heap_top ∷ []) }
{
    let mut globals = Globals::new(alloc);
    globals.push(heap(alloc)?)?;
    Ok(globals)
}

fn exports_a(alloc: Global) -> Result<Exports, AllocError>
    ensures { IfOk result (λ list. map export_of list ≡ example_a.exports) }
{
    let mut exports = Exports::new(alloc);
    exports.push(init_export(alloc, 0)?)?;
    Ok(exports)
}

/// The module whose `init` answers 7.
fn built_a(alloc: Global) -> Result<Module, AllocError>
    ensures same { IfOk result (λ m. module_of m ≡ example_a) }
    ensures elements { IfOk result (λ m. m.elements ≡ []) }
    ensures segments { IfOk result (λ m. m.segments ≡ []) }
{
    Ok(Module {
        types: types_a(alloc)?,
        funcs: functions_a(alloc)?,
        table: Some(Limits {
            min: 0,
            max: Some(0),
        }),
        memory: Some(Limits {
            min: 64,
            max: Some(64),
        }),
        globals: heap_global(alloc)?,
        exports: exports_a(alloc)?,
        elements: Elements::new(alloc),
        segments: Segments::new(alloc),
    })
}

fn cube(alloc: Global) -> Result<Instrs, AllocError>
    ensures { IfOk result (λ c. code_of c ≡ cube_body) }
{
    let mut code = Instrs::new(alloc);
    code.push(Instr::LocalGet(1))?;
    code.push(Instr::LocalGet(1))?;
    code.push(Instr::LocalGet(1))?;
    code.push(Instr::ConstI64(1))?;
    code.push(Instr::Num(NumOp::I64(IntOp::Mul)))?;
    code.push(Instr::Num(NumOp::I64(IntOp::Mul)))?;
    code.push(Instr::Num(NumOp::I64(IntOp::Mul)))?;
    Ok(code)
}

fn make_closure(alloc: Global) -> Result<Instrs, AllocError>
    ensures { IfOk result (λ c. code_of c ≡ closure_body) }
{
    let mut code = Instrs::new(alloc);
    code.push(Instr::GlobalGet(0))?;
    code.push(Instr::ConstI64(0))?;
    code.push(Instr::Store(StoreOp::I64, 3, 0))?;
    code.push(Instr::GlobalGet(0))?;
    code.push(Instr::Num(NumOp::ExtendU))?;
    code.push(Instr::GlobalGet(0))?;
    code.push(Instr::ConstI32(8))?;
    code.push(Instr::Num(NumOp::I32(IntOp::Add)))?;
    code.push(Instr::GlobalSet(0))?;
    Ok(code)
}

fn call_closure(alloc: Global) -> Result<Instrs, AllocError>
    ensures { IfOk result (λ c. code_of c ≡ call_body) }
{
    let mut code = Instrs::new(alloc);
    code.push(Instr::GlobalGet(0))?;
    code.push(Instr::LocalSet(4))?;
    code.push(Instr::LocalGet(0))?;
    code.push(Instr::LocalGet(1))?;
    code.push(Instr::LocalSet(3))?;
    code.push(Instr::LocalTee(2))?;
    code.push(Instr::LocalGet(3))?;
    code.push(Instr::LocalGet(2))?;
    code.push(Instr::Num(NumOp::Wrap))?;
    code.push(Instr::Load(LoadOp::I32, 2, 0))?;
    code.push(Instr::CallIndirect(0))?;
    code.push(Instr::LocalGet(4))?;
    code.push(Instr::GlobalSet(0))?;
    Ok(code)
}

fn call_locals(alloc: Global) -> Result<ValTypes, AllocError>
    ensures { IfOk result (λ types. types ≡ I64 ∷ I64 ∷ I32 ∷ []) }
{
    value_types(alloc, &[ValType::I64, ValType::I64, ValType::I32])
}

fn functions_b(alloc: Global) -> Result<Funcs, AllocError>
    ensures { IfOk result (λ list. map function_of list ≡ example_b.funcs) }
{
    let mut funcs = Funcs::new(alloc);
    funcs.push(Func {
        kind: 0,
        locals: ValTypes::new(alloc),
        body: cube(alloc)?,
    })?;
    funcs.push(Func {
        kind: 1,
        locals: ValTypes::new(alloc),
        body: make_closure(alloc)?,
    })?;
    funcs.push(Func {
        kind: 2,
        locals: call_locals(alloc)?,
        body: call_closure(alloc)?,
    })?;
    Ok(funcs)
}

fn exports_b(alloc: Global) -> Result<Exports, AllocError>
    ensures { IfOk result (λ list. map export_of list ≡ example_b.exports) }
{
    let mut exports = Exports::new(alloc);
    exports.push(init_export(alloc, 1)?)?;
    exports.push(Export {
        name: octets(alloc, b"call")?,
        what: Exported::Func(2),
    })?;
    Ok(exports)
}

fn elements_b(alloc: Global) -> Result<Elements, AllocError>
    ensures same { IfOk result (λ list. map element_of list ≡ example_b.elements) }
    ensures few { IfOk result (λ list. length list ≡ 1) }
{
    let mut funcs = Indices::new(alloc);
    funcs.push(0)?;
    let mut elements = Elements::new(alloc);
    elements.push(Element {
        offset: zero(alloc)?,
        funcs,
    })?;
    Ok(elements)
}

fn types_b(alloc: Global) -> Result<FuncTypes, AllocError>
    ensures { IfOk result (λ types. types ≡ example_b.types) }
{
    let mut types = types_a(alloc)?;
    types.push(closure(alloc)?)?;
    Ok(types)
}

/// The module whose `call` answers the cube of its argument.
fn built_b(alloc: Global) -> Result<Module, AllocError>
    ensures same { IfOk result (λ m. module_of m ≡ example_b) }
    ensures elements { IfOk result (λ m. length m.elements ≡ 1) }
    ensures segments { IfOk result (λ m. m.segments ≡ []) }
{
    Ok(Module {
        types: types_b(alloc)?,
        funcs: functions_b(alloc)?,
        table: Some(Limits {
            min: 1,
            max: Some(1),
        }),
        memory: Some(Limits {
            min: 64,
            max: Some(64),
        }),
        globals: heap_global(alloc)?,
        exports: exports_b(alloc)?,
        elements: elements_b(alloc)?,
        segments: Segments::new(alloc),
    })
}

const A: &[u8] = &[
    0x00, 0x61, 0x73, 0x6d, 0x01, 0x00, 0x00, 0x00, 0x01, 0x0b, 0x02, 0x60, 0x02, 0x7e, 0x7e, 0x01,
    0x7e, 0x60, 0x00, 0x01, 0x7e, 0x03, 0x02, 0x01, 0x01, 0x04, 0x05, 0x01, 0x70, 0x01, 0x00, 0x00,
    0x05, 0x04, 0x01, 0x01, 0x40, 0x40, 0x06, 0x06, 0x01, 0x7f, 0x01, 0x41, 0x00, 0x0b, 0x07, 0x08,
    0x01, 0x04, 0x69, 0x6e, 0x69, 0x74, 0x00, 0x00, 0x0a, 0x06, 0x01, 0x04, 0x00, 0x42, 0x07, 0x0b,
];

const B: &[u8] = &[
    0x00, 0x61, 0x73, 0x6d, 0x01, 0x00, 0x00, 0x00, 0x01, 0x11, 0x03, 0x60, 0x02, 0x7e, 0x7e, 0x01,
    0x7e, 0x60, 0x00, 0x01, 0x7e, 0x60, 0x02, 0x7e, 0x7e, 0x01, 0x7e, 0x03, 0x04, 0x03, 0x00, 0x01,
    0x02, 0x04, 0x05, 0x01, 0x70, 0x01, 0x01, 0x01, 0x05, 0x04, 0x01, 0x01, 0x40, 0x40, 0x06, 0x06,
    0x01, 0x7f, 0x01, 0x41, 0x00, 0x0b, 0x07, 0x0f, 0x02, 0x04, 0x69, 0x6e, 0x69, 0x74, 0x00, 0x01,
    0x04, 0x63, 0x61, 0x6c, 0x6c, 0x00, 0x02, 0x09, 0x07, 0x01, 0x00, 0x41, 0x00, 0x0b, 0x01, 0x00,
    0x0a, 0x45, 0x03, 0x0d, 0x00, 0x20, 0x01, 0x20, 0x01, 0x20, 0x01, 0x42, 0x01, 0x7e, 0x7e, 0x7e,
    0x0b, 0x13, 0x00, 0x23, 0x00, 0x42, 0x00, 0x37, 0x03, 0x00, 0x23, 0x00, 0xad, 0x23, 0x00, 0x41,
    0x08, 0x6a, 0x24, 0x00, 0x0b, 0x21, 0x02, 0x02, 0x7e, 0x01, 0x7f, 0x23, 0x00, 0x21, 0x04, 0x20,
    0x00, 0x20, 0x01, 0x21, 0x03, 0x22, 0x02, 0x20, 0x03, 0x20, 0x02, 0xa7, 0x28, 0x02, 0x00, 0x11,
    0x00, 0x00, 0x20, 0x04, 0x24, 0x00, 0x0b,
];

fn encoded_a(alloc: Global) -> Result<Vec<u8>, AllocError> {
    let built = built_a(alloc)?;
    example_a_is_spelled();
    encode(alloc, &built)
}

#[test]
fn constant_module_has_64_bytes(rt: HostRuntime) -> Result<(), AllocError> {
    let bytes = encoded_a(rt.alloc())?;
    assert_eq!(rt; bytes.as_slice(), A);
    Ok(())
}

fn encoded_b(alloc: Global) -> Result<Vec<u8>, AllocError> {
    let built = built_b(alloc)?;
    example_b_is_spelled();
    encode(alloc, &built)
}

#[test]
fn cube_module_has_151_bytes(rt: HostRuntime) -> Result<(), AllocError> {
    let bytes = encoded_b(rt.alloc())?;
    assert_eq!(rt; bytes.as_slice(), B);
    Ok(())
}
