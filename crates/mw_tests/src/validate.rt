// Modules that no bytes within the decoder's profile spell, and the places of refusals, of which no clause speaks.

ghost use Rattle.std.specs.Prelude.{◌≡◌, [], IfOk};

use mw_validate::{Invalid, ValidFault, validate};
use mw_wasm::{
    Elements, Exports, Func, FuncType, FuncTypes, Funcs, Globals, Instr, Instrs, Limits, Module,
    Segments, ValType, ValTypes,
};
use std::alloc::{AllocError, Global};

/// One function of so many results, beside a memory of so many pages.
fn module(alloc: Global, results: u8, pages: u32, body: Instrs) -> Result<Module, AllocError>
    ensures elements { IfOk result (λ m. m.elements ≡ []) }
    ensures segments { IfOk result (λ m. m.segments ≡ []) }
{
    let mut kinds = ValTypes::new(alloc);
    for _ in 0..results {
        kinds.push(ValType::I32)?;
    }
    let mut types = FuncTypes::new(alloc);
    types.push(FuncType {
        params: ValTypes::new(alloc),
        results: kinds,
    })?;
    let mut funcs = Funcs::new(alloc);
    funcs.push(Func {
        kind: 0,
        locals: ValTypes::new(alloc),
        body,
    })?;
    Ok(Module {
        types,
        funcs,
        table: None,
        memory: Some(Limits {
            min: pages,
            max: None,
        }),
        globals: Globals::new(alloc),
        exports: Exports::new(alloc),
        elements: Elements::new(alloc),
        segments: Segments::new(alloc),
    })
}

/// The fault of a module of one function, if it isn't valid.
fn fault(
    alloc: Global,
    results: u8,
    pages: u32,
    body: Instrs,
) -> Result<Option<Invalid>, AllocError> {
    match validate(alloc, module(alloc, results, pages, body)?) {
        Ok(_) => Ok(None),
        Err(ValidFault::Bad(found)) => Ok(Some(found)),
        Err(ValidFault::Memory(e)) => Err(e),
    }
}

/// The fault of a function that begins with `unreachable`.
fn fault_of_limits(alloc: Global, results: u8, pages: u32) -> Result<Option<Invalid>, AllocError> {
    let mut body = Instrs::new(alloc);
    body.push(Instr::Unreachable)?;
    fault(alloc, results, pages, body)
}

/// How many results and pages there are, and the fault.
const LIMITS: &[(u8, u32, Option<Invalid>)] = &[
    (0, 65_536, None),
    (
        0,
        65_537,
        Some(Invalid::Part {
            section: 5,
            index: 0,
        }),
    ),
    (1, 0, None),
    (
        2,
        0,
        Some(Invalid::Part {
            section: 1,
            index: 0,
        }),
    ),
];

#[test]
fn limits_are_those_of_the_standard(rt: HostRuntime) -> Result<(), AllocError> {
    for &(results, pages, expected) in LIMITS {
        let found = fault_of_limits(rt.alloc(), results, pages)?;
        assert_eq!(rt; found, expected, "at {results} results, {pages} pages");
    }
    Ok(())
}

/// Instructions behind which nothing is reached.
fn put_dead(body: &mut Instrs) -> Result<(), AllocError> {
    body.push(Instr::Unreachable)?;
    body.push(Instr::Select)?;
    body.push(Instr::Drop)
}

#[test]
fn unreached_operands_are_any(rt: HostRuntime) -> Result<(), AllocError> {
    let mut body = Instrs::new(rt.alloc());
    put_dead(&mut body)?;
    let found = fault(rt.alloc(), 0, 0, body)?;
    assert_eq!(rt; found, None);
    Ok(())
}

/// A block in which an operand is missing.
fn faulty_block(alloc: Global) -> Result<Instr, AllocError> {
    let mut inner = Instrs::new(alloc);
    inner.push(Instr::Drop)?;
    Ok(Instr::Block(None, inner))
}

/// The fault of a function with an instruction before that block.
fn fault_of_block(alloc: Global) -> Result<Option<Invalid>, AllocError> {
    let mut outer = Instrs::new(alloc);
    outer.push(Instr::Nop)?;
    outer.push(faulty_block(alloc)?)?;
    fault(alloc, 0, 0, outer)
}

#[test]
fn instructions_are_counted_inside_blocks_too(rt: HostRuntime) -> Result<(), AllocError> {
    let found = fault_of_block(rt.alloc())?;
    assert_eq!(rt; found, Some(Invalid::Body { func: 0, instr: 2 }));
    Ok(())
}
