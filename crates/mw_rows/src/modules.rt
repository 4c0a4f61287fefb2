// The module of a `code` row.

use crate::code::code;
use crate::fields::{Fault, Row, number_in};
use mw_wasm::{
    Element, Elements, Export, Exported, Exports, Func, FuncType, FuncTypes, Funcs, GlobalVar,
    Globals, Indices, Instr, Instrs, Limits, Module, Octets, Segment, Segments, ValType, ValTypes,
};
use std::alloc::{AllocError, Global};
use std::str::SplitWhitespace;

/// The types 0 to 5: each from a parameter or none to a result or none.
const TYPES: &[(Option<ValType>, Option<ValType>)] = &[
    (None, None),
    (None, Some(ValType::I64)),
    (Some(ValType::I64), Some(ValType::I64)),
    (Some(ValType::I32), Some(ValType::I64)),
    (None, Some(ValType::I64)),
    (None, Some(ValType::I32)),
];

/// A function of a number that counts it down by calls of itself, and so gives it again.
const COUNT: &str = "get 0, eqz, if>, i64 0, else, get 0, i64 1, sub, call 1, i64 1, add, end";

/// A function that gives 7 more than a local that it writes after.
const SEVEN: &str = "get 0, i64 7, add, i64 9, set 0";

const EXPORTS: &[(&str, Exported)] = &[
    ("run", Exported::Func(0)),
    ("count", Exported::Func(1)),
    ("nothing", Exported::Func(2)),
    ("seven", Exported::Func(3)),
    ("m", Exported::Memory(0)),
];

/// The element segments of a row that has none: the table's places 0, 2 and 3 hold the functions 3, 2 and 1.
const ELEMENTS: &[&str] = &["0 3", "2 2 1"];

/// A value's type or none.
fn value_types(alloc: Global, t: Option<ValType>) -> Result<ValTypes, AllocError> {
    let mut types = ValTypes::new(alloc);
    if let Some(t) = t {
        types.push(t)?;
    }
    Ok(types)
}

fn add_types(alloc: Global, types: &mut FuncTypes) -> Result<(), AllocError> {
    for (param, gives) in TYPES {
        let params = value_types(alloc, *param)?;
        let results = value_types(alloc, *gives)?;
        types.push(FuncType { params, results })?;
    }
    Ok(())
}

/// One i64 and one i32.
fn locals(alloc: Global) -> Result<ValTypes, AllocError> {
    let mut locals = ValTypes::new(alloc);
    for t in [ValType::I64, ValType::I32] {
        locals.push(t)?;
    }
    Ok(locals)
}

fn add_function(
    alloc: Global,
    funcs: &mut Funcs,
    kind: u32,
    body: Instrs,
) -> Result<(), AllocError> {
    let locals = locals(alloc)?;
    funcs.push(Func { kind, locals, body })
}

/// The row's function, one that counts, one that does nothing, and one that gives 7.
fn add_functions(alloc: Global, funcs: &mut Funcs, kind: u32, text: &str) -> Result<(), Fault> {
    add_function(alloc, funcs, kind, code(alloc, text)?)?;
    add_function(alloc, funcs, 2, code(alloc, COUNT)?)?;
    add_function(alloc, funcs, 0, Instrs::new(alloc))?;
    add_function(alloc, funcs, 1, code(alloc, SEVEN)?)?;
    Ok(())
}

fn octets(alloc: Global, bytes: &[u8]) -> Result<Octets, AllocError> {
    let mut octets = Octets::new(alloc);
    for byte in bytes {
        octets.push(*byte)?;
    }
    Ok(octets)
}

fn add_exports(alloc: Global, exports: &mut Exports) -> Result<(), AllocError> {
    for (name, what) in EXPORTS {
        let name = octets(alloc, name.as_bytes())?;
        exports.push(Export { name, what: *what })?;
    }
    Ok(())
}

/// The code of one instruction.
fn alone(alloc: Global, instruction: Instr) -> Result<Instrs, AllocError> {
    let mut code = Instrs::new(alloc);
    code.push(instruction)?;
    Ok(code)
}

/// A global of 5 that can be written.
fn add_global(alloc: Global, globals: &mut Globals) -> Result<(), AllocError> {
    let init = alone(alloc, Instr::ConstI64(5))?;
    globals.push(GlobalVar {
        kind: ValType::I64,
        variable: true,
        init,
    })
}

/// The number of 32 bits.
fn small(number: u64) -> Result<u32, Fault> {
    match u32::try_from(number) {
        Ok(number) => Ok(number),
        Err(_) => Err(Fault::Malformed("a number of more than 32 bits")),
    }
}

/// The place of a segment, which its first word spells.
fn place(word: Option<&str>) -> Result<u32, Fault> {
    small(number_in(word.unwrap_or(""))?)
}

fn indices(alloc: Global, words: SplitWhitespace<'_>) -> Result<Indices, Fault> {
    let mut indices = Indices::new(alloc);
    for word in words {
        indices.push(small(number_in(word)?)?)?;
    }
    Ok(indices)
}

/// An element segment: its place, and then the functions.
fn element(alloc: Global, text: &str) -> Result<Element, Fault> {
    let mut words = text.split_whitespace();
    let place = place(words.next())?;
    let funcs = indices(alloc, words)?;
    let offset = alone(alloc, Instr::ConstI32(place))?;
    Ok(Element { offset, funcs })
}

/// The element segments of a row that names none.
fn add_usual_elements(alloc: Global, elements: &mut Elements) -> Result<(), Fault> {
    for text in ELEMENTS {
        elements.push(element(alloc, text)?)?;
    }
    Ok(())
}

/// The row's element segments.
fn add_elements(alloc: Global, elements: &mut Elements, row: &Row) -> Result<(), Fault> {
    for field in row.fields.as_slice() {
        if field.name.as_str() == "element" {
            elements.push(element(alloc, field.text()?)?)?;
        }
    }
    Ok(())
}

/// The bytes that are written in hexadecimal.
fn hexadecimal(alloc: Global, digits: &str) -> Result<Octets, Fault> {
    match hex::decode(alloc, digits) {
        Ok(bytes) => Ok(octets(alloc, bytes.as_slice())?),
        Err(_) => Err(Fault::Malformed("no bytes in hexadecimal")),
    }
}

/// A data segment: its place, and then the bytes in hexadecimal.
fn segment(alloc: Global, text: &str) -> Result<Segment, Fault> {
    let mut words = text.split_whitespace();
    let place = place(words.next())?;
    let bytes = hexadecimal(alloc, words.next().unwrap_or(""))?;
    let offset = alone(alloc, Instr::ConstI32(place))?;
    Ok(Segment { offset, bytes })
}

/// The row's data segments.
fn add_segments(alloc: Global, segments: &mut Segments, row: &Row) -> Result<(), Fault> {
    for field in row.fields.as_slice() {
        if field.name.as_str() == "data" {
            segments.push(segment(alloc, field.text()?)?)?;
        }
    }
    Ok(())
}

/// A module with a table of so many places, and a memory of one page that may have two.
fn bare(alloc: Global, places: u32) -> Module {
    Module {
        types: FuncTypes::new(alloc),
        funcs: Funcs::new(alloc),
        table: Some(Limits {
            min: places,
            max: None,
        }),
        memory: Some(Limits {
            min: 1,
            max: Some(2),
        }),
        globals: Globals::new(alloc),
        exports: Exports::new(alloc),
        elements: Elements::new(alloc),
        segments: Segments::new(alloc),
    }
}

/// Adds what the row says.
fn add_row(alloc: Global, module: &mut Module, row: &Row) -> Result<(), Fault> {
    let kind = small(row.number("type", 1)?)?;
    add_functions(alloc, &mut module.funcs, kind, row.text("code")?)?;
    if row.has("element") {
        add_elements(alloc, &mut module.elements, row)?;
    } else {
        add_usual_elements(alloc, &mut module.elements)?;
    }
    add_segments(alloc, &mut module.segments, row)
}

/// Adds what every row's module has.
fn add_rest(alloc: Global, module: &mut Module) -> Result<(), AllocError> {
    add_types(alloc, &mut module.types)?;
    add_global(alloc, &mut module.globals)?;
    add_exports(alloc, &mut module.exports)
}

/// Adds all but the table and the memory.
fn fill(alloc: Global, module: &mut Module, row: &Row) -> Result<(), Fault> {
    add_row(alloc, module, row)?;
    add_rest(alloc, module)?;
    Ok(())
}

/// The module of a row.
pub fn module_of(alloc: Global, row: &Row) -> Result<Module, Fault> {
    let places = small(row.number("table", 4)?)?;
    let mut module = bare(alloc, places);
    fill(alloc, &mut module, row)?;
    Ok(module)
}
