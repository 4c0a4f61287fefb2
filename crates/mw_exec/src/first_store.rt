// What an instance begins with.

ghost use Rattle.std.specs.Prelude.{◌≡◌, ◌≤◌, ◌*◌, ◌+◌, [], ◌++◌, List, Some, None, length, map, take, drop, position};
ghost use Rattle.std.specs.Prelude.{IfOk, IfErr};
ghost use Rattle.std.specs.List.{AllByRecursion};
ghost use Rattle.mw_wasm.specs.Instances.{first_value, first_table as first_table_of, first_memory, with_elements};
ghost use Rattle.mw_wasm.specs.Views.{global_of, element_of, module_of};
ghost use Rattle.mw_wasm.specs.Validity.{IsValid};
ghost use Rattle.mw_validate.specs.Kept.{IsKept};
ghost use Rattle.mw_exec.specs.Fitting.{element_test, segment_test, HasElementOffset, HasSegmentOffset, AllFit};
ghost use Rattle.mw_exec.specs.FirstStores.{HasFirstValue, value_of_global, IsPlaced, ArePlaced};
ghost use Rattle.mw_exec.specs.Instancing.{first_store};
ghost use Rattle.mw_exec.specs.Views.{store_of, IsHeld};

use crate::held::Contents;
use crate::memory::reach;
use crate::segments::{memory_size, offset_of};
use mw_wasm::{Element, GlobalVar, Instr, Limits, Module, Segment, Value};
use std::alloc::{AllocError, Global};

/// What the instance of a valid module begins with, where all its segments fit.
#[tactic(auto, using(crate::proofs::Beginnings::elements_have_offsets, crate::proofs::Beginnings::segments_have_offsets, crate::proofs::FirstStores::globals_have_values))]
pub fn first_held(alloc: Global, wasm: &Module) -> Result<Contents, AllocError>
    requires kept { IsKept wasm.now }
    requires fit { AllFit wasm.now }
    ensures store { IfOk result (λ held. store_of held ≡ first_store (module_of wasm.now)) }
    ensures held { IfOk result (λ held. IsHeld held) }
{
    let globals = first_globals(alloc, wasm.globals.as_slice())?;
    let mut table = first_table(alloc, wasm.table)?;
    place_elements(&mut table, wasm.elements.as_slice());
    let mut bytes = Vec::new(alloc);
    place_segments(&mut bytes, wasm.segments.as_slice(), memory_size(wasm))?;
    Ok(Contents {
        globals,
        table,
        bytes,
        pages: first_pages(wasm),
    })
}

/// The value that a global begins with.
fn first_value_of(global: &GlobalVar) -> Value
    requires { HasFirstValue global.now }
    ensures { result ≡ value_of_global global.now }
{
    match global.init.get(0) {
        Instr::ConstI32(n) => Value::I32(*n),
        Instr::ConstI64(n) => Value::I64(*n),
        _ => unreachable!(),
    }
}

/// The values that globals begin with.
#[tactic(auto, using(crate::proofs::MappedSlices::mapped_more, crate::proofs::MappedSlices::mapped_all, crate::proofs::MappedSlices::all_item))]
fn first_globals(alloc: Global, globals: &[GlobalVar]) -> Result<Vec<Value>, AllocError>
    requires { AllByRecursion HasFirstValue globals.now }
    ensures { IfOk result (λ values. values.items ≡ map value_of_global globals.now) }
{
    let mut values = Vec::new(alloc);
    for global in globals {
        values.push(first_value_of(global))?;
    }
    Ok(values)
}

/// A table of its minimum size, with no function in it.
fn first_table(alloc: Global, limits: Option<Limits>) -> Result<Vec<Option<u32>>, AllocError>
    ensures { IfOk result (λ table. table.items ≡ first_table_of limits) }
{
    let mut table = Vec::new(alloc);
    match limits {
        None => Ok(table),
        Some(limits) => {
            table.resize(limits.min as usize, None)?;
            Ok(table)
        }
    }
}

/// The pages of a module's memory.
fn first_pages(wasm: &Module) -> u32
    ensures { result ≡ (first_memory wasm.now.memory).pages }
{
    match wasm.memory {
        None => 0,
        Some(limits) => limits.min,
    }
}

/// Functions are written into a table from a place on.
fn place_functions(table: &mut Vec<Option<u32>>, at: usize, funcs: &[u32])
    requires { at + length funcs.now ≤ length table.old.items }
    ensures { table.new.items ≡ take at table.old.items ++ map (λ f. Some f) funcs.now
        ++ drop (at + length funcs.now)
        table.old.items }
{
    for i in 0..funcs.len() {
        table[at + i] = Some(funcs[i]);
    }
}

/// Element segments are written into a table, one after another.
#[tactic(auto, using(crate::proofs::MappedSlices::all_item))]
fn place_elements(table: &mut Vec<Option<u32>>, elements: &[Element])
    requires offsets { AllByRecursion HasElementOffset elements.now }
    requires fit { position (element_test (length table.old.items)) elements.now ≡ None }
    ensures { table.new.items ≡ with_elements table.old.items (map element_of elements.now) }
{
    for element in elements {
        let at = offset_of(&element.offset) as usize;
        place_functions(table, at, element.funcs.as_slice());
    }
}

/// Bytes are written from a place on.
fn place_bytes(bytes: &mut Vec<u8>, at: usize, segment: &[u8])
    requires { at + length segment.now ≤ length bytes.old.items }
    ensures { bytes.new.items ≡ take at bytes.old.items ++ segment.now
        ++ drop (at + length segment.now)
        bytes.old.items }
{
    for i in 0..segment.len() {
        bytes[at + i] = segment[i];
    }
}

/// Bytes are written from a place on, after zeros up to it; where there are none, nothing is.
#[tactic(auto, using(crate::proofs::FirstStores::placed_nothing, crate::proofs::FirstStores::placed_bytes))]
fn place_segment(
    bytes: &mut Vec<u8>,
    at: usize,
    segment: &[u8],
    size: u64,
) -> Result<(), AllocError>
    requires fits { at + length segment.now ≤ size }
    requires short { length bytes.old.items ≤ size }
    ensures placed { IfOk result (λ _. IsPlaced at segment.now bytes.old.items bytes.new.items) }
    ensures short { IfOk result (λ _. length bytes.new.items ≤ size) }
{
    if segment.len() == 0 {
        return Ok(());
    }
    reach(bytes, at + segment.len())?;
    place_bytes(bytes, at, segment);
    Ok(())
}

/// Data segments are written into a memory of this size in bytes, one after another.
#[tactic(auto, using(crate::proofs::MappedSlices::all_item))]
fn place_segments(bytes: &mut Vec<u8>, segments: &[Segment], size: u64) -> Result<(), AllocError>
    requires offsets { AllByRecursion HasSegmentOffset segments.now }
    requires fit { position (segment_test size) segments.now ≡ None }
    requires short { length bytes.old.items ≤ size }
    ensures placed { IfOk result (λ _. ArePlaced segments.now bytes.old.items bytes.new.items) }
    ensures short { IfOk result (λ _. length bytes.new.items ≤ size) }
{
    for segment in segments {
        let at = offset_of(&segment.offset) as usize;
        place_segment(bytes, at, segment.bytes.as_slice(), size)?;
    }
    Ok(())
}
