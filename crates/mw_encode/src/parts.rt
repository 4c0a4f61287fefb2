// The items of the sections.

ghost use Rattle.std.specs.Prelude.{◌≡◌, ◌+◌, ◌^◌, ◌<◌, [], ◌∷◌, ◌++◌, length, List, ℕ, OnOk, IfOk};
ghost use Rattle.std.specs.List.{flat_map};
ghost use Rattle.mw_wasm.specs.BinaryModules.{
  data_segment,
  element,
  export,
  function_code,
  function_type,
  global,
  locals,
};
ghost use Rattle.mw_wasm.specs.Syntax.{
  DataSegment,
  ElementSegment,
  Exporting,
  Function,
  Global as PureGlobal,
};
ghost use Rattle.mw_wasm.specs.declared.modules.FuncType.{FuncType as PureType};
ghost use Rattle.mw_wasm.specs.Views.{element_of, export_of, function_of, global_of, segment_of};
ghost use Rattle.mw_encode.specs.Encoding.{
  element_bytes,
  export_bytes,
  exported_bytes,
  function_code_bytes,
  function_type_bytes,
  global_bytes,
  limits_bytes,
  locals_bytes,
  mutability_byte,
  run_bytes,
  runs_from,
  runs_of,
  same_type,
  segment_bytes,
  Spelled,
  table_bytes,
  value_type_byte,
  value_type_bytes,
  vector_bytes,
};

use crate::instructions::{byte_of_type, put_expression};
use crate::vectors::{
    put_byte, put_count, put_indexed, put_indices, put_octets, put_pair, put_sized,
};
use mw_leb::put_u32;
use mw_wasm::{
    Element, Export, Exported, Func, FuncType, GlobalVar, Limits, Segment, ValType, ValTypes,
};
use std::alloc::{AllocError, Global};

/// An item of a section.
pub trait Encoded {
    /// What contracts see of it.
    ghost Seen: { Type 0 };

    ghost seen: { Self → Seen };

    /// Which bytes spell it.
    ghost spelled: { Seen → List ℕ → Type 0 };

    /// The bytes that are appended.
    ghost bytes: { Seen → List ℕ };

    /// Appends its bytes.
    fn put(&self, alloc: Global, out: &mut Vec<u8>) -> Result<(), AllocError>
        requires { Spelled (spelled (seen self.now)) }
        ensures { OnOk result (out.new.items ≡ out.old.items ++ bytes (seen self.now)) };
}

/// Appends a vector of value types.
pub fn put_value_types(out: &mut Vec<u8>, types: &ValTypes) -> Result<(), AllocError>
    requires { length types.now < 2 ^ 32 }
    ensures { OnOk result
        (out.new.items ≡ out.old.items ++ vector_bytes value_type_bytes types.now) }
{
    put_count(out, types.len())?;
    let list = types.as_slice();
    for kind in list {
        put_byte(out, byte_of_type(*kind))?;
    }
    Ok(())
}

impl Encoded for FuncType {
    ghost Seen = { PureType };

    ghost seen = { λ kind. kind };

    ghost spelled = { function_type };

    ghost bytes = { function_type_bytes };

    fn put(&self, _alloc: Global, out: &mut Vec<u8>) -> Result<(), AllocError> {
        put_byte(out, 0x60)?;
        put_value_types(out, &self.params)?;
        put_value_types(out, &self.results)
    }
}

/// Appends limits.
pub fn put_limits(out: &mut Vec<u8>, limits: Limits) -> Result<(), AllocError>
    ensures { OnOk result (out.new.items ≡ out.old.items ++ limits_bytes limits) }
{
    match limits.max {
        None => put_indexed(out, 0x00, limits.min),
        Some(max) => put_pair(out, 0x01, limits.min, max),
    }
}

/// Appends a table's type.
pub fn put_table(out: &mut Vec<u8>, limits: Limits) -> Result<(), AllocError>
    ensures { OnOk result (out.new.items ≡ out.old.items ++ table_bytes limits) }
{
    put_byte(out, 0x70)?;
    put_limits(out, limits)
}

fn byte_of_mutability(variable: bool) -> u8
    ensures { result ≡ mutability_byte variable }
{
    if variable { 0x01 } else { 0x00 }
}

impl Encoded for GlobalVar {
    ghost Seen = { PureGlobal };

    ghost seen = { global_of };

    ghost spelled = { global };

    ghost bytes = { global_bytes };

    fn put(&self, _alloc: Global, out: &mut Vec<u8>) -> Result<(), AllocError> {
        put_byte(out, byte_of_type(self.kind))?;
        put_byte(out, byte_of_mutability(self.variable))?;
        put_expression(out, &self.init)
    }
}

fn put_exported(out: &mut Vec<u8>, what: Exported) -> Result<(), AllocError>
    ensures { OnOk result (out.new.items ≡ out.old.items ++ exported_bytes what) }
{
    match what {
        Exported::Func(index) => put_indexed(out, 0x00, index),
        Exported::Table(index) => put_indexed(out, 0x01, index),
        Exported::Memory(index) => put_indexed(out, 0x02, index),
        Exported::Global(index) => put_indexed(out, 0x03, index),
    }
}

impl Encoded for Export {
    ghost Seen = { Exporting };

    ghost seen = { export_of };

    ghost spelled = { export };

    ghost bytes = { export_bytes };

    fn put(&self, _alloc: Global, out: &mut Vec<u8>) -> Result<(), AllocError> {
        put_octets(out, &self.name)?;
        put_exported(out, self.what)
    }
}

impl Encoded for Element {
    ghost Seen = { ElementSegment };

    ghost seen = { element_of };

    ghost spelled = { element };

    ghost bytes = { element_bytes };

    fn put(&self, _alloc: Global, out: &mut Vec<u8>) -> Result<(), AllocError> {
        put_u32(out, 0)?;
        put_expression(out, &self.offset)?;
        put_indices(out, &self.funcs)
    }
}

impl Encoded for Segment {
    ghost Seen = { DataSegment };

    ghost seen = { segment_of };

    ghost spelled = { data_segment };

    ghost bytes = { segment_bytes };

    fn put(&self, _alloc: Global, out: &mut Vec<u8>) -> Result<(), AllocError> {
        put_u32(out, 0)?;
        put_expression(out, &self.offset)?;
        put_octets(out, &self.bytes)
    }
}

fn is_same(a: ValType, b: ValType) -> bool
    ensures { result ≡ same_type a b }
{
    match (a, b) {
        (ValType::I32, ValType::I32) => true,
        (ValType::I32, ValType::I64) => false,
        (ValType::I64, ValType::I32) => false,
        (ValType::I64, ValType::I64) => true,
    }
}

fn put_run(out: &mut Vec<u8>, count: u32, kind: ValType) -> Result<(), AllocError>
    ensures { OnOk result
        (out.new.items ≡ out.old.items ++ run_bytes (record { count = count; kind = kind })) }
{
    put_u32(out, count)?;
    put_byte(out, byte_of_type(kind))
}

/// Appends the runs of locals, and answers their number.
fn put_runs(out: &mut Vec<u8>, list: &[ValType]) -> Result<usize, AllocError>
    requires { length list.now < 2 ^ 32 }
    ensures number { IfOk result (λ n. n ≡ length (runs_of list.now)) }
    ensures bytes { OnOk result
        (out.new.items ≡ out.old.items ++ flat_map run_bytes (runs_of list.now)) }
{
    if list.len() == 0 {
        return Ok(0);
    }
    let mut kind = list[0];
    let mut count = 1u32;
    let mut before = 0usize;
    for at in 1..list.len() {
        let next = list[at];
        if is_same(kind, next) {
            count += 1;
        } else {
            put_run(out, count, kind)?;
            before += 1;
            kind = next;
            count = 1;
        }
    }
    put_run(out, count, kind)?;
    Ok(before + 1)
}

/// Appends the further locals of a function, equal neighbours as one run.
pub fn put_locals(alloc: Global, out: &mut Vec<u8>, types: &ValTypes) -> Result<(), AllocError>
    requires { Spelled (locals types.now) }
    ensures { OnOk result (out.new.items ≡ out.old.items ++ locals_bytes types.now) }
{
    let mut runs = Vec::new(alloc);
    let count = put_runs(&mut runs, types.as_slice())?;
    put_count(out, count)?;
    out.extend_from_slice(runs.as_slice())
}

impl Encoded for Func {
    ghost Seen = { Function };

    ghost seen = { function_of };

    ghost spelled = { function_code };

    ghost bytes = { function_code_bytes };

    fn put(&self, alloc: Global, out: &mut Vec<u8>) -> Result<(), AllocError> {
        let mut content = Vec::new(alloc);
        put_locals(alloc, &mut content, &self.locals)?;
        put_expression(&mut content, &self.body)?;
        put_sized(out, content.as_slice())
    }
}
