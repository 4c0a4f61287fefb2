// The fields of a module, each on a line of its own.

ghost use Rattle.std.specs.Prelude.{◌≡◌, [], ◌∷◌, ◌++◌, codes, List, map, OnOk};
ghost use Rattle.std.specs.List.{flat_map};
ghost use Rattle.mw_wasm.specs.declared.modules.FuncType.{FuncType as PureType};
ghost use Rattle.mw_wasm.specs.BinaryModules.{at_most_one};
ghost use Rattle.mw_wasm.specs.Syntax.{
  DataSegment,
  ElementSegment,
  Exporting,
  Function,
  Global as PureGlobal,
};
ghost use Rattle.mw_wasm.specs.Views.{code_of, element_of, export_of, function_of, global_of, segment_of};
ghost use Rattle.mw_wat.specs.CanonicalTexts.{line};
ghost use Rattle.mw_wat.specs.Lexemes.{
  data_segment,
  element,
  export,
  exported,
  function,
  function_type,
  global,
  global_type,
  Lexeme,
  limits,
  memory,
  offset,
  table,
  types_behind,
  within,
  word,
  number,
};
ghost use Rattle.mw_wat.specs.Names.{type_name};
ghost use Rattle.mw_wat.specs.Spacing.{spaced};

use crate::instructions::{put_code, put_type_index};
use crate::names::name_of_type;
use crate::pieces::{
    put, put_closing, put_name, put_number, put_numbers, put_octets, put_opening, put_word,
};
use mw_wasm::{
    Element, Export, Exported, Func, FuncType, GlobalVar, Instrs, Limits, Segment, ValType,
    ValTypes,
};
use std::alloc::AllocError;

/// A field of a module.
pub trait Field {
    /// What contracts see of it.
    ghost Seen: { Type 0 };

    ghost seen: { Self → Seen };

    /// What its text says.
    ghost lexemes: { Seen → List Lexeme };

    /// Appends its line.
    fn put(&self, out: &mut Vec<u8>) -> Result<(), AllocError>
        ensures { OnOk result (out.new.items ≡ out.old.items ++ line (lexemes (seen self.now))) };
}

/// Appends the beginning of a field's line: `(` and a word.
fn put_start(out: &mut Vec<u8>, text: &[u8]) -> Result<(), AllocError>
    ensures { OnOk result (out.new.items ≡ out.old.items ++ codes "(" ++ text.now) }
{
    put(out, b"(")?;
    put(out, text)
}

/// Appends the end of a field's line.
fn put_end(out: &mut Vec<u8>) -> Result<(), AllocError>
    ensures { OnOk result (out.new.items ≡ out.old.items ++ codes ")\n") }
{
    put(out, b")\n")
}

/// Appends types in order.
fn put_names_of_types(out: &mut Vec<u8>, types: &ValTypes) -> Result<(), AllocError>
    ensures { OnOk result (out.new.items ≡ out.old.items
        ++ spaced (map (λ kind. word (type_name kind)) types.now)) }
{
    let list = types.as_slice();
    for kind in list {
        put_word(out, name_of_type(*kind))?;
    }
    Ok(())
}

/// Appends types behind a word, in parentheses, where there are any.
fn put_types(out: &mut Vec<u8>, text: &[u8], types: &ValTypes) -> Result<(), AllocError>
    ensures { OnOk result (out.new.items ≡ out.old.items
        ++ spaced (types_behind text.now types.now)) }
{
    if types.len() == 0 {
        return Ok(());
    }
    put_opening(out, text)?;
    put_names_of_types(out, types)?;
    put_closing(out)
}

impl Field for FuncType {
    ghost Seen = { PureType };

    ghost seen = { λ kind. kind };

    ghost lexemes = { function_type };

    fn put(&self, out: &mut Vec<u8>) -> Result<(), AllocError> {
        put_start(out, b"type")?;
        put_opening(out, b"func")?;
        put_types(out, b"param", &self.params)?;
        put_types(out, b"result", &self.results)?;
        put_closing(out)?;
        put_end(out)
    }
}

impl Field for Func {
    ghost Seen = { Function };

    ghost seen = { function_of };

    ghost lexemes = { function };

    fn put(&self, out: &mut Vec<u8>) -> Result<(), AllocError> {
        put_start(out, b"func")?;
        put_type_index(out, self.kind)?;
        put_types(out, b"local", &self.locals)?;
        put_code(out, &self.body)?;
        put_end(out)
    }
}

/// Appends limits.
fn put_limits(out: &mut Vec<u8>, bounds: Limits) -> Result<(), AllocError>
    ensures { OnOk result (out.new.items ≡ out.old.items ++ spaced (limits bounds)) }
{
    put_number(out, bounds.min)?;
    match bounds.max {
        None => Ok(()),
        Some(max) => put_number(out, max),
    }
}

/// Appends the line of a table.
fn put_table(out: &mut Vec<u8>, bounds: Limits) -> Result<(), AllocError>
    ensures { OnOk result (out.new.items ≡ out.old.items ++ line (table bounds)) }
{
    put_start(out, b"table")?;
    put_limits(out, bounds)?;
    put_word(out, b"funcref")?;
    put_end(out)
}

/// Appends the line of a memory.
fn put_memory(out: &mut Vec<u8>, bounds: Limits) -> Result<(), AllocError>
    ensures { OnOk result (out.new.items ≡ out.old.items ++ line (memory bounds)) }
{
    put_start(out, b"memory")?;
    put_limits(out, bounds)?;
    put_end(out)
}

/// Appends the type of a global.
fn put_global_type(out: &mut Vec<u8>, variable: bool, kind: ValType) -> Result<(), AllocError>
    ensures { OnOk result (out.new.items ≡ out.old.items ++ spaced (global_type variable kind)) }
{
    if !variable {
        return put_word(out, name_of_type(kind));
    }
    put_opening(out, b"mut")?;
    put_word(out, name_of_type(kind))?;
    put_closing(out)
}

impl Field for GlobalVar {
    ghost Seen = { PureGlobal };

    ghost seen = { global_of };

    ghost lexemes = { global };

    fn put(&self, out: &mut Vec<u8>) -> Result<(), AllocError> {
        put_start(out, b"global")?;
        put_global_type(out, self.variable, self.kind)?;
        put_code(out, &self.init)?;
        put_end(out)
    }
}

/// Appends what an export gives.
fn put_exported(out: &mut Vec<u8>, what: Exported) -> Result<(), AllocError>
    ensures { OnOk result (out.new.items ≡ out.old.items ++ spaced (within (exported what))) }
{
    match what {
        Exported::Func(index) => put_given(out, b"func", index),
        Exported::Table(index) => put_given(out, b"table", index),
        Exported::Memory(index) => put_given(out, b"memory", index),
        Exported::Global(index) => put_given(out, b"global", index),
    }
}

/// Appends a word and an index, in parentheses.
fn put_given(out: &mut Vec<u8>, text: &[u8], index: u32) -> Result<(), AllocError>
    ensures { OnOk result (out.new.items ≡ out.old.items
        ++ spaced (within (word text.now ∷ number index ∷ []))) }
{
    put_opening(out, text)?;
    put_number(out, index)?;
    put_closing(out)
}

impl Field for Export {
    ghost Seen = { Exporting };

    ghost seen = { export_of };

    ghost lexemes = { export };

    fn put(&self, out: &mut Vec<u8>) -> Result<(), AllocError> {
        put_start(out, b"export")?;
        put_name(out, &self.name)?;
        put_exported(out, self.what)?;
        put_end(out)
    }
}

/// Appends where a segment begins.
fn put_offset(out: &mut Vec<u8>, instructions: &Instrs) -> Result<(), AllocError>
    ensures { OnOk result (out.new.items ≡ out.old.items
        ++ spaced (offset (code_of instructions.now))) }
{
    put_opening(out, b"offset")?;
    put_code(out, instructions)?;
    put_closing(out)
}

impl Field for Element {
    ghost Seen = { ElementSegment };

    ghost seen = { element_of };

    ghost lexemes = { element };

    fn put(&self, out: &mut Vec<u8>) -> Result<(), AllocError> {
        put_start(out, b"elem")?;
        put_offset(out, &self.offset)?;
        put_numbers(out, &self.funcs)?;
        put_end(out)
    }
}

impl Field for Segment {
    ghost Seen = { DataSegment };

    ghost seen = { segment_of };

    ghost lexemes = { data_segment };

    fn put(&self, out: &mut Vec<u8>) -> Result<(), AllocError> {
        put_start(out, b"data")?;
        put_offset(out, &self.offset)?;
        put_octets(out, &self.bytes)?;
        put_end(out)
    }
}

/// Appends the lines of fields in order.
pub fn put_all<T: Field>(out: &mut Vec<u8>, list: &[T]) -> Result<(), AllocError>
    ensures { OnOk result (out.new.items ≡ out.old.items
        ++ flat_map line (map T.lexemes (map T.seen list.now))) }
{
    for one in list {
        one.put(out)?;
    }
    Ok(())
}

/// Appends the line of the table, where there is one.
pub fn put_tables(out: &mut Vec<u8>, one: Option<Limits>) -> Result<(), AllocError>
    ensures { OnOk result (out.new.items ≡ out.old.items
        ++ flat_map line (map table (at_most_one one))) }
{
    match one {
        None => Ok(()),
        Some(bounds) => put_table(out, bounds),
    }
}

/// Appends the line of the memory, where there is one.
pub fn put_memories(out: &mut Vec<u8>, one: Option<Limits>) -> Result<(), AllocError>
    ensures { OnOk result (out.new.items ≡ out.old.items
        ++ flat_map line (map memory (at_most_one one))) }
{
    match one {
        None => Ok(()),
        Some(bounds) => put_memory(out, bounds),
    }
}
