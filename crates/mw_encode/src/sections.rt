// The sections.

ghost use Rattle.std.specs.Prelude.{◌≡◌, ◌+◌, ◌^◌, ◌<◌, [], ◌∷◌, ◌++◌, length, map, OnOk};
ghost use Rattle.mw_wasm.specs.BinaryModules.{
  at_most_one,
  data_segment,
  element,
  export,
  function_code,
  function_kind,
  function_type,
  global,
  limits,
  section,
  table,
};
ghost use Rattle.mw_wasm.specs.Pieces.{vector};
ghost use Rattle.mw_wasm.specs.Views.{element_of, export_of, function_of, global_of, segment_of};
ghost use Rattle.mw_encode.specs.Encoding.{
  element_bytes,
  export_bytes,
  function_code_bytes,
  function_kind_bytes,
  function_type_bytes,
  global_bytes,
  limits_bytes,
  section_bytes,
  segment_bytes,
  sized_bytes,
  Spelled,
  table_bytes,
  vector_bytes,
};

use crate::parts::{Encoded, put_limits, put_table};
use crate::vectors::{put_byte, put_count, put_sized};
use mw_leb::put_u32;
use mw_wasm::{Elements, Exports, FuncTypes, Funcs, Globals, Limits, Segments};
use std::alloc::{AllocError, Global};

/// Appends a section of this content.
fn put_section(out: &mut Vec<u8>, id: u8, content: &[u8]) -> Result<(), AllocError>
    requires { length content.now < 2 ^ 32 }
    ensures { OnOk result (out.new.items ≡ out.old.items ++ id ∷ sized_bytes content.now) }
{
    put_byte(out, id)?;
    put_sized(out, content)
}

/// Appends a vector of items.
fn put_all<T: Encoded>(alloc: Global, out: &mut Vec<u8>, list: &[T]) -> Result<(), AllocError>
    requires { Spelled (vector T.spelled (map T.seen list.now)) }
    ensures { OnOk result
        (out.new.items ≡ out.old.items ++ vector_bytes T.bytes (map T.seen list.now)) }
{
    put_count(out, list.len())?;
    for one in list {
        one.put(alloc, out)?;
    }
    Ok(())
}

/// Appends the section of items, where there are any.
fn put_items<T: Encoded>(
    alloc: Global,
    out: &mut Vec<u8>,
    id: u8,
    list: &[T],
) -> Result<(), AllocError>
    requires spelled { Spelled (section id T.spelled (map T.seen list.now)) }
    requires small { 0 < length list.now → length (vector_bytes T.bytes (map T.seen list.now))
        < 2 ^ 32 }
    ensures { OnOk result
        (out.new.items ≡ out.old.items ++ section_bytes id T.bytes (map T.seen list.now)) }
{
    if list.len() == 0 {
        return Ok(());
    }
    let mut content = Vec::new(alloc);
    put_all(alloc, &mut content, list)?;
    put_section(out, id, content.as_slice())
}

/// Appends the section of the types.
pub fn put_types(alloc: Global, out: &mut Vec<u8>, list: &FuncTypes) -> Result<(), AllocError>
    requires { Spelled (section 1 function_type list.now) }
    ensures { OnOk result
        (out.new.items ≡ out.old.items ++ section_bytes 1 function_type_bytes list.now) }
{
    put_items(alloc, out, 1, list.as_slice())
}

fn put_all_kinds(out: &mut Vec<u8>, list: &Funcs) -> Result<(), AllocError>
    requires { Spelled (vector function_kind (map function_of list.now)) }
    ensures { OnOk result
        (out.new.items ≡ out.old.items ++ vector_bytes function_kind_bytes (map function_of list.now)) }
{
    put_count(out, list.len())?;
    let items = list.as_slice();
    for one in items {
        put_u32(out, one.kind)?;
    }
    Ok(())
}

/// Appends the section of the functions' types.
pub fn put_kinds(alloc: Global, out: &mut Vec<u8>, list: &Funcs) -> Result<(), AllocError>
    requires { Spelled (section 3 function_kind (map function_of list.now)) }
    ensures { OnOk result
        (out.new.items ≡ out.old.items ++ section_bytes 3 function_kind_bytes (map function_of list.now)) }
{
    if list.len() == 0 {
        return Ok(());
    }
    let mut content = Vec::new(alloc);
    put_all_kinds(&mut content, list)?;
    put_section(out, 3, content.as_slice())
}

/// Appends the section of the globals.
pub fn put_globals(alloc: Global, out: &mut Vec<u8>, list: &Globals) -> Result<(), AllocError>
    requires { Spelled (section 6 global (map global_of list.now)) }
    ensures { OnOk result
        (out.new.items ≡ out.old.items ++ section_bytes 6 global_bytes (map global_of list.now)) }
{
    put_items(alloc, out, 6, list.as_slice())
}

/// Appends the section of the exports.
pub fn put_exports(alloc: Global, out: &mut Vec<u8>, list: &Exports) -> Result<(), AllocError>
    requires { Spelled (section 7 export (map export_of list.now)) }
    ensures { OnOk result
        (out.new.items ≡ out.old.items ++ section_bytes 7 export_bytes (map export_of list.now)) }
{
    put_items(alloc, out, 7, list.as_slice())
}

/// Appends the section of the element segments.
pub fn put_elements(alloc: Global, out: &mut Vec<u8>, list: &Elements) -> Result<(), AllocError>
    requires { Spelled (section 9 element (map element_of list.now)) }
    ensures { OnOk result
        (out.new.items ≡ out.old.items ++ section_bytes 9 element_bytes (map element_of list.now)) }
{
    put_items(alloc, out, 9, list.as_slice())
}

/// Appends the section of the functions' locals and bodies.
pub fn put_bodies(alloc: Global, out: &mut Vec<u8>, list: &Funcs) -> Result<(), AllocError>
    requires { Spelled (section 10 function_code (map function_of list.now)) }
    ensures { OnOk result
        (out.new.items ≡ out.old.items ++ section_bytes 10 function_code_bytes (map function_of list.now)) }
{
    put_items(alloc, out, 10, list.as_slice())
}

/// Appends the section of the data segments.
pub fn put_segments(alloc: Global, out: &mut Vec<u8>, list: &Segments) -> Result<(), AllocError>
    requires { Spelled (section 11 data_segment (map segment_of list.now)) }
    ensures { OnOk result
        (out.new.items ≡ out.old.items ++ section_bytes 11 segment_bytes (map segment_of list.now)) }
{
    put_items(alloc, out, 11, list.as_slice())
}

/// Appends the section of the table.
pub fn put_table_section(
    alloc: Global,
    out: &mut Vec<u8>,
    one: Option<Limits>,
) -> Result<(), AllocError>
    requires { Spelled (section 4 table (at_most_one one)) }
    ensures { OnOk result
        (out.new.items ≡ out.old.items ++ section_bytes 4 table_bytes (at_most_one one)) }
{
    match one {
        None => Ok(()),
        Some(limits) => {
            let mut content = Vec::new(alloc);
            put_count(&mut content, 1)?;
            put_table(&mut content, limits)?;
            put_section(out, 4, content.as_slice())
        }
    }
}

/// Appends the section of the memory.
pub fn put_memory_section(
    alloc: Global,
    out: &mut Vec<u8>,
    one: Option<Limits>,
) -> Result<(), AllocError>
    requires { Spelled (section 5 limits (at_most_one one)) }
    ensures { OnOk result
        (out.new.items ≡ out.old.items ++ section_bytes 5 limits_bytes (at_most_one one)) }
{
    let Some(limits) = one else {
        return Ok(());
    };
    let mut content = Vec::new(alloc);
    put_count(&mut content, 1)?;
    put_limits(&mut content, limits)?;
    put_section(out, 5, content.as_slice())
}
