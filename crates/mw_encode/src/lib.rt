//! The bytes of a module: its shortest spelling in the binary format.
#![tactic(auto)]

ghost use Rattle.std.specs.Prelude.{◌≡◌, List, ℕ, IfOk, OnOk};
ghost use Rattle.mw_wasm.specs.BinaryModules.{Spells};
ghost use Rattle.mw_wasm.specs.Views.{module_of};
ghost use Rattle.mw_encode.specs.Encoding.{encoding, with_sections};

mod instructions;
pub mod laws;
mod opcodes;
mod parts;
mod sections;
mod vectors;

use crate::sections::{
    put_bodies, put_elements, put_exports, put_globals, put_kinds, put_memory_section,
    put_segments, put_table_section, put_types,
};
use mw_wasm::Module;
use std::alloc::{AllocError, Global};

/// The first eight bytes of each module: "\0asm" and version 1.
const HEADER: [u8; 8] = [0x00, 0x61, 0x73, 0x6d, 0x01, 0x00, 0x00, 0x00];

/// The bytes of a module that can be spelled: every number in its shortest spelling, equal neighbouring locals as one
/// run, 05 only before a second list that isn't empty, and a section only where its vector isn't empty.
pub fn encode(alloc: Global, module: &Module) -> Result<Vec<u8>, AllocError>
    requires spelled { (bytes : List ℕ) × Spells bytes (module_of «module».now) }
    ensures spelled { IfOk result (λ bytes. Spells bytes.items (module_of «module».now)) }
    ensures exact { IfOk result (λ bytes. bytes.items ≡ encoding (module_of «module».now)) }
{
    let mut out = Vec::from_slice(alloc, &HEADER)?;
    put_sections(alloc, &mut out, module)?;
    Ok(out)
}

/// Appends the sections of a module that can be spelled.
fn put_sections(alloc: Global, out: &mut Vec<u8>, module: &Module) -> Result<(), AllocError>
    requires { (bytes : List ℕ) × Spells bytes (module_of «module».now) }
    ensures { OnOk result (out.new.items ≡ with_sections out.old.items (module_of «module».now)) }
{
    put_types(alloc, out, &module.types)?;
    put_kinds(alloc, out, &module.funcs)?;
    put_table_section(alloc, out, module.table)?;
    put_memory_section(alloc, out, module.memory)?;
    put_globals(alloc, out, &module.globals)?;
    put_exports(alloc, out, &module.exports)?;
    put_elements(alloc, out, &module.elements)?;
    put_bodies(alloc, out, &module.funcs)?;
    put_segments(alloc, out, &module.segments)
}
