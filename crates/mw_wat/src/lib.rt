//! The text form of modules: which bytes are a text of which module, and the canonical text.
#![tactic(auto)]

ghost use Rattle.std.specs.Prelude.{◌≡◌, ◌<◌, ◌^◌, ◌++◌, length, IfErr, IfOk, Ok, OnOk};
ghost use Rattle.std.specs.List.{flat_map};
ghost use Rattle.mw_wasm.specs.Profile.{IsWithinFileLimit, IsWithinProfile};
ghost use Rattle.mw_wasm.specs.Syntax.{PureModule};
ghost use Rattle.mw_wasm.specs.Views.{module_of};
ghost use Rattle.mw_wat.specs.CanonicalTexts.{canonical_text, line};
ghost use Rattle.mw_wat.specs.Lexemes.{fields};
ghost use Rattle.mw_wat.specs.Answers.{Answers, IsFaultOf};
ghost use Rattle.mw_wat.specs.ModuleTexts.{IsTextOf};

pub mod fault;
mod fields;
mod instructions;
pub mod laws;
mod names;
mod pieces;
mod reading;

pub use crate::fault::WatFault;
use crate::fields::{put_all, put_memories, put_tables};
use crate::reading::text_module;
use mw_wasm::Module;
use std::alloc::{AllocError, Global};

/// The canonical text of a module within the profile: a line for each field, one space between tokens and none behind
/// `(` or before `)`. Calls nest as deep as blocks do, which the profile bounds. The one error is want of memory.
pub fn write_wat(alloc: Global, wasm: &Module) -> Result<Vec<u8>, AllocError>
    requires { IsWithinProfile (module_of wasm.now) }
    ensures { IfOk result (λ text. text.items ≡ canonical_text (module_of wasm.now)) }
{
    let mut text = Vec::from_slice(alloc, b"(module\n")?;
    put_fields(&mut text, wasm)?;
    text.extend_from_slice(b")\n")?;
    Ok(text)
}

/// Appends the lines of a module's fields.
fn put_fields(out: &mut Vec<u8>, wasm: &Module) -> Result<(), AllocError>
    ensures { OnOk result (out.new.items ≡ out.old.items
        ++ flat_map line (fields (module_of wasm.now))) }
{
    put_all(out, wasm.types.as_slice())?;
    put_all(out, wasm.funcs.as_slice())?;
    put_tables(out, wasm.table)?;
    put_memories(out, wasm.memory)?;
    put_all(out, wasm.globals.as_slice())?;
    put_all(out, wasm.exports.as_slice())?;
    put_all(out, wasm.elements.as_slice())?;
    put_all(out, wasm.segments.as_slice())
}

/// The module whose text the bytes are: within the profile, and at most 67,108,864 bytes long. A fault is the first bad
/// place: a byte that begins no token, the first token with which no module's text begins, the end of an unfinished
/// text, or the limit. `Memory` comes where memory runs out. Calls nest as deep as blocks do, at most 501.
pub fn read_wat(alloc: Global, bytes: &[u8]) -> Result<Module, WatFault>
    ensures read { IfOk result
        (λ m. IsTextOf bytes.now (module_of m) × IsWithinFileLimit bytes.now) }
    ensures found { (m : PureModule) → IsTextOf bytes.now m → IsWithinFileLimit bytes.now
        → Answers result (Ok m) }
    ensures bad { IfErr result (λ e. IsFaultOf bytes.now e) }
    ensures few { IfOk result (λ m. (length m.elements < 2 ^ 32) × (length m.segments < 2 ^ 32)) }
{
    text_module(alloc, bytes)
}
