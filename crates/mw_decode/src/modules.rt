// Whole modules (standard: Binary Format, Modules).

ghost use Rattle.std.specs.Prelude.{◌≡◌, ◌≤◌, length, map, drop, true, false, IfOk, IfSome, IfNone};
ghost use Rattle.mw_wasm.specs.Views.{function_of, module_of};
ghost use Rattle.mw_wasm.specs.Profile.{IsWithinFileLimit};
ghost use Rattle.mw_decode.specs.Reading.{got};
ghost use Rattle.mw_decode.specs.Content.{module_behind_header};
ghost use Rattle.mw_decode.specs.Opcodes.{mapped};
ghost use Rattle.mw_decode.specs.Sections.{is_missing as is_missing_here, functions, given, starts};
ghost use Rattle.mw_decode.specs.Listing.{body_of, kind_of};
ghost use Rattle.mw_decode.specs.Gives.{Gives, IsFoundIn, IsSpelledWithin, HasFewSegments, IsModuleOrMemory};

use crate::fault::{BadModule, DecodeFault, Fault, Read};
use crate::sections::{
    code_section, data_section, element_section, export_section, function_section, global_section,
    import_section, memory_section, no_more, no_start, table_section, type_section,
};
use mw_wasm::{Funcs, Indices, Module};
use std::alloc::Global;

/// Whether functions are declared and there is no section of bodies.
fn is_missing(kinds: &Indices, code: &Option<Funcs>) -> bool
    ensures { result ≡ is_missing_here (length kinds.now) (mapped (map body_of) code.now) }
{
    match code {
        None => kinds.len() > 0,
        Some(_) => false,
    }
}

/// The functions: none where there is no section of bodies.
fn functions_of(alloc: Global, kinds: &Indices, code: Option<Funcs>) -> Funcs
    requires { IfSome code (λ list. map kind_of list ≡ kinds.now) }
    ensures { map function_of result ≡ functions kinds.now (given (mapped (map body_of) code)) }
{
    match code {
        None => Funcs::new(alloc),
        Some(list) => list,
    }
}

/// What stands behind the header.
fn sections(alloc: Global, bytes: &[u8], end: u32) -> Read<Module>
    requires { length bytes.now ≤ end }
    ensures { Gives (λ x. got (module_of x.0) x.1.now) result (module_behind_header end bytes.now) }
{
    let (types, rest) = type_section(alloc, bytes, end)?;
    let (_, rest) = import_section(rest, end)?;
    let (kinds, rest) = function_section(alloc, rest, end)?;
    let (table, rest) = table_section(rest, end)?;
    let (memory, rest) = memory_section(rest, end)?;
    let (globals, rest) = global_section(alloc, rest, end)?;
    let (exports, rest) = export_section(alloc, rest, end)?;
    let (_, rest) = no_start(rest, end)?;
    let (elements, rest) = element_section(alloc, rest, end)?;
    let (code, rest) = code_section(alloc, &kinds, rest, end)?;
    let (segments, rest) = data_section(alloc, rest, end)?;
    let missing = is_missing(&kinds, &code);
    let (_, rest) = no_more(missing, rest, end)?;
    let funcs = functions_of(alloc, &kinds, code);
    Ok((
        Module {
            types,
            funcs,
            table,
            memory,
            globals,
            exports,
            elements,
            segments,
        },
        rest,
    ))
}

/// The bytes behind the header, which is the first eight.
fn behind_header(bytes: &[u8]) -> Option<&[u8]>
    ensures some { IfSome result
        (λ rest. (starts bytes.now ≡ true) × (rest.now ≡ drop 8 bytes.now)) }
    ensures none { IfNone result (starts bytes.now ≡ false) }
{
    match bytes {
        [0x00, 0x61, 0x73, 0x6d, 0x01, 0x00, 0x00, 0x00, rest @ ..] => Some(rest),
        _ => None,
    }
}

/// The module that a file's bytes spell within the profile, or their first fault. A file of more than 67,108,864 bytes
/// is outside the profile at that length, before anything is read. `Memory` comes where memory runs out.
pub fn decode(alloc: Global, bytes: &[u8]) -> Result<Module, DecodeFault>
    ensures fault { IsFoundIn bytes.now result }
    ensures limit { IfOk result (λ m. IsWithinFileLimit bytes.now) }
    ensures spelled { IfOk result (λ m. IsSpelledWithin bytes.now m) }
    ensures few { IfOk result (λ m. HasFewSegments m) }
    ensures read { IsModuleOrMemory bytes.now result }
{
    if bytes.len() > 67_108_864 {
        return Err(DecodeFault::Bad(BadModule::OutsideProfile(67_108_864)));
    }
    let end = bytes.len() as u32;
    match behind_header(bytes) {
        None => Err(DecodeFault::Bad(BadModule::Magic)),
        Some(rest) => match sections(alloc, rest, end) {
            Ok((module, _)) => Ok(module),
            Err(Fault::Ended) => Err(DecodeFault::Bad(BadModule::Short(end))),
            Err(Fault::Bad(f)) => Err(DecodeFault::Bad(f)),
            Err(Fault::Memory(e)) => Err(DecodeFault::Memory(e)),
        },
    }
}
