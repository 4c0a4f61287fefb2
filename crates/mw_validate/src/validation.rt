// Whole modules.

ghost use Rattle.std.specs.Prelude.{◌≡◌, ◌^◌, ◌<◌, length, IfOk, IfErr};
ghost use Rattle.mw_wasm.specs.Views.{module_of};
ghost use Rattle.mw_wasm.specs.Validity.{IsValid};
ghost use Rattle.mw_validate.specs.Checks.{PartsPass, Checks};
ghost use Rattle.mw_validate.specs.Deciding.{NoneWhere};
ghost use Rattle.mw_validate.specs.Judging.{IsRefusal};
ghost use Rattle.mw_validate.specs.declared.validation.ValidFault.TheVariants.{Memory};

use crate::functions::first_failing_function;
use crate::names::names_differ;
use crate::parts::{
    first_failing_element, first_failing_export, first_failing_global, first_failing_segment,
    first_failing_type, limits_hold,
};
use crate::valid_module::Valid;
use mw_wasm::Module;
use std::alloc::{AllocError, Global};

/// Where a module that isn't valid fails a test. A number above 2^32 - 1 is told as that.
#[derive(Clone, Copy, Debug, PartialEq, Eq)]
pub enum Invalid {
    /// In a function's body: the function's index among those of the module, and the index of the last instruction that
    /// was looked at, from 0, in the order of the bytes, those inside blocks counted too.
    Body { func: u32, instr: u32 },
    /// In a section of this id: the index of an item. Where two exports have one name, it is the number of exports.
    Part { section: u8, index: u32 },
}

/// Why there is no valid module.
#[derive(Debug, Drop)]
pub enum ValidFault {
    /// The module isn't valid.
    Bad(Invalid),
    /// There is no memory.
    Memory(AllocError),
}

impl From<AllocError> for ValidFault {
    ghost from_gives = { λ e f. f ≡ Memory e };

    fn from(e: AllocError) -> ValidFault {
        ValidFault::Memory(e)
    }
}

// The ids of sections.
const TYPES: u8 = 1;

const TABLE: u8 = 4;

const MEMORY: u8 = 5;

const GLOBALS: u8 = 6;

const EXPORTS: u8 = 7;

const ELEMENTS: u8 = 9;

const SEGMENTS: u8 = 11;

/// A number as a place tells it.
fn told(number: usize) -> u32
    ensures { number < 2 ^ 32 → result ≡ number }
{
    u32::try_from(number).unwrap_or(u32::MAX)
}

fn part(section: u8, index: usize) -> Invalid {
    Invalid::Part {
        section,
        index: told(index),
    }
}

/// The first test outside bodies that fails.
fn first_faulty_part(alloc: Global, wasm: &Module) -> Result<Option<Invalid>, AllocError>
    ensures { IfOk result (λ found. NoneWhere found (PartsPass (module_of wasm.now))) }
{
    if let Some(index) = first_failing_type(wasm.types.as_slice()) {
        return Ok(Some(part(TYPES, index)));
    }
    if !limits_hold(wasm.table, 4_294_967_296) {
        return Ok(Some(part(TABLE, 0)));
    }
    if !limits_hold(wasm.memory, 65_536) {
        return Ok(Some(part(MEMORY, 0)));
    }
    if let Some(index) = first_failing_global(wasm.globals.as_slice()) {
        return Ok(Some(part(GLOBALS, index)));
    }
    if let Some(index) = first_failing_export(wasm, wasm.exports.as_slice()) {
        return Ok(Some(part(EXPORTS, index)));
    }
    if !names_differ(alloc, wasm.exports.as_slice())? {
        return Ok(Some(part(EXPORTS, wasm.exports.len())));
    }
    if let Some(index) = first_failing_element(wasm, wasm.elements.as_slice()) {
        return Ok(Some(part(ELEMENTS, index)));
    }
    if let Some(index) = first_failing_segment(wasm, wasm.segments.as_slice()) {
        return Ok(Some(part(SEGMENTS, index)));
    }
    Ok(None)
}

/// The first test that fails. Types come first: bodies are then checked in linear time, since each has few results.
fn first_fault(alloc: Global, wasm: &Module) -> Result<Option<Invalid>, AllocError>
    ensures { IfOk result (λ found. NoneWhere found (Checks (module_of wasm.now))) }
{
    if let Some(found) = first_faulty_part(alloc, wasm)? {
        return Ok(Some(found));
    }
    match first_failing_function(alloc, wasm, wasm.funcs.as_slice())? {
        Some((func, instr)) => Ok(Some(Invalid::Body {
            func: told(func),
            instr,
        })),
        None => Ok(None),
    }
}

/// The module as a valid one, where it is valid; else where it isn't. A module that is refused is dropped.
///
/// Beside the time for the names of exports, which is n log n, the time is linear in the size of the module. It takes
/// memory for a list of names, and for each block that is open at once.
pub fn validate(alloc: Global, wasm: Module) -> Result<Valid, ValidFault>
    requires elements { length wasm.elements < 2 ^ 32 }
    requires segments { length wasm.segments < 2 ^ 32 }
    ensures same { IfOk result (λ valid. valid ≡ wasm) }
    ensures valid { IfOk result (λ _. IsValid (module_of wasm)) }
    ensures invalid { IfErr result (λ fault. IsRefusal fault (module_of wasm)) }
{
    match first_fault(alloc, &wasm)? {
        Some(found) => Err(ValidFault::Bad(found)),
        None => Ok(Valid::sure(wasm)),
    }
}
