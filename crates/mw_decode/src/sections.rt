// The sections, each behind custom sections: the content of each is read up to its stated end. A section that is
// missing has an empty vector, as far as a reader of the module can tell; that of bodies is told apart.

ghost use Rattle.std.specs.Prelude.{◌≡◌, ◌≤◌, length, map, IfOk, IfSome};
ghost use Rattle.mw_wasm.specs.Views.{global_of, export_of, element_of, segment_of};
ghost use Rattle.mw_decode.specs.Reading.{got};
ghost use Rattle.mw_decode.specs.Opcodes.{mapped};
ghost use Rattle.mw_decode.specs.Sections as reading;
ghost use Rattle.mw_decode.specs.Sections.{present as present_here, bodies as bodies_here};
ghost use Rattle.mw_decode.specs.Listing.{body_of, kind_of};
ghost use Rattle.mw_decode.specs.Gives.{Gives};

use crate::bodies::bodies;
use crate::exports::exports;
use crate::fault::{BadModule, Fault, Read};
use crate::pieces::{at_most, indices, next_byte, place_of};
use crate::regions::customs;
use crate::segments::{elements, segments};
use crate::storage::{globals, memory, table};
use crate::types::function_types;
use crate::whole::{section, whole};
use mw_wasm::{Elements, Exports, FuncTypes, Funcs, Globals, Indices, Limits, Segments};
use std::alloc::Global;

/// The content of the section of bodies: as many as functions are declared.
fn present<'a>(alloc: Global, kinds: &Indices, bytes: &'a [u8], end: u32) -> Read<'a, Option<Funcs>>
    requires { length bytes.now ≤ end }
    ensures gives { Gives (λ x. got (mapped (map body_of) x.0) x.1.now) result
        (present_here (bodies_here (length kinds.now)) end bytes.now) }
    ensures kinds { IfOk result (λ x. IfSome x.0 (λ list. map kind_of list ≡ kinds.now)) }
    ensures rest { IfOk result (λ x. length x.1.now ≤ length bytes.now) }
{
    let (list, rest) = bodies(alloc, kinds, bytes, end)?;
    Ok((Some(list), rest))
}

/// The section of function types.
#[tactic(auto, using(crate::proofs::UnreadLaws::section_laws))]
pub fn type_section(alloc: Global, bytes: &[u8], end: u32) -> Read<FuncTypes>
    requires { length bytes.now ≤ end }
    ensures gives { Gives (λ x. got x.0 x.1.now) result (reading.type_section end bytes.now) }
    ensures rest { IfOk result (λ x. length x.1.now ≤ length bytes.now) }
{
    let (found, rest) = section(1, bytes, end)?;
    match found {
        None => Ok((FuncTypes::new(alloc), rest)),
        Some(r) => whole(r.at, rest, function_types(alloc, r.content, r.end)),
    }
}

/// The section of imports, whose count is 0.
#[tactic(auto, using(crate::proofs::UnreadLaws::section_laws))]
pub fn import_section(bytes: &[u8], end: u32) -> Read<u32>
    requires { length bytes.now ≤ end }
    ensures gives { Gives (λ x. got x.0 x.1.now) result (reading.import_section end bytes.now) }
    ensures rest { IfOk result (λ x. length x.1.now ≤ length bytes.now) }
{
    let (found, rest) = section(2, bytes, end)?;
    match found {
        None => Ok((0, rest)),
        Some(r) => whole(r.at, rest, at_most(r.content, r.end, 0)),
    }
}

/// The section of the types of functions.
#[tactic(auto, using(crate::proofs::UnreadLaws::section_laws))]
pub fn function_section(alloc: Global, bytes: &[u8], end: u32) -> Read<Indices>
    requires { length bytes.now ≤ end }
    ensures gives { Gives (λ x. got x.0 x.1.now) result (reading.function_section end bytes.now) }
    ensures rest { IfOk result (λ x. length x.1.now ≤ length bytes.now) }
{
    let (found, rest) = section(3, bytes, end)?;
    match found {
        None => Ok((Indices::new(alloc), rest)),
        Some(r) => whole(r.at, rest, indices(alloc, r.content, r.end)),
    }
}

/// The section of tables: none or one.
#[tactic(auto, using(crate::proofs::UnreadLaws::section_laws))]
pub fn table_section(bytes: &[u8], end: u32) -> Read<Option<Limits>>
    requires { length bytes.now ≤ end }
    ensures gives { Gives (λ x. got x.0 x.1.now) result (reading.table_section end bytes.now) }
    ensures rest { IfOk result (λ x. length x.1.now ≤ length bytes.now) }
{
    let (found, rest) = section(4, bytes, end)?;
    match found {
        None => Ok((None, rest)),
        Some(r) => whole(r.at, rest, table(r.content, r.end)),
    }
}

/// The section of memories: none or one.
#[tactic(auto, using(crate::proofs::UnreadLaws::section_laws))]
pub fn memory_section(bytes: &[u8], end: u32) -> Read<Option<Limits>>
    requires { length bytes.now ≤ end }
    ensures gives { Gives (λ x. got x.0 x.1.now) result (reading.memory_section end bytes.now) }
    ensures rest { IfOk result (λ x. length x.1.now ≤ length bytes.now) }
{
    let (found, rest) = section(5, bytes, end)?;
    match found {
        None => Ok((None, rest)),
        Some(r) => whole(r.at, rest, memory(r.content, r.end)),
    }
}

/// The section of globals.
#[tactic(auto, using(crate::proofs::UnreadLaws::section_laws))]
pub fn global_section(alloc: Global, bytes: &[u8], end: u32) -> Read<Globals>
    requires { length bytes.now ≤ end }
    ensures gives { Gives (λ x. got (map global_of x.0) x.1.now) result
        (reading.global_section end bytes.now) }
    ensures rest { IfOk result (λ x. length x.1.now ≤ length bytes.now) }
{
    let (found, rest) = section(6, bytes, end)?;
    match found {
        None => Ok((Globals::new(alloc), rest)),
        Some(r) => whole(r.at, rest, globals(alloc, r.content, r.end)),
    }
}

/// The section of exports.
#[tactic(auto, using(crate::proofs::UnreadLaws::section_laws))]
pub fn export_section(alloc: Global, bytes: &[u8], end: u32) -> Read<Exports>
    requires { length bytes.now ≤ end }
    ensures gives { Gives (λ x. got (map export_of x.0) x.1.now) result
        (reading.export_section end bytes.now) }
    ensures rest { IfOk result (λ x. length x.1.now ≤ length bytes.now) }
{
    let (found, rest) = section(7, bytes, end)?;
    match found {
        None => Ok((Exports::new(alloc), rest)),
        Some(r) => whole(r.at, rest, exports(alloc, r.content, r.end)),
    }
}

/// The section of element segments.
#[tactic(auto, using(crate::proofs::UnreadLaws::section_laws))]
pub fn element_section(alloc: Global, bytes: &[u8], end: u32) -> Read<Elements>
    requires { length bytes.now ≤ end }
    ensures gives { Gives (λ x. got (map element_of x.0) x.1.now) result
        (reading.element_section end bytes.now) }
    ensures rest { IfOk result (λ x. length x.1.now ≤ length bytes.now) }
{
    let (found, rest) = section(9, bytes, end)?;
    match found {
        None => Ok((Elements::new(alloc), rest)),
        Some(r) => whole(r.at, rest, elements(alloc, r.content, r.end)),
    }
}

/// The section of bodies; none where it is missing.
#[tactic(auto, using(crate::proofs::UnreadLaws::section_laws))]
pub fn code_section<'a>(
    alloc: Global,
    kinds: &Indices,
    bytes: &'a [u8],
    end: u32,
) -> Read<'a, Option<Funcs>>
    requires { length bytes.now ≤ end }
    ensures gives { Gives (λ x. got (mapped (map body_of) x.0) x.1.now) result
        (reading.code_section (length kinds.now) end bytes.now) }
    ensures kinds { IfOk result (λ x. IfSome x.0 (λ list. map kind_of list ≡ kinds.now)) }
    ensures rest { IfOk result (λ x. length x.1.now ≤ length bytes.now) }
{
    let (found, rest) = section(10, bytes, end)?;
    match found {
        None => Ok((None, rest)),
        Some(r) => whole(r.at, rest, present(alloc, kinds, r.content, r.end)),
    }
}

/// The section of data segments.
#[tactic(auto, using(crate::proofs::UnreadLaws::section_laws))]
pub fn data_section(alloc: Global, bytes: &[u8], end: u32) -> Read<Segments>
    requires { length bytes.now ≤ end }
    ensures gives { Gives (λ x. got (map segment_of x.0) x.1.now) result
        (reading.data_section end bytes.now) }
    ensures rest { IfOk result (λ x. length x.1.now ≤ length bytes.now) }
{
    let (found, rest) = section(11, bytes, end)?;
    match found {
        None => Ok((Segments::new(alloc), rest)),
        Some(r) => whole(r.at, rest, segments(alloc, r.content, r.end)),
    }
}

/// No start section, which is outside the profile.
#[tactic(auto, using(crate::proofs::EndLaws::start_laws))]
pub fn no_start(bytes: &[u8], end: u32) -> Read<()>
    requires { length bytes.now ≤ end }
    ensures gives { Gives (λ x. got tt x.1.now) result (reading.start_section end bytes.now) }
    ensures rest { IfOk result (λ x. length x.1.now ≤ length bytes.now) }
{
    let left = customs(bytes, end)?;
    match next_byte(left) {
        None => Ok(((), left)),
        Some((b, _)) => {
            if b == 8 {
                Err(Fault::Bad(BadModule::OutsideProfile(place_of(left, end))))
            } else if b > 8 && b <= 11 {
                Ok(((), left))
            } else {
                Err(Fault::Bad(BadModule::Section(place_of(left, end))))
            }
        }
    }
}

/// Nothing more, and no bodies that are missing.
#[tactic(auto, using(crate::proofs::EndLaws::more_laws))]
pub fn no_more(missing: bool, bytes: &[u8], end: u32) -> Read<()>
    requires { length bytes.now ≤ end }
    ensures gives { Gives (λ x. got tt x.1.now) result (reading.end_of_file missing end bytes.now) }
    ensures rest { IfOk result (λ x. length x.1.now ≤ length bytes.now) }
{
    let left = customs(bytes, end)?;
    match next_byte(left) {
        None => {
            if missing {
                Err(Fault::Bad(BadModule::Section(end)))
            } else {
                Ok(((), left))
            }
        }
        Some(_) => Err(Fault::Bad(BadModule::Section(place_of(left, end)))),
    }
}
