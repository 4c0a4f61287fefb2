// What came of bytes, as text.

ghost use Rattle.std.specs.Prelude.{◌^◌, ◌<◌, length};

use mw_decode::{BadModule, DecodeFault, decode};
use mw_encode::encode;
use mw_validate::{ValidFault, validate};
use mw_wasm::Module;
use std::alloc::{AllocError, Global};

/// `valid` or `invalid` where bytes are decoded, else their first fault and its place.
pub fn verdict(alloc: Global, bytes: &[u8]) -> Result<String, AllocError> {
    match decode(alloc, bytes) {
        Ok(module) => String::from_str(alloc, validity(alloc, module)?),
        Err(DecodeFault::Bad(fault)) => text_of(alloc, fault),
        Err(DecodeFault::Memory(error)) => Err(error),
    }
}

/// The same, and where the module's encoding is these very bytes, that they are its shortest spelling.
pub fn verdict_of_row(alloc: Global, bytes: &[u8]) -> Result<String, AllocError> {
    match decode(alloc, bytes) {
        Ok(module) => {
            let spelling = spelling(encode(alloc, &module)?.as_slice(), bytes);
            let validity = validity(alloc, module)?;
            format!(in alloc; "{validity}{spelling}")
        }
        Err(DecodeFault::Bad(fault)) => text_of(alloc, fault),
        Err(DecodeFault::Memory(error)) => Err(error),
    }
}

/// What bytes are to the encoding of their module.
fn spelling(encoding: &[u8], bytes: &[u8]) -> &'static str {
    if encoding == bytes { ", shortest" } else { "" }
}

/// Whether a module is valid.
fn validity(alloc: Global, module: Module) -> Result<&'static str, AllocError>
    requires elements { length module.elements < 2 ^ 32 }
    requires segments { length module.segments < 2 ^ 32 }
{
    match validate(alloc, module) {
        Ok(_) => Ok("valid"),
        Err(ValidFault::Bad(_)) => Ok("invalid"),
        Err(ValidFault::Memory(error)) => Err(error),
    }
}

/// A fault's name and its place.
fn text_of(alloc: Global, fault: BadModule) -> Result<String, AllocError> {
    match fault {
        BadModule::Magic => String::from_str(alloc, "Magic"),
        BadModule::Section(at) => format!(in alloc; "Section {at}"),
        BadModule::Size(at) => format!(in alloc; "Size {at}"),
        BadModule::Number(at) => format!(in alloc; "Number {at}"),
        BadModule::Opcode(at) => format!(in alloc; "Opcode {at}"),
        BadModule::OutsideProfile(at) => format!(in alloc; "OutsideProfile {at}"),
        BadModule::Short(at) => format!(in alloc; "Short {at}"),
    }
}
