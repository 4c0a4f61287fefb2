// The reader of texts: what stands there, from left to right, or the first place that can't.

ghost use Rattle.std.specs.Prelude.{◌≡◌};
ghost use Rattle.mw_wat.specs.Answers.{Answers, fault_at};
ghost use Rattle.mw_wat.specs.Modules.{module_read};

mod code;
pub mod cursor;
mod fields;
mod instructions;
mod lexer;
mod module;
mod numbers;
mod parts;
mod singles;
mod trees;
mod types;
mod words;

use crate::fault::WatFault;
use crate::reading::cursor::{Cursor, Fault};
use crate::reading::lexer::{is_at_end, place};
use crate::reading::module::whole;
use mw_wasm::Module;
use std::alloc::Global;

/// The greatest length of a text in bytes.
const LIMIT: usize = 67_108_864;

/// A bad place, or the limit where the place lies behind it.
fn bad_at(place: usize) -> WatFault
    ensures { result ≡ fault_at place }
{
    if place > LIMIT {
        WatFault::Bad(LIMIT as u32)
    } else {
        WatFault::Bad(place as u32)
    }
}

/// The module whose text the bytes are, or their first bad place.
#[tactic(auto, using(crate::proofs::TextAnswers::answer_laws))]
pub fn text_module(alloc: Global, bytes: &[u8]) -> Result<Module, WatFault>
    ensures { Answers result (module_read bytes.now) }
{
    let cursor = Cursor {
        left: bytes,
        end: bytes.len(),
    };
    match whole(alloc, cursor) {
        Err(Fault::Memory(e)) => Err(WatFault::Memory(e)),
        Err(Fault::Bad(left)) => Err(bad_at(place(left))),
        Ok((module, rest)) => {
            if !is_at_end(rest, bytes.len()) {
                return Err(bad_at(place(rest)));
            }
            if bytes.len() > LIMIT {
                return Err(WatFault::Bad(LIMIT as u32));
            }
            Ok(module)
        }
    }
}
