// Texts, read for their type alone.

ghost use Rattle.std.specs.Prelude.{◌≡◌, ◌+◌, ◌*◌, ◌≤◌, IfOk};
ghost use Rattle.mw_term.specs.Terms.{Expression, KernelType, kernel_type_of};
ghost use Rattle.mw_key.specs.CanonicalText.{IsTextOf};
ghost use Rattle.mw_key.specs.Reading.{words_left, find_code, code_parts, text_of_words, Passes, AnswersType};
ghost use Rattle.mw_key.specs.declared.version.Version.{Version as PureVersion};

use crate::fault::TextFault;
use crate::form::Form;
use crate::read::kernel_type;
use crate::reader::Reader;
use mw_term::{KType, MOST_CODE_DEPTH, MOST_CODE_NODES, MOST_TYPE_NODES};
use std::alloc::Global;

/// The type of the code whose canonical text the bytes are. The code is passed over, so that it takes no memory.
/// `BadText` comes where the bytes are no text, and `Memory` where memory for the type runs out.
pub fn read_type(alloc: Global, bytes: &[u8]) -> Result<KType, TextFault>
    ensures read { IfOk result (λ kind. (v : PureVersion) × (c : Expression)
        × IsTextOf bytes.now v c (kernel_type_of kind)) }
    ensures refused { result ≡ Err TextFault.BadText
        → (v : PureVersion) (c : Expression) (k : KernelType)
        → IsTextOf bytes.now v c k → ⊥ }
{
    whole_type(alloc, &mut Reader::new(bytes))
}

/// The type that all words that are left spell with a version and code.
#[tactic(auto, unfolding(crate::specs::Reading::text_of_words))]
fn whole_type(alloc: Global, reader: &mut Reader) -> Result<KType, TextFault>
    ensures { AnswersType result (text_of_words (words_left reader.old.rest)) }
{
    reader.allow(MOST_TYPE_NODES);
    let _version = reader.version()?;
    let kind = kernel_type(alloc, reader)?;
    reader.allow(MOST_CODE_NODES);
    match pass(reader, MOST_CODE_DEPTH, 0) {
        Ok(()) if reader.is_at_end() => Ok(kind),
        Ok(()) => {
            drop(kind);
            Err(TextFault::BadText)
        }
        Err(fault) => {
            drop(kind);
            Err(fault)
        }
    }
}

/// Passes over code of at most this depth, under this many binders.
#[cycle(pass)]
#[tactic(auto, using(crate::proofs::Steps::code_step, crate::proofs::Steps::code_none))]
fn pass(reader: &mut Reader, depth: u32, binders: u32) -> Result<(), TextFault>
    requires room { binders + 2 * depth ≤ 1000 }
    ensures { Passes result (find_code depth binders) reader.old reader.new }
{
    if depth == 0 {
        return Err(TextFault::BadText);
    }
    let form = reader.form()?;
    pass_parts(reader, form, depth - 1, binders)
}

/// Passes over code after its first word, whose parts have at most this depth.
#[cycle(pass)]
#[tactic(auto, using(crate::proofs::SkippedCode::past_make, crate::proofs::SkippedCode::past_two, crate::proofs::SkippedCode::past_three))]
fn pass_parts(reader: &mut Reader, form: Form, depth: u32, binders: u32) -> Result<(), TextFault>
    requires room { binders + 2 * depth ≤ 998 }
    ensures { Passes result (code_parts (find_code depth) form binders) reader.old reader.new }
{
    match form {
        Form::Int => {
            reader.integer()?;
        }
        Form::Bool(_) => {}
        Form::Var => {
            reader.variable(binders)?;
        }
        Form::WithOne(form) => pass(reader, depth, form.under(binders))?,
        Form::WithTwo(form) => {
            pass(reader, depth, binders)?;
            pass(reader, depth, form.under(binders))?;
        }
        Form::If => {
            pass(reader, depth, binders)?;
            pass(reader, depth, binders)?;
            pass(reader, depth, binders)?;
        }
    }
    Ok(())
}
