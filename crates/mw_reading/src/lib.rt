//! Sources, read whole: the program of a source's bytes, or their first refusal.
#![tactic(auto)]

ghost use Rattle.std.specs.Prelude.{◌≡◌, IfOk, IfErr};
ghost use Rattle.mw_term.specs.declared.refusal.Refusal.{Refusal};
ghost use Rattle.mw_term.specs.Stops.{IfRefused, IsRefusalOrMemory};
ghost use Rattle.mw_reading.specs.NamedPrograms.{IsNamedProgramOrMemory, NamedProgram, named_program_of};
ghost use Rattle.mw_reading.specs.SourceReading.{IsRead, IsRefused};

use mw_lex::lex;
use mw_parse::parse;
use mw_scope::resolve;
use mw_term::{Program, Stop};
use std::alloc::Global;

/// One byte more than the longest source: reading ends with it.
pub const MOST_OF_SOURCE: usize = 1_048_577;

/// The program of a source, or the first refusal of its bytes, tokens, names and levels.
pub fn read(alloc: Global, bytes: &[u8]) -> Result<Program, Stop>
    ensures found { IfOk result (λ p. IsRead bytes.now (named_program_of p)) }
    ensures only { (p : NamedProgram) → IsRead bytes.now p
        → IsNamedProgramOrMemory result p }
    ensures refused { IfErr result (IfRefused (IsRefused bytes.now)) }
    ensures first { (r : Refusal) → IsRefused bytes.now r → IsRefusalOrMemory result r }
{
    let tokens = lex(alloc, bytes)?;
    let surface = parse(alloc, &tokens, bytes.len() as u32)?;
    resolve(alloc, &surface)
}
