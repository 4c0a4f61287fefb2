// Sources and their nameless programs: what the items are, and main.

ghost use Rattle.std.specs.Prelude.{IfOk};
ghost use Rattle.mw_term.specs.Programs.{program_of};
ghost use Rattle.mw_term.specs.Parts.{IsResolved};

use crate::fields::{Fault, Row};
use crate::shown::{line, push_value};
use mw_lex::lex;
use mw_parse::parse;
use mw_scope::resolve;
use mw_term::{Program, Stop};
use std::alloc::Global;

/// The program of bytes.
pub fn program(alloc: Global, bytes: &[u8]) -> Result<Program, Stop>
    ensures { IfOk result (λ p. IsResolved (program_of p)) }
{
    let tokens = lex(alloc, bytes)?;
    let surface = parse(alloc, &tokens, bytes.len() as u32)?;
    resolve(alloc, &surface)
}

/// A line for each item, and one for main.
fn lines(alloc: Global, program: &Program) -> Result<String, Fault> {
    let mut text = String::new(alloc);
    for item in program.items.as_slice() {
        push_value(alloc, &mut text, &item.kind)?;
    }
    push_value(alloc, &mut text, &program.body)?;
    Ok(text)
}

/// The program of a row's source, or the refusal.
pub fn carried_out(alloc: Global, row: &Row) -> Result<String, Fault> {
    match program(alloc, row.bytes("source")) {
        Ok(program) => {
            let lines = lines(alloc, &program);
            drop(program);
            lines
        }
        Err(Stop::Refused(refusal)) => Ok(line(alloc, refusal)?),
        Err(Stop::Memory(error)) => Err(Fault::Memory(error)),
    }
}
