// Certificates beside a program: which of them certify its typing.
//
// `source` is the program, and each `cert` the bytes of a certificate. A line for each says what is found; of a source
// that has no program the refusal is told.

ghost use Rattle.mw_term.specs.Parts.{IsResolved};
ghost use Rattle.mw_term.specs.Programs.{program_of};

use crate::fields::{Fault, Row};
use crate::programs::program;
use crate::shown::line;
use mw_recheck::holds;
use mw_term::{Program, Stop};
use std::alloc::{AllocError, Global};

/// What is found of a certificate.
fn verdict(alloc: Global, cert: &[u8], program: &Program) -> Result<&'static str, AllocError>
    requires { IsResolved (program_of program.now) }
{
    if holds(alloc, cert, program)? {
        Ok("typed\n")
    } else {
        Ok("not typed\n")
    }
}

/// A line for each certificate of a row.
fn verdicts(alloc: Global, row: &Row, program: &Program) -> Result<String, Fault>
    requires { IsResolved (program_of program.now) }
{
    let mut text = String::new(alloc);
    for field in row.fields.as_slice() {
        if field.name.as_str() == "cert" {
            text.push_str(verdict(alloc, field.bytes.as_slice(), program)?)?;
        }
    }
    Ok(text)
}

/// What is found of a row's certificates, or its source's refusal.
pub fn carried_out(alloc: Global, row: &Row) -> Result<String, Fault> {
    match program(alloc, row.bytes("source")) {
        Ok(program) => {
            let text = verdicts(alloc, row, &program);
            drop(program);
            text
        }
        Err(Stop::Refused(refusal)) => Ok(line(alloc, refusal)?),
        Err(Stop::Memory(error)) => Err(Fault::Memory(error)),
    }
}
