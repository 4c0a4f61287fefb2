// Kernels of canonical texts, emitted, run and called.
//
// `text` is the kernel's, `fuel` the units of its run. Where the run gives a function, each `call` has an argument and
// units: the leaves of the argument's value in turn, then the units, with blanks between them. Of a `module` row's
// `text` the bytes are printed that its kernel's module has, in hexadecimal.

ghost use Rattle.std.specs.Prelude.{◌≡◌, ◌<◌, IfOk, IfSome};
ghost use Rattle.mw_term.specs.Terms.{base as base_of, expression_of, ground_of, ground_value_of, kernel_type_of};
ghost use Rattle.mw_meaning.specs.GroundValues.{HasGroundType};
ghost use Rattle.mw_key.specs.CanonicalText.{IsKernel};
ghost use Rattle.mw_kernel.specs.KernelAnswers.{HasStartType};

use crate::fields::{Fault, Row, number_in};
use crate::shown::{line, line_with_units};
use mw_compile::{Steps, emit};
use mw_kernel::{Began, RunFault, Running};
use mw_key::{TextFault, read_text};
use mw_term::{Base, BaseValue, Ground, GroundValue, KType, Term};
use std::alloc::{AllocError, Global};
use std::marker::Brand;
use std::sync::ledger::{Blank, Ledger};
use std::thread::Threads;

/// The value of a base type that a word spells.
fn base_value(base: &Base, word: &str) -> Option<GroundValue>
    ensures { IfSome result (λ v. HasGroundType (base_of base.now) (ground_value_of v)) }
{
    match base {
        Base::Int => {
            let number = word.parse::<i64>().ok()?;
            Some(GroundValue::Base(BaseValue::Int(number)))
        }
        Base::Bool => match word {
            "true" => Some(GroundValue::Base(BaseValue::Bool(true))),
            "false" => Some(GroundValue::Base(BaseValue::Bool(false))),
            _ => None,
        },
    }
}

/// The same in a box.
fn boxed_base_value(
    alloc: Global,
    base: &Base,
    word: &str,
) -> Result<Option<Box<GroundValue>>, AllocError>
    ensures { IfOk result
        (λ o. IfSome o (λ v. HasGroundType (base_of base.now) (ground_value_of v.value))) }
{
    match base_value(base, word) {
        Some(value) => Ok(Some(Box::new(alloc, value)?)),
        None => Ok(None),
    }
}

/// The value of a ground type whose leaves the last words spell, the first leaf last.
fn value(
    alloc: Global,
    ground: &Ground,
    words: &mut Vec<&str>,
) -> Result<Option<Box<GroundValue>>, AllocError>
    ensures { IfOk result
        (λ o. IfSome o (λ v. HasGroundType (ground_of ground.now) (ground_value_of v.value))) }
{
    match ground {
        Ground::Base(base) => match words.pop() {
            Some(word) => boxed_base_value(alloc, base, word),
            None => Ok(None),
        },
        Ground::Pair(left, right) => {
            let Some(first) = value(alloc, left, words)? else {
                return Ok(None);
            };
            match value(alloc, right, words)? {
                Some(second) => Ok(Some(Box::new(alloc, GroundValue::Pair(first, second))?)),
                None => Ok(None),
            }
        }
    }
}

/// The words of a text, the last first.
fn words_backwards<'a>(alloc: Global, text: &'a str) -> Result<Vec<&'a str>, AllocError> {
    let mut words: Vec<&str> = text.split_whitespace().collect(alloc)?;
    words.reverse();
    Ok(words)
}

/// The number that the one word spells.
fn only_number(words: &[&str]) -> Result<u64, Fault> {
    match words {
        [units] => number_in(units),
        _ => Err(Fault::Malformed("not an argument and units")),
    }
}

/// The argument of a call and its units, which a text spells.
fn argument_and_units(
    alloc: Global,
    argument: &Ground,
    text: &str,
) -> Result<(Box<GroundValue>, u64), Fault>
    ensures { IfOk result
        (λ r. HasGroundType (ground_of argument.now) (ground_value_of r.0.value)) }
{
    let mut words = words_backwards(alloc, text)?;
    let Some(value) = value(alloc, argument, &mut words)? else {
        return Err(Fault::Malformed("not an argument of the kernel's type"));
    };
    Ok((value, only_number(words.as_slice())?))
}

/// How a call ends, whose argument and units a text spells.
fn called(
    alloc: Global,
    running: &mut Running,
    argument: &Ground,
    text: &str,
) -> Result<String, Fault>
    requires { running.old.argument ≡ ground_of argument.now }
    ensures { running.new.argument ≡ running.old.argument }
{
    let (value, fuel) = argument_and_units(alloc, argument, text)?;
    match running.call(alloc, &value, fuel) {
        Ok(ran) => Ok(line(alloc, ran)?),
        Err(fault) => Ok(line(alloc, fault)?),
    }
}

/// Adds how the calls of a row end, one after the other.
fn push_calls(
    alloc: Global,
    text: &mut String,
    row: &Row,
    running: &mut Running,
    argument: &Ground,
) -> Result<(), Fault>
    requires { running.old.argument ≡ ground_of argument.now }
{
    for field in row.fields.as_slice() {
        if field.name.as_str() == "call" {
            text.push_str(called(alloc, running, argument, field.text()?)?.as_str())?;
        }
    }
    Ok(())
}

/// The units left of a run that gave a function, and its calls.
fn function_lines(
    alloc: Global,
    row: &Row,
    running: &mut Running,
    argument: &Ground,
    left: u64,
) -> Result<String, Fault>
    requires { running.old.argument ≡ ground_of argument.now }
{
    let mut text = format!(in alloc; "Function {left}\n")?;
    push_calls(alloc, &mut text, row, running, argument)?;
    Ok(text)
}

/// How a run ended, and the calls after it.
fn told(
    alloc: Global,
    row: &Row,
    kind: &KType,
    began: Result<Began, RunFault>,
) -> Result<String, Fault>
    requires { HasStartType began (kernel_type_of kind.now) }
{
    match (began, kind) {
        (Ok(Began::Value(value, left)), _) => Ok(line_with_units(alloc, value, left)?),
        (Ok(Began::Trap(trap)), _) => Ok(line(alloc, trap)?),
        (Ok(Began::Bound(limit)), _) => Ok(line(alloc, limit)?),
        (Err(fault), _) => Ok(line(alloc, fault)?),
        (Ok(Began::Function(mut running, left)), KType::Fun(argument, _)) => {
            let lines = function_lines(alloc, row, &mut running, argument, left);
            drop(running);
            lines
        }
        (Ok(Began::Function(_, _)), KType::Ground(_)) => unreachable!(),
    }
}

/// The run of a kernel, and its calls.
fn run_lines<L: Ledger>(
    alloc: Global,
    row: &Row,
    code: &Term,
    kind: &KType,
    steps: &mut Steps<L>,
) -> Result<String, Fault>
    requires { IsKernel (expression_of code.now) (kernel_type_of kind.now) }
{
    let fuel = row.number("fuel", 0)?;
    let entry = emit(alloc, code, kind, steps)?;
    let began = Running::start(alloc, entry.module(), kind, fuel);
    drop(entry);
    told(alloc, row, kind, began)
}

/// Bytes in hexadecimal.
fn hexadecimal_line(alloc: Global, bytes: &[u8]) -> Result<String, Fault> {
    let digits = hex::encode(alloc, bytes)?;
    Ok(format!(in alloc; "{digits}\n")?)
}

/// The bytes of a kernel's module.
fn bytes_line<L: Ledger>(
    alloc: Global,
    code: &Term,
    kind: &KType,
    steps: &mut Steps<L>,
) -> Result<String, Fault>
    requires { IsKernel (expression_of code.now) (kernel_type_of kind.now) }
{
    let entry = emit(alloc, code, kind, steps)?;
    let line = hexadecimal_line(alloc, entry.bytes());
    drop(entry);
    line
}

/// The run of a row's kernel at the type that its text says, and its calls.
fn run<R: Threads, L: Ledger>(
    rt: &R,
    alloc: Global,
    row: &Row,
    blank: Blank,
) -> Result<String, Fault>
    requires name { blank.name ≡ L.name }
    requires parts { blank.parts ≡ L.parts }
    requires some { 0 < L.parts }
{
    let mut steps = Steps::<L>::open(rt, blank);
    match read_text(alloc, row.bytes("text")) {
        Ok((_, code, kind)) => {
            let lines = run_lines(alloc, row, &code, &kind, &mut steps);
            drop(code);
            drop(kind);
            lines
        }
        Err(TextFault::BadText) => Ok(String::from_str(alloc, "no text\n")?),
        Err(TextFault::Memory(error)) => Err(Fault::Memory(error)),
    }
}

/// The bytes of the module of a row's kernel at the type that its text says, as a line.
fn module_line<R: Threads, L: Ledger>(
    rt: &R,
    alloc: Global,
    row: &Row,
    blank: Blank,
) -> Result<String, Fault>
    requires name { blank.name ≡ L.name }
    requires parts { blank.parts ≡ L.parts }
    requires some { 0 < L.parts }
{
    let mut steps = Steps::<L>::open(rt, blank);
    match read_text(alloc, row.bytes("text")) {
        Ok((_, code, kind)) => {
            let line = bytes_line(alloc, &code, &kind, &mut steps);
            drop(code);
            drop(kind);
            line
        }
        Err(TextFault::BadText) => Ok(String::from_str(alloc, "no text\n")?),
        Err(TextFault::Memory(error)) => Err(Fault::Memory(error)),
    }
}

/// The bytes of the module of a row's kernel.
pub fn module_bytes<R: Threads>(rt: &R, alloc: Global, row: &Row) -> Result<String, Fault> {
    module_line::<R, Brand>(rt, alloc, row, Blank::new(1))
}

/// The run of a row's kernel, and its calls.
pub fn carried_out<R: Threads>(rt: &R, alloc: Global, row: &Row) -> Result<String, Fault> {
    run::<R, Brand>(rt, alloc, row, Blank::new(1))
}
