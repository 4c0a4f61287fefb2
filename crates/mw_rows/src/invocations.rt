// How code ends.
//
// `code` is the function `run` of a module, of the `type` 1 where the field doesn't stand there; `modules` says what
// else the module has, and what `table`, `element` and `data` change. Each `invoke` has a function's name, units, and
// the arguments; each `word` asks for the eight bytes at an address. They are carried out in turn, on one instance.

ghost use Rattle.std.specs.Prelude.{◌≡◌, true, map};
ghost use Rattle.mw_wasm.specs.NumericTypes.{type_of_value};

use crate::fields::{Fault, Field, Row, number_in};
use crate::modules::module_of;
use crate::shown::{line, push_value};
use mw_exec::{Instance, InstanceFault};
use mw_validate::{Valid, ValidFault, validate};
use mw_wasm::{ValType, Value};
use std::alloc::Global;
use std::sync::Arc;

/// The type of a value.
fn type_of(value: &Value) -> ValType
    ensures { result ≡ type_of_value value.now }
{
    match value {
        Value::I32(_) => ValType::I32,
        Value::I64(_) => ValType::I64,
    }
}

/// Whether values have these types.
pub fn fit(values: &[Value], types: &[ValType]) -> bool
    ensures { result ≡ true → map type_of_value values.now ≡ types.now }
{
    match (values, types) {
        ([], []) => true,
        ([value, values @ ..], [t, types @ ..]) => type_of(value) == *t && fit(values, types),
        _ => false,
    }
}

/// The value of a type that a word spells.
fn value(word: &str, kind: ValType) -> Result<Value, Fault> {
    let number = number_in(word)?;
    Ok(match kind {
        ValType::I32 => Value::I32((number % 0x1_0000_0000) as u32),
        ValType::I64 => Value::I64(number),
    })
}

/// The values of these types that words spell.
fn values(alloc: Global, words: &[&str], types: &[ValType]) -> Result<Vec<Value>, Fault> {
    let mut values = Vec::new(alloc);
    for (word, kind) in words.iter().zip(types.iter()) {
        values.push(value(word, *kind)?)?;
    }
    Ok(values)
}

/// How an invocation ends that a text asks for.
fn invoked(alloc: Global, instance: &mut Instance, text: &str) -> Result<String, Fault> {
    let words: Vec<&str> = text.split_whitespace().collect(alloc)?;
    let [name, units, words @ ..] = words.as_slice() else {
        return Err(Fault::Malformed("no name and units"));
    };
    let fuel = number_in(units)?;
    let name = name.as_bytes();
    let Some(kind) = instance.export(name) else {
        return Ok(String::from_str(alloc, "no function\n")?);
    };
    let args = values(alloc, words, kind.params.as_slice())?;
    let args = args.as_slice();
    if !fit(args, kind.params.as_slice()) {
        return Err(Fault::Malformed("too few arguments"));
    }
    let end = instance.invoke(alloc, name, args, fuel)?;
    Ok(line(alloc, end)?)
}

/// Adds what the instance does that a field asks for.
fn push_step(
    alloc: Global,
    text: &mut String,
    instance: &mut Instance,
    field: &Field,
) -> Result<(), Fault> {
    match field.name.as_str() {
        "invoke" => {
            text.push_str(invoked(alloc, instance, field.text()?)?.as_str())?;
        }
        "word" => {
            let word = instance.word(number_in(field.text()?)?);
            push_value(alloc, text, &word)?;
        }
        _ => {}
    }
    Ok(())
}

/// What the instance does, in turn.
fn told(alloc: Global, row: &Row, instance: &mut Instance) -> Result<String, Fault> {
    let mut text = String::new(alloc);
    for field in row.fields.as_slice() {
        push_step(alloc, &mut text, instance, field)?;
    }
    Ok(text)
}

/// Why a valid module has no instance, or what its instance does.
fn told_of(alloc: Global, row: &Row, valid: Valid) -> Result<String, Fault> {
    match Instance::new(alloc, Arc::new(alloc, valid)?) {
        Ok(mut instance) => told(alloc, row, &mut instance),
        Err(InstanceFault::Memory(error)) => Err(Fault::Memory(error)),
        Err(fault) => Ok(line(alloc, fault)?),
    }
}

/// Whether the module is valid, why it has no instance, or what the instance does.
pub fn carried_out(alloc: Global, row: &Row) -> Result<String, Fault> {
    let wasm = module_of(alloc, row)?;
    if wasm.elements.len() >= 4_294_967_296 || wasm.segments.len() >= 4_294_967_296 {
        drop(wasm);
        return Err(Fault::Malformed("too many segments"));
    }
    match validate(alloc, wasm) {
        Ok(valid) => told_of(alloc, row, valid),
        Err(ValidFault::Bad(_)) => Ok(String::from_str(alloc, "invalid\n")?),
        Err(ValidFault::Memory(error)) => Err(Fault::Memory(error)),
    }
}
