// Linked modules, and what their instances give.
//
// `source` is a program, whose kernels the command `link` makes a module of. Each `invoke` has the name of an export,
// units, and arguments: numbers, or `closure` for the word that the last `init` of the same kernel gave. It may have
// several invocations, with a `;` behind each: for those in turn that end alike one line is printed, with how many they
// are. Each `word` asks for the eight bytes at an address. All are carried out in turn, on one instance. Where the
// command writes no module, how it ends is printed.

ghost use Rattle.std.specs.Prelude.{◌<◌, ◌^◌, length};

use crate::fields::{Fault, Field, Row, number_in};
use crate::invocations::fit;
use crate::outside::{Ended as CommandEnded, end_of};
use crate::runs::{push_status, words};
use crate::shown::{Shows, line, push_lines, push_value};
use mw_decode::{DecodeFault, decode};
use mw_exec::{Ended, Instance, InstanceFault};
use mw_validate::{Valid, ValidFault, validate};
use mw_wasm::{Module, Value};
use std::alloc::{AllocError, Global};
use std::sync::Arc;
use std::thread::Threads;

/// A word that `init` of a kernel gave.
#[derive(Drop)]
struct Given {
    kernel: String,
    word: u64,
}

/// Lines of which the last came so many times in turn.
#[derive(Drop)]
struct Lines {
    text: String,
    last: String,
    times: u64,
}

impl Lines {
    fn none(alloc: Global) -> Lines {
        Lines {
            text: String::new(alloc),
            last: String::new(alloc),
            times: 0,
        }
    }

    /// Writes the last line, after the number of times where it came more than once.
    fn end(&mut self, alloc: Global) -> Result<(), AllocError> {
        if self.times > 1 {
            let times = format!(in alloc; "{} times ", self.times)?;
            self.text.push_str(times.as_str())?;
        }
        self.text.push_str(self.last.as_str())
    }

    /// Adds a line.
    fn add(&mut self, alloc: Global, line: String) -> Result<(), AllocError> {
        if line.as_str() == self.last.as_str() {
            self.times = self.times.saturating_add(1);
            return Ok(());
        }
        self.end(alloc)?;
        self.last = line;
        self.times = 1;
        Ok(())
    }
}

/// The kernel that an export's name tells, and which function of it.
fn parts(name: &str) -> (&str, &str) {
    match name.split_once('.') {
        Some(parts) => parts,
        None => (name, ""),
    }
}

/// The word that `init` of a kernel gave last.
fn last_given(given: &[Given], kernel: &str) -> Option<u64> {
    let mut last = None;
    for one in given {
        if one.kernel.as_str() == kernel {
            last = Some(one.word);
        }
    }
    last
}

/// The word that an argument spells, where this one is the kernel's closure.
fn argument(word: &str, closure: Option<u64>) -> Result<u64, Fault> {
    if word != "closure" {
        return number_in(word);
    }
    match closure {
        Some(word) => Ok(word),
        None => Err(Fault::Malformed("a closure of a kernel that gave none")),
    }
}

/// The words that arguments spell.
fn arguments(alloc: Global, words: &[&str], closure: Option<u64>) -> Result<Vec<Value>, Fault> {
    let mut args = Vec::new(alloc);
    for word in words {
        args.push(Value::I64(argument(word, closure)?))?;
    }
    Ok(args)
}

/// How an invocation ends, where there is a function of this name.
fn outcome(
    alloc: Global,
    instance: &mut Instance,
    name: &str,
    args: &[Value],
    fuel: u64,
) -> Result<Option<Ended>, Fault> {
    let name = name.as_bytes();
    let Some(kind) = instance.export(name) else {
        return Ok(None);
    };
    if !fit(args, kind.params.as_slice()) {
        return Err(Fault::Malformed("not the function's arguments"));
    }
    let end = instance.invoke(alloc, name, args, fuel)?;
    Ok(Some(end))
}

/// Keeps the word that an invocation gave, if it is of a kernel's `init`.
fn keep(alloc: Global, given: &mut Vec<Given>, name: &str, end: &Ended) -> Result<(), AllocError> {
    if let (Ended::Ended(Some(Value::I64(word)), _), (kernel, "init")) = (end, parts(name)) {
        let kernel = String::from_str(alloc, kernel)?;
        given.push(Given {
            kernel,
            word: *word,
        })?;
    }
    Ok(())
}

/// How an invocation ends that a text asks for, as a line.
fn invoked(
    alloc: Global,
    instance: &mut Instance,
    given: &mut Vec<Given>,
    text: &str,
) -> Result<String, Fault> {
    let words: Vec<&str> = text.split_whitespace().collect(alloc)?;
    let [name, units, words @ ..] = words.as_slice() else {
        return Err(Fault::Malformed("no name and units"));
    };
    let fuel = number_in(units)?;
    let (kernel, _) = parts(name);
    let args = arguments(alloc, words, last_given(given.as_slice(), kernel))?;
    match outcome(alloc, instance, name, args.as_slice(), fuel)? {
        Some(end) => {
            keep(alloc, given, name, &end)?;
            Ok(line(alloc, end)?)
        }
        None => Ok(String::from_str(alloc, "no function\n")?),
    }
}

/// How the invocations of a field end.
fn invocations(
    alloc: Global,
    instance: &mut Instance,
    given: &mut Vec<Given>,
    text: &str,
) -> Result<String, Fault> {
    let mut lines = Lines::none(alloc);
    for part in text.split(';') {
        if !part.is_empty() {
            let line = invoked(alloc, instance, given, part)?;
            lines.add(alloc, line)?;
        }
    }
    lines.end(alloc)?;
    let Lines { text, .. } = lines;
    Ok(text)
}

/// Adds what the instance does that a field asks for.
fn push_step(
    alloc: Global,
    text: &mut String,
    instance: &mut Instance,
    given: &mut Vec<Given>,
    field: &Field,
) -> Result<(), Fault> {
    match field.name.as_str() {
        "invoke" => {
            let lines = invocations(alloc, instance, given, field.text()?)?;
            text.push_str(lines.as_str())?;
        }
        "word" => {
            let word = instance.word(number_in(field.text()?)?);
            push_value(alloc, text, &word)?;
        }
        _ => {}
    }
    Ok(())
}

/// What the instance does, in turn.
fn told(alloc: Global, row: &Row, instance: &mut Instance) -> Result<String, Fault> {
    let mut text = String::new(alloc);
    let mut given = Vec::new(alloc);
    for field in row.fields.as_slice() {
        push_step(alloc, &mut text, instance, &mut given, field)?;
    }
    Ok(text)
}

/// What the instance of a module does.
fn told_of(alloc: Global, row: &Row, valid: Valid) -> Result<String, Fault> {
    match Instance::new(alloc, Arc::new(alloc, valid)?) {
        Ok(mut instance) => told(alloc, row, &mut instance),
        Err(InstanceFault::Memory(error)) => Err(Fault::Memory(error)),
        Err(_) => Err(Fault::Malformed("the linked module has no instance")),
    }
}

/// What the instance of a decoded module does.
fn told_of_decoded(alloc: Global, row: &Row, wasm: Module) -> Result<String, Fault>
    requires elements { length wasm.elements < 2 ^ 32 }
    requires segments { length wasm.segments < 2 ^ 32 }
{
    match validate(alloc, wasm) {
        Ok(valid) => told_of(alloc, row, valid),
        Err(ValidFault::Bad(_)) => Err(Fault::Malformed("the linked module isn't valid")),
        Err(ValidFault::Memory(error)) => Err(Fault::Memory(error)),
    }
}

/// What the instance of the module does that these digits spell.
fn told_of_digits(alloc: Global, row: &Row, digits: &[u8]) -> Result<String, Fault> {
    let Ok(bytes) = hex::decode(alloc, digits) else {
        return Err(Fault::Malformed("the linked module isn't in hexadecimal"));
    };
    match decode(alloc, bytes.as_slice()) {
        Ok(wasm) => told_of_decoded(alloc, row, wasm),
        Err(DecodeFault::Bad(_)) => Err(Fault::Malformed("the linked module isn't read")),
        Err(DecodeFault::Memory(error)) => Err(Fault::Memory(error)),
    }
}

/// The digits of the one module that was written, where one was.
fn digits_of(written: &[u8]) -> Option<&[u8]> {
    match written {
        [b'm', b'o', b'd', b'u', b'l', b'e', b' ', digits @ .., b'\n'] => Some(digits),
        _ => None,
    }
}

/// How the command ended.
fn ended_lines(alloc: Global, ended: &CommandEnded) -> Result<String, AllocError> {
    let mut text = String::new(alloc);
    push_status(alloc, &mut text, &ended.status)?;
    push_lines(alloc, &mut text, ended.written.as_slice(), Shows::All)?;
    Ok(text)
}

/// What the instance of the row's linked module does, or how the command ended.
pub fn carried_out<R: AllocGlobal + Threads + Sync>(rt: &R, row: &Row) -> Result<String, Fault> {
    let alloc = rt.alloc();
    let words = words(alloc, row, "link source.metaml")?;
    let ended = end_of(rt, row, words.as_slice(), &[])?;
    match digits_of(ended.written.as_slice()) {
        Some(digits) => told_of_digits(alloc, row, digits),
        None => Ok(ended_lines(alloc, &ended)?),
    }
}
