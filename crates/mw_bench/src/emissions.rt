// Emissions that are printed or timed.

ghost use Rattle.std.specs.Prelude.{◌≡◌, ◌<◌, ◌≤◌, true};
ghost use Rattle.mw_term.specs.Terms.{expression_of, kernel_type_of};
ghost use Rattle.mw_term.specs.Closed.{IsClosed, IsCode};
ghost use Rattle.mw_term.specs.Limits.{kernel_nodes, within_limits};

use crate::samples::{large, sample};
use mw_compile::{Steps, emit};
use mw_key::{TextFault, read_text};
use mw_term::{KType, Term};
use std::alloc::{AllocError, Global};
use std::marker::Brand;
use std::sync::ledger::{Blank, Ledger};
use std::thread::Threads;

/// The bytes of the module of code, which is emitted so many times.
fn repeated<L: Ledger>(
    alloc: Global,
    code: &Term,
    kind: &KType,
    times: u64,
    steps: &mut Steps<L>,
) -> Result<Vec<u8>, AllocError>
    requires code { IsCode (expression_of code.now) }
    requires closed { IsClosed (expression_of code.now) }
    requires limits { within_limits (expression_of code.now) ≡ true }
    requires nodes { kernel_nodes (kernel_type_of kind.now) ≤ 10000 }
{
    let mut bytes = Vec::new(alloc);
    for _ in 0..times {
        let entry = emit(alloc, code, kind, steps)?;
        bytes = Vec::from_slice(alloc, entry.bytes())?;
    }
    Ok(bytes)
}

/// The bytes of the module of a text's code, which is emitted so many times, from no emissions on; none where it is no
/// text.
fn bytes_of<R: Threads, L: Ledger>(
    rt: &R,
    alloc: Global,
    text: &str,
    times: u64,
    blank: Blank,
) -> Result<Vec<u8>, AllocError>
    requires name { blank.name ≡ L.name }
    requires parts { blank.parts ≡ L.parts }
    requires some { 0 < L.parts }
{
    let mut steps = Steps::<L>::open(rt, blank);
    match read_text(alloc, text.as_bytes()) {
        Ok((_, code, kind)) => repeated(alloc, &code, &kind, times, &mut steps),
        Err(TextFault::BadText) => Ok(Vec::new(alloc)),
        Err(TextFault::Memory(error)) => Err(error),
    }
}

/// How many bytes the module of the large code has, which is emitted so many times.
fn large_bytes<R: Threads, L: Ledger>(
    rt: &R,
    alloc: Global,
    times: u64,
    blank: Blank,
) -> Result<u64, AllocError>
    requires name { blank.name ≡ L.name }
    requires parts { blank.parts ≡ L.parts }
    requires some { 0 < L.parts }
{
    let text = large(alloc)?;
    let bytes = bytes_of::<R, L>(rt, alloc, text.as_str(), times, blank)?;
    Ok(bytes.len() as u64)
}

/// The bytes of the module of a sample, by its number.
fn sample_bytes<R: Threads, L: Ledger>(
    rt: &R,
    alloc: Global,
    number: u64,
    blank: Blank,
) -> Result<Vec<u8>, AllocError>
    requires name { blank.name ≡ L.name }
    requires parts { blank.parts ≡ L.parts }
    requires some { 0 < L.parts }
{
    bytes_of::<R, L>(rt, alloc, sample(number), 1, blank)
}

/// The bytes of the module of a sample, by its number.
pub fn module_of_sample<R: Threads>(
    rt: &R,
    alloc: Global,
    number: u64,
) -> Result<Vec<u8>, AllocError> {
    sample_bytes::<R, Brand>(rt, alloc, number, Blank::new(1))
}

/// How many bytes the module of the large code has, which is emitted so many times.
pub fn emissions<R: Threads>(rt: &R, alloc: Global, times: u64) -> Result<u64, AllocError> {
    large_bytes::<R, Brand>(rt, alloc, times, Blank::new(1))
}
