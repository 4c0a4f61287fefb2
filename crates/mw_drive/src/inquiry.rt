// What is asked of a file: of the module in it, or of the typing of a source.

ghost use Rattle.std.specs.Prelude.{◌≡◌, ◌≤◌, ◌<◌, ◌⊎◌, ℕ, List, IsTrue, IfOk, drop, take};
ghost use Rattle.mw_outside.specs.Count.{Rose};
ghost use Rattle.mw_console.specs.declared.status.Status.TheVariants.{Read, Write, BadModule as Faulty};
ghost use Rattle.mw_judge.specs.FileLines.{bad_file_line};
ghost use Rattle.mw_drive.specs.CommandStatuses.{IsStatusFor, asking};
ghost use Rattle.mw_drive.specs.Extents.{on_a_file, extent};
ghost use Rattle.mw_drive.specs.Running.{sources, wanted, Has, Lacks, IsCarriedOut, IsMemory};
ghost use Rattle.mw_drive.specs.Running.{IsWritten};
ghost use Rattle.mw_drive.specs.Verdicts.{inquired};
ghost use Rattle.mw_drive.specs.Works.{writing, judging, judged, status_of, Reports};

use crate::typing::{certificate_of, typing_of};
use mw_console::{Status, file_bytes, write_lines};
use mw_judge::{BadFile, FileFault, binary_text, judge, put_bad_file, put_verdict};
use mw_outside::{ReadStop, Sink, Source, WriteFault};
use std::alloc::{AllocError, Global};

/// One byte more than the longest file of a module: reading ends with it.
pub const MOST_OF_MODULE: usize = 67_108_865;

/// What is asked of a module: its text, or whether it is valid. What is asked of a source: the certificate of its
/// typing, or whether this text certifies it.
#[derive(Clone, Copy, Debug)]
pub enum Inquiry<'t> {
    Text,
    Verdict,
    Certificate,
    Typing(&'t [u8]),
}

/// Reads a file, to its end or so many bytes of it, and writes what is asked of it, or the line of its first fault.
pub fn inquire<S: Source, K: Sink>(
    alloc: Global,
    source: &mut S,
    sink: &mut K,
    file: &str,
    most: usize,
    inquiry: Inquiry<'_>,
) -> Status
    requires some { 0 < most }
    ensures work { (bytes : List ℕ)
        → Has (sources S.tells (S.told source.old)) (wanted file.now most) bytes
        → IsCarriedOut on_a_file (inquired inquiry.entry (take most bytes)) result K.tells
        (K.written sink.old) (K.written sink.new) }
    ensures left { (bytes : List ℕ)
        → Has (sources S.tells (S.told source.old)) (wanted file.now most) bytes
        → ¬ IsMemory result → ¬ (result ≡ Read) → S.left source.new ≡ drop most bytes }
    ensures read { result ≡ Read
        → Rose (S.faults source.old) (S.faults source.new)
        ⊎ Lacks (sources S.tells (S.told source.old)) (wanted file.now most) }
    ensures missing { Lacks (sources S.tells (S.told source.old)) (wanted file.now most)
        → result ≡ Read }
    ensures nothing { result ≡ Read → IsTrue K.tells → K.written sink.new ≡ K.written sink.old }
    ensures write { result ≡ Write → Rose (K.faults sink.old) (K.faults sink.new) }
    ensures possible { IsStatusFor (asking inquiry.entry) result }
    ensures unfailed { IsWritten (extent on_a_file result)
        → (S.faults source.new ≡ S.faults source.old) × (K.faults sink.new ≡ K.faults sink.old) }
    ensures memory { IsMemory result
        → (S.faults source.new ≡ S.faults source.old) × (K.faults sink.new ≡ K.faults sink.old) }
    ensures files { S.told source.new ≡ S.told source.old }
    ensures source_count { S.faults source.old ≤ S.faults source.new }
    ensures sink_count { K.faults sink.old ≤ K.faults sink.new }
{
    match file_bytes(alloc, source, file, most) {
        Ok(bytes) => write_answer(alloc, bytes.as_slice(), sink, inquiry),
        Err(ReadStop::Failed) => Status::Read,
        Err(ReadStop::Memory(error)) => Status::Memory(error),
    }
}

/// Writes what is asked of these bytes, or the line of their first fault.
pub fn write_answer<K: Sink>(
    alloc: Global,
    bytes: &[u8],
    sink: &mut K,
    inquiry: Inquiry<'_>,
) -> Status
    ensures work { IsCarriedOut on_a_file (inquired inquiry.entry bytes.now) result K.tells
        (K.written sink.old) (K.written sink.new) }
    ensures unread { ¬ (result ≡ Read) }
    ensures write { result ≡ Write → Rose (K.faults sink.old) (K.faults sink.new) }
    ensures possible { IsStatusFor (asking inquiry.entry) result }
    ensures unfailed { IsWritten (extent on_a_file result) → K.faults sink.new ≡ K.faults sink.old }
    ensures memory { IsMemory result → K.faults sink.new ≡ K.faults sink.old }
    ensures count { K.faults sink.old ≤ K.faults sink.new }
{
    let answer = match answer_of(alloc, bytes, inquiry) {
        Ok(answer) => answer,
        Err(error) => return Status::Memory(error),
    };
    match write_lines(sink, answer.text.as_slice()) {
        Ok(()) => answer.status,
        Err(WriteFault::Failed) => Status::Write,
        Err(WriteFault::Memory(error)) => Status::Memory(error),
    }
}

/// A text, and the status that says the same.
#[derive(Drop)]
pub struct Answer {
    pub text: Vec<u8>,
    pub status: Status,
}

/// What is answered to what is asked of these bytes.
fn answer_of(alloc: Global, bytes: &[u8], inquiry: Inquiry<'_>) -> Result<Answer, AllocError>
    ensures { IfOk result (λ a. Reports (inquired inquiry.entry bytes.now) a.text.items a.status) }
{
    match inquiry {
        Inquiry::Text => text_of(alloc, bytes),
        Inquiry::Verdict => verdict_of(alloc, bytes),
        Inquiry::Certificate => certificate_of(alloc, bytes),
        Inquiry::Typing(text) => typing_of(alloc, text, bytes),
    }
}

/// The text of the module that the bytes spell, or the line of their first fault.
fn text_of(alloc: Global, bytes: &[u8]) -> Result<Answer, AllocError>
    ensures { IfOk result (λ a. Reports (writing bytes.now) a.text.items a.status) }
{
    match binary_text(alloc, bytes) {
        Ok(text) => Ok(Answer {
            text,
            status: Status::Answer,
        }),
        Err(FileFault::Bad(fault)) => fault_of(alloc, fault),
        Err(FileFault::Memory(error)) => Err(error),
    }
}

/// The line of the verdict on the module that the bytes spell, or are a text of, or that of their first fault.
fn verdict_of(alloc: Global, bytes: &[u8]) -> Result<Answer, AllocError>
    ensures { IfOk result (λ a. Reports (judging bytes.now) a.text.items a.status) }
{
    match judge(alloc, bytes) {
        Ok(valid) => {
            let mut text = Vec::new(alloc);
            put_verdict(&mut text, valid)?;
            Ok(Answer {
                text,
                status: status_of(valid),
            })
        }
        Err(FileFault::Bad(fault)) => fault_of(alloc, fault),
        Err(FileFault::Memory(error)) => Err(error),
    }
}

/// The status of a verdict.
fn status_of(valid: bool) -> Status
    ensures { result ≡ status_of (judged valid) }
{
    if valid {
        Status::Answer
    } else {
        Status::Invalid
    }
}

/// The line of a fault of a file.
fn fault_of(alloc: Global, fault: BadFile) -> Result<Answer, AllocError>
    ensures { IfOk result (λ a. (a.text.items ≡ bad_file_line fault) × (a.status ≡ Faulty)) }
{
    let mut text = Vec::new(alloc);
    put_bad_file(alloc, &mut text, fault)?;
    Ok(Answer {
        text,
        status: Status::BadModule,
    })
}
