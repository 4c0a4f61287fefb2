// The certificate of a source's typing, and whether a text is one.

ghost use Rattle.std.specs.Prelude.{◌≡◌, ◌≤◌, ◌⊎◌, ℕ, List, [], map, IsTrue, IfOk, drop, take};
ghost use Rattle.mw_outside.specs.Count.{Rose};
ghost use Rattle.mw_term.specs.Parts.{IsResolved};
ghost use Rattle.mw_term.specs.Programs.{program_of};
ghost use Rattle.mw_term.specs.declared.program.Item.{Item as PureItem};
ghost use Rattle.mw_console.specs.Texts.{refusal_line};
ghost use Rattle.mw_console.specs.declared.status.Status.TheVariants.{Read, Write, Refused};
ghost use Rattle.mw_drive.specs.CommandStatuses.{IsStatusFor};
ghost use Rattle.mw_drive.specs.Extents.{on_a_file, extent};
ghost use Rattle.mw_words.specs.Words.{recheck};
ghost use Rattle.mw_reading.specs.NamedPrograms.{named_program_of};
ghost use Rattle.mw_drive.specs.Running.{sources, source_file, certificate_file, most_of_source, most_of_certificate};
ghost use Rattle.mw_drive.specs.Running.{Has, Lacks, IsCarriedOut, IsMemory, IsUnread, IsWritten};
ghost use Rattle.mw_reading.specs.SourceReading.{IsRead};
ghost use Rattle.mw_drive.specs.Works.{certifying, rechecking, rechecked, status_of, Rechecks, Reports};

use crate::inquiry::{Answer, Inquiry, write_answer};
use mw_cert::{holds, write_cert};
use mw_console::{Status, file_bytes, put_refusal, put_typing};
use mw_infer::check;
use mw_outside::{ReadStop, Sink, Source};
use mw_reading::{MOST_OF_SOURCE, read};
use mw_term::{Item, Program, Refusal, Stop};
use std::alloc::{AllocError, Global};

/// One byte more than the longest certificate: reading ends with it.
const MOST_OF_CERTIFICATE: usize = 67_108_865;

/// Reads a source and then a text, and writes whether the text certifies the source's typing, or the line of the
/// refusal of its reading. Only when both were read is either looked at.
pub fn recheck<S: Source, K: Sink>(
    alloc: Global,
    source: &mut S,
    sink: &mut K,
    file: &str,
    certificate: &str,
) -> Status
    ensures work { (bytes text : List ℕ)
        → Has (sources S.tells (S.told source.old)) (source_file file.now) bytes
        → Has (sources S.tells (S.told source.old)) (certificate_file certificate.now) text
        → IsCarriedOut on_a_file (rechecking (take most_of_certificate text) (take most_of_source bytes)) result
        K.tells (K.written sink.old) (K.written sink.new) }
    ensures left { (text : List ℕ)
        → Has (sources S.tells (S.told source.old)) (certificate_file certificate.now) text
        → ¬ IsMemory result → ¬ (result ≡ Read) → S.left source.new ≡ drop most_of_certificate text }
    ensures read { result ≡ Read → Rose (S.faults source.old) (S.faults source.new)
        ⊎ (Lacks (sources S.tells (S.told source.old)) (source_file file.now)
        ⊎ Lacks (sources S.tells (S.told source.old)) (certificate_file certificate.now)) }
    ensures missing { Lacks (sources S.tells (S.told source.old)) (source_file file.now)
        → result ≡ Read }
    ensures lacking { Lacks (sources S.tells (S.told source.old)) (certificate_file certificate.now)
        → IsUnread result K.tells (K.written sink.old) (K.written sink.new) }
    ensures nothing { result ≡ Read → IsTrue K.tells → K.written sink.new ≡ K.written sink.old }
    ensures write { result ≡ Write → Rose (K.faults sink.old) (K.faults sink.new) }
    ensures possible { IsStatusFor (recheck [] []) result }
    ensures unfailed { IsWritten (extent on_a_file result)
        → (S.faults source.new ≡ S.faults source.old) × (K.faults sink.new ≡ K.faults sink.old) }
    ensures memory { IsMemory result
        → (S.faults source.new ≡ S.faults source.old) × (K.faults sink.new ≡ K.faults sink.old) }
    ensures files { S.told source.new ≡ S.told source.old }
    ensures source_count { S.faults source.old ≤ S.faults source.new }
    ensures sink_count { K.faults sink.old ≤ K.faults sink.new }
{
    let bytes = match file_bytes(alloc, source, file, MOST_OF_SOURCE) {
        Ok(bytes) => bytes,
        Err(ReadStop::Failed) => return Status::Read,
        Err(ReadStop::Memory(error)) => return Status::Memory(error),
    };
    let text = match file_bytes(alloc, source, certificate, MOST_OF_CERTIFICATE) {
        Ok(text) => text,
        Err(ReadStop::Failed) => return Status::Read,
        Err(ReadStop::Memory(error)) => return Status::Memory(error),
    };
    write_answer(
        alloc,
        bytes.as_slice(),
        sink,
        Inquiry::Typing(text.as_slice()),
    )
}

/// The certificate of the typing of a source with these bytes, or the line of its first refusal.
pub fn certificate_of(alloc: Global, bytes: &[u8]) -> Result<Answer, AllocError>
    ensures { IfOk result (λ a. Reports (certifying bytes.now) a.text.items a.status) }
{
    match read(alloc, bytes) {
        Ok(program) => certified(alloc, &program),
        Err(Stop::Refused(refusal)) => refused(alloc, refusal, &[]),
        Err(Stop::Memory(error)) => Err(error),
    }
}

/// The certificate of a program's typing, or the line of the first refusal of its types.
fn certified(alloc: Global, program: &Program) -> Result<Answer, AllocError>
    requires { IsResolved (program_of program.now) }
    ensures { (bytes : List ℕ) → IsRead bytes (named_program_of program.now)
        → IfOk result (λ a. Reports (certifying bytes) a.text.items a.status) }
{
    match check(alloc, program) {
        Ok(typed) => {
            let text = write_cert(alloc, program, &typed)?;
            Ok(Answer {
                text,
                status: Status::Answer,
            })
        }
        Err(Stop::Refused(refusal)) => refused(alloc, refusal, program.items.as_slice()),
        Err(Stop::Memory(error)) => Err(error),
    }
}

/// The line that says whether a text certifies the typing of a source with these bytes, or that of the refusal of its
/// reading.
pub fn typing_of(alloc: Global, text: &[u8], bytes: &[u8]) -> Result<Answer, AllocError>
    ensures { IfOk result (λ a. Reports (rechecking text.now bytes.now) a.text.items a.status) }
{
    match read(alloc, bytes) {
        Ok(program) => rechecked(alloc, text, &program),
        Err(Stop::Refused(refusal)) => refused(alloc, refusal, &[]),
        Err(Stop::Memory(error)) => Err(error),
    }
}

/// The line that says whether a text certifies a program's typing.
fn rechecked(alloc: Global, text: &[u8], program: &Program) -> Result<Answer, AllocError>
    requires { IsResolved (program_of program.now) }
    ensures { (bytes : List ℕ) → IsRead bytes (named_program_of program.now)
        → IfOk result (λ a. Reports (rechecking text.now bytes) a.text.items a.status) }
{
    let typed = certifies(alloc, text, program)?;
    let mut line = Vec::new(alloc);
    put_typing(&mut line, typed)?;
    Ok(Answer {
        text: line,
        status: status_of(typed),
    })
}

/// Whether a text certifies a program's typing. One that is longer than a certificate may be doesn't.
fn certifies(alloc: Global, text: &[u8], program: &Program) -> Result<bool, AllocError>
    requires { IsResolved (program_of program.now) }
    ensures { IfOk result (λ typed. Rechecks typed text.now (program_of program.now)) }
{
    if text.len() < MOST_OF_CERTIFICATE {
        holds(alloc, text, program)
    } else {
        Ok(false)
    }
}

/// The status that says whether a text is a certificate.
fn status_of(typed: bool) -> Status
    ensures { result ≡ status_of (rechecked typed) }
{
    if typed {
        Status::Answer
    } else {
        Status::NotTyped
    }
}

/// The line of a refusal, with the items of the program if one was read.
fn refused(alloc: Global, refusal: Refusal, items: &[Item]) -> Result<Answer, AllocError>
    ensures { IfOk result (λ a. (a.status ≡ Refused refusal)
        × (a.text.items ≡ refusal_line (map (λ (i : PureItem). i.name) items.now) refusal)) }
{
    let mut text = Vec::new(alloc);
    put_refusal(alloc, &mut text, refusal, items)?;
    Ok(Answer {
        text,
        status: Status::Refused(refusal),
    })
}
