// Whole records.

ghost use Rattle.std.specs.Prelude.{◌≡◌, ◌≤◌, ◌+◌, ℕ, length, IfOk, MatchBool, ◌≢◌, MatchOption};
ghost use Rattle.sha2.specs.Sha256.{sha256};
ghost use Rattle.mw_term.specs.Terms.{kernel_type_of};
ghost use Rattle.mw_wasm.specs.Profile.{IsWithinFileLimit};
ghost use Rattle.mw_wasm.specs.Views.{module_of};
ghost use Rattle.mw_store.specs.Records.{record_bytes};
ghost use Rattle.mw_store.specs.Loads.{file_limit};
ghost use Rattle.mw_store.specs.Whole.{kept_in, IsTyped, NoText, IsSound, NoModule, HasModuleOf, NoModuleOf};
ghost use Rattle.mw_store.specs.Whole.{HasKernelModule, NoKernelModule, IsFoundIn};

use crate::parts::{Parts, parts_of};
use mw_decode::{DecodeFault, decode};
use mw_key::{TextFault, digest, read_type};
use mw_meaning::has_shape;
use mw_term::KType;
use mw_validate::{Valid, ValidFault, validate};
use std::alloc::{AllocError, Global};

/// A whole record: its text, and its module's bytes.
#[derive(Drop)]
pub(crate) struct WholeRecord<'a> {
    pub(crate) text: &'a [u8],
    pub(crate) bytes: &'a [u8],
}

/// The whole record that begins these bytes, where it isn't longer than the room.
pub(crate) fn whole_record(
    alloc: Global,
    bytes: &[u8],
    room: usize,
) -> Result<Option<WholeRecord<'_>>, AllocError>
    requires room { room ≤ file_limit }
    ensures { IfOk result (λ found. IsFoundIn found bytes.now room) }
{
    let Some(parts) = parts_of(bytes) else {
        return Ok(None);
    };
    if parts.len() > room as u64 {
        return Ok(None);
    }
    if !parts.is_undamaged() {
        return Ok(None);
    }
    let Parts { text, module, .. } = parts;
    if !has_kernel_module(alloc, text, module)? {
        return Ok(None);
    }
    Ok(Some(WholeRecord {
        text,
        bytes: module,
    }))
}

impl Parts<'_> {
    /// How many bytes the record has.
    fn len(&self) -> u64
        ensures { result ≡ length self.now.body.now + 32 }
    {
        self.body.len() as u64 + 32
    }

    /// Whether the digest is that of the bytes before it.
    fn is_undamaged(&self) -> bool
        ensures { let right = sha256 self.now.body.now in
            MatchBool result (self.now.digest.now ≡ right) (self.now.digest.now ≢ right) }
    {
        digest(self.body).as_slice() == self.digest
    }
}

/// Whether the text is canonical, and the bytes spell a valid module of the shape for the text's type. The module is
/// let go: it is decoded again if it is asked for.
fn has_kernel_module(alloc: Global, text: &[u8], bytes: &[u8]) -> Result<bool, AllocError>
    requires limit { IsWithinFileLimit bytes.now }
    ensures { IfOk result (λ has. MatchBool has (HasKernelModule text.now bytes.now)
        (NoKernelModule text.now bytes.now)) }
{
    match type_of_text(alloc, text)? {
        Some(kind) => has_module_of(alloc, bytes, &kind),
        None => Ok(false),
    }
}

/// Whether the bytes spell a valid module of the shape for the type.
fn has_module_of(alloc: Global, bytes: &[u8], kind: &KType) -> Result<bool, AllocError>
    requires limit { IsWithinFileLimit bytes.now }
    ensures { let k = kernel_type_of kind.now in
        IfOk result (λ has. MatchBool has (HasModuleOf bytes.now k) (NoModuleOf bytes.now k)) }
{
    match sound_module(alloc, bytes)? {
        Some(valid) => Ok(has_shape(valid.module(), kind)),
        None => Ok(false),
    }
}

/// The type of a canonical text.
fn type_of_text(alloc: Global, text: &[u8]) -> Result<Option<KType>, AllocError>
    ensures { IfOk result (λ found. MatchOption found (NoText text.now)
        (λ kind. IsTyped text.now (kernel_type_of kind))) }
{
    match read_type(alloc, text) {
        Ok(kind) => Ok(Some(kind)),
        Err(TextFault::BadText) => Ok(None),
        Err(TextFault::Memory(error)) => Err(error),
    }
}

/// The module that the bytes spell within the profile, where it is valid.
pub(crate) fn sound_module(alloc: Global, bytes: &[u8]) -> Result<Option<Valid>, AllocError>
    requires limit { IsWithinFileLimit bytes.now }
    ensures { IfOk result (λ found. MatchOption found (NoModule bytes.now)
        (λ valid. IsSound bytes.now (module_of valid))) }
{
    match decode(alloc, bytes) {
        Ok(module) => match validate(alloc, module) {
            Ok(valid) => Ok(Some(valid)),
            Err(ValidFault::Bad(_)) => Ok(None),
            Err(ValidFault::Memory(error)) => Err(error),
        },
        Err(DecodeFault::Bad(_)) => Ok(None),
        Err(DecodeFault::Memory(error)) => Err(error),
    }
}

impl WholeRecord<'_> {
    /// How many bytes the record has.
    pub(crate) fn len(&self) -> usize
        requires { length (record_bytes (kept_in self.now)) ≤ file_limit }
        ensures { result ≡ length (record_bytes (kept_in self.now)) }
    {
        40 + self.text.len() + self.bytes.len()
    }
}
