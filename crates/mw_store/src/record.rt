// Records, written.

ghost use Rattle.std.specs.Prelude.{◌≡◌, ◌<◌, ◌^◌, length, IfOk};
ghost use Rattle.mw_store.specs.Records.{Kept, record_bytes};

use mw_key::digest;
use std::alloc::{AllocError, Global};

/// The record of a text and of a module's bytes, each shorter than 2^32. The error is want of memory.
pub fn record_of(alloc: Global, text: &[u8], module: &[u8]) -> Result<Vec<u8>, AllocError>
    requires text { length text.now < 2 ^ 32 }
    requires bytes { length «module».now < 2 ^ 32 }
    ensures { let kept : Kept = record { text = text.now; bytes = «module».now } in
        IfOk result (λ bytes. bytes.items ≡ record_bytes kept) }
{
    let mut bytes = Vec::new(alloc);
    bytes.reserve_exact(40 + text.len() + module.len())?;
    bytes.extend_from_slice(&(text.len() as u32).to_le_bytes())?;
    bytes.extend_from_slice(&(module.len() as u32).to_le_bytes())?;
    bytes.extend_from_slice(text)?;
    bytes.extend_from_slice(module)?;
    let end = digest(bytes.as_slice());
    bytes.extend_from_slice(&end)?;
    Ok(bytes)
}
