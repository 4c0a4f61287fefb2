// The records of a cache file, each summed, decoded and validated and then given up: the least that loading them costs.

use mw_decode::{DecodeFault, decode};
use mw_validate::{ValidFault, validate};
use sha2::{Digest, Sha256};
use std::alloc::{AllocError, Global};

/// The fewest bytes that a record has: two lengths and a digest.
const LEAST: usize = 40;

/// A record's module, the bytes that its digest sums, the digest, and what is after it.
#[derive(Drop)]
struct Parts<'a> {
    module: &'a [u8],
    body: &'a [u8],
    digest: &'a [u8],
    rest: &'a [u8],
}

/// The number in the first four bytes, the lowest first, and what is after them.
fn length(bytes: &[u8]) -> Option<(usize, &[u8])> {
    match bytes {
        [first, second, third, fourth, rest @ ..] => {
            let length = u32::from_le_bytes([*first, *second, *third, *fourth]);
            Some((length as usize, rest))
        }
        _ => None,
    }
}

/// The parts of the record that begins the bytes, where all of it is there.
fn parts_of(bytes: &[u8]) -> Option<Parts<'_>> {
    let (text_length, rest) = length(bytes)?;
    let (module_length, rest) = length(rest)?;
    let (_, rest) = rest.split_at_checked(text_length)?;
    let (module, rest) = rest.split_at_checked(module_length)?;
    let (digest, rest) = rest.split_at_checked(32)?;
    let body = bytes.get(..bytes.len().saturating_sub(rest.len()).saturating_sub(32))?;
    Some(Parts {
        module,
        body,
        digest,
        rest,
    })
}

/// Whether the bytes are a valid module.
fn is_valid(alloc: Global, bytes: &[u8]) -> Result<bool, AllocError> {
    match decode(alloc, bytes) {
        Ok(module) => match validate(alloc, module) {
            Ok(_) => Ok(true),
            Err(ValidFault::Bad(_)) => Ok(false),
            Err(ValidFault::Memory(error)) => Err(error),
        },
        Err(DecodeFault::Bad(_)) => Ok(false),
        Err(DecodeFault::Memory(error)) => Err(error),
    }
}

/// How many records stand at the front of the bytes whose digest is right and whose module is valid.
pub fn sound_records(alloc: Global, bytes: &[u8]) -> Result<u64, AllocError> {
    let mut count = 0u64;
    let mut left = bytes;
    for _record in 0..bytes.len() / LEAST {
        let Some(parts) = parts_of(left) else {
            break;
        };
        if Sha256::digest(parts.body).as_slice() != parts.digest
            || !is_valid(alloc, parts.module)?
        {
            break;
        }
        count = count.saturating_add(1);
        left = parts.rest;
    }
    Ok(count)
}
