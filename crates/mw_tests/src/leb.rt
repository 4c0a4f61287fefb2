// Numbers at the edges of lengths and types: their bytes, and the numbers of bytes.

use mw_leb::{Leb, put_s32, put_s64, put_u32, read_s32, read_s64, read_u32};
use std::alloc::{AllocError, Global};

const UNSIGNED: &[(u32, &[u8])] = &[
    (0, &[0x00]),
    (127, &[0x7f]),
    (128, &[0x80, 0x01]),
    (300, &[0xac, 0x02]),
    (u32::MAX, &[0xff, 0xff, 0xff, 0xff, 0x0f]),
];

fn unsigned_bytes(alloc: Global, value: u32) -> Result<Vec<u8>, AllocError> {
    let mut out = Vec::new(alloc);
    put_u32(&mut out, value)?;
    Ok(out)
}

#[test]
fn unsigned_numbers(rt: HostRuntime) -> Result<(), AllocError> {
    for &(value, bytes) in UNSIGNED {
        let out = unsigned_bytes(rt.alloc(), value)?;
        assert_eq!(rt; out.as_slice(), bytes, "at {value}");
    }
    Ok(())
}

const SIGNED: &[(i32, &[u8])] = &[
    (-1, &[0x7f]),
    (63, &[0x3f]),
    (64, &[0xc0, 0x00]),
    (-64, &[0x40]),
    (-65, &[0xbf, 0x7f]),
    (i32::MAX, &[0xff, 0xff, 0xff, 0xff, 0x07]),
    (i32::MIN, &[0x80, 0x80, 0x80, 0x80, 0x78]),
];

fn signed_bytes(alloc: Global, value: i32) -> Result<Vec<u8>, AllocError> {
    let mut out = Vec::new(alloc);
    put_s32(&mut out, value)?;
    Ok(out)
}

fn long_signed_bytes(alloc: Global, value: i64) -> Result<Vec<u8>, AllocError> {
    let mut out = Vec::new(alloc);
    put_s64(&mut out, value)?;
    Ok(out)
}

#[test]
fn signed_numbers(rt: HostRuntime) -> Result<(), AllocError> {
    for &(value, bytes) in SIGNED {
        let out = signed_bytes(rt.alloc(), value)?;
        assert_eq!(rt; out.as_slice(), bytes, "at {value}");
        let out = long_signed_bytes(rt.alloc(), i64::from(value))?;
        assert_eq!(rt; out.as_slice(), bytes, "at {value}");
    }
    Ok(())
}

const GREATEST: &[u8] = &[0xff, 0xff, 0xff, 0xff, 0xff, 0xff, 0xff, 0xff, 0xff, 0x00];

const LEAST: &[u8] = &[0x80, 0x80, 0x80, 0x80, 0x80, 0x80, 0x80, 0x80, 0x80, 0x7f];

const LONG_SIGNED: &[(i64, &[u8])] = &[(i64::MAX, GREATEST), (i64::MIN, LEAST)];

#[test]
fn long_signed_numbers(rt: HostRuntime) -> Result<(), AllocError> {
    for &(value, bytes) in LONG_SIGNED {
        let out = long_signed_bytes(rt.alloc(), value)?;
        assert_eq!(rt; out.as_slice(), bytes, "at {value}");
    }
    Ok(())
}

const UNSIGNED_READ: &[(&[u8], Result<(u32, usize), Leb>)] = &[
    (&[0x00], Ok((0, 1))),
    (&[0xac, 0x02, 0x55], Ok((300, 2))),
    (&[0xff, 0xff, 0xff, 0xff, 0x0f], Ok((u32::MAX, 5))),
    (&[0x83, 0x80, 0x80, 0x80, 0x00], Ok((3, 5))),
    (&[0xff, 0xff, 0xff, 0xff, 0x1f], Err(Leb::UnusedBits)),
    (&[0x83, 0x80, 0x80, 0x80, 0x80, 0x00], Err(Leb::TooLong)),
    (&[0x83, 0x80, 0x80, 0x80, 0x80], Err(Leb::TooLong)),
    (&[0x83, 0x80, 0x80, 0x80], Err(Leb::Short)),
    (&[], Err(Leb::Short)),
];

#[test]
fn unsigned_numbers_are_read(rt: HostRuntime) {
    for (bytes, answer) in UNSIGNED_READ {
        assert_eq!(rt; read_u32(bytes, 0), *answer);
    }
}

const SIGNED_READ: &[(&[u8], Result<(i32, usize), Leb>)] = &[
    (&[0x7f], Ok((-1, 1))),
    (&[0xc0, 0x00], Ok((64, 2))),
    (&[0xff, 0xff, 0xff, 0xff, 0x07], Ok((i32::MAX, 5))),
    (&[0x80, 0x80, 0x80, 0x80, 0x78], Ok((i32::MIN, 5))),
    (&[0xff, 0xff, 0xff, 0xff, 0x7f], Ok((-1, 5))),
    (&[0xff, 0xff, 0xff, 0xff, 0x0f], Err(Leb::UnusedBits)),
    (&[0x80, 0x80, 0x80, 0x80, 0x70], Err(Leb::UnusedBits)),
    (&[0xff, 0xff, 0xff, 0xff, 0xff, 0x7f], Err(Leb::TooLong)),
    (&[0x80], Err(Leb::Short)),
];

#[test]
fn signed_numbers_are_read(rt: HostRuntime) {
    for (bytes, answer) in SIGNED_READ {
        assert_eq!(rt; read_s32(bytes, 0), *answer);
    }
}

const UNUSED: &[u8] = &[0x80, 0x80, 0x80, 0x80, 0x80, 0x80, 0x80, 0x80, 0x80, 0x7e];

const LONG: &[u8] = &[0xff, 0xff, 0xff, 0xff, 0xff, 0xff, 0xff, 0xff, 0xff, 0x80];

/// Bytes, the place from which on they are read, and the answer.
const LONG_SIGNED_READ: &[(&[u8], usize, Result<(i64, usize), Leb>)] = &[
    (GREATEST, 0, Ok((i64::MAX, 10))),
    (LEAST, 0, Ok((i64::MIN, 10))),
    (UNUSED, 0, Err(Leb::UnusedBits)),
    (LONG, 0, Err(Leb::TooLong)),
    (GREATEST, 9, Ok((0, 10))),
    (GREATEST, 10, Err(Leb::Short)),
];

#[test]
fn long_signed_numbers_are_read(rt: HostRuntime) {
    for (bytes, at, answer) in LONG_SIGNED_READ {
        assert!(rt; *at <= bytes.len());
        assert_eq!(rt; read_s64(bytes, *at), *answer);
    }
}
