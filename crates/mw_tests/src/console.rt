// The lines of a migration and of a recheck, written by hand.

use mw_console::{put_migrated, put_typing};
use std::alloc::{AllocError, Global};

/// The numbers of a migration, and its two lines behind what was written before.
const MIGRATIONS: &[(u32, u32, &[u8])] = &[
    (0, 0, b"before\nold 0\nadded 0\n"),
    (1, 1, b"before\nold 1\nadded 1\n"),
    (1, 0, b"before\nold 1\nadded 0\n"),
    (12, 7, b"before\nold 12\nadded 7\n"),
    (
        4294967295,
        4294967295,
        b"before\nold 4294967295\nadded 4294967295\n",
    ),
];

fn migration(alloc: Global, old: u32, added: u32) -> Result<Vec<u8>, AllocError> {
    let mut text = Vec::from_slice(alloc, b"before\n")?;
    put_migrated(alloc, &mut text, old, added)?;
    Ok(text)
}

#[test]
fn migrations(rt: HostRuntime) -> Result<(), AllocError> {
    for &(old, added, expected) in MIGRATIONS {
        let text = migration(rt.alloc(), old, added)?;
        assert_eq!(rt; text.as_slice(), expected);
    }
    Ok(())
}

/// The line of each answer of a recheck, behind what was written before.
const TYPINGS: &[(bool, &[u8])] = &[(true, b"before\ntyped\n"), (false, b"before\nnot typed\n")];

fn typing(alloc: Global, typed: bool) -> Result<Vec<u8>, AllocError> {
    let mut text = Vec::from_slice(alloc, b"before\n")?;
    put_typing(&mut text, typed)?;
    Ok(text)
}

#[test]
fn typings(rt: HostRuntime) -> Result<(), AllocError> {
    for &(typed, expected) in TYPINGS {
        let text = typing(rt.alloc(), typed)?;
        assert_eq!(rt; text.as_slice(), expected);
    }
    Ok(())
}
