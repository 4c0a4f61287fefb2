// A keeper in memory over one script of calls, each of which fails in turn.

ghost use Rattle.std.specs.Prelude.{◌<◌};

use super::MemKeeper;
use crate::tests::calls;
use crate::{Bytes, KeepFault, Keeper};
use std::alloc::{AllocError, Global};

/// How many calls the script has.
const CALLS: usize = 5;

#[derive(Clone, Copy)]
enum Call {
    Start,
    ReadAll(usize),
    Cut(usize),
    Append(&'static [u8]),
}

const SCRIPT: [Call; CALLS] = [
    Call::Start,
    Call::ReadAll(5),
    Call::Cut(3),
    Call::Append(b" fo"),
    Call::Append(b"ur"),
];

/// The calls that fail, the bytes read by the second call, and after each call what is held and how
/// often it has failed.
struct KeepRow {
    failing: &'static [u64],
    read: &'static [u8],
    held: [&'static [u8]; CALLS],
    faults: [u64; CALLS],
}

const ROWS: &[KeepRow] = &[
    KeepRow {
        failing: &[],
        read: b"one t",
        held: [b"one two", b"one two", b"one", b"one fo", b"one four"],
        faults: [0, 0, 0, 0, 0],
    },
    KeepRow {
        failing: &[0],
        read: b"one t",
        held: [b"one two", b"one two", b"one", b"one fo", b"one four"],
        faults: [1, 1, 1, 1, 1],
    },
    KeepRow {
        failing: &[1],
        read: b"",
        held: [b"one two", b"one two", b"one", b"one fo", b"one four"],
        faults: [0, 1, 1, 1, 1],
    },
    KeepRow {
        failing: &[2],
        read: b"one t",
        held: [
            b"one two",
            b"one two",
            b"one two",
            b"one two fo",
            b"one two four",
        ],
        faults: [0, 0, 1, 1, 1],
    },
    KeepRow {
        failing: &[3],
        read: b"one t",
        held: [b"one two", b"one two", b"one", b"one", b"oneur"],
        faults: [0, 0, 0, 1, 1],
    },
    KeepRow {
        failing: &[4],
        read: b"one t",
        held: [b"one two", b"one two", b"one", b"one fo", b"one fo"],
        faults: [0, 0, 0, 0, 1],
    },
    KeepRow {
        failing: &[7, 3, 2],
        read: b"one t",
        held: [b"one two", b"one two", b"one two", b"one two", b"one twour"],
        faults: [0, 0, 1, 2, 2],
    },
];

/// The bytes that the call gives; none where it gives no bytes.
fn answer_of(alloc: Global, keeper: &mut MemKeeper, call: Call) -> Result<Vec<u8>, KeepFault> {
    match call {
        Call::ReadAll(most) => return keeper.read_all(alloc, most),
        Call::Start => keeper.start("any")?,
        Call::Cut(length) => keeper.cut(length)?,
        Call::Append(bytes) => keeper.append(bytes)?,
    }
    Ok(Vec::new(alloc))
}

/// The bytes that the call of this number gives where it succeeds.
fn given_by(row: &KeepRow, number: usize) -> &'static [u8] {
    if number == 1 {
        row.read
    } else {
        b"".as_slice()
    }
}

/// Whether a call fails where it is to, and gives these bytes elsewhere.
fn is_given(answer: &Result<Vec<u8>, KeepFault>, fails: bool, bytes: &[u8]) -> bool {
    match answer {
        Ok(found) => !fails && found.as_slice() == bytes,
        Err(fault) => fails && *fault == KeepFault::Failed,
    }
}

/// Whether a keeper holds these bytes, and has failed so often.
fn is_left(keeper: &MemKeeper, held: &[u8], faults: u64) -> bool {
    keeper.held() == held && keeper.plan.faults() == faults
}

/// Makes the call of this number, and says whether it goes as the row says.
fn goes_as(alloc: Global, keeper: &mut MemKeeper, row: &KeepRow, number: usize) -> bool
    requires { number < 5 }
{
    let answer = answer_of(alloc, keeper, SCRIPT[number]);
    let fails = row.failing.contains(&(number as u64));
    let given = is_given(&answer, fails, given_by(row, number));
    given && is_left(keeper, row.held[number], row.faults[number])
}

/// A keeper that holds `one two`, with calls that fail.
fn keeper_of(alloc: Global, failing: &[u64]) -> Result<MemKeeper, AllocError> {
    let failing = calls(alloc, failing)?;
    let held = Bytes::copied(alloc, b"one two")?;
    Ok(MemKeeper::new(alloc, held, failing))
}

#[test]
fn each_call_fails_in_turn(rt: HostRuntime) -> Result<(), AllocError> {
    for row in ROWS {
        let mut keeper = keeper_of(rt.alloc(), row.failing)?;
        assert!(rt; is_left(&keeper, b"one two", 0));
        for number in 0..CALLS {
            let fine = goes_as(rt.alloc(), &mut keeper, row, number);
            assert!(rt; fine, "call {number}, failing {:?}", row.failing);
        }
    }
    Ok(())
}
