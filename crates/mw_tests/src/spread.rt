// Items over several workers, jobs that fail, and gates.

ghost use Rattle.std.specs.Prelude.{◌≡◌, ◌*◌, ◌≤◌};

use mw_outside::{Gate, Pass};
use mw_spread::{Job, JobFault, spread};
use std::alloc::{AllocError, Global};
use std::sync::atomic::{AtomicU64, Ordering};
use std::test::Fail;
use std::thread::Threads;

/// Gives three times the item. Its digest is never asked for.
#[derive(Drop)]
struct Triple;

impl Job<u32> for Triple {
    type Out = u64;

    ghost takes = { λ _ _. Unit {0} };

    ghost gives = { λ _ item out. out ≡ 3 * item };

    ghost bad = { λ _ _ _. ⊥ };

    fn work<R: Threads + Sync>(
        &self,
        _rt: &R,
        _alloc: Global,
        item: &u32,
    ) -> Result<u64, JobFault> {
        Ok(3 * u64::from(*item))
    }
}

/// Finds the bytes of one item bad.
#[derive(Drop)]
struct BadAt(u32);

impl Job<u32> for BadAt {
    type Out = u64;

    ghost takes = { λ _ _. Unit {0} };

    ghost gives = { λ _ _ _. Unit {0} };

    ghost bad = { λ _ _ _. Unit {0} };

    fn work<R: Threads + Sync>(
        &self,
        _rt: &R,
        _alloc: Global,
        item: &u32,
    ) -> Result<u64, JobFault> {
        if *item == self.0 {
            return Err(JobFault::Bad([7; 32]));
        }
        Ok(0)
    }
}

/// Keeps how many pieces passed, and which, as bits: piece j is bit j, and piece 64 is bit 0.
#[derive(Drop)]
struct Seen {
    count: AtomicU64,
    pieces: AtomicU64,
}

impl Seen {
    fn new() -> Seen {
        Seen {
            count: AtomicU64::new(0),
            pieces: AtomicU64::new(0),
        }
    }
}

impl Gate for Seen {
    fn enter(&self, piece: u32) {
        self.count.fetch_add(1, Ordering::SeqCst);
        self.pieces
            .fetch_or(1u64.rotate_left(piece), Ordering::SeqCst);
    }
}

/// Gives how many pieces have passed a gate.
#[derive(Drop)]
struct Passed<'a>(&'a Seen);

impl<'a> Job<u32> for Passed<'a> {
    type Out = u64;

    ghost takes = { λ _ _. Unit {0} };

    ghost gives = { λ _ _ _. Unit {0} };

    ghost bad = { λ _ _ _. ⊥ };

    fn work<R: Threads + Sync>(
        &self,
        _rt: &R,
        _alloc: Global,
        _item: &u32,
    ) -> Result<u64, JobFault> {
        Ok(self.0.count.load(Ordering::SeqCst))
    }
}

/// Holds the first piece until the second has entered, for a bounded number of looks.
#[derive(Drop)]
struct Holds {
    second: AtomicU64,
    met: AtomicU64,
}

impl Gate for Holds {
    fn enter(&self, piece: u32) {
        if piece == 2 {
            self.second.store(1, Ordering::SeqCst);
            return;
        }
        for _ in 0..200_000_000u64 {
            if self.second.load(Ordering::SeqCst) == 1 {
                self.met.store(1, Ordering::SeqCst);
                return;
            }
        }
    }
}

/// The numbers below `count`.
fn numbers(alloc: Global, count: u32) -> Result<Vec<u32>, AllocError> {
    let mut all = Vec::new(alloc);
    for number in 0..count {
        all.push(number)?;
    }
    Ok(all)
}

/// Items, workers, how many pieces there are, and the bits of these.
const ROWS: &[(u32, u32, u64, u64)] = &[
    (0, 1, 0, 0),
    (0, 64, 0, 0),
    (1, 1, 1, 0b10),
    (1, 2, 1, 0b10),
    (1, 64, 1, 0b10),
    (7, 1, 1, 0b10),
    (7, 2, 2, 0b110),
    (7, 3, 3, 0b1110),
    (7, 64, 7, 0b1111_1110),
    (1000, 1, 1, 0b10),
    (1000, 2, 2, 0b110),
    (1000, 3, 3, 0b1110),
    (1000, 64, 64, 0xffff_ffff_ffff_ffff),
];

/// Whether the outputs are these.
fn are(outs: &Result<Vec<u64>, JobFault>, want: &[u64]) -> bool {
    match outs {
        Ok(all) => all.as_slice() == want,
        Err(_) => false,
    }
}

/// Whether a fault is bad bytes, with a digest of these bytes alone.
fn is_bad(fault: &JobFault, byte: u8) -> bool {
    match fault {
        JobFault::Bad(digest) => digest.iter().all(|&x| x == byte),
        JobFault::Memory(_) => false,
    }
}

/// Whether there are no outputs, because of bad bytes.
fn found_bad(outs: &Result<Vec<u64>, JobFault>, byte: u8) -> bool {
    match outs {
        Ok(_) => false,
        Err(fault) => is_bad(fault, byte),
    }
}

/// Whether these are the triples of the numbers below `count`.
fn are_triples(outs: &[u64], count: u32) -> bool {
    let mut fine = outs.len() == count as usize;
    let mut want = 0u64;
    for out in outs {
        fine = fine && *out == want;
        want = want.wrapping_add(3);
    }
    fine
}

/// Whether the outputs are in order, and the pieces are those of the row.
fn splits<R: Threads + Sync>(
    rt: &R,
    alloc: Global,
    row: (u32, u32, u64, u64),
) -> Result<bool, JobFault>
    requires { 1 ≤ row.1 }
{
    let (count, workers, pieces, bits) = row;
    let items = numbers(alloc, count)?;
    let gate = Seen::new();
    let outs = spread(rt, alloc, workers, items.as_slice(), &Triple, &gate)?;
    let passed = gate.count.load(Ordering::SeqCst) == pieces;
    let which = gate.pieces.load(Ordering::SeqCst) == bits;
    Ok(passed && which && are_triples(outs.as_slice(), count))
}

#[test]
fn outputs_are_in_order(rt: HostRuntime) -> Result<(), Fail> {
    for row in ROWS {
        assert!(rt; row.1 >= 1);
        assert!(rt;
            matches!(splits(&rt, rt.alloc(), *row), Ok(true)),
            "{} by {}",
            row.0,
            row.1
        );
    }
    Ok(())
}

#[test]
fn fault_in_the_middle(rt: HostRuntime) -> Result<(), Fail> {
    let items = numbers(rt.alloc(), 1000)?;
    for workers in [1u32, 2, 3, 64] {
        assert!(rt; workers >= 1);
        let outs = spread(
            &rt,
            rt.alloc(),
            workers,
            items.as_slice(),
            &BadAt(500),
            &Pass,
        );
        assert!(rt; found_bad(&outs, 7), "{workers} workers");
    }
    Ok(())
}

#[test]
fn gate_comes_before_items(rt: HostRuntime) -> Result<(), Fail> {
    let items = numbers(rt.alloc(), 7)?;
    let gate = Seen::new();
    let outs = spread(&rt, rt.alloc(), 1, items.as_slice(), &Passed(&gate), &gate);
    assert!(rt; are(&outs, &[1, 1, 1, 1, 1, 1, 1]));
    Ok(())
}

#[test]
fn pieces_meet_at_the_gate(rt: HostRuntime) -> Result<(), Fail> {
    let items = numbers(rt.alloc(), 2)?;
    let gate = Holds {
        second: AtomicU64::new(0),
        met: AtomicU64::new(0),
    };
    let outs = spread(&rt, rt.alloc(), 2, items.as_slice(), &Triple, &gate);
    assert!(rt; are(&outs, &[0, 3]));
    assert!(rt; gate.met.load(Ordering::SeqCst) == 1);
    Ok(())
}
