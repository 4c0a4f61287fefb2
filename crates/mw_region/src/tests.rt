// Items put in and cut off, as a table.

use super::*;
use std::alloc::{AllocError, Global};
use std::sync::atomic::AtomicU64;
use std::sync::atomic::Ordering::SeqCst;
use std::test::Fail;

enum Step {
    Put(u32),
    Cut(usize),
}

use Step::{Cut, Put};

// What is done with an empty pool, and the items that it has then.
const STEPS: &[(&[Step], &[u32])] = &[
    (&[], &[]),
    (&[Put(7)], &[7]),
    (&[Put(7), Put(8), Put(7)], &[7, 8, 7]),
    (&[Put(7), Cut(0)], &[]),
    (&[Put(7), Cut(1)], &[7]),
    (&[Put(7), Put(8), Put(9), Cut(1)], &[7]),
    (&[Put(7), Put(8), Cut(1), Put(9)], &[7, 9]),
    (
        &[Put(7), Put(8), Cut(0), Put(9), Put(5), Cut(2), Put(6)],
        &[9, 5, 6],
    ),
];

fn filled(alloc: Global, steps: &[Step]) -> Result<Pool<u32>, AllocError> {
    let mut pool = Pool::new(alloc);
    for step in steps {
        match step {
            Step::Put(item) => {
                pool.reserve(1)?;
                pool.put(*item);
            }
            Step::Cut(length) => {
                if *length <= pool.len() {
                    pool.cut(Mark { length: *length });
                }
            }
        }
    }
    Ok(pool)
}

#[test]
fn items(rt: HostRuntime) -> Result<(), Fail> {
    for &(steps, expected) in STEPS {
        let pool = filled(rt.alloc(), steps)?;
        assert_eq!(rt; pool.len(), expected.len());
        assert_eq!(rt; pool.mark().length, expected.len());
        for place in 0..pool.len() {
            let id = Id { place };
            assert_eq!(rt; Some(pool.get(id)), expected.get(place));
        }
    }
    Ok(())
}

#[test]
fn many(rt: HostRuntime) -> Result<(), Fail> {
    let mut pool = Pool::new(rt.alloc());
    for item in 0..100_000 {
        pool.reserve(1)?;
        let id = pool.put(item);
        assert_eq!(rt; *pool.get(id), item);
    }
    assert_eq!(rt; pool.len(), 100_000);
    Ok(())
}

/// Counts its drop.
struct Counted<'a> {
    count: &'a AtomicU64,
}

impl<'a> Drop for Counted<'a> {
    fn drop(self) {
        let Counted { count } = self;
        count.fetch_add(1, SeqCst);
    }
}

/// Makes room for 3,000 items and puts them.
fn put_all<'a>(pool: &mut Pool<Counted<'a>>, count: &'a AtomicU64) -> Result<(), AllocError> {
    for _ in 0..3000 {
        pool.reserve(1)?;
        let _id = pool.put(Counted { count });
    }
    Ok(())
}

/// How many items a cut to 1,000 drops, and how many are dropped in all.
fn drops(alloc: Global) -> Result<(u64, u64), AllocError> {
    let count = AtomicU64::new(0);
    let mut pool = Pool::new(alloc);
    put_all(&mut pool, &count)?;
    if pool.len() >= 1000 {
        pool.cut(Mark { length: 1000 });
    }
    let cut = count.load(SeqCst);
    drop(pool);
    Ok((cut, count.load(SeqCst)))
}

#[test]
fn each_item_is_dropped_once(rt: HostRuntime) -> Result<(), Fail> {
    let (cut, all) = drops(rt.alloc())?;
    assert!(rt; cut == 2000 && all == 3000);
    Ok(())
}

/// A pool with the numbers below 2,000, put in after one reserve.
fn numbers(alloc: Global) -> Result<Pool<u32>, AllocError> {
    let mut pool = Pool::new(alloc);
    pool.reserve(2000)?;
    for n in 0..2000u32 {
        let _id = pool.put(n);
    }
    Ok(pool)
}

#[test]
fn items_of_two_chunks(rt: HostRuntime) -> Result<(), Fail> {
    let pool = numbers(rt.alloc())?;
    assert!(rt; pool.len() == 2000);
    assert!(rt; *pool.get(Id { place: 1023 }) == 1023 && *pool.get(Id { place: 1024 }) == 1024);
    Ok(())
}

// 48 places are left of two chunks, and five more chunks make 5,168. In an ordinary run the second call succeeds. It
// makes the fifth to tenth allocation, the list of chunks and then each chunk: `rt try --test --fail-alloc N` refuses
// the Nth.
#[test]
fn refused_room_changes_nothing(rt: HostRuntime) -> Result<(), Fail> {
    let mut pool = numbers(rt.alloc())?;
    for more in [usize::MAX, 5000] {
        let refused = pool.reserve(more).is_err();
        assert!(rt; refused || more == 5000);
        let room = if refused { 48 } else { 5168 };
        assert_eq!(rt; pool.spare(), room);
        assert_eq!(rt; pool.len(), 2000);
        assert!(rt; *pool.get(Id { place: 0 }) == 0 && *pool.get(Id { place: 1999 }) == 1999);
    }
    Ok(())
}
