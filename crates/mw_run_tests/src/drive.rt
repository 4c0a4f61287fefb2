// Runs whose pieces meet at a gate, and tables that outlive runs.

ghost use Rattle.std.specs.Prelude.{◌≤◌};

use mw_compile::Entry;
use mw_compile::laws::entries_cross;
use mw_drive::{Status, run, table};
use mw_key::start_of;
use mw_outside::{Bytes, Calls, Files, Gate, MemSink, MemSource, NamedFile, Pass, SureKeeper};
use mw_slots::laws::threads::tables_cross;
use mw_slots::{Make, Receipt, Refused, Table};
use std::alloc::{AllocError, Global};
use std::sync::Arc;
use std::sync::atomic::{AtomicU64, Ordering};
use std::test::Fail;
use std::thread::{Threads, join};

/// The name of the one file.
const NAME: &str = "source.metaml";

/// Two kernel items.
const TWO_KERNELS: &str = "kernel one : int = close .<1>. ;;
kernel two : int = close .<2>. ;;
main : int = run[int] one + run[int] two";

/// Two kernel items that run code, and main, which runs code too.
const FOUR_TEXTS: &str = "kernel a : int = close (let x = run[int] (close .<1>.) in .<2>.) ;;
kernel b : int = close (let x = run[int] (close .<1>.) in .<3>.) ;;
main : int = run[int] (close .<4>.)";

/// The texts of the code that is run there.
const TEXTS: &[&str] = &[
    "emit2 int i 1",
    "emit2 int i 2",
    "emit2 int i 3",
    "emit2 int i 4",
];

/// A kernel that is run twice, and the powers up to 20, which are more texts than 16 slots have room for.
const POWERS: &str = "let rec power n x = if n = 0 then .<1>. else .<.~x * .~(power (n - 1) x)>. ;;
kernel cube : int -> int = close .<fun x -> .~(power 3 .<x>.)>. ;;
let rec all n = if n = 0 then 0 else run[int -> int] (close .<fun x -> .~(power n .<x>.)>.) 2 + all (n - 1) ;;
main : int = run[int -> int] cube 5 + run[int -> int] cube (-2) + all 20";

/// How a run ended, and all that it wrote.
#[derive(Drop)]
struct Ended {
    status: Status,
    written: Vec<u8>,
}

/// The source with its one file, of this text.
fn source_of(alloc: Global, text: &str) -> Result<MemSource, AllocError> {
    let mut files = Files::new(alloc);
    let name = Bytes::copied(alloc, NAME.as_bytes())?;
    let bytes = Bytes::copied(alloc, text.as_bytes())?;
    files.push(NamedFile { name, bytes })?;
    if !files.names_differ() {
        return Err(AllocError);
    }
    Ok(MemSource::new(files, Calls::new(alloc), 4096))
}

/// The words that run the file by so many workers.
fn words_of(alloc: Global, workers: &str) -> Result<Vec<String>, AllocError> {
    let mut words = Vec::new(alloc);
    for word in ["run", "--workers", workers, NAME] {
        words.push(String::from_str(alloc, word)?)?;
    }
    Ok(words)
}

/// How the run of a text by so many workers ends, over a gate and a table.
fn carried_out<R: Threads + Sync, G: Gate>(
    rt: &R,
    alloc: Global,
    workers: &str,
    text: &str,
    gate: &G,
    table: &Table<Entry>,
) -> Result<Ended, AllocError> {
    let words = words_of(alloc, workers)?;
    let mut source = source_of(alloc, text)?;
    let mut sink = MemSink::new(alloc, Calls::new(alloc), 4096);
    let mut keeper = SureKeeper::new(alloc, Bytes::new(alloc));
    let status = run(
        rt,
        alloc,
        words.as_slice(),
        &mut source,
        &mut sink,
        &mut keeper,
        gate,
        table,
    );
    let written = Vec::from_slice(alloc, sink.written())?;
    Ok(Ended { status, written })
}

/// Whether both end with an answer, and wrote the same.
fn answer_alike(one: &Ended, other: &Ended) -> bool {
    let answers = one.status == Status::Answer && other.status == Status::Answer;
    answers && one.written.as_slice() == other.written.as_slice()
}

/// Holds the first piece until the second has entered, for a bounded number of looks.
#[derive(Drop)]
struct Holds {
    second: AtomicU64,
    met: AtomicU64,
}

impl Gate for Holds {
    fn enter(&self, piece: u32) {
        if piece == 2 {
            self.second.store(1, Ordering::SeqCst);
            return;
        }
        for _ in 0..200_000_000u64 {
            if self.second.load(Ordering::SeqCst) == 1 {
                self.met.store(1, Ordering::SeqCst);
                return;
            }
        }
    }
}

#[test]
fn pieces_overlap_at_the_gate(rt: HostRuntime) -> Result<(), Fail> {
    let gate = Holds {
        second: AtomicU64::new(0),
        met: AtomicU64::new(0),
    };
    let fresh = table(rt.alloc(), 1_024)?;
    let one = carried_out(&rt, rt.alloc(), "1", TWO_KERNELS, &Pass, &fresh)?;
    let shared = table(rt.alloc(), 1_024)?;
    let two = carried_out(&rt, rt.alloc(), "2", TWO_KERNELS, &gate, &shared)?;
    assert!(rt; answer_alike(&one, &two));
    assert!(rt; gate.met.load(Ordering::SeqCst) == 1);
    Ok(())
}

/// Finds no memory.
#[derive(Drop)]
struct NoMaker;

impl Make<Entry> for NoMaker {
    ghost takes = { λ _ _. Unit {0} };

    ghost gives = { λ _ _ _. ⊥ };

    ghost leaves = { λ _ _ _. Unit {0} };

    fn make(&mut self, _alloc: Global, _name: &[u8]) -> Result<Arc<Entry>, AllocError> {
        Err(AllocError)
    }
}

/// The receipt of a text, or want of memory where the table hasn't its module.
fn found(
    alloc: Global,
    table: &Table<Entry>,
    text: &str,
) -> Result<Receipt<Entry>, Refused<Entry>> {
    let name = text.as_bytes();
    table.fetch(alloc, name, start_of(name), &mut NoMaker)
}

#[test]
fn table_has_what_was_run(rt: HostRuntime) -> Result<(), Fail> {
    let table = table(rt.alloc(), 1_024)?;
    let end = carried_out(&rt, rt.alloc(), "2", FOUR_TEXTS, &Pass, &table)?;
    assert!(rt; end.status == Status::Answer);
    for text in TEXTS {
        let answer = found(rt.alloc(), &table, text);
        assert!(rt; matches!(&answer, Ok(_)), "{text}");
    }
    let answer = found(rt.alloc(), &table, "emit2 int i 5");
    assert!(rt; matches!(&answer, Err(Refused::Memory(_))));
    Ok(())
}

/// Whether a run over a table ends as another did.
fn ends_alike<R: Threads + Sync>(
    rt: &R,
    alloc: Global,
    table: &Table<Entry>,
    want: &Ended,
) -> bool {
    match carried_out(rt, alloc, "2", POWERS, &Pass, table) {
        Ok(end) => answer_alike(&end, want),
        Err(_) => false,
    }
}

/// Whether two runs one after the other over a table of so many slots, and then two at once, end as one over a table
/// of its own.
fn serves<R: Threads + Sync>(rt: &R, alloc: Global, slots: u32) -> Result<bool, AllocError>
    requires { 16 ≤ slots }
{
    let own = table(alloc, 1_024)?;
    let want = carried_out(rt, alloc, "1", POWERS, &Pass, &own)?;
    let shared = table(alloc, slots)?;
    let first = ends_alike(rt, alloc, &shared, &want);
    let second = ends_alike(rt, alloc, &shared, &want);
    entries_cross();
    tables_cross::<Entry>();
    let (third, fourth) = join(
        rt,
        || ends_alike(rt, alloc, &shared, &want),
        || ends_alike(rt, alloc, &shared, &want),
    );
    Ok(first && second && third && fourth)
}

#[test]
fn one_table_serves_two_runs(rt: HostRuntime) -> Result<(), Fail> {
    for slots in [1_024u32, 16] {
        assert!(rt; slots >= 16);
        assert!(rt;
            matches!(serves(&rt, rt.alloc(), slots), Ok(true)),
            "{slots} slots"
        );
    }
    Ok(())
}
