// Laws of works and their meanings, which no program calls.

ghost use Rattle.std.specs.Prelude.{◌≡◌, true, map};
ghost use Rattle.std.specs.String.{string_bytes};
ghost use Rattle.mw_outside.specs.Sure.{sure_files, sure_held};
ghost use Rattle.mw_console.specs.declared.status.Status.TheVariants.{Read, Write, Cache};
ghost use Rattle.mw_drive.specs.BadRecords.{DigestOfTheOne};
ghost use Rattle.mw_drive.specs.Running.{outside, AsksLacking};
ghost use Rattle.mw_drive.specs.SimplifiedPrograms.{ProgramsEndAlike};
ghost use Rattle.mw_drive.specs.WorkLaws.{OneMeaning, SomeMeaning, AnswersAreErased};

use crate::command::run;
use mw_compile::Entry;
use mw_console::Status;
use mw_outside::{Gate, SureKeeper, SureSink, SureSource};
use mw_slots::Table;
use std::alloc::Global;
use std::thread::Threads;

/// A work has one meaning at most: bytes, fuel and mode decide text and status.
pub fn one_meaning()
    ensures { OneMeaning }
{}

/// Each work has a meaning.
pub fn some_meaning()
    ensures { SomeMeaning }
{}

/// Where a source's run and its erased program both answer, the answers are equal.
pub fn answers_are_erased()
    ensures { AnswersAreErased }
{}

/// A typable program that ends with an answer or a trap ends so, with the same kernels, where kernels are simplified.
pub fn programs_end_alike()
    ensures { ProgramsEndAlike }
{}

/// Where no record of a cache file but one may have another module than its text's, a digest that a fault tells is that
/// of this record's text.
pub fn digest_of_the_one()
    ensures { DigestOfTheOne }
{}

/// Over a source, a sink and a keeper that never fail no command ends with Write or Cache, and one ends with Read only
/// where the source lacks a file of it.
pub fn sure_outside<R: Threads + Sync, G: Gate>(
    rt: &R,
    alloc: Global,
    words: &[String],
    source: &mut SureSource,
    sink: &mut SureSink,
    keeper: &mut SureKeeper,
    gate: &G,
    table: &Table<Entry>,
) -> Status
    ensures read { result ≡ Read → AsksLacking (map string_bytes words.now)
        (outside true (sure_files source.old) true (sure_held keeper.old)) }
    ensures write { ¬ (result ≡ Write) }
    ensures cache { ¬ (result ≡ Cache) }
{
    run(rt, alloc, words, source, sink, keeper, gate, table)
}
