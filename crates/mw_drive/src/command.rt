// The top call.

ghost use Rattle.std.specs.Prelude.{◌≡◌, ◌↔◌, ◌≤◌, ◌⊎◌, ◌∷◌, ℕ, Bool, true, List, [], Option, IsTrue, IsSome, IsNone};
ghost use Rattle.std.specs.Prelude.{◌++◌, map, take, drop, Some};
ghost use denote.Ref.{Bor};
ghost use Rattle.std.specs.String.{string_bytes};
ghost use Rattle.mw_outside.specs.Count.{Rose};
ghost use Rattle.mw_term.specs.Terms.{PureGroundValue};
ghost use Rattle.mw_term.specs.declared.refusal.Refusal.{Refusal};
ghost use Rattle.mw_words.specs.Words.{PureCommand, run, link, sample, check, cert, recheck, IsUsage, Means};
ghost use Rattle.mw_words.specs.Words.{command_in};
ghost use Rattle.mw_console.specs.declared.status.Status.TheVariants.{Answer, Usage, Refused, Read, Write, Cache};
ghost use Rattle.mw_console.specs.declared.status.Status.TheVariants.{BadCache};
ghost use Rattle.mw_console.specs.Texts.{Ending, answered, ending_status};
ghost use Rattle.mw_meaning.specs.declared.mode.Mode.TheVariants.{Plain, Simple};
ghost use Rattle.mw_keeping.specs.KeptFiles.{HasGoodFront};
ghost use Rattle.mw_keeping.specs.GrownFiles.{GrowsRight};
ghost use Rattle.mw_drive.specs.BadRecords.{IsBadOf, HasBadRecordOf};
ghost use Rattle.mw_drive.specs.CommandStatuses.{IsStatusFor, evaluating};
ghost use Rattle.mw_drive.specs.Extents.{whole, Kind, on_a_number, extent};
ghost use Rattle.mw_drive.specs.HeldFiles.{IsHeldWith, IsHeldBy, IsKeptWith, CoversAll};
ghost use Rattle.mw_drive.specs.OpenedFiles.{IsOpenedWith};
ghost use Rattle.mw_drive.specs.Verdicts.{IsVerdictOn};
ghost use Rattle.mw_drive.specs.Certified.{IsCertified, IsTypingVerdict};
ghost use Rattle.mw_drive.specs.Honest.{IsHonestCache};
ghost use Rattle.mw_drive.specs.Works.{Work, running, erasing, sampling, Meaning, ran, erased, IsMeaning, HaveModules};
ghost use Rattle.mw_drive.specs.Works.{status_of, mode_of, run_text};
ghost use Rattle.mw_link.specs.Linked.{Kernel};
ghost use Rattle.mw_drive.specs.PrintedKernels.{KeepsPrinted, RunsOverCache};
ghost use Rattle.mw_drive.specs.ProgramRuns.{evaluated, cache_of, HasEnding, IsPossible};
ghost use Rattle.mw_drive.specs.declared.shown.Shown.{Shown};
ghost use Rattle.mw_drive.specs.declared.shown.Shown.TheVariants.{Lines};
ghost use Rattle.mw_drive.specs.SimplifiedPrograms.{IsUnbounded};
ghost use Rattle.mw_drive.specs.Running.{outside, sources, files_of, path_of, Wanted, source_file, Has, Lacks, HasAll};
ghost use Rattle.mw_drive.specs.Running.{most_of_source, most_of_module, LacksFirst, LacksSome, IsLast, IsWork};
ghost use Rattle.mw_drive.specs.Running.{kind_of, kind_with, IsWritten, IsUnread};
ghost use Rattle.mw_drive.specs.Running.{AsksOn, Asks, AsksOver, AsksMissing, AsksLacking, AsksNoFile, AsksNoCache};
ghost use Rattle.mw_drive.specs.Running.{HasHonestCache};
ghost use Rattle.mw_drive.specs.Running.{IsCarriedOut, IsFaithful, IsStatusOf, IsMemory, mode_when};

use crate::fault::RunFault;
use crate::inquiry::{Inquiry, MOST_OF_MODULE, inquire};
use crate::migrated::migrate;
use crate::program::RunOptions;
use crate::shown::Shown;
use crate::source::{Evaluation, write_source};
use crate::typing::recheck;
use crate::workplace::Workplace;
use mw_compile::Entry;
use mw_console::{Status, file_bytes};
use mw_meaning::Mode;
use mw_outside::{Gate, Keeper, ReadStop, Sink, Source, WriteFault};
use mw_reading::MOST_OF_SOURCE;
use mw_sample::sample;
use mw_slots::Table;
use mw_words::{Command, read_words};
use std::alloc::Global;
use std::marker::Brand;
use std::sync::ledger::Blank;
use std::thread::Threads;

/// The units of fuel of a sample, and how many workers it has.
const SAMPLE_FUEL: u64 = 1_000_000;

const SAMPLE_WORKERS: u32 = 4;

/// Carries out the command that the words mean. `run FILE` reads the file from the source, checks it, evaluates its
/// kernel items and writes what they came to, and then evaluates main and writes the last line; with `--simplify` the
/// kernels' code is simplified before it is compiled; with `--cache PATH` the modules that the file of this name has
/// are loaded before, and those that were emitted are kept in it afterwards. `erased FILE` evaluates main of the erased
/// program and writes the last line alone. `link FILE` writes the kernels as one module, and doesn't evaluate main.
/// `sample N` runs as `run` does, with a source that is made from the number, and writes totals in place of the
/// kernels. The kernel items are evaluated by as many workers as the words say, or as a sample has, over the table of
/// modules; what is written depends neither on their number nor on what stands in the table. `migrate --cache PATH`
/// adds records of the version that is made for those of the old one, and writes how many there are of both. `wat FILE`
/// writes the text of the module that the file's bytes spell, and `check FILE` whether the module is valid that they
/// spell, or are a text of; a file that is no module gets the line of its first fault. `cert FILE` writes the
/// certificate of the typing of the file's source, and `recheck CERT FILE` whether the first file certifies the typing
/// of the second one's source.
pub fn run<R: Threads + Sync, S: Source, K: Sink, C: Keeper, G: Gate>(
    rt: &R,
    alloc: Global,
    words: &[String],
    source: &mut S,
    sink: &mut K,
    keeper: &mut C,
    gate: &G,
    table: &Table<Entry>,
) -> Status
    // Where nothing failed and memory was there, exactly the work's output was written, and the status is what it says.
    ensures text { (work : Work) → Asks (map string_bytes words.now)
        (outside S.tells (S.told source.old) C.tells (C.held keeper.old)) work
        → ¬ Rose (S.faults source.old) (S.faults source.new) → ¬ Rose (K.faults sink.old) (K.faults sink.new)
        → ¬ (result ≡ Cache) → ¬ IsMemory result → IsTrue K.tells
        → IsFaithful whole work result (K.written sink.old) (K.written sink.new) }
    // Then the status is that of the work's meaning, whether or not the sink tells.
    ensures status { (work : Work)
        → Asks (map string_bytes words.now) (outside S.tells (S.told source.old) C.tells (C.held keeper.old)) work
        → ¬ Rose (S.faults source.old) (S.faults source.new) → ¬ Rose (K.faults sink.old) (K.faults sink.new)
        → ¬ (result ≡ Cache) → ¬ IsMemory result
        → (meaning : Meaning) × IsMeaning work meaning × (result ≡ status_of meaning) }
    // Whatever failed, a status of a whole text is that of the work's meaning.
    ensures complete { (work : Work) → (asked : Asks (map string_bytes words.now)
        (outside S.tells (S.told source.old) C.tells (C.held keeper.old)) work)
        → extent (kind_of asked.command) result ≡ whole
        → (meaning : Meaning) × IsMeaning work meaning × (result ≡ status_of meaning) }
    // For each kernel that is printed, the bytes spell a module that is valid and means the code that is run.
    ensures modules { (work : Work)
        → Asks (map string_bytes words.now) (outside S.tells (S.told source.old) C.tells (C.held keeper.old)) work
        → (meaning : Meaning) → IsMeaning work meaning → HaveModules meaning }
    // An answer of a run is any answer of the erased program, whatever the units of either.
    ensures erasure { (workers fuel m : ℕ) (simplify : Bool) (cache : Option (List ℕ))
        (file bytes : List ℕ)
        (w : PureGroundValue)
        → AsksOn (map string_bytes words.now) (outside S.tells (S.told source.old) C.tells (C.held keeper.old))
        (run workers fuel simplify cache file) (bytes ∷ [])
        → IsHonestCache C.tells (C.held keeper.old) cache
        → IsMeaning (erasing bytes m) (erased (answered w)) → result ≡ Answer → (kernels : List Kernel)
        × IsMeaning (running bytes fuel (Lines (mode_when simplify)))
        (ran (Lines (mode_when simplify)) kernels (answered w)) }
    // Where the run with the kernels' code as it was built ends with an answer or a trap, the run with simplified code
    // ends so too.
    ensures simplified { (workers fuel : ℕ) (cache : Option (List ℕ)) (file bytes : List ℕ)
        (kernels : List Kernel)
        (e : Ending)
        → AsksOn (map string_bytes words.now) (outside S.tells (S.told source.old) C.tells (C.held keeper.old))
        (run workers fuel true cache file) (bytes ∷ [])
        → IsHonestCache C.tells (C.held keeper.old) cache
        → IsMeaning (running bytes fuel (Lines Plain)) (ran (Lines Plain) kernels e) → IsUnbounded e
        → IsMeaning (running bytes fuel (Lines Simple)) (ran (Lines Simple) kernels e)
        × (extent (kind_with cache) result ≡ whole → result ≡ ending_status e) }
    // Whatever failed, the status says what was written.
    ensures faults { (work : Work) → (asked : Asks (map string_bytes words.now)
        (outside S.tells (S.told source.old) C.tells (C.held keeper.old)) work)
        → IsTrue K.tells
        → IsFaithful (extent (kind_of asked.command) result) work result (K.written sink.old) (K.written sink.new) }
    // Each command has its statuses, whatever the outside tells.
    ensures possible { (command : PureCommand) → Means (map string_bytes words.now) command
        → IsStatusFor command result }
    // Where all of the output was written nothing failed, and want of memory is no failure of source or sink.
    ensures unfailed { (command : PureCommand) → Means (map string_bytes words.now) command
        → IsWritten (extent (kind_of command) result)
        → (S.faults source.new ≡ S.faults source.old) × (K.faults sink.new ≡ K.faults sink.old) }
    ensures memory { IsMemory result
        → (S.faults source.new ≡ S.faults source.old) × (K.faults sink.new ≡ K.faults sink.old) }
    // A verdict is that of the module that the file's bytes spell, or are a text of, and a fault says that there is
    // none.
    ensures judged { (file bytes : List ℕ)
        → AsksOn (map string_bytes words.now) (outside S.tells (S.told source.old) C.tells (C.held keeper.old))
        (check file) (bytes ∷ [])
        → IsVerdictOn result (take most_of_module bytes) }
    // An answer of `cert` says that the source is typed, and the text that was written is a certificate of it.
    ensures certificate { (file bytes : List ℕ)
        → AsksOn (map string_bytes words.now) (outside S.tells (S.told source.old) C.tells (C.held keeper.old))
        (cert file) (bytes ∷ []) → result ≡ Answer
        → (text : List ℕ) × IsCertified bytes text
        × (IsTrue K.tells → K.written sink.new ≡ K.written sink.old ++ text) }
    // An answer of `recheck` says that the source is typed and the text certifies it, and `NotTyped` that it doesn't.
    ensures typed { (certificate file bytes text : List ℕ)
        → AsksOn (map string_bytes words.now) (outside S.tells (S.told source.old) C.tells (C.held keeper.old))
        (recheck certificate file) (bytes ∷ text ∷ [])
        → IsTypingVerdict result text bytes }
    // The last file is read to its end, or to one byte more than the longest source, module or certificate has.
    ensures left { (command : PureCommand) (contents : List (List ℕ)) (file : Wanted)
        (bytes : List ℕ)
        → AsksOn (map string_bytes words.now) (outside S.tells (S.told source.old) C.tells (C.held keeper.old)) command
        contents
        → IsLast file bytes (files_of command) contents
        → ¬ IsMemory result → ¬ (result ≡ Read) → S.left source.new ≡ drop file.most bytes }
    ensures usage { (result ≡ Usage) ↔ IsUsage (map string_bytes words.now) }
    ensures read { result ≡ Read
        → Rose (S.faults source.old) (S.faults source.new)
        ⊎ AsksLacking (map string_bytes words.now) (outside S.tells (S.told source.old) C.tells (C.held keeper.old)) }
    ensures write { result ≡ Write → Rose (K.faults sink.old) (K.faults sink.new) }
    ensures missing { AsksMissing (map string_bytes words.now)
        (outside S.tells (S.told source.old) C.tells (C.held keeper.old)) → result ≡ Read }
    // Where a file is lacking that isn't the first, there may be no memory to read those before it.
    ensures lacking { AsksLacking (map string_bytes words.now)
        (outside S.tells (S.told source.old) C.tells (C.held keeper.old))
        → IsUnread result K.tells (K.written sink.old) (K.written sink.new) }
    ensures nothing { (result ≡ Usage) ⊎ (result ≡ Read) → IsTrue K.tells
        → K.written sink.new ≡ K.written sink.old }
    ensures unread { (result ≡ Usage) ⊎ AsksNoFile (map string_bytes words.now)
        → source.new ≡ source.old }
    ensures files { S.told source.new ≡ S.told source.old }
    // Only a command with a cache file touches the keeper, and that only where the source was read and accepted.
    ensures untouched { (result ≡ Usage) ⊎ (result ≡ Read)
        ⊎ AsksNoCache (map string_bytes words.now)
        → keeper.new ≡ keeper.old }
    ensures unkept_refusal { (r : Refusal) → result ≡ Refused r → keeper.new ≡ keeper.old }
    // The keeper is started with the name of the command's cache file alone, and once where a whole text's own status
    // came.
    ensures opened { (command : PureCommand) → Means (map string_bytes words.now) command
        → (path : List ℕ)
        → path_of command ≡ Some path → IsTrue C.tells
        → IsOpenedWith result path (C.opened keeper.old) (C.opened keeper.new) }
    // What counted of the cache file is never lost, whatever the status, and whatever failed.
    ensures front { IsTrue C.tells → HasGoodFront (C.held keeper.old) (C.held keeper.new) }
    // What is new in the cache file is right, whatever the status, and an honest file is honest still.
    ensures right { IsTrue C.tells → GrowsRight (C.held keeper.old) (C.held keeper.new) }
    // The status says what the cache file holds: what it held, or what counted of that and records behind it.
    ensures held { (command : PureCommand) → Means (map string_bytes words.now) command
        → IsSome (path_of command)
        → IsTrue C.tells → IsHeldBy (kind_of command) result (C.held keeper.old) (C.held keeper.new) }
    // The text of each kernel that is printed was loaded, or its record is kept, unless there was no more room.
    ensures kept { (work : Work) → (asked : Asks (map string_bytes words.now)
        (outside S.tells (S.told source.old) C.tells (C.held keeper.old)) work)
        → IsSome (path_of asked.command) → extent (kind_of asked.command) result ≡ whole
        → (shown : Shown) (kernels : List Kernel) (e : Ending) → IsMeaning work (ran shown kernels e)
        → CoversAll (map (run_text (mode_of shown)) kernels) (C.held keeper.old) (C.held keeper.new) }
    // The same of whatever is printed, whether or not the source tells, and whatever the cache file holds.
    ensures printed { (command : PureCommand) → Means (map string_bytes words.now) command
        → RunsOverCache command → HasEnding result → IsTrue C.tells
        → KeepsPrinted result K.tells (K.written sink.old) (K.written sink.new)
        (C.held keeper.old) (C.held keeper.new) }
    // That the cache wasn't kept is said only where the keeper failed, and a whole text's own status only where it
    // didn't.
    ensures cache { result ≡ Cache → Rose (C.faults keeper.old) (C.faults keeper.new) }
    ensures sound { (command : PureCommand) → Means (map string_bytes words.now) command
        → extent (kind_of command) result ≡ whole
        → C.faults keeper.new ≡ C.faults keeper.old }
    // A bad record is told only where there is one, and a record that isn't honest has the text of one of the runs.
    ensures bad { (digest : List ℕ) (work : Work) → result ≡ BadCache digest
        → AsksOver (map string_bytes words.now)
        (outside S.tells (S.told source.old) C.tells (C.held keeper.old)) work
        → IsTrue C.tells → IsBadOf work (C.held keeper.old) digest }
    ensures source_count { S.faults source.old ≤ S.faults source.new }
    ensures sink_count { K.faults sink.old ≤ K.faults sink.new }
    ensures keeper_count { C.faults keeper.old ≤ C.faults keeper.new }
{
    let place = Workplace { rt, gate, table };
    match read_words(words) {
        Ok(command) => carry_out(alloc, &place, command, source, sink, keeper),
        Err(_) => Status::Usage,
    }
}

/// Carries out a command.
#[tactic(auto, using(crate::proofs::HeldFiles::right_stays))]
fn carry_out<R: Threads + Sync, S: Source, K: Sink, C: Keeper, G: Gate>(
    alloc: Global,
    place: &Workplace<'_, R, G>,
    command: Command<'_>,
    source: &mut S,
    sink: &mut K,
    keeper: &mut C,
) -> Status
    requires range { (number : ℕ) → command_in command ≡ sample number
        → (1 ≤ number) × (number ≤ 100) }
    requires workers { (workers fuel : ℕ) (simplify : Bool) (cache : Option (List ℕ))
        (file : List ℕ)
        → command_in command ≡ run workers fuel simplify cache file → 1 ≤ workers }
    requires linkers { (workers fuel : ℕ) (file : List ℕ)
        → command_in command ≡ link workers fuel file → 1 ≤ workers }
    ensures work { (contents : List (List ℕ)) (work : Work)
        → HasAll (sources S.tells (S.told source.old)) (files_of (command_in command.entry)) contents
        → IsWork (outside S.tells (S.told source.old) C.tells (C.held keeper.old))
        (command_in command.entry) contents work
        → HasHonestCache (outside S.tells (S.told source.old) C.tells (C.held keeper.old)) (command_in command.entry)
        → IsCarriedOut (kind_of (command_in command.entry)) work result K.tells (K.written sink.old)
        (K.written sink.new) }
    ensures left { (contents : List (List ℕ)) (file : Wanted) (bytes : List ℕ)
        → HasAll (sources S.tells (S.told source.old)) (files_of (command_in command.entry)) contents
        → IsLast file bytes (files_of (command_in command.entry)) contents
        → ¬ IsMemory result → ¬ (result ≡ Read) → S.left source.new ≡ drop file.most bytes }
    ensures read { result ≡ Read → Rose (S.faults source.old) (S.faults source.new)
        ⊎ LacksSome (sources S.tells (S.told source.old)) (files_of (command_in command.entry)) }
    ensures missing { LacksFirst (sources S.tells (S.told source.old))
        (files_of (command_in command.entry))
        → result ≡ Read }
    ensures lacking { LacksSome (sources S.tells (S.told source.old))
        (files_of (command_in command.entry))
        → IsUnread result K.tells (K.written sink.old) (K.written sink.new) }
    ensures nothing { result ≡ Read → IsTrue K.tells → K.written sink.new ≡ K.written sink.old }
    ensures write { result ≡ Write → Rose (K.faults sink.old) (K.faults sink.new) }
    ensures possible { IsStatusFor (command_in command.entry) result }
    ensures unfailed { IsWritten (extent (kind_of (command_in command.entry)) result)
        → (S.faults source.new ≡ S.faults source.old) × (K.faults sink.new ≡ K.faults sink.old) }
    ensures memory { IsMemory result
        → (S.faults source.new ≡ S.faults source.old) × (K.faults sink.new ≡ K.faults sink.old) }
    ensures unread { files_of (command_in command.entry) ≡ [] → source.new ≡ source.old }
    ensures files { S.told source.new ≡ S.told source.old }
    ensures untouched { (result ≡ Read) ⊎ IsNone (path_of (command_in command.entry))
        → keeper.new ≡ keeper.old }
    ensures refused { (r : Refusal) → result ≡ Refused r → keeper.new ≡ keeper.old }
    ensures opened { (path : List ℕ) → path_of (command_in command.entry) ≡ Some path
        → IsTrue C.tells
        → IsOpenedWith result path (C.opened keeper.old) (C.opened keeper.new) }
    ensures held { IsSome (path_of (command_in command.entry)) → IsTrue C.tells
        → IsHeldBy (kind_of (command_in command.entry)) result (C.held keeper.old) (C.held keeper.new) }
    ensures kept { (contents : List (List ℕ)) (work : Work)
        → HasAll (sources S.tells (S.told source.old)) (files_of (command_in command.entry)) contents
        → IsWork (outside S.tells (S.told source.old) C.tells (C.held keeper.old))
        (command_in command.entry) contents work
        → HasHonestCache (outside S.tells (S.told source.old) C.tells (C.held keeper.old)) (command_in command.entry)
        → IsSome (path_of (command_in command.entry)) → (shown : Shown) (kernels : List Kernel) (e : Ending)
        → IsMeaning work (ran shown kernels e)
        → IsKeptWith (map (run_text (mode_of shown)) kernels) result (C.held keeper.old) (C.held keeper.new) }
    ensures printed { RunsOverCache (command_in command.entry) → HasEnding result → IsTrue C.tells
        → KeepsPrinted result K.tells (K.written sink.old) (K.written sink.new)
        (C.held keeper.old) (C.held keeper.new) }
    ensures right { IsTrue C.tells → GrowsRight (C.held keeper.old) (C.held keeper.new) }
    ensures cache { result ≡ Cache → Rose (C.faults keeper.old) (C.faults keeper.new) }
    ensures sound { extent (kind_of (command_in command.entry)) result ≡ whole
        → C.faults keeper.new ≡ C.faults keeper.old }
    ensures bad { (digest : List ℕ) (contents : List (List ℕ)) (work : Work)
        → result ≡ BadCache digest
        → HasAll (sources S.tells (S.told source.old)) (files_of (command_in command.entry)) contents
        → IsWork (outside S.tells (S.told source.old) C.tells (C.held keeper.old))
        (command_in command.entry) contents work → HasBadRecordOf work C.tells (C.held keeper.old) digest }
    ensures source_count { S.faults source.old ≤ S.faults source.new }
    ensures sink_count { K.faults sink.old ≤ K.faults sink.new }
    ensures keeper_count { C.faults keeper.old ≤ C.faults keeper.new }
{
    match command {
        Command::Run {
            workers,
            fuel,
            simplify,
            cache,
            file,
        } => {
            let shown = Shown::Lines(mode_when(simplify));
            let options = RunOptions {
                workers,
                shown,
                cache,
            };
            let evaluation = Evaluation::Run(options);
            evaluate_file(alloc, place, source, sink, keeper, file, fuel, evaluation)
        }
        Command::Erased { fuel, file } => {
            let evaluation = Evaluation::Erased;
            evaluate_file(alloc, place, source, sink, keeper, file, fuel, evaluation)
        }
        Command::Link {
            workers,
            fuel,
            file,
        } => {
            let evaluation = Evaluation::Linked(workers);
            evaluate_file(alloc, place, source, sink, keeper, file, fuel, evaluation)
        }
        Command::Sample { number } => run_sample(alloc, place, sink, keeper, number),
        Command::Migrate { cache } => migrate(place.rt, alloc, cache, sink, keeper),
        Command::Wat { file } => {
            inquire(alloc, source, sink, file, MOST_OF_MODULE, Inquiry::Text)
        }
        Command::Check { file } => {
            inquire(alloc, source, sink, file, MOST_OF_MODULE, Inquiry::Verdict)
        }
        Command::Cert { file } => {
            inquire(
                alloc,
                source,
                sink,
                file,
                MOST_OF_SOURCE,
                Inquiry::Certificate,
            )
        }
        Command::Recheck { cert, file } => recheck(alloc, source, sink, file, cert),
    }
}

/// How kernels' code is run, by whether it is to be simplified.
fn mode_when(simplify: bool) -> Mode
    ensures { result ≡ mode_when simplify }
{
    if simplify { Mode::Simple } else { Mode::Plain }
}

/// Evaluates the source of a file, with so many units for each evaluation.
#[tactic(auto, using(crate::proofs::HeldFiles::right_stays))]
fn evaluate_file<R: Threads + Sync, S: Source, K: Sink, C: Keeper, G: Gate>(
    alloc: Global,
    place: &Workplace<'_, R, G>,
    source: &mut S,
    sink: &mut K,
    keeper: &mut C,
    file: &str,
    fuel: u64,
    evaluation: Evaluation<'_>,
) -> Status
    requires possible { IsPossible evaluation }
    ensures work { (bytes : List ℕ)
        → Has (sources S.tells (S.told source.old)) (source_file file.now) bytes
        → IsHonestCache C.tells (C.held keeper.old) (cache_of evaluation.entry)
        → IsCarriedOut (kind_with (cache_of evaluation.entry)) (evaluated evaluation.entry bytes fuel) result K.tells
        (K.written sink.old) (K.written sink.new) }
    ensures left { (bytes : List ℕ)
        → Has (sources S.tells (S.told source.old)) (source_file file.now) bytes
        → ¬ IsMemory result → ¬ (result ≡ Read) → S.left source.new ≡ drop most_of_source bytes }
    ensures read { result ≡ Read
        → Rose (S.faults source.old) (S.faults source.new)
        ⊎ Lacks (sources S.tells (S.told source.old)) (source_file file.now) }
    ensures missing { Lacks (sources S.tells (S.told source.old)) (source_file file.now)
        → result ≡ Read }
    ensures nothing { result ≡ Read → IsTrue K.tells → K.written sink.new ≡ K.written sink.old }
    ensures write { result ≡ Write → Rose (K.faults sink.old) (K.faults sink.new) }
    ensures possible { IsStatusFor (evaluating (cache_of evaluation.entry)) result }
    ensures unfailed { IsWritten (extent (kind_with (cache_of evaluation.entry)) result)
        → (S.faults source.new ≡ S.faults source.old) × (K.faults sink.new ≡ K.faults sink.old) }
    ensures memory { IsMemory result
        → (S.faults source.new ≡ S.faults source.old) × (K.faults sink.new ≡ K.faults sink.old) }
    ensures files { S.told source.new ≡ S.told source.old }
    ensures untouched { (result ≡ Read) ⊎ IsNone (cache_of evaluation.entry)
        → keeper.new ≡ keeper.old }
    ensures refused { (r : Refusal) → result ≡ Refused r → keeper.new ≡ keeper.old }
    ensures opened { (path : Bor (List ℕ)) → cache_of evaluation.entry ≡ Some path → IsTrue C.tells
        → IsOpenedWith result path.now (C.opened keeper.old) (C.opened keeper.new) }
    ensures held { IsSome (cache_of evaluation.entry) → IsTrue C.tells
        → IsHeldWith result (C.held keeper.old) (C.held keeper.new) }
    ensures kept { (bytes : List ℕ)
        → Has (sources S.tells (S.told source.old)) (source_file file.now) bytes
        → IsHonestCache C.tells (C.held keeper.old) (cache_of evaluation.entry)
        → IsSome (cache_of evaluation.entry) → (shown : Shown) (kernels : List Kernel) (e : Ending)
        → IsMeaning (evaluated evaluation.entry bytes fuel) (ran shown kernels e)
        → IsKeptWith (map (run_text (mode_of shown)) kernels) result (C.held keeper.old) (C.held keeper.new) }
    ensures printed { IsSome (cache_of evaluation.entry) → IsTrue C.tells → HasEnding result
        → KeepsPrinted result K.tells (K.written sink.old) (K.written sink.new)
        (C.held keeper.old) (C.held keeper.new) }
    ensures right { IsTrue C.tells → GrowsRight (C.held keeper.old) (C.held keeper.new) }
    ensures cache { result ≡ Cache → Rose (C.faults keeper.old) (C.faults keeper.new) }
    ensures sound { extent (kind_with (cache_of evaluation.entry)) result ≡ whole
        → C.faults keeper.new ≡ C.faults keeper.old }
    ensures bad { (digest bytes : List ℕ) → result ≡ BadCache digest
        → Has (sources S.tells (S.told source.old)) (source_file file.now) bytes
        → HasBadRecordOf (evaluated evaluation.entry bytes fuel) C.tells (C.held keeper.old) digest }
    ensures source_count { S.faults source.old ≤ S.faults source.new }
    ensures sink_count { K.faults sink.old ≤ K.faults sink.new }
    ensures keeper_count { C.faults keeper.old ≤ C.faults keeper.new }
{
    let bytes = match file_bytes(alloc, source, file, MOST_OF_SOURCE) {
        Ok(bytes) => bytes,
        Err(ReadStop::Failed) => return Status::Read,
        Err(ReadStop::Memory(error)) => return Status::Memory(error),
    };
    status_of(write_source::<R, K, C, G, Brand>(
        alloc,
        place,
        bytes.as_slice(),
        fuel,
        evaluation,
        sink,
        keeper,
        Blank::new(1),
    ))
}

/// Runs the source that is made from a number, and writes its totals.
fn run_sample<R: Threads + Sync, K: Sink, C: Keeper, G: Gate>(
    alloc: Global,
    place: &Workplace<'_, R, G>,
    sink: &mut K,
    keeper: &mut C,
    number: u32,
) -> Status
    requires some { 1 ≤ number }
    requires within_limit { number ≤ 100 }
    ensures work { IsCarriedOut on_a_number (sampling number) result K.tells (K.written sink.old)
        (K.written sink.new) }
    ensures write { result ≡ Write → Rose (K.faults sink.old) (K.faults sink.new) }
    ensures possible { IsStatusFor (sample 1) result }
    ensures unfailed { IsWritten (extent on_a_number result)
        → K.faults sink.new ≡ K.faults sink.old }
    ensures memory { IsMemory result → K.faults sink.new ≡ K.faults sink.old }
    ensures untouched { keeper.new ≡ keeper.old }
    ensures sink_count { K.faults sink.old ≤ K.faults sink.new }
{
    let bytes = match sample(alloc, number) {
        Ok(bytes) => bytes,
        Err(error) => return Status::Memory(error),
    };
    let options = RunOptions {
        workers: SAMPLE_WORKERS,
        shown: Shown::Totals,
        cache: None,
    };
    status_of(write_source::<R, K, C, G, Brand>(
        alloc,
        place,
        bytes.as_slice(),
        SAMPLE_FUEL,
        Evaluation::Run(options),
        sink,
        keeper,
        Blank::new(1),
    ))
}

/// The status of a run that was written, or why it wasn't.
fn status_of(written: Result<Status, RunFault>) -> Status
    ensures { IsStatusOf written result }
{
    match written {
        Ok(status) => status,
        Err(RunFault::Unwritten(WriteFault::Failed)) => Status::Write,
        Err(RunFault::Unwritten(WriteFault::Memory(error))) => Status::Memory(error),
        Err(RunFault::Bad(digest)) => Status::BadCache(digest),
    }
}
