// All kernels of a program as one module.

ghost use Rattle.std.specs.Prelude.{◌≡◌, ◌≤◌, ◌<◌, ◌^◌, ◌∷◌, [], ℕ, List, Some, true, length, map, codes, IfOk, IfErr};
ghost use Rattle.std.specs.Option.{option_map};
ghost use Rattle.std.specs.List.{AllByRecursion};
ghost use Rattle.std.specs.Vec.Iter.{into_iter_items};
ghost use Rattle.mw_term.specs.Terms.{expression_of};
ghost use Rattle.mw_term.specs.Limits.{within_limits};
ghost use Rattle.mw_term.specs.Programs.{program_of};
ghost use Rattle.mw_term.specs.SmallTypes.{HasSmallTypes};
ghost use Rattle.mw_term.specs.Typable.{Typable};
ghost use Rattle.mw_infer.specs.Checking.{HasSmallKernels};
ghost use Rattle.mw_meaning.specs.declared.mode.Mode.TheVariants.{Plain};
ghost use Rattle.mw_cache.specs.Gots.{CacheState};
ghost use Rattle.mw_link.specs.Linked.{Kernel};
ghost use Rattle.mw_link.specs.LinkLaw.{AreLinkable};
ghost use Rattle.mw_link.specs.Views.{kernels_of as kernels_in};
ghost use Rattle.mw_console.specs.declared.status.Status.TheVariants.{Answer};
ghost use Rattle.mw_reading.specs.NamedPrograms.{item_of, named_program_of};
ghost use Rattle.mw_drive.specs.ProgramMeaning.{all_gave, items_run};
ghost use Rattle.mw_drive.specs.LinkedPrograms.{first_past, in_one, link_run, IsCutAt};
ghost use Rattle.mw_drive.specs.ProgramRuns.{ending_of, kernels_of, HasEnding, IsUsual, IsWrittenLinked};
ghost use Rattle.mw_drive.specs.ItemOutcomes.{outcomes_run, HasOneForEach, ArePlaced, IsKernelOf, IsCodeTaken};
ghost use Rattle.mw_drive.specs.ItemOutcomes.{IsNextKernel};
ghost use Rattle.mw_drive.specs.RunFaults.{BlamesSink};
ghost use Rattle.mw_drive.specs.Works.{joined, text_of};
ghost use Rattle.mw_drive.specs.Written.{Writes};

use crate::ending::{End, write_end};
use crate::fault::RunFault;
use crate::items::{Built, ItemsEnd, items_end};
use crate::workplace::Workplace;
use mw_cache::Cache;
use mw_console::{Status, put_module, write_lines};
use mw_link::{Linkable, functions, link};
use mw_meaning::Mode;
use mw_outside::{Gate, Sink};
use mw_store::Load;
use mw_tasks::{ItemOutcome, Outcomes, kernels_phase};
use mw_term::{Item, ItemKind, KType, Limit, Name, Program, Term};
use std::alloc::{AllocError, Global};
use std::thread::Threads;
use std::vec::IntoIter;

/// How many functions the kernels of one module may have together.
const MOST_FUNCTIONS: u32 = 100_000;

/// Evaluates the kernel items of an accepted program, each with so many units, by so many workers at most, and writes
/// all kernels as one module. Where an item gave no code, its line is written alone; where the kernels have too many
/// functions together, the bound of the first kernel with which there are too many. Main isn't evaluated.
pub fn write_linked<R: Threads + Sync, K: Sink, G: Gate>(
    alloc: Global,
    place: &Workplace<'_, R, G>,
    program: Program,
    fuel: u64,
    workers: u32,
    sink: &mut K,
) -> Result<Status, RunFault>
    requires workers { 1 ≤ workers }
    requires typable { Typable (program_of program) }
    requires small { HasSmallTypes (program_of program) }
    requires kernels { HasSmallKernels (program_of program) }
    requires linkable { (kernels : List Kernel)
        → link_run (items_run Plain fuel (named_program_of program)) ≡ in_one kernels → AreLinkable kernels }
    ensures run { IsWrittenLinked fuel (named_program_of program) result K.tells
        (K.written sink.old)
        (K.written sink.new) }
    ensures ended { IfOk result HasEnding }
    ensures blames { BlamesSink result (K.faults sink.old) (K.faults sink.new) }
    ensures count { K.faults sink.old ≤ K.faults sink.new }
{
    let cache = Cache::new(place.table, Load::new(alloc));
    let phase = kernels_phase(
        place.rt,
        alloc,
        &program,
        fuel,
        Mode::Plain,
        workers,
        &cache,
        place.gate,
    )?;
    if let Some(end) = cut_short(alloc, &program, &phase.outcomes)? {
        return write_end(alloc, sink, &end);
    }
    let kernels = linkables(alloc, program, phase.outcomes)?;
    write_module(alloc, sink, kernels)
}

/// How linking is cut short, if it is: by the first kernel item that gave no code, or at the bound of the first kernel
/// with which there are too many functions.
fn cut_short<'p>(
    alloc: Global,
    program: &'p Program,
    outcomes: &'p Outcomes,
) -> Result<Option<End<'p>>, AllocError>
    requires each { HasOneForEach (program_of program.now).items outcomes.now }
    requires placed { (cache : CacheState)
        × ArePlaced Plain cache (program_of program.now).items outcomes.now }
    ensures cut { let run = outcomes_run (named_program_of program.now).items outcomes.now in
        IfOk result (λ end. IsCutAt (option_map ending_of end) run) }
{
    let ItemsEnd { built, end } = items_end(alloc, program, outcomes)?;
    if let Some(end) = end {
        return Ok(Some(end));
    }
    match first_past(built.as_slice()) {
        Some(name) => Ok(Some(End::Bounded(Limit::KernelSize, name))),
        None => Ok(None),
    }
}

/// The name of the first kernel with which there are more functions than one module may have.
fn first_past<'p>(built: &[Built<'p>]) -> Option<&'p [u8]>
    requires limits { AllByRecursion
        (λ (b : Built). within_limits (expression_of b.code.now) ≡ true) built.now }
    ensures { first_past [] (kernels_of built.now) ≡ option_map (λ name. name.now) result }
{
    let mut sum: u32 = 0;
    for kernel in built {
        sum += functions(kernel.code);
        if sum > MOST_FUNCTIONS {
            return Some(kernel.name);
        }
    }
    None
}

/// The kernels to be linked, in order, with the codes that the items gave; one whose item gave none isn't among them.
fn linkables(
    alloc: Global,
    program: Program,
    outcomes: Outcomes,
) -> Result<Vec<Linkable>, AllocError>
    ensures { IfOk result (λ linkables. (kernels : List Kernel)
        → outcomes_run (named_program_of program).items outcomes ≡ all_gave kernels
        → kernels_in linkables.items ≡ kernels) }
{
    let Program {
        items,
        result,
        body,
    } = program;
    drop(result);
    drop(body);
    let mut linkables = Vec::new(alloc);
    let mut left = outcomes.into_vec().into_iter();
    for item in items.into_vec() {
        if let Some(kernel) = next_kernel(item, &mut left) {
            linkables.push(kernel)?;
        }
    }
    Ok(linkables)
}

/// The kernel of an item that is one, with the next outcome, if that is code.
fn next_kernel(item: Item, left: &mut IntoIter<ItemOutcome>) -> Option<Linkable>
    ensures { IsNextKernel (item_of item) (into_iter_items left.old) result
        (into_iter_items left.new) }
{
    let (name, kind) = kernel_of(item)?;
    let code = next_code(left)?;
    Some(Linkable { name, code, kind })
}

/// The name and the type of an item that is a kernel.
fn kernel_of(item: Item) -> Option<(Name, KType)>
    ensures { IsKernelOf (item_of item) result }
{
    let Item { name, kind } = item;
    match kind {
        ItemKind::Kernel(kind, term) => {
            drop(term);
            Some((name, kind))
        }
        ItemKind::Value(term) => {
            drop(term);
            None
        }
    }
}

/// The code of the next outcome, if that is code.
fn next_code(left: &mut IntoIter<ItemOutcome>) -> Option<Term>
    ensures { IsCodeTaken (into_iter_items left.old) result (into_iter_items left.new) }
{
    match left.next()? {
        ItemOutcome::Code(code, got) => {
            drop(got);
            Some(code)
        }
        ItemOutcome::Trap(_) | ItemOutcome::Bound(_) => None,
    }
}

/// Writes the line of the one module of these kernels, whose code is given up before the line is made.
fn write_module<K: Sink>(
    alloc: Global,
    sink: &mut K,
    kernels: Vec<Linkable>,
) -> Result<Status, RunFault>
    requires linkable { AreLinkable (kernels_in kernels.items) }
    ensures status { IfOk result (λ status. status ≡ Answer) }
    ensures usual { IfErr result IsUsual }
    ensures writes { let text = text_of (joined (kernels_in kernels.items)) in
        Writes result K.tells (K.written sink.old) (K.written sink.new) text }
    ensures blames { BlamesSink result (K.faults sink.old) (K.faults sink.new) }
    ensures count { K.faults sink.old ≤ K.faults sink.new }
{
    let text = module_line(alloc, kernels)?;
    write_lines(sink, text.as_slice())?;
    Ok(Status::Answer)
}

/// The line of the one module of these kernels.
fn module_line(alloc: Global, kernels: Vec<Linkable>) -> Result<Vec<u8>, AllocError>
    requires linkable { AreLinkable (kernels_in kernels.items) }
    ensures { IfOk result (λ text. text.items ≡ text_of (joined (kernels_in kernels.items))) }
{
    let bytes = link(alloc, kernels.as_slice())?;
    drop(kernels);
    let mut text = Vec::new(alloc);
    put_module(&mut text, bytes.as_slice())?;
    Ok(text)
}
