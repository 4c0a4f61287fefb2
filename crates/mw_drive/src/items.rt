// What the kernel items of a program came to, one after the other.

ghost use Rattle.std.specs.Prelude.{◌≡◌, ◌≤◌, length, IfOk};
ghost use Rattle.std.specs.Option.{option_map};
ghost use Rattle.std.specs.List.{AllByRecursion};
ghost use Rattle.mw_term.specs.Terms.{kernel_type_of};
ghost use Rattle.mw_term.specs.Programs.{program_of};
ghost use Rattle.mw_meaning.specs.declared.mode.Mode.{Mode};
ghost use Rattle.mw_cache.specs.Gots.{CacheState};
ghost use Rattle.mw_tasks.specs.Phases.{IfBuilt, IsPlaced};
ghost use Rattle.mw_reading.specs.NamedPrograms.{named_program_of};
ghost use Rattle.mw_drive.specs.ProgramMeaning.{ItemsRun};
ghost use Rattle.mw_drive.specs.ProgramRuns.{ending_of, kernels_of, IsBuilt};
ghost use Rattle.mw_drive.specs.ItemOutcomes.{outcomes_run, run_with, came_before, end_before, HasOneForEach};
ghost use Rattle.mw_drive.specs.ItemOutcomes.{ArePlaced, IfKernel};

use crate::ending::End;
use mw_cache::Got;
use mw_tasks::{ItemOutcome, Outcomes};
use mw_term::{ItemKind, KType, Program, Term};
use std::alloc::{AllocError, Global};

/// A kernel item that gave code: its name and its type, the code, and where the module is of what is run of it.
#[derive(Drop)]
pub struct Built<'p> {
    pub name: &'p [u8],
    pub kind: &'p KType,
    pub code: &'p Term,
    pub got: &'p Got,
}

/// What a kernel item came to: its code, or the program's end.
#[derive(Drop)]
pub enum ItemEnd<'p> {
    Code(Built<'p>),
    Ended(End<'p>),
}

/// The kernel items that gave code, up to the first that gave none, and how that one ended the program.
#[derive(Drop)]
pub struct ItemsEnd<'p> {
    pub built: Vec<Built<'p>>,
    pub end: Option<End<'p>>,
}

/// Goes through the kernel items with their outcomes in order, up to the first that is no code.
pub fn items_end<'p>(
    alloc: Global,
    program: &'p Program,
    outcomes: &'p Outcomes,
) -> Result<ItemsEnd<'p>, AllocError>
    requires each { HasOneForEach (program_of program.now).items outcomes.now }
    ensures run { let run = outcomes_run (named_program_of program.now).items outcomes.now in
        IfOk result (λ items. run ≡ run_with (kernels_of items.built.items) (option_map ending_of items.end)) }
    ensures built { (mode : Mode) (cache : CacheState)
        → ArePlaced mode cache (program_of program.now).items outcomes.now
        → IfOk result (λ items. AllByRecursion (IsBuilt mode cache) items.built.items) }
    ensures few { IfOk result (λ items. length items.built.items ≤ length program.now.items) }
{
    let mut built = Vec::new(alloc);
    let mut next: usize = 0;
    for at in 0..program.items.len() {
        let item = program.items.get(at);
        if let ItemKind::Kernel(kind, _) = &item.kind {
            match item_end(item.name.as_slice(), kind, outcomes.get(next)) {
                ItemEnd::Code(kernel) => built.push(kernel)?,
                ItemEnd::Ended(end) => return Ok(ItemsEnd {
                    built,
                    end: Some(end),
                }),
            }
            next += 1;
        }
    }
    Ok(ItemsEnd { built, end: None })
}

/// What a kernel item of this name and this type came to.
fn item_end<'p>(name: &'p [u8], kind: &'p KType, outcome: &'p ItemOutcome) -> ItemEnd<'p>
    ensures run { (others : ItemsRun)
        → came_before name.now (kernel_type_of kind.now) outcome.now others ≡ end_before result others }
    ensures built { (mode : Mode) (cache : CacheState)
        → IfBuilt outcome.now (IsPlaced mode cache (kernel_type_of kind.now)) → IfKernel (IsBuilt mode cache) result }
{
    match outcome {
        ItemOutcome::Code(code, got) => ItemEnd::Code(Built {
            name,
            kind,
            code,
            got,
        }),
        ItemOutcome::Trap(trap) => ItemEnd::Ended(End::Trapped(*trap, name)),
        ItemOutcome::Bound(limit) => ItemEnd::Ended(End::Bounded(*limit, name)),
    }
}
