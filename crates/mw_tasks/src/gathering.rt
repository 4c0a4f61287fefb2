// The outputs of all items, as a phase.

ghost use Rattle.std.specs.Prelude.{◌≡◌, ◌≤◌, ℕ, List, All, IfOk, map};
ghost use Rattle.mw_slots.specs.Receipts.{IsOf};
ghost use Rattle.mw_cache.specs.Received.{HasSlot};
ghost use Rattle.mw_tasks.specs.Gathering.{outcomes_of, emitted_by, asked_by, HasAllSlots};

use crate::items_phase::Phase;
use crate::job::Done;
use crate::outcome::Outcomes;
use mw_cache::{Asked, KeptReceipts};
use std::alloc::{AllocError, Global};
use std::thread::Threads;

/// All outcomes in order, receipts of all modules, the sum of the counts, or the greatest number where it is more, and
/// all that was asked for.
pub(crate) fn gathered<R: Threads>(
    rt: &R,
    alloc: Global,
    all: Vec<Done>,
) -> Result<Phase, AllocError>
    ensures outcomes { IfOk result (λ phase. phase.outcomes ≡ outcomes_of all.items) }
    ensures table { (cells : List ℕ) → All (λ d. All (IsOf cells) d.stored) all.items
        → IfOk result (λ phase. All (IsOf cells) phase.stored) }
    ensures stored { IfOk result (λ phase. All (HasAllSlots phase.stored) all.items) }
    ensures emitted { IfOk result (λ phase. phase.emitted ≤ emitted_by all.items) }
    ensures asked { IfOk result (λ phase. phase.asked ≡ asked_by all.items) }
{
    let mut outcomes = Outcomes::new(alloc);
    let mut kept = KeptReceipts::new(alloc);
    let mut emitted: u64 = 0;
    let mut asked = Asked::start(rt);
    for done in all {
        let Done {
            outcome,
            stored,
            emitted: more,
            asked: others,
        } = done;
        kept.keep_each(alloc, &stored)?;
        outcomes.push(outcome)?;
        emitted = emitted.saturating_add(more);
        asked.join(others);
    }
    Ok(Phase {
        outcomes,
        stored: kept.into_receipts(),
        emitted,
        asked,
    })
}
