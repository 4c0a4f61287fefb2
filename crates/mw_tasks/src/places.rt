// What workers made of the kernel items that they took, in the items' order.

ghost use Rattle.std.specs.Prelude.{◌≡◌, None, All, IfOk, IfErr, replicate};
ghost use Rattle.std.specs.List.{AllZip};
ghost use Rattle.mw_term.specs.Programs.{program_of};
ghost use Rattle.mw_spread.specs.Outputs.{IfBad};
ghost use Rattle.mw_tasks.specs.Phases.{IsTask};
ghost use Rattle.mw_tasks.specs.BadItems.{IsBadOfItems};
ghost use Rattle.mw_tasks.specs.Taking.{IsDoneIn, IsTakenIn, AreInPlace};

use crate::job::{Done, Evaluation, Taken, evaluated_alone};
use mw_spread::JobFault;
use std::alloc::{AllocError, Global};
use std::thread::Threads;

/// What each kernel item came to, in order, where workers took these items. Of two at one place either may stay.
pub(crate) fn in_order<R: Threads>(
    rt: &R,
    alloc: Global,
    job: &Evaluation<'_, '_>,
    taken: Vec<Vec<Taken>>,
) -> Result<Vec<Done>, JobFault>
    requires tasks { All (IsTask (program_of job.now.program.now)) job.now.numbers.now }
    requires taken { All (λ some. All (IsTakenIn job.now) some.items) taken.items }
    ensures done { IfOk result (λ all. AllZip (IsDoneIn job.now) job.now.numbers.now all.items) }
    ensures bad { IfErr result (λ fault. IfBad fault
        (IsBadOfItems job.now.mode (program_of job.now.program.now) job.now.fuel job.now.cache.now.load)) }
{
    let mut places = empty_places(alloc, job.numbers.len())?;
    for some in taken {
        put_in_place(job, some, &mut places);
    }
    completed(rt, alloc, job, places)
}

/// So many places with nothing in them.
fn empty_places(alloc: Global, count: usize) -> Result<Vec<Option<Done>>, AllocError>
    ensures { IfOk result (λ places. places.items ≡ replicate count None) }
{
    let mut places = Vec::with_capacity(alloc, count)?;
    for _place in 0..count {
        places.push_reserved(None);
    }
    Ok(places)
}

/// Puts what a worker took in the items' places.
fn put_in_place(job: &Evaluation<'_, '_>, taken: Vec<Taken>, places: &mut Vec<Option<Done>>)
    requires taken { All (IsTakenIn job.now) taken.items }
    requires places { AreInPlace job.now places.old.items }
    ensures { AreInPlace job.now places.new.items }
{
    for Taken { at, done } in taken {
        places[at] = Some(done);
    }
}

/// What each kernel item came to, in order, where these are in their places. An item whose place is empty is evaluated
/// here: there is none after workers that took all items, but of the counter by which they do nothing is proved.
fn completed<R: Threads>(
    rt: &R,
    alloc: Global,
    job: &Evaluation<'_, '_>,
    mut places: Vec<Option<Done>>,
) -> Result<Vec<Done>, JobFault>
    requires tasks { All (IsTask (program_of job.now.program.now)) job.now.numbers.now }
    requires places { AreInPlace job.now places.items }
    ensures done { IfOk result (λ all. AllZip (IsDoneIn job.now) job.now.numbers.now all.items) }
    ensures bad { IfErr result (λ fault. IfBad fault
        (IsBadOfItems job.now.mode (program_of job.now.program.now) job.now.fuel job.now.cache.now.load)) }
{
    let mut all = Vec::with_capacity(alloc, job.numbers.len())?;
    for at in 0..job.numbers.len() {
        let done = match places[at].take() {
            Some(done) => done,
            None => evaluated_alone(rt, alloc, job, job.numbers[at])?,
        };
        all.push_reserved(done);
    }
    Ok(all)
}
