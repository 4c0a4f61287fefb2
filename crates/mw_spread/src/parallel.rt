// Items in pieces, each worked on by a thread of its own where one can be made.

ghost use Rattle.std.specs.Prelude.{◌≡◌, ℕ, ◌+◌, ◌*◌, ◌/◌, ◌<◌, ◌≤◌, ◌^◌, length, IfOk, IfErr, All};
ghost use Rattle.std.specs.List.{AllZip};
ghost use Rattle.mw_spread.specs.Outputs.{IfBad, OfSome};
ghost use denote.Param.Send.{IsSync, IsSend};

use crate::job::{Job, JobFault};
use mw_outside::Gate;
use std::alloc::Global;
use std::thread::{Threads, join};

/// The output of each item, in the items' order. The items are cut into as many contiguous pieces as the smaller of
/// `workers` and their number. Piece j passes the gate as j, counted from 1, before its items. Every thread has ended
/// when this returns.
pub fn spread<R: Threads + Sync, I: Sync, J: Job<I>, G: Gate>(
    rt: &R,
    alloc: Global,
    workers: u32,
    items: &[I],
    job: &J,
    gate: &G,
) -> Result<Vec<J::Out>, JobFault>
    requires workers { 1 ≤ workers }
    requires items { All (J.takes job.now) items.now }
    ensures outputs { IfOk result (λ outs. AllZip (J.gives job.now) items.now outs.items) }
    ensures bad { IfErr result (λ fault. IfBad fault (OfSome (J.bad job.now) items.now)) }
{
    if items.is_empty() {
        return Ok(Vec::new(alloc));
    }
    let mut count = workers;
    if items.len() < workers as usize {
        count = items.len() as u32;
    }
    pieces(rt, alloc, 1, count, items, job, gate)
}

/// The outputs of one piece.
fn piece<R: Threads + Sync, I, J: Job<I>>(
    rt: &R,
    alloc: Global,
    items: &[I],
    job: &J,
) -> Result<Vec<J::Out>, JobFault>
    requires { All (J.takes job.now) items.now }
    ensures outputs { IfOk result (λ outs. AllZip (J.gives job.now) items.now outs.items) }
    ensures bad { IfErr result (λ fault. IfBad fault (OfSome (J.bad job.now) items.now)) }
{
    let mut outs = Vec::with_capacity(alloc, items.len())?;
    for item in items {
        outs.push_reserved(job.work(rt, alloc, item)?);
    }
    Ok(outs)
}

/// The outputs of several pieces, whose numbers begin at `first`.
#[cycle(pieces)]
fn pieces<R: Threads + Sync, I: Sync, J: Job<I>, G: Gate>(
    rt: &R,
    alloc: Global,
    first: u32,
    count: u32,
    items: &[I],
    job: &J,
    gate: &G,
) -> Result<Vec<J::Out>, JobFault>
    requires count { 1 ≤ count }
    requires fits { first + count ≤ 2 ^ 32 }
    requires items { All (J.takes job.now) items.now }
    ensures outputs { IfOk result (λ outs. AllZip (J.gives job.now) items.now outs.items) }
    ensures bad { IfErr result (λ fault. IfBad fault (OfSome (J.bad job.now) items.now)) }
{
    if count == 1 {
        gate.enter(first);
        return piece(rt, alloc, items, job);
    }
    let low = count / 2;
    let high = count - low;
    let next = first + low;
    let (front, back) = items.split_at(share(items.len(), low, count));
    let (left, right) = join(
        rt,
        move || -> Result<Vec<J::Out>, JobFault>
            requires shared { IsSync R.row × IsSync I.row × IsSync J.row × IsSync G.row }
            requires sent { IsSend J.Out.row }
            requires count { 1 ≤ low }
            requires fits { first + low ≤ 2 ^ 32 }
            requires items { All (J.takes job.now) front.now }
            ensures outputs { IfOk result
                (λ outs. AllZip (J.gives job.entry.now) front.entry.now outs.items) }
            ensures bad { IfErr result
                (λ fault. IfBad fault (OfSome (J.bad job.entry.now) front.entry.now)) }
        { pieces(rt, alloc, first, low, front, job, gate) },
        move || -> Result<Vec<J::Out>, JobFault>
            requires shared { IsSync R.row × IsSync I.row × IsSync J.row × IsSync G.row }
            requires sent { IsSend J.Out.row }
            requires count { 1 ≤ high }
            requires fits { next + high ≤ 2 ^ 32 }
            requires items { All (J.takes job.now) back.now }
            ensures outputs { IfOk result
                (λ outs. AllZip (J.gives job.entry.now) back.entry.now outs.items) }
            ensures bad { IfErr result
                (λ fault. IfBad fault (OfSome (J.bad job.entry.now) back.entry.now)) }
        { pieces(rt, alloc, next, high, back, job, gate) },
    );
    let mut all = left?;
    let mut rest = right?;
    all.append(&mut rest)?;
    Ok(all)
}

/// How many of the items belong to the first `low` of `count` pieces: the pieces' lengths differ by at most one, and
/// the longer ones come first.
fn share(items: usize, low: u32, count: u32) -> usize
    requires count { low < count }
    ensures { result ≤ items }
{
    let (low, count) = (low as usize, count as usize);
    let more = items % count;
    items / count * low + if low < more { low } else { more }
}
