//! What a worker does in a phase of a run, and where it can be watched.
ghost use Rattle.std.specs.Prelude.{◌≡◌, ◌+◌, ◌-◌, ◌≤◌, ◌<◌, ◌++◌, false, true, Some, length, slice_get, OnOk, IfErr};
ghost use Rattle.auction_rows.specs.declared.requests.Request.{Request as Asked};
ghost use Rattle.phase_transactions.specs.Performing.{HasFailed, HaveOpening};
ghost use Rattle.phase_permits.specs.Dealing.{HasFailedFirst};
ghost use Rattle.phase_transactions.specs.Workers.{with_try};
ghost use Rattle.phase_workers.specs.Tasks.{task, CanBeDone, HasDoneTask, HasMetFault};
ghost use Rattle.phase_workers.specs.Working.{calls_from, committed, stashed, taken, hot_for, put_off, not_put_off, IsPermitOf, IsSamePermit, HasPerformedStash, HasStopped};
ghost use Rattle.phase_workers.specs.inner.Steps.{HasDealtWithNext, HasPerformedWaiting};

use auction_rows::{MOST_OF_A_WORKER, MOST_TRIES};
use phase_permits::{Kind, Permit, PermitFault};
use shard_boxes::{Boxes, PhaseName};
use std::sync::Wait;
use worker_journals::Script;

/// What a worker calls before and after each request that it performs, a stashed one at both
/// attempts, while it holds no shard.
pub trait Gate {
    /// The worker is about to perform the request with this index of its script.
    fn arrive(&self, phase: u64, worker: u32, index: u32);

    /// It has performed it, or stashed it, or met a fault.
    fn leave(&self, phase: u64, worker: u32, index: u32);

    /// Whether each worker has a thread of its own in every phase, as a gate needs at which one
    /// worker waits for another. If it need not, a phase that gains nothing by threads may be
    /// performed by one, worker after worker.
    fn needs_threads(&self) -> bool {
        true
    }
}

/// A gate that does nothing.
#[derive(Clone, Copy, Debug, Default)]
pub struct FreeGate;

impl Gate for FreeGate {
    fn arrive(&self, _phase: u64, _worker: u32, _index: u32) {}

    fn leave(&self, _phase: u64, _worker: u32, _index: u32) {}

    fn needs_threads(&self) -> bool {
        false
    }
}

/// A worker's place in a phase: the boxes to which its key is, and what a gate is told of it.
#[derive(Drop)]
pub(crate) struct Post<'a, N: PhaseName, G> {
    pub(crate) boxes: &'a Boxes<N>,
    pub(crate) gate: &'a G,
    pub(crate) phase: u64,
    pub(crate) worker: u32,
}

impl<'a, N: PhaseName, G: Gate> Post<'a, N, G> {
    fn arrive(&self, index: u32) {
        self.gate.arrive(self.phase, self.worker, index);
    }

    fn leave(&self, index: u32) {
        self.gate.leave(self.phase, self.worker, index);
    }
}

/// Does a worker's task: what waits in its permit, and then the permit's quota of the script, from
/// its request `first` on, in the order of their indexes. After a fault, which is the first, the
/// permit performs nothing more.
pub(crate) fn perform_task<N: PhaseName, K: Kind, R: Wait, G: Gate>(
    rt: &R,
    post: &Post<'_, N, G>,
    permit: &mut Permit<N, K>,
    script: &Script,
    first: usize,
) -> Result<(), PermitFault>
    requires can { CanBeDone N.initial post.now.boxes.now
        (task permit.old script.now first) }
    requires post { IsPermitOf post.now.phase post.now.worker permit.old }
    ensures done { OnOk result (HasDoneTask K.IS_JOINED
        (task permit.old script.now first) permit.new) }
    ensures stopped { IfErr result (HasMetFault K.IS_JOINED N.initial
        (task permit.old script.now first) permit.new) }
{
    perform_stash(rt, post, permit)?;
    perform_quota(rt, post, permit, script, first)
}

// What the phase takes of the stash, the request that waits longest first.
fn perform_stash<N: PhaseName, K: Kind, R: Wait, G: Gate>(
    rt: &R,
    post: &Post<'_, N, G>,
    permit: &mut Permit<N, K>,
) -> Result<(), PermitFault>
    requires of { permit.old.key.boxes ≡ post.now.boxes.now }
    requires opening { HaveOpening N.initial permit.old.opening }
    requires tries { permit.old.tries
        + length (taken K.IS_JOINED permit.old) ≤ MOST_TRIES }
    ensures done { OnOk result
        (HasPerformedStash K.IS_JOINED permit.old permit.new) }
    ensures stopped { IfErr result (HasStopped K.IS_JOINED N.initial
        (taken K.IS_JOINED permit.old) permit.old permit.new) }
{
    for _call in 0..waiting(permit) {
        perform_first(rt, post, permit)?;
    }
    Ok(())
}

// How many requests of the stash are performed in this phase.
pub(crate) fn waiting<N: PhaseName, K: Kind>(permit: &Permit<N, K>) -> usize
    ensures { result ≡ length (taken K.IS_JOINED permit.now) }
{
    if K::IS_JOINED { permit.stashed() } else { 0 }
}

// Of these the one that waits longest, if any.
fn perform_first<N: PhaseName, K: Kind, R: Wait, G: Gate>(
    rt: &R,
    post: &Post<'_, N, G>,
    permit: &mut Permit<N, K>,
) -> Result<(), PermitFault>
    requires joined { K.IS_JOINED ≡ true }
    requires of { permit.old.key.boxes ≡ post.now.boxes.now }
    requires opening { HaveOpening N.initial permit.old.opening }
    requires tries { permit.old.tries < MOST_TRIES }
    ensures performed { OnOk result
        (HasPerformedWaiting K.IS_JOINED permit.old permit.new) }
    ensures failed { IfErr result
        (HasFailedFirst N.initial (with_try permit.old) permit.new) }
{
    let Some((index, _request)) = permit.first_stashed() else {
        return Ok(());
    };
    post.arrive(index);
    let done = permit.commit_stashed(rt, post.boxes);
    post.leave(index);
    done?;
    Ok(())
}

// The quota, in the order of the script.
fn perform_quota<N: PhaseName, K: Kind, R: Wait, G: Gate>(
    rt: &R,
    post: &Post<'_, N, G>,
    permit: &mut Permit<N, K>,
    script: &Script,
    first: usize,
) -> Result<(), PermitFault>
    requires of { permit.old.key.boxes ≡ post.now.boxes.now }
    requires opening { HaveOpening N.initial permit.old.opening }
    requires short { length script.now ≤ MOST_OF_A_WORKER }
    requires given { permit.old.left ≤ length script.now - first }
    requires tries { permit.old.tries + permit.old.left ≤ MOST_TRIES }
    ensures same { OnOk result (IsSamePermit permit.old permit.new) }
    ensures calls { OnOk result (committed permit.new ≡ committed permit.old
        ++ not_put_off (hot_for permit.old)
        (calls_from first permit.old.left script.now)) }
    ensures stash { OnOk result (stashed permit.new ≡ stashed permit.old
        ++ put_off (hot_for permit.old)
        (calls_from first permit.old.left script.now)) }
    ensures stopped { IfErr result (HasStopped false N.initial
        (calls_from first permit.old.left script.now)
        permit.old permit.new) }
{
    for place in 0..permit.left() {
        perform_next(rt, post, permit, script, first + place as usize)?;
    }
    Ok(())
}

// The request of the quota at this place of the script.
#[inline(always)]
fn perform_next<N: PhaseName, K: Kind, R: Wait, G: Gate>(
    rt: &R,
    post: &Post<'_, N, G>,
    permit: &mut Permit<N, K>,
    script: &Script,
    place: usize,
) -> Result<(), PermitFault>
    requires of { permit.old.key.boxes ≡ post.now.boxes.now }
    requires opening { HaveOpening N.initial permit.old.opening }
    requires left { 0 < permit.old.left }
    requires tries { permit.old.tries < MOST_TRIES }
    requires within { place < length script.now }
    requires short { length script.now ≤ MOST_OF_A_WORKER }
    ensures dealt { (request : Asked) → slice_get script.now place ≡ Some request →
        OnOk result (HasDealtWithNext (place, request) permit.old permit.new) }
    ensures failed { (request : Asked) → slice_get script.now place ≡ Some request →
        IfErr result (HasFailed N.initial (with_try permit.old) permit.new request) }
{
    let index = place as u32;
    post.arrive(index);
    let done = match script.bid(place) {
        Some(bid) => permit.commit_bid(rt, post.boxes, &bid, index),
        None => permit.commit(rt, post.boxes, &script.request(place), index),
    };
    post.leave(index);
    done?;
    Ok(())
}
