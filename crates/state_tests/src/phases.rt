//! Phases of either kind, in which each worker performs its script.
ghost use Rattle.std.specs.Prelude.{◌≡◌, ◌+◌, length};
ghost use Rattle.phase_floor.specs.{Closings.{IsReceipt, AreReceiptsOf}, States.{states_of}};

use crate::testing::{nothing_waits, room_for};
use auction_rows::{MOST_TRIES, Object, Request};
use indexmap::IndexSet;
use phase_floor::{Floor, Joined};
use phase_permits::{Kind, Permit, Receipt};
use shard_boxes::PhaseName;
use std::alloc::Global;
use std::process::Abort;
use std::sync::Wait;
use worker_journals::History;

// Performs a request, which is not put off.
fn perform<N: PhaseName, K: Kind, R: Wait + Abort>(
    rt: &R,
    floor: &Floor<N, K>,
    worker: usize,
    permit: &mut Permit<N, K>,
    request: &Request,
)
    requires { IsReceipt floor.now worker permit.old }
    ensures { IsReceipt floor.now worker permit.new }
{
    let index = permit.tries();
    assert!(rt; permit.left() > 0 && index < MOST_TRIES);
    let committed = permit.commit(rt, floor.boxes(), request, index);
    assert_eq!(rt; committed, Ok(true));
}

// The receipt of a worker who has performed its script.
fn receipt<N: PhaseName, K: Kind, R: Wait + Abort>(
    rt: &R,
    floor: &Floor<N, K>,
    worker: usize,
    mut permit: Permit<N, K>,
    script: &[Request],
) -> Receipt<N, K>
    requires { IsReceipt floor.now worker permit }
    ensures { IsReceipt floor.now worker result }
{
    for request in script {
        perform(rt, floor, worker, &mut permit, request);
    }
    permit.finish()
}

// The receipts of all workers, in order. A worker that has no script performs nothing.
fn all_receipts<N: PhaseName, K: Kind, R: Wait + Abort>(
    rt: &R,
    alloc: Global,
    floor: &Floor<N, K>,
    permits: Vec<Permit<N, K>>,
    scripts: &[Vec<Request>],
) -> Vec<Receipt<N, K>>
    requires { AreReceiptsOf floor.now permits.items }
    ensures { AreReceiptsOf floor.now result.items }
{
    let mut receipts = room_for(rt, alloc, permits.len());
    let mut permits = permits.into_iter();
    while let Some(permit) = permits.next() {
        let worker = receipts.len();
        let script = match scripts.get(worker) {
            Some(script) => script.as_slice(),
            None => &[],
        };
        receipts.push_reserved(receipt(rt, floor, worker, permit, script));
    }
    permits.destroy_empty();
    receipts
}

// Has the workers perform, and closes the phase: the state after it.
fn perform_begun<N: PhaseName, K: Kind, R: Wait + Abort>(
    rt: &R,
    alloc: Global,
    begun: (Floor<N, K>, Vec<Permit<N, K>>),
    scripts: &[Vec<Request>],
    history: &mut History,
) -> Joined
    requires { AreReceiptsOf begun.0 begun.1.items }
    ensures workers { length result.counters ≡ length begun.0.counters }
    ensures phase { result.phase ≡ begun.0.phase + 1 }
{
    let (floor, permits) = begun;
    let receipts = all_receipts(rt, alloc, &floor, permits, scripts);
    let closed = floor.close(rt, alloc, history, receipts);
    let (state, _stashes) = closed.expect(rt, "a phase that is closed");
    state
}

/// The state after a joined phase in which each worker has a quota of 1, and nothing waits.
pub(crate) fn joined_phase<N: PhaseName, R: Wait + Abort>(
    rt: &R,
    alloc: Global,
    state: Joined,
    scripts: &[Vec<Request>],
    history: &mut History,
) -> Joined
    requires shards { states_of state ≡ N.initial }
    requires workers { length state.counters ≡ N.workers }
    requires phase { state.phase ≡ 0 }
    ensures workers { length result.counters ≡ N.workers }
    ensures phase { result.phase ≡ 1 }
{
    let workers = state.workers();
    let quotas = vec![in alloc; 1u32; workers as usize].expect(rt, "memory");
    let stashes = nothing_waits(alloc, workers).expect(rt, "memory");
    let Ok(begun) = state.begin_joined::<N, R>(rt, alloc, &quotas, stashes) else {
        panic!(rt; "the joined phase did not begin");
    };
    perform_begun(rt, alloc, begun, scripts, history)
}

/// The state after a split phase in which each worker has a quota of 1,000.
pub(crate) fn split_phase<N: PhaseName, R: Wait + Abort>(
    rt: &R,
    alloc: Global,
    state: Joined,
    hot: &IndexSet<Object>,
    scripts: &[Vec<Request>],
    history: &mut History,
) -> Joined
    requires shards { states_of state ≡ N.initial }
    requires workers { length state.counters ≡ N.workers }
    requires phase { state.phase ≡ 1 }
{
    let quotas = vec![in alloc; 1000u32; state.workers() as usize].expect(rt, "memory");
    let Ok(begun) = state.begin_split::<N, R>(rt, alloc, &quotas, hot) else {
        panic!(rt; "the split phase did not begin");
    };
    perform_begun(rt, alloc, begun, scripts, history)
}
