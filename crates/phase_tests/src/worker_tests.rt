//! Of `phase_workers`: what the workers of a phase leave where one meets the end of commit numbers,
//! which no run is long enough for.
ghost use Rattle.std.specs.Prelude.{◌≡◌, ◌∷◌, []};
ghost use Rattle.phase_workers.specs.{Tasks.{task, CanBeDone}, Working.{IsPermitOf}};
ghost use Rattle.phase_tests.specs.NewShards.{BeginsWith};

use crate::permits::joined::joined_permit;
use crate::testing::{boxes_of_one, four, list_of, waiting};
use item_shards::Shard;
use phase_permits::{JoinedPermit, PermitFault};
use phase_workers::{FreeGate, Round, serve_all};
use shard_boxes::{Boxes, PhaseName};
use std::alloc::{AllocError, Global};
use std::marker::Brand;
use std::process::Abort;
use std::sync::Wait;
use std::thread::Threads;
use worker_journals::Script;

// The fault that the one worker of a joined phase meets, who has no script.
fn fault_of<N, R>(
    rt: &R,
    alloc: Global,
    boxes: &Boxes<N>,
    permit: JoinedPermit<N>,
    scripts: &[Script],
) -> Option<PermitFault>
where
    N: PhaseName + Send + Sync,
    R: Threads + Wait + Sync + Abort,
    requires can { CanBeDone N.initial boxes.now (task permit [] 0) }
    requires of { IsPermitOf 0 0 permit }
    requires scripts { scripts.now ≡ [] ∷ [] }
{
    let round = Round {
        scripts,
        first: 0,
        phase: 0,
        gate: &FreeGate,
    };
    let served = serve_all(rt, alloc, boxes, list_of(rt, alloc, permit), round);
    let (_receipts, done) = served.expect(rt, "a worker who is served");
    done.err()
}

// The same, where the clock is at the end of numbers and a view waits in the stash.
fn fault_at_the_end<N, R>(
    rt: &R,
    alloc: Global,
    shards: Vec<Shard>,
) -> Result<Option<PermitFault>, AllocError>
where
    N: PhaseName + Send + Sync,
    R: Threads + Wait + Sync + Abort,
    requires { BeginsWith N.initial N.workers 1 shards.items }
{
    let (boxes, key) = boxes_of_one::<N, R>(rt, alloc, shards)?;
    let stash = waiting(alloc, 0, 0)?;
    let permit = joined_permit(alloc, key, stash, 0, u64::MAX)?;
    let scripts = [Script::new(alloc)];
    Ok(fault_of(rt, alloc, &boxes, permit, &scripts))
}

#[test]
fn workers_tell_the_end_of_numbers(rt: HostRuntime) {
    let shards = four(rt.alloc()).expect(&rt, "memory");
    let fault = fault_at_the_end::<Brand, HostRuntime>(&rt, rt.alloc(), shards);
    assert_eq!(rt; fault, Ok(Some(PermitFault::NumberFull)));
}
