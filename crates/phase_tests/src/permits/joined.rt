//! A joined permit, and how it performs.
ghost use Rattle.std.specs.Prelude.{◌≡◌, ◌+◌, ◌≤◌, length, IfOk};
ghost use Rattle.phase_transactions.specs.Workers.{IsUnused};
ghost use Rattle.phase_tests.specs.{NewShards.{BeginsWith}, Permits.{IsPermitFor}};

use crate::testing::boxes_of_one;
use auction_rows::{MOST_TRIES, Reply, Request};
use item_shards::Shard;
use phase_permits::{Counters, JoinedPermit, PermitFault, Stash};
use shard_boxes::{Boxes, Key, PhaseName};
use std::alloc::{AllocError, Global};
use std::process::Abort;
use std::sync::Wait;
use test_values::OPENING;
use worker_journals::Journal;

/// A permit of the first phase at this clock, to perform so many requests and what waits: three at
/// most.
pub(crate) fn joined_permit<N: PhaseName>(
    alloc: Global,
    key: Key<N>,
    stash: Stash,
    quota: u32,
    clock: u64,
) -> Result<JoinedPermit<N>, AllocError>
    requires unused { IsUnused key }
    requires few { length stash.requests + quota ≤ 3 }
    ensures key { IfOk result (λ permit. permit.key ≡ key) }
    ensures users { IfOk result (λ permit. permit.opening ≡ OPENING) }
    ensures stash { IfOk result (λ permit. permit.stash ≡ stash) }
    ensures left { IfOk result (λ permit. permit.left ≡ quota) }
    ensures tries { IfOk result (λ permit. permit.tries ≡ 0) }
    ensures phase { IfOk result (λ permit. permit.journal.phase ≡ 0) }
{
    let journal = Journal::with_room(alloc, 0, key.worker(), 3)?;
    let counters = Counters::default();
    Ok(JoinedPermit::new(key, OPENING, counters, journal, stash, quota, clock))
}

/// The boxes of these shards, and a permit of their worker to perform two requests and what waits.
pub(crate) fn permit_of_one<N: PhaseName, R: Wait>(
    rt: &R,
    alloc: Global,
    shards: Vec<Shard>,
    stash: Stash,
    clock: u64,
) -> Result<(Boxes<N>, JoinedPermit<N>), AllocError>
    requires begins { BeginsWith N.initial N.workers 1 shards.items }
    requires few { length stash.requests ≤ 1 }
    ensures permit { IfOk result (λ made. IsPermitFor N.initial made.0 made.1) }
    ensures worker { IfOk result (λ made. made.1.key.worker ≡ 0) }
{
    let (boxes, key) = boxes_of_one::<N, R>(rt, alloc, shards)?;
    let permit = joined_permit(alloc, key, stash, 2, clock)?;
    Ok((boxes, permit))
}

/// Performs a request of the quota.
pub(crate) fn perform<N: PhaseName, R: Wait + Abort>(
    rt: &R,
    boxes: &Boxes<N>,
    permit: &mut JoinedPermit<N>,
    request: &Request,
    index: u32,
) -> Result<Reply, PermitFault>
    requires { IsPermitFor N.initial boxes.now permit.old }
    ensures permit { IsPermitFor N.initial boxes.now permit.new }
    ensures worker { permit.new.key.worker ≡ permit.old.key.worker }
{
    assert!(rt; permit.left() > 0 && permit.tries() < MOST_TRIES);
    permit.perform(rt, boxes, request, index)
}

/// Performs what waits.
pub(crate) fn perform_stashed<N: PhaseName, R: Wait + Abort>(
    rt: &R,
    boxes: &Boxes<N>,
    permit: &mut JoinedPermit<N>,
) -> Result<Option<Reply>, PermitFault>
    requires { IsPermitFor N.initial boxes.now permit.old }
    ensures { IsPermitFor N.initial boxes.now permit.new }
{
    assert!(rt; permit.tries() < MOST_TRIES);
    permit.perform_stashed(rt, boxes)
}
