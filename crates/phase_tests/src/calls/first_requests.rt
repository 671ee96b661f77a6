//! A store, asked once more where it is refused memory, and a view that needs none.
ghost use Rattle.std.specs.Prelude.{◌≡◌};
ghost use Rattle.phase_tests.specs.{NewShards.{BeginsWith}, Permits.{IsPermitFor}};

use crate::calls::printing::{look_for_memory, print_count, print_journal};
use crate::permits::closing::{assert_clocks, close_one, first_facts};
use crate::permits::joined::{perform, permit_of_one};
use crate::testing::waiting;
use auction_rows::{Reply, Request};
use item_shards::Shard;
use phase_permits::{JoinedPermit, PermitFault, Stash};
use shard_boxes::{Boxes, PhaseName};
use std::alloc::Global;
use std::process::Abort;
use std::sync::Wait;
use std::test::Fail;
use test_values::{put_up, vases};

// Performs a store, and once more if it is refused memory: then the permit is as before, but for
// the call that it counts.
fn perform_twice<N: PhaseName, R: Wait + Print + Abort>(
    rt: &R,
    boxes: &Boxes<N>,
    permit: &mut JoinedPermit<N>,
    store: &Request,
) -> Result<Reply, PermitFault>
    requires { IsPermitFor N.initial boxes.now permit.old }
    ensures permit { IsPermitFor N.initial boxes.now permit.new }
    ensures worker { permit.new.key.worker ≡ permit.old.key.worker }
{
    let answer = perform(rt, boxes, permit, store, 0);
    let Err(fault) = answer else {
        return answer;
    };
    let _ = println!(rt; "first store, {} left: {fault}", permit.left());
    let counts = (permit.left(), permit.stashed(), permit.tries());
    assert_eq!(rt; counts, (2, 1, 1));
    perform(rt, boxes, permit, store, 0)
}

/// The reply to a store of a vase, and how many commits there are. The vase is in its shard, at
/// number 1, or all shards are as they were.
pub(crate) fn store<N: PhaseName, R: Wait + Print + Abort>(
    rt: &R,
    alloc: Global,
    shards: Vec<Shard>,
) -> Result<(Reply, usize), Fail>
    requires { BeginsWith N.initial N.workers 1 shards.items }
{
    let room = Vec::with_capacity(alloc, 1)?;
    let stash = waiting(alloc, 7, 0)?;
    let (boxes, mut permit) = permit_of_one::<N, R>(rt, alloc, shards, stash, 0)?;
    print_count(rt, "first store permit", permit.left() as usize, " left");
    let answer = perform_twice(rt, &boxes, &mut permit, &put_up(vases(10, 1)));
    let (journal, _slices, _stash, key, _counters) = permit.finish().parts();
    let shards = close_one(rt, boxes, key, room);
    let stored = answer.is_ok();
    assert_clocks(rt, &shards, [u64::from(stored), 0, 0, 0]);
    assert_eq!(rt; first_facts(&shards), stored.then_some(vases(10, 1)));
    let reply = told(rt, "first store, 2 left", answer)?;
    print_journal(rt, &journal);
    Ok((reply, journal.len()))
}

// The reply, printed as the answer of this call.
fn told<R: Print>(rt: &R, call: &str, answer: Result<Reply, PermitFault>) -> Result<Reply, Fail> {
    match answer {
        Ok(reply) => {
            let _ = println!(rt; "{call}: {reply:?}");
            Ok(reply)
        }
        Err(fault) => Err(Fail::new(fault)),
    }
}

/// The reply to a view between two looks for memory, and how many commits there are.
pub(crate) fn view<N: PhaseName, R: Wait + Print + Abort>(
    rt: &R,
    alloc: Global,
    shards: Vec<Shard>,
) -> Result<(Reply, usize), Fail>
    requires { BeginsWith N.initial N.workers 1 shards.items }
{
    let stash = Stash::with_room(alloc, 0)?;
    let (boxes, mut permit) = permit_of_one::<N, R>(rt, alloc, shards, stash, 0)?;
    print_count(rt, "first view permit", permit.left() as usize, " left");
    look_for_memory(rt, alloc);
    let answer = perform(rt, &boxes, &mut permit, &Request::ViewUser { user: 10 }, 0);
    let (journal, _slices, _stash, _key, _counters) = permit.finish().parts();
    let reply = told(rt, "first view", answer)?;
    look_for_memory(rt, alloc);
    print_journal(rt, &journal);
    Ok((reply, journal.len()))
}
