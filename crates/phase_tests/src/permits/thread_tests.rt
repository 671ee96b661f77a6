//! Two workers who perform at one time, each on a thread of its own, over the same boxes.
ghost use Rattle.std.specs.Prelude.{◌≡◌};
ghost use Rattle.phase_transactions.specs.{Performing.{HaveOpening}, Workers.{IsIdle, IsUnused}};
ghost use Rattle.phase_tests.specs.NewShards.{BeginsWith};

use crate::permits::closing::{assert_clocks, close_two};
use crate::permits::joined::{joined_permit, perform};
use crate::testing::{boxes_of_two, four, push_numbers};
use item_shards::Shard;
use phase_permits::Stash;
use shard_boxes::{Boxes, Key, PhaseName};
use std::alloc::Global;
use std::marker::Brand;
use std::process::Abort;
use std::sync::Wait;
use std::thread;
use std::thread::Threads;
use test_values::{LOOK, OPENING, UNRATED};
use worker_journals::Journal;

// A worker views a user of the first shard twice: its journal and its key.
fn views<N: PhaseName, R: Wait + Abort>(
    rt: &R,
    alloc: Global,
    boxes: &Boxes<N>,
    key: Key<N>,
) -> (Journal, Key<N>)
    requires of { key.boxes ≡ boxes.now }
    requires unused { IsUnused key }
    requires users { HaveOpening N.initial OPENING }
    ensures of { result.1.boxes ≡ boxes.now }
    ensures worker { result.1.worker ≡ key.worker }
    ensures idle { IsIdle result.1 }
{
    let stash = Stash::with_room(alloc, 0).expect(rt, "memory");
    let mut permit = joined_permit(alloc, key, stash, 2, 0).expect(rt, "memory");
    let first = perform(rt, boxes, &mut permit, &LOOK, 0);
    let second = perform(rt, boxes, &mut permit, &LOOK, 1);
    let (journal, _slices, _stash, key, _counters) = permit.finish().parts();
    assert_eq!(rt; [first, second], [Ok(UNRATED); 2]);
    (journal, key)
}

// Asserts that the commits of both have the numbers from 1 to 4.
fn assert_numbers(rt: &impl Abort, alloc: Global, one: &Journal, other: &Journal) {
    let mut numbers = Vec::new(alloc);
    push_numbers(rt, &mut numbers, one);
    push_numbers(rt, &mut numbers, other);
    numbers.sort_unstable();
    assert_eq!(rt; numbers.as_slice(), [1, 2, 3, 4].as_slice());
}

// All four views find one shard, so each has a number of its own.
fn two_threads<N, R>(rt: &R, alloc: Global, shards: Vec<Shard>)
where
    N: PhaseName + Send + Sync,
    R: Threads + Wait + Sync + Abort,
    requires { BeginsWith N.initial N.workers 2 shards.items }
{
    let (boxes, first, second) = boxes_of_two::<N, R>(rt, alloc, shards).expect(rt, "memory");
    let (one, other) = thread::join(
        rt,
        || views(rt, alloc, &boxes, first),
        || views(rt, alloc, &boxes, second),
    );
    let (one, first) = one;
    let (other, second) = other;
    let shards = close_two(rt, alloc, boxes, first, second).expect(rt, "memory");
    assert_numbers(rt, alloc, &one, &other);
    assert_clocks(rt, &shards, [4, 0, 0, 0]);
}

#[test]
fn two_threads_perform_over_the_same_boxes(rt: HostRuntime) {
    let shards = four(rt.alloc()).expect(&rt, "memory");
    two_threads::<Brand, HostRuntime>(&rt, rt.alloc(), shards);
}
