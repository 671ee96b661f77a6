//! Stores on hot objects alone.
ghost use Rattle.std.specs.Prelude.{◌≡◌};
ghost use Rattle.phase_tests.specs.{NewShards.{BeginsWith}, Permits.{IsPermitFor}};

use crate::permits::closing::{assert_clocks, close_one};
use crate::permits::split::{bid, comment, perform, split_permit};
use crate::testing::{boxes_of_one, four, push_numbers};
use auction_rows::{Object, Refusal, Reply, Stars};
use item_shards::Shard;
use phase_permits::{Done, Slices, SplitPermit, Stash};
use shard_boxes::{Boxes, PhaseName};
use std::alloc::Global;
use std::marker::Brand;
use std::process::Abort;
use std::sync::Wait;
use test_values::{FIRST, VIEW, bid_stored, comment_stored};
use worker_journals::Journal;

// Bids on a hot item, and a view of it, which waits: the key is as it was.
fn bid_and_view<N: PhaseName, R: Wait + Abort>(
    rt: &R,
    boxes: &Boxes<N>,
    permit: &mut SplitPermit<N>,
)
    requires { IsPermitFor N.initial boxes.now permit.old }
    ensures { permit.new.key ≡ permit.old.key }
{
    let below = bid(rt, permit, 9, 5, 0);
    let late = bid(rt, permit, 10, 100, 1);
    let stored = bid(rt, permit, 10, 99, 2);
    let view = perform(rt, boxes, permit, &VIEW, 3);
    assert!(rt; matches!(view, Ok(Done::Stashed)));
    assert_eq!(rt; below, Some(Reply::Refused(Refusal::BelowStart)));
    assert_eq!(rt; late, Some(Reply::Refused(Refusal::Closed)));
    assert_eq!(rt; stored, Some(bid_stored(0, 0)));
    assert_eq!(rt; permit.left(), 0);
}

// What the bids and the view leave.
fn bids_on_a_hot_item<N: PhaseName, R: Wait + Abort>(rt: &R, alloc: Global, shards: Vec<Shard>)
    requires { BeginsWith N.initial N.workers 1 shards.items }
{
    let (boxes, key) = boxes_of_one::<N, R>(rt, alloc, shards).expect(rt, "memory");
    let room = Vec::with_capacity(alloc, 1).expect(rt, "memory");
    let mut permit = split_permit(rt, alloc, key, 0);
    bid_and_view(rt, &boxes, &mut permit);
    let (journal, slices, stash, key, _counters) = permit.finish().parts();
    let shards = close_one(rt, boxes, key, room);
    assert_clocks(rt, &shards, [0; 4]);
    assert_left(rt, alloc, &journal, &stash, slices);
}

// Asserts the numbers of the commits, that the view waits, and which objects have slices.
fn assert_left(
    rt: &impl Abort,
    alloc: Global,
    journal: &Journal,
    stash: &Stash,
    mut slices: Slices,
) {
    let mut numbers = Vec::new(alloc);
    push_numbers(rt, &mut numbers, journal);
    assert_eq!(rt; numbers.as_slice(), [1, 2, 3].as_slice());
    assert_eq!(rt; (stash.len(), stash.get(0)), (1, Some((3, VIEW))));
    for hot in [Some(Object::User(3)), Some(Object::Item(FIRST)), None] {
        let popped = slices.pop().map(|(object, _slice)| object);
        assert_eq!(rt; popped, hot);
    }
}

// A comment about a hot user on a hot item.
fn comment_on_a_hot_item<N: PhaseName, R: Wait + Abort>(rt: &R, alloc: Global, shards: Vec<Shard>)
    requires { BeginsWith N.initial N.workers 1 shards.items }
{
    let (_boxes, key) = boxes_of_one::<N, R>(rt, alloc, shards).expect(rt, "memory");
    let mut permit = split_permit(rt, alloc, key, 0);
    let stored = comment(rt, &mut permit, Stars { value: 5 }, 0);
    assert_eq!(rt; stored, Some(comment_stored(0, 0)));
    assert_eq!(rt; permit.left(), 3);
    drop(permit.finish());
}

// A bid at the end of numbers.
fn stores_at_the_end<N: PhaseName, R: Wait + Abort>(rt: &R, alloc: Global, shards: Vec<Shard>)
    requires { BeginsWith N.initial N.workers 1 shards.items }
{
    let (_boxes, key) = boxes_of_one::<N, R>(rt, alloc, shards).expect(rt, "memory");
    let mut permit = split_permit(rt, alloc, key, u64::MAX);
    let before = permit.left();
    let answer = bid(rt, &mut permit, 10, 99, 0);
    assert_eq!(rt; answer, None);
    assert_eq!(rt; (before, permit.left()), (4, 4));
    drop(permit.finish());
}

#[test]
fn hot_bids_are_refused_and_stored(rt: HostRuntime) {
    let shards = four(rt.alloc()).expect(&rt, "memory");
    bids_on_a_hot_item::<Brand, HostRuntime>(&rt, rt.alloc(), shards);
}

#[test]
fn a_hot_user_is_commented_on(rt: HostRuntime) {
    let shards = four(rt.alloc()).expect(&rt, "memory");
    comment_on_a_hot_item::<Brand, HostRuntime>(&rt, rt.alloc(), shards);
}

#[test]
fn hot_bids_end_with_the_numbers(rt: HostRuntime) {
    let shards = four(rt.alloc()).expect(&rt, "memory");
    stores_at_the_end::<Brand, HostRuntime>(&rt, rt.alloc(), shards);
}
