//! Requests at the end of numbers, and what waits.
ghost use Rattle.phase_tests.specs.NewShards.{BeginsWith};

use crate::permits::joined::{perform, perform_stashed, permit_of_one};
use crate::testing::{four, waiting};
use auction_rows::Request;
use item_shards::Shard;
use phase_permits::{PermitFault, Stash};
use shard_boxes::PhaseName;
use std::alloc::Global;
use std::marker::Brand;
use std::process::Abort;
use std::sync::Wait;
use test_values::{LOOK, UNRATED};

// Views of a user and of one that there is not, at the end of numbers.
fn views_at_the_end<N: PhaseName, R: Wait + Abort>(rt: &R, alloc: Global, shards: Vec<Shard>)
    requires { BeginsWith N.initial N.workers 1 shards.items }
{
    let stash = Stash::with_room(alloc, 0).expect(rt, "memory");
    let made = permit_of_one::<N, R>(rt, alloc, shards, stash, u64::MAX);
    let (boxes, mut permit) = made.expect(rt, "memory");
    let known = perform(rt, &boxes, &mut permit, &LOOK, 0);
    let unknown = perform(rt, &boxes, &mut permit, &Request::ViewUser { user: 10 }, 0);
    assert_eq!(rt; [known, unknown], [Err(PermitFault::NumberFull); 2]);
    assert_eq!(rt; permit.left(), 2);
    drop(permit.finish());
}

// A view that waits, and then none.
fn one_waits<N: PhaseName, R: Wait + Abort>(rt: &R, alloc: Global, shards: Vec<Shard>)
    requires { BeginsWith N.initial N.workers 1 shards.items }
{
    let stash = waiting(alloc, 0, 0).expect(rt, "memory");
    let made = permit_of_one::<N, R>(rt, alloc, shards, stash, 0);
    let (boxes, mut permit) = made.expect(rt, "memory");
    let answer = perform_stashed(rt, &boxes, &mut permit);
    let none_waits = perform_stashed(rt, &boxes, &mut permit);
    assert_eq!(rt; [answer, none_waits], [Ok(Some(UNRATED)), Ok(None)]);
    assert_eq!(rt; permit.stashed(), 0);
    drop(permit.finish());
}

#[test]
fn joined_requests_end_with_the_numbers(rt: HostRuntime) {
    let shards = four(rt.alloc()).expect(&rt, "memory");
    views_at_the_end::<Brand, HostRuntime>(&rt, rt.alloc(), shards);
}

#[test]
fn a_stashed_view_is_answered_once(rt: HostRuntime) {
    let shards = four(rt.alloc()).expect(&rt, "memory");
    one_waits::<Brand, HostRuntime>(&rt, rt.alloc(), shards);
}
