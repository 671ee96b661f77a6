//! A split permit of worker 0, who has stored the first item.
ghost use Rattle.std.specs.Prelude.{◌≡◌, Ok};
ghost use Rattle.phase_transactions.specs.Workers.{IsUnused};
ghost use Rattle.phase_permits.specs.declared.done.Done.TheVariants.{Stashed};
ghost use Rattle.phase_tests.specs.Permits.{IsPermitFor};

use auction_rows::{MOST_TRIES, Object, Reply, Request, Stars};
use phase_permits::{Counters, Done, PermitFault, Slices, SplitPermit, Stash};
use shard_boxes::{Boxes, Key, PhaseName};
use std::alloc::Global;
use std::process::Abort;
use std::sync::Wait;
use test_values::{FIRST, OPENING, vases};
use worker_journals::Journal;

/// A permit at this clock to perform four requests. The first item, one vase, and user 3 are hot.
pub(crate) fn split_permit<N: PhaseName>(
    rt: &impl Abort,
    alloc: Global,
    key: Key<N>,
    clock: u64,
) -> SplitPermit<N>
    requires worker { key.worker ≡ 0 }
    requires unused { IsUnused key }
    ensures key { result.key ≡ key }
    ensures users { result.opening ≡ OPENING }
{
    let item = (Object::Item(FIRST), Some((vases(10, 1), 1)));
    let hot = [item, (Object::User(3), None)];
    let slices = Slices::new(alloc, &hot).expect(rt, "memory");
    let journal = Journal::with_room(alloc, 1, 0, 4).expect(rt, "memory");
    let stash = Stash::with_room(alloc, 4).expect(rt, "memory");
    let counters = Counters {
        items: 1,
        bids: 0,
        comments: 0,
        buys: 0,
        commits: 1,
    };
    SplitPermit::new(key, OPENING, counters, journal, stash, slices, 4, clock)
}

/// A bid on the first item, which is hot.
pub(crate) fn bid<N: PhaseName, R: Abort>(
    rt: &R,
    permit: &mut SplitPermit<N>,
    amount: u64,
    time: u64,
    index: u32,
) -> Option<Reply>
    ensures key { permit.new.key ≡ permit.old.key }
    ensures users { permit.new.opening ≡ permit.old.opening }
{
    assert!(rt; permit.left() > 0 && permit.is_hot(Object::Item(FIRST)));
    permit.bid_hot(1, FIRST, amount, time, index)
}

/// A comment of user 1 about user 3 on the first item, which are both hot.
pub(crate) fn comment<N: PhaseName, R: Abort>(
    rt: &R,
    permit: &mut SplitPermit<N>,
    stars: Stars,
    index: u32,
) -> Option<Reply> {
    assert!(rt; permit.left() > 0 && permit.is_hot(Object::Item(FIRST)));
    assert!(rt; permit.is_hot(Object::User(3)));
    permit.comment_hot(1, 3, FIRST, stars, index)
}

/// Performs a request of the quota.
pub(crate) fn perform<N: PhaseName, R: Wait + Abort>(
    rt: &R,
    boxes: &Boxes<N>,
    permit: &mut SplitPermit<N>,
    request: &Request,
    index: u32,
) -> Result<Done, PermitFault>
    requires { IsPermitFor N.initial boxes.now permit.old }
    ensures stashed { result ≡ Ok Stashed → permit.new.key ≡ permit.old.key }
{
    assert!(rt; permit.left() > 0 && permit.tries() < MOST_TRIES);
    permit.perform(rt, boxes, request, index)
}
