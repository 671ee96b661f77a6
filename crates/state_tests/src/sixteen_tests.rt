//! A joined and a split phase of sixteen workers, who bid on one item.
ghost use Rattle.std.specs.Prelude.{◌≡◌};

use crate::phases::{joined_phase, split_phase};
use crate::testing::only_hot;
use auction_rows::{BidId, BidShown, Facts, Object, Opening, Reply, Request};
use indexmap::IndexSet;
use phase_floor::Joined;
use std::alloc::Global;
use std::marker::Brand;
use std::process::Abort;
use std::sync::Wait;
use test_values::{FIRST, VIEW, VIEW_OF_BIDS, bid, item_seen, put_up, ten_of, vases};
use worker_journals::History;

const WORKERS: u32 = 16;

const SIXTEEN: Opening = Opening {
    users: 16,
    categories: 2,
};

// Each worker bids 1,000 times 5 at 7, as the user of its number.
fn bids_of_each(rt: &impl Abort, alloc: Global) -> Vec<Vec<Request>> {
    let mut scripts = Vec::new(alloc);
    for worker in 0..WORKERS {
        let script = vec![in alloc; bid(worker, 5, 7); 1000].expect(rt, "memory");
        scripts.push(script).expect(rt, "memory");
    }
    scripts
}

// The state after a phase in which the first worker puts the item up, and one in which it is hot
// and all bid on it.
fn two_phases<R: Wait + Abort>(
    rt: &R,
    alloc: Global,
    state: Joined,
    facts: &Facts,
    hot: &IndexSet<Object>,
    history: &mut History,
) -> Joined
    requires { state.phase ≡ 0 }
{
    let store = vec![in alloc; put_up(*facts)].expect(rt, "memory");
    let state = joined_phase::<Brand, R>(rt, alloc, state, &[store], history);
    let bids = bids_of_each(rt, alloc);
    split_phase::<Brand, R>(rt, alloc, state, hot, &bids, history)
}

// A bid of the last worker, as views show it.
fn last_bid(serial: u32) -> BidShown {
    BidShown {
        amount: 5,
        time: 7,
        bidder: 15,
        id: BidId { worker: 15, serial },
    }
}

// Asserts what views show of the item and of its bids: the ten greatest are the last ones of the
// last worker.
fn assert_shown(rt: &impl Abort, state: &Joined, facts: &Facts) {
    let seen = item_seen(facts, Some((5, 15)), 16_000, 1);
    assert_eq!(rt; state.view(&VIEW), Some(seen));
    let last = [999, 998, 997, 996, 995, 994, 993, 992, 991, 990].map(last_bid);
    let bids = Reply::BidsSeen(ten_of(&last));
    assert_eq!(rt; state.view(&VIEW_OF_BIDS), Some(bids));
}

#[test]
fn sixteen_workers_bid_on_one_item(rt: HostRuntime) {
    let alloc = rt.alloc();
    let facts = vases(5, 1);
    let hot = only_hot(&rt, alloc, Object::Item(FIRST));
    let state = Joined::new(alloc, SIXTEEN, WORKERS, 4).expect(&rt, "memory");
    let mut history = History::new(alloc);
    let state = two_phases(&rt, alloc, state, &facts, &hot, &mut history);
    assert_shown(&rt, &state, &facts);
    assert_eq!(rt; history.len(), 16_001);
}
