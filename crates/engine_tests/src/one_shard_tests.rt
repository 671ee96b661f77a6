//! Sixteen workers who bid on one item of one shard, side by side in threads: nothing is hot.
use crate::testing::Threaded;
use auction_rows::{Opening, Request};
use auction_run::{Policy, run};
use item_shards::OpeningBook;
use std::alloc::Global;
use std::process::Abort;
use test_values::{LOOK, VIEW, bid, item_seen, put_up, vases};
use worker_journals::History;

const WORKERS: u32 = 16;

const OPENING: Opening = Opening {
    users: WORKERS,
    categories: 2,
};

const POLICY: Policy = Policy {
    shards: 1,
    joined_quota: 1,
    split_quota: 1_000,
    threshold: 1,
    hot_max: 0,
};

// The first worker puts the vase up, and each other one looks at a user. All then bid 1,000 times
// 10 at 7, as the user of their number.
fn scripts(rt: &impl Abort, alloc: Global) -> Vec<Vec<Request>> {
    let store = put_up(vases(10, 1));
    let mut scripts = Vec::new(alloc);
    for worker in 0..WORKERS {
        let mut script = vec![in alloc; bid(worker, 10, 7); 1_001].expect(rt, "memory");
        script[0] = if worker == 0 { store } else { LOOK };
        scripts.push(script).expect(rt, "memory");
    }
    scripts
}

// Asserts that the second phase is the last, and has so many commits, numbered from 1 without a
// gap.
fn assert_numbered(rt: &impl Abort, history: &History, commits: u64) {
    let mut last = 0u64;
    for entry in history.last_entries() {
        let next = last.saturating_add(1);
        assert_eq!(rt; (entry.phase(), entry.number()), (1, next));
        last = next;
    }
    assert_eq!(rt; last, commits);
}

#[test]
fn workers_on_one_shard_share_its_numbers(rt: HostRuntime) {
    let book = OpeningBook::empty(OPENING);
    let scripts = scripts(&rt, rt.alloc());
    let done = run(&rt, rt.alloc(), &book, scripts, POLICY, &Threaded).expect(&rt, "a run");
    assert_numbered(&rt, &done.history, 16_000);
    assert_eq!(rt; done.history.len(), 16_016);
    let seen = item_seen(&vases(10, 1), Some((10, 15)), 16_000, 1);
    assert_eq!(rt; done.state.view(&VIEW), Some(seen));
}
