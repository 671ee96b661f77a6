//! Histories of whole runs, on threads and in turn, beside the auction of one thread. Worked
//! examples of runs stand in tests/worked.
use crate::testing::{Threaded, policy_of, run_of};
use auction_rows::{Opened, Reply, Request, Stars, row_of};
use auction_run::{FreeGate, Gate, Policy};
use item_shards::OpeningBook;
use std::alloc::Global;
use std::process::Abort;
use std::sync::Wait;
use std::thread::Threads;
use test_values::{LOOK, OPENING, VIEW, bid, bought, comment, item_seen, purchase, put_up, vases};
use worker_journals::History;

// Whether the rows of a history are those that the auction of one thread stores for its accepted
// stores, in its order.
fn is_replayed(rt: &impl Abort, alloc: Global, history: &History) -> bool {
    let mut accepted = Vec::new(alloc);
    let mut rows = Vec::new(alloc);
    for entry in history.iter() {
        let entry = entry.to_entry();
        let (worker, request) = (entry.worker, &entry.request);
        if let Some(row) = row_of(worker, *request, entry.reply) {
            let request = *request;
            accepted
                .push(Opened { worker, request })
                .expect(rt, "memory");
            rows.push(row).expect(rt, "memory");
        }
    }
    let book = OpeningBook::new(alloc, OPENING, accepted).expect(rt, "a book");
    book.rows() == rows.as_slice()
}

// How many entries a run has, and whether all of them are replayed.
fn replayed<R: Threads + Wait + Sync + Abort, G: Gate + Sync>(
    rt: &R,
    alloc: Global,
    scripts: &[&[Request]],
    policy: Policy,
    gate: &G,
) -> (usize, bool) {
    let history = run_of(rt, alloc, scripts, policy, gate).history;
    (history.len(), is_replayed(rt, alloc, &history))
}

#[test]
fn histories_replay_on_the_auction_of_one_thread(rt: HostRuntime) {
    let alloc = rt.alloc();
    let store = &put_up(vases(10, 1));
    let buy = purchase(4, 1, 9);
    let good = comment(0, 3, Stars { value: 3 });
    let bad = comment(1, 3, Stars { value: -2 });
    let scripts: [&[Request]; 3] = [
        &[*store, bid(0, 10, 1), good, VIEW, bid(1, 30, 3), LOOK],
        &[LOOK, bid(2, 25, 2), *store, bad, bid(2, 35, 4), VIEW],
        &[bid(3, 40, 5), LOOK, bid(3, 45, 5), buy, bid(3, 50, 6), VIEW],
    ];
    for (joined_quota, split_quota) in [(1, 1), (2, 3), (3, 2), (6, 1), (1, 5)] {
        let policy = policy_of(joined_quota, split_quota);
        let side_by_side = replayed(&rt, alloc, &scripts, policy, &Threaded);
        let in_turn = replayed(&rt, alloc, &scripts, policy, &FreeGate);
        assert_eq!(rt; [side_by_side, in_turn], [(18, true); 2]);
    }
}

// Asserts the indices and the replies of the entries of the last phase, which are two.
fn assert_last(rt: &impl Abort, history: &History, wanted: [(u32, Reply); 2]) {
    let mut last = history.last_entries();
    for (index, reply) in wanted {
        let entry = last.next().expect(rt, "an entry").to_entry();
        assert_eq!(rt; (entry.index, entry.reply), (index, reply));
    }
    assert!(rt; last.next().is_none());
}

// Two of three vases are bought in a joined phase. A bid makes them hot, and a purchase of the
// third is put off.
#[test]
fn what_was_put_off_is_performed_first(rt: HostRuntime) {
    let facts = &vases(10, 3);
    let (two, third) = (purchase(1, 2, 6), purchase(1, 1, 6));
    let scripts: [&[Request]; 2] = [
        &[
            put_up(*facts),
            two,
            bid(2, 17, 7),
            bid(2, 19, 7),
            third,
            VIEW,
        ],
        &[LOOK, LOOK, LOOK, bid(3, 18, 7)],
    ];
    let outcome = run_of(&rt, rt.alloc(), &scripts, policy_of(3, 2), &Threaded);
    let item = &item_seen(facts, Some((19, 2)), 3, 0);
    assert_last(&rt, &outcome.history, [(4, bought(0, 1)), (5, *item)]);
    assert_eq!(rt; outcome.state.view(&VIEW), Some(*item));
    let counts = (outcome.state.phase(), outcome.history.len());
    assert_eq!(rt; counts, (3, 10));
}
