//! What a gate is told of a run, and how it holds requests back.
use crate::testing::{Threaded, answer_at, bid_on, policy_of, run_of};
use auction_rows::{Refusal, Reply};
use auction_run::{FreeGate, Gate};
use std::process::Abort;
use std::sync::atomic::{AtomicU64, Ordering};
use test_values::{LOOK, bid, bid_stored, bought, purchase, put_up, vases};
use worker_journals::History;

// In each of three phases the second of two workers waits at its first request until the first
// worker has left its own, and the first stays there until the second has gone on: what the gate is
// told too soon is performed too late, and who is not there is not met. There is a bit for each
// request that arrives or leaves.
#[derive(Default, Drop)]
struct Turns {
    has_left: AtomicU64,
    has_gone_on: AtomicU64,
    met: AtomicU64,
    arrived: AtomicU64,
    left: AtomicU64,
}

fn tell_phase(phases: &AtomicU64, phase: u64) {
    phases.store(phase.saturating_add(1), Ordering::SeqCst);
}

fn wait_for_phase(phases: &AtomicU64, phase: u64, met: &AtomicU64) {
    for _turn in 0..1_000_000_000u64 {
        if phases.load(Ordering::SeqCst) > phase {
            met.fetch_add(1, Ordering::SeqCst);
            return;
        }
    }
}

// The bit of a request of two workers in three phases, and all bits for one that is not watched.
fn watched(phase: u64, worker: u32, index: u32) -> u64 {
    if phase >= 3 || worker >= 2 || index >= 8 {
        return u64::MAX;
    }
    1 << (phase * 16 + worker as u64 * 8 + index as u64)
}

impl Gate for Turns {
    fn arrive(&self, phase: u64, worker: u32, index: u32) {
        self.arrived
            .fetch_or(watched(phase, worker, index), Ordering::SeqCst);
        match (phase, worker, index) {
            (0, 1, 0) | (1, 1, 2) | (2, 1, 4) => wait_for_phase(&self.has_left, phase, &self.met),
            (0, 1, 1) | (1, 1, 3) | (2, 1, 5) => tell_phase(&self.has_gone_on, phase),
            _ => {}
        }
    }

    fn leave(&self, phase: u64, worker: u32, index: u32) {
        self.left
            .fetch_or(watched(phase, worker, index), Ordering::SeqCst);
        if matches!((phase, worker, index), (0, 0, 0) | (1, 0, 2) | (2, 0, 3)) {
            tell_phase(&self.has_left, phase);
            wait_for_phase(&self.has_gone_on, phase, &self.met);
        }
    }
}

// The phase, worker and index of each request that arrives in the run below: the first purchase
// does so in two phases.
const ARRIVALS: [(u64, u32, u32); 11] = [
    (0, 0, 0),
    (0, 0, 1),
    (0, 1, 0),
    (0, 1, 1),
    (1, 0, 2),
    (1, 0, 3),
    (1, 1, 2),
    (1, 1, 3),
    (2, 0, 3),
    (2, 1, 4),
    (2, 1, 5),
];

// Asserts the phase and the reply of each request that went on only once the other worker had left,
// or before it did.
fn assert_replies(rt: &impl Abort, history: &History) {
    for (worker, index, phase, reply) in [
        (1, 0, 0, bid_stored(1, 0)),
        (1, 2, 1, bid_stored(1, 1)),
        (0, 3, 2, bought(0, 0)),
        (1, 4, 2, Reply::Refused(Refusal::NotEnough)),
    ] {
        let answer = answer_at(history, worker, index);
        assert_eq!(rt; answer, Some((phase, reply)));
    }
}

// Asserts that each turn was met, and each arrival told as it came and as it left.
fn assert_told(rt: &impl Abort, turns: &Turns) {
    let mut told = 0;
    for (phase, worker, index) in ARRIVALS {
        told |= watched(phase, worker, index);
    }
    let counts = [
        turns.met.load(Ordering::SeqCst),
        turns.arrived.load(Ordering::SeqCst),
        turns.left.load(Ordering::SeqCst),
    ];
    assert_eq!(rt; counts, [6, told, told]);
}

#[test]
fn gate_is_told_of_each_request_of_workers_side_by_side(rt: HostRuntime) {
    let (store, buy) = (&put_up(vases(10, 1)), &purchase(4, 1, 9));
    let first = [*store, LOOK, *store, *buy];
    let second = [bid(1, 10, 1), LOOK, bid_on(1, 1, 10), LOOK, *buy, LOOK];
    let turns = Turns::default();
    let scripts = [first.as_slice(), second.as_slice()];
    let outcome = run_of(&rt, rt.alloc(), &scripts, policy_of(2, 2), &turns);
    assert_replies(&rt, &outcome.history);
    assert_told(&rt, &turns);
}

#[test]
fn a_gate_asks_for_threads_and_the_free_one_does_not(rt: HostRuntime) {
    assert!(rt; Threaded.needs_threads());
    assert!(rt; !FreeGate.needs_threads());
}
