//! Whole runs, their requests, and their gates and boards.
ghost use Rattle.std.specs.Prelude.{◌≡◌, Err};
ghost use Rattle.auction_run.specs.declared.checks.Stopped.TheVariants.{Refused};

use auction_rows::{ItemId, Opened, Reply, Request, Row};
use auction_run::{Board, Gate, Outcome, Policy, RunFault, Stopped, run};
use item_shards::OpeningBook;
use phase_floor::Joined;
use std::alloc::{AllocError, Global};
use std::process::Abort;
use std::sync::Wait;
use std::thread::Threads;
use test_values::{LOOK, OPENING, bid, opened, put_up, vases};
use worker_journals::History;

/// Two vases, and a bid of 20 on them.
pub(crate) fn vases_and_bid(alloc: Global) -> Result<Vec<Opened>, AllocError> {
    let vases = opened(0, put_up(vases(10, 2)));
    Ok(vec![in alloc; vases, opened(0, bid(1, 20, 5))]?)
}

/// A bid on an item of the first worker.
pub(crate) fn bid_on(serial: u32, bidder: u32, amount: u64) -> Request {
    Request::StoreBid {
        bidder,
        item: ItemId { worker: 0, serial },
        amount,
        time: 1,
    }
}

/// A board that takes so many phases and refuses the next one. It counts its calls.
#[derive(Drop)]
pub(crate) struct Refusing {
    pub taken: u32,
    pub calls: u32,
}

impl Board for Refusing {
    ghost has = { λ board opening rows phases. Unit {0} };

    ghost has_refused = { λ board opening rows phases. Unit {0} };

    ghost can_be_watched = { ⊥ };

    fn publish<R: Wait>(&mut self, _rt: &R, _last: Vec<Row>) -> Result<(), AllocError> {
        let before = self.calls;
        self.calls = before.saturating_add(1);
        if before == self.taken {
            return Err(AllocError);
        }
        Ok(())
    }
}

/// A gate that only asks for threads.
pub(crate) struct Threaded;

impl Gate for Threaded {
    fn arrive(&self, _phase: u64, _worker: u32, _index: u32) {}

    fn leave(&self, _phase: u64, _worker: u32, _index: u32) {}
}

/// The run of such scripts over four shards, with up to eight hot objects and threshold 1.
pub(crate) fn run_of<R: Threads + Wait + Sync + Abort, G: Gate + Sync>(
    rt: &R,
    alloc: Global,
    scripts: &[&[Request]],
    policy: Policy,
    gate: &G,
) -> Outcome {
    let own = own_scripts(alloc, scripts).expect(rt, "memory");
    let book = OpeningBook::empty(OPENING);
    run(rt, alloc, &book, own, policy, gate).expect(rt, "a run")
}

/// Scripts that a run may keep.
pub(crate) fn own_scripts(
    alloc: Global,
    scripts: &[&[Request]],
) -> Result<Vec<Vec<Request>>, AllocError> {
    let mut own = Vec::new(alloc);
    for script in scripts {
        own.push(Vec::from_slice(alloc, script)?)?;
    }
    Ok(own)
}

/// So many scripts of so many views each.
pub(crate) fn views_of(
    rt: &impl Abort,
    alloc: Global,
    workers: usize,
    views: usize,
) -> Vec<Vec<Request>> {
    let mut scripts = Vec::new(alloc);
    for _worker in 0..workers {
        let script = vec![in alloc; LOOK; views].expect(rt, "memory");
        scripts.push(script).expect(rt, "memory");
    }
    scripts
}

/// Four shards, with up to eight hot objects and threshold 1.
pub(crate) fn policy_of(joined_quota: u32, split_quota: u32) -> Policy {
    Policy {
        shards: 4,
        joined_quota,
        split_quota,
        threshold: 1,
        hot_max: 8,
    }
}

/// In which phase a worker's request was performed, and what it was answered.
pub(crate) fn answer_at(history: &History, worker: u32, index: u32) -> Option<(u64, Reply)> {
    for entry in history.iter() {
        let entry = entry.to_entry();
        if entry.worker == worker && entry.index == index {
            return Some((entry.phase, entry.reply));
        }
    }
    None
}

/// The state that a run which was refused gives back, and its fault.
pub(crate) fn given_back(rt: &impl Abort, answer: Result<Outcome, Stopped>) -> (Joined, RunFault)
    ensures { answer ≡ Err (Refused result.0 result.1) }
{
    match answer {
        Err(Stopped::Refused(state, fault)) => (state, fault),
        _ => panic!(rt; "nothing was refused"),
    }
}
