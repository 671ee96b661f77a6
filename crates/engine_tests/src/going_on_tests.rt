//! Runs that go on from what another left, and what they are refused.
use crate::testing::{
    Refusing, Threaded, answer_at, given_back, own_scripts, policy_of, run_of, views_of,
};
use auction_rows::{Facts, Reply, Request};
use auction_run::{FreeGate, Gate, Outcome, Policy, RunFault, Stopped, run_on, run_on_shown};
use item_shards::OpeningBook;
use phase_floor::Joined;
use shard_boxes::MOST_COMMITS;
use std::alloc::Global;
use std::process::Abort;
use std::sync::Wait;
use std::thread::Threads;
use test_values::{
    LOOK, OPENING, VIEW, bid, bid_stored, bought, item_seen, opened, purchase, put_up, vases,
};
use worker_journals::History;

// Goes on with these scripts.
fn part_of<R: Threads + Wait + Sync + Abort, G: Gate + Sync>(
    rt: &R,
    alloc: Global,
    state: Joined,
    scripts: &[&[Request]],
    gate: &G,
) -> Outcome {
    let own = own_scripts(alloc, scripts).expect(rt, "memory");
    let Ok(outcome) = run_on(rt, alloc, state, own, policy_of(2, 2), gate) else {
        panic!(rt; "a part has stopped");
    };
    outcome
}

// Asserts in which phases a worker's requests were performed and what they were answered, by index,
// and that there are no others.
fn assert_answers(rt: &impl Abort, history: &History, worker: u32, answers: &[(u32, u64, Reply)]) {
    for (index, phase, reply) in answers {
        let answer = answer_at(history, worker, *index);
        assert_eq!(rt; answer, Some((*phase, *reply)));
    }
    assert_eq!(rt; history.len(), answers.len());
}

// Asserts what a view of the vases shows after so many phases.
fn assert_left(rt: &impl Abort, state: &Joined, phases: u64, seen: &Reply) {
    let ended = (state.view(&VIEW), state.phase());
    assert_eq!(rt; ended, (Some(*seen), phases));
}

// Three vases are put up and bid on. Two of them are bought in the next part, and one in the last:
// its bid makes the item hot, so its view waits for the next joined phase. Phases and indexes count
// from 0 in each part.
#[test]
fn a_run_goes_on_where_another_ended(rt: HostRuntime) {
    let alloc = rt.alloc();
    let facts = &vases(10, 3);
    let scripts: [&[Request]; 2] = [&[put_up(*facts), bid(1, 10, 1)], &[LOOK]];
    let state = run_of(&rt, alloc, &scripts, policy_of(2, 2), &Threaded).state;
    assert_left(&rt, &state, 1, &item_seen(facts, Some((10, 1)), 1, 3));
    let outcome = part_of(&rt, alloc, state, &[&[purchase(1, 2, 6)], &[]], &Threaded);
    assert_answers(&rt, &outcome.history, 0, &[(0, 0, bought(0, 0))]);
    let seen = item_seen(facts, Some((10, 1)), 1, 1);
    assert_left(&rt, &outcome.state, 1, &seen);
    let scripts: [&[Request]; 2] = [&[], &[bid(2, 30, 2), purchase(4, 1, 9), VIEW]];
    let outcome = part_of(&rt, alloc, outcome.state, &scripts, &FreeGate);
    let seen = item_seen(facts, Some((30, 2)), 2, 0);
    assert_left(&rt, &outcome.state, 3, &seen);
    let answers = [(0, 0, bid_stored(1, 0)), (1, 0, bought(1, 0)), (2, 2, seen)];
    assert_answers(&rt, &outcome.history, 1, &answers);
}

// An auction of one worker that is resumed with a row of the vases.
fn resumed(rt: &impl Abort, alloc: Global, facts: &Facts) -> Joined {
    let rows = vec![in alloc; opened(0, put_up(*facts))].expect(rt, "memory");
    let book = OpeningBook::new(alloc, OPENING, rows).expect(rt, "a book");
    assert!(rt; !book.rows().iter().any(|row| row.worker() > 0));
    Joined::resume(alloc, &book, 1, 4).expect(rt, "memory")
}

#[test]
fn a_run_goes_on_from_a_resumed_auction(rt: HostRuntime) {
    let alloc = rt.alloc();
    let facts = vases(10, 2);
    let state = resumed(&rt, alloc, &facts);
    let outcome = part_of(&rt, alloc, state, &[&[bid(1, 10, 1), VIEW]], &FreeGate);
    let seen = item_seen(&facts, Some((10, 1)), 1, 2);
    let answers = [(0, 0, bid_stored(0, 0)), (1, 0, seen)];
    assert_answers(&rt, &outcome.history, 0, &answers);
}

// Why a part is refused, and what a view shows that goes on from the state that it gives back.
type GivenBack = (RunFault, Option<(u64, Reply)>);

// Goes on so from what is given back: the state after the view.
fn shown_after<R: Threads + Wait + Sync + Abort>(
    rt: &R,
    alloc: Global,
    state: Joined,
    scripts: Vec<Vec<Request>>,
    policy: Policy,
) -> (Joined, GivenBack) {
    let answer = run_on(rt, alloc, state, scripts, policy, &FreeGate);
    let (back, fault) = given_back(rt, answer);
    let outcome = part_of(rt, alloc, back, &[&[VIEW]], &FreeGate);
    (outcome.state, (fault, answer_at(&outcome.history, 0, 0)))
}

// A worker of two rows may have 999,998 requests more. For one more than these, a script too few,
// other shards or no quota the state comes back as it was: a view shows the vases.
#[test]
fn what_is_refused_gives_the_state_back(rt: HostRuntime) {
    let alloc = rt.alloc();
    let facts = &vases(10, 3);
    let policy = policy_of(2, 2);
    let more_shards = Policy {
        shards: 5,
        ..policy
    };
    let scripts: [&[Request]; 1] = [&[put_up(*facts), bid(1, 10, 1)]];
    let mut state = run_of(&rt, alloc, &scripts, policy, &FreeGate).state;
    let seen = &item_seen(facts, Some((10, 1)), 1, 3);
    for (workers, views, policy, fault) in [
        (0, 0, policy, RunFault::Workers),
        (1, 1, more_shards, RunFault::Shards),
        (1, 1, policy_of(0, 2), RunFault::Quota),
        (1, 999_999, policy, RunFault::TooLong),
    ] {
        let scripts = views_of(&rt, alloc, workers, views);
        let (back, told) = shown_after(&rt, alloc, state, scripts, policy);
        assert_eq!(rt; told, (fault, Some((0, *seen))));
        state = back;
    }
}

// Asserts that a part of 1,000,000 views begins. Its board refuses the first phase: so no more of
// them are performed.
fn assert_begins<R: Threads + Wait + Sync + Abort>(rt: &R, alloc: Global, state: Joined) {
    let long = views_of(rt, alloc, 1, 1_000_000);
    let policy = policy_of(2, 2);
    let mut board = Refusing { taken: 0, calls: 0 };
    match run_on_shown(rt, alloc, state, long, policy, &FreeGate, &mut board) {
        Err(Stopped::Failed(fault)) => assert_eq!(rt; fault, RunFault::Memory),
        _ => panic!(rt; "the part did not begin"),
    }
}

// What a worker looks at is not counted from part to part.
#[test]
fn views_of_earlier_parts_are_not_counted(rt: HostRuntime) {
    let alloc = rt.alloc();
    let state = Joined::new(alloc, OPENING, 1, 4).expect(&rt, "memory");
    let state = part_of(&rt, alloc, state, &[&[LOOK]], &FreeGate).state;
    assert_begins(&rt, alloc, state);
}

// The auction of one worker, who has put the vases up.
fn of_one_row<R: Threads + Wait + Sync + Abort>(rt: &R, alloc: Global) -> Joined {
    let state = Joined::new(alloc, OPENING, 1, 4).expect(rt, "memory");
    let store = put_up(vases(10, 3));
    part_of(rt, alloc, state, &[&[store]], &FreeGate).state
}

// A worker of one row may have 1,000,000 requests more only if its auction lasts.
#[test]
fn a_lasting_auction_goes_on_past_a_million(rt: HostRuntime) {
    let alloc = rt.alloc();
    let state = of_one_row(&rt, alloc);
    let long = views_of(&rt, alloc, 1, 1_000_000);
    let (state, (fault, _shown)) = shown_after(&rt, alloc, state, long, policy_of(2, 2));
    assert_eq!(rt; (fault, state.limit()), (RunFault::TooLong, 1_000_000));
    let lasting = part_of(&rt, alloc, state.lasting(), &[&[bid(1, 10, 1)]], &FreeGate).state;
    assert_eq!(rt; lasting.limit(), MOST_COMMITS);
    assert_begins(&rt, alloc, lasting);
}
