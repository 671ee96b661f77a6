//! What begins, and what is too long or unknown.
ghost use Rattle.std.specs.Prelude.{◌≡◌, ◌<◌, ◌≤◌, ◌↔◌, All, IsTrue, length, vec_len};
ghost use Rattle.auction_rows.specs.Book.{worker_of};

use crate::begins::{begin_joined, begin_split};
use crate::phases::joined_phase;
use crate::testing::{nothing_waits, only_hot};
use auction_rows::{ItemId, Object, Row};
use indexmap::IndexSet;
use item_shards::OpeningBook;
use phase_floor::{BeginFault, Joined};
use phase_permits::Stash;
use std::alloc::Global;
use std::marker::Brand;
use std::process::Abort;
use std::sync::Wait;
use test_values::{LOOK, OPENING, opened, put_up, vases};
use worker_journals::History;

const EIGHTH: ItemId = ItemId {
    worker: 7,
    serial: 0,
};

// Whether all rows are of worker 0.
fn are_of_the_first(rows: &[Row]) -> bool
    ensures { IsTrue result ↔ All (λ row. worker_of row < 1) rows.now }
{
    rows.iter().all(|row| row.worker() < 1)
}

// A joined phase that is too long: the state and the stashes come back.
fn refuses_joined<R: Wait + Abort>(
    rt: &R,
    alloc: Global,
    state: Joined,
    quota: u32,
) -> (Joined, Vec<Stash>)
    requires one { length state.counters ≡ 1 }
    requires phase { state.phase ≤ 1 }
    ensures state { result.0 ≡ state }
    ensures stashes { vec_len result.1 ≡ 1 }
{
    let stashes = nothing_waits(alloc, 1).expect(rt, "memory");
    let begun = begin_joined::<Brand, R>(rt, alloc, state, quota, stashes);
    let (state, stashes, fault) = begun.expect_err(rt, "too long");
    assert_eq!(rt; fault, BeginFault::TooLong);
    assert_eq!(rt; stashes.len(), 1);
    (state, stashes)
}

// A joined phase that is too long, and one that is not.
fn begins_joined<R: Wait + Abort>(rt: &R, alloc: Global, state: Joined, too_long: u32, most: u32)
    requires one { length state.counters ≡ 1 }
    requires phase { state.phase ≡ 0 }
{
    let (state, stashes) = refuses_joined(rt, alloc, state, too_long);
    let begun = begin_joined::<Brand, R>(rt, alloc, state, most, stashes);
    assert_eq!(rt; begun.ok(), Some(most));
}

// A split phase whose hot object is unknown, then one that is too long, and one that is neither.
fn begins_split<R: Wait + Abort>(
    rt: &R,
    alloc: Global,
    state: Joined,
    unknown: &IndexSet<Object>,
    known: &IndexSet<Object>,
)
    requires one { length state.counters ≡ 1 }
    requires phase { state.phase ≡ 0 }
{
    let begun = begin_split::<Brand, R>(rt, alloc, state, 1_000_001, unknown);
    let (state, fault) = begun.expect_err(rt, "an unknown hot object");
    assert_eq!(rt; fault, BeginFault::UnknownHot);
    let begun = begin_split::<Brand, R>(rt, alloc, state, 1_000_001, known);
    let (state, fault) = begun.expect_err(rt, "too long");
    assert_eq!(rt; fault, BeginFault::TooLong);
    let begun = begin_split::<Brand, R>(rt, alloc, state, 1_000_000, known);
    assert_eq!(rt; begun.ok(), Some(1_000_000));
}

// An auction of one worker in which nothing is stored.
fn of_no_rows(rt: &impl Abort, alloc: Global) -> Joined
    ensures one { length result.counters ≡ 1 }
    ensures phase { result.phase ≡ 0 }
{
    Joined::new(alloc, OPENING, 1, 4).expect(rt, "memory")
}

#[test]
fn a_million_requests_are_not_too_many(rt: HostRuntime) {
    let state = of_no_rows(&rt, rt.alloc());
    begins_joined(&rt, rt.alloc(), state, 1_000_001, 1_000_000);
}

// An auction with three rows of its worker.
fn of_three_rows(rt: &impl Abort, alloc: Global) -> Joined
    ensures one { length result.counters ≡ 1 }
    ensures phase { result.phase ≡ 0 }
{
    let rows = vec![in alloc; opened(0, put_up(vases(10, 1))); 3].expect(rt, "memory");
    let book = OpeningBook::new(alloc, OPENING, rows).expect(rt, "a book");
    assert!(rt; are_of_the_first(book.rows()));
    Joined::resume(alloc, &book, 1, 4).expect(rt, "memory")
}

#[test]
fn rows_count_as_requests(rt: HostRuntime) {
    let state = of_three_rows(&rt, rt.alloc());
    begins_joined(&rt, rt.alloc(), state, 999_998, 999_997);
}

// A quota is one too great for three rows and 2^31 commits, and one is more than a million.
#[test]
fn a_lasting_auction_begins_past_a_million(rt: HostRuntime) {
    let state = of_three_rows(&rt, rt.alloc()).lasting();
    begins_joined(&rt, rt.alloc(), state, 2_147_483_646, 1_000_001);
}

// A look at a user is one of the requests of its run, and of no later run.
fn begins_anew<R: Wait + Abort>(rt: &R, alloc: Global, state: Joined)
    requires one { length state.counters ≡ 1 }
    requires phase { state.phase ≡ 0 }
{
    let mut history = History::new(alloc);
    let script = vec![in alloc; LOOK].expect(rt, "memory");
    let state = joined_phase::<Brand, R>(rt, alloc, state, &[script], &mut history);
    let (state, _stashes) = refuses_joined(rt, alloc, state, 1_000_000);
    begins_joined(rt, alloc, state.for_next_run(), 1_000_001, 1_000_000);
}

#[test]
fn a_view_counts_in_its_own_run_alone(rt: HostRuntime) {
    let state = of_no_rows(&rt, rt.alloc());
    begins_anew(&rt, rt.alloc(), state);
}

#[test]
fn an_unknown_hot_object_goes_before_too_many_requests(rt: HostRuntime) {
    let alloc = rt.alloc();
    let unknown = only_hot(&rt, alloc, Object::Item(EIGHTH));
    let known = only_hot(&rt, alloc, Object::User(0));
    begins_split(&rt, alloc, of_no_rows(&rt, alloc), &unknown, &known);
}
