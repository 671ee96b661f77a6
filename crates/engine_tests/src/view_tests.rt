//! What windows show before a phase is published, of one phase and of two, and of the rows that
//! their auction was opened with.
ghost use Rattle.std.specs.Prelude.{◌≡◌, ◌++◌, ◌∷◌, [], length, vec_len, false};
ghost use Rattle.auction_rows.specs.History.{rows_of as stored_rows};
ghost use Rattle.item_shards.specs.{OpeningBooks.{opening_of, rows_of_book}, Serial.{CanFollow}};
ghost use Rattle.phase_boards.specs.Boards.{book_of};

use crate::testing::{own_scripts, policy_of, vases_and_bid};
use auction_rows::{Entry, Reply, Request, Row};
use auction_run::{FreeGate, run};
use auction_window::{PhaseLog, Publisher, Seen, Told, Window, WindowName, rows_of};
use item_shards::OpeningBook;
use std::alloc::Global;
use std::marker::Brand;
use std::process::Abort;
use std::sync::Wait;
use std::thread::Threads;
use test_values::{
    NO_ITEM, NO_USER, OPENING, VIEW, bid, bid_row, both, item_row, item_seen, put_up, vases,
};

const VIEW_OF_NOBODY: Request = Request::ViewUser { user: 10 };

const MANY: u32 = 1_000;

/// Asserts that a view shows this, of so many phases.
pub(crate) fn assert_seen<J: WindowName>(
    rt: &impl Abort,
    window: &mut Window<J>,
    view: Request,
    phases: u64,
    reply: Reply,
) {
    let seen = window.view(view).ok();
    assert_eq!(rt; seen, Some(Some(Seen { phases, reply })));
}

// Asserts that a window on an auction in which nothing is published shows no item, and answers no
// store.
fn assert_empty<J: WindowName>(rt: &impl Abort, window: &mut Window<J>) {
    assert_seen(rt, window, VIEW, 0, NO_ITEM);
    let stored = window.view(bid(1, 20, 5)).ok();
    assert_eq!(rt; stored, Some(None));
}

// Whether a window shows no phase, and no item.
fn is_empty<J: WindowName>(window: &mut Window<J>) -> bool {
    let seen = window.view(VIEW).ok();
    let reply = NO_ITEM;
    seen == Some(Some(Seen { phases: 0, reply }))
}

// Asserts that a window which was told nothing shows one phase, or yet none, and never goes back.
fn assert_onward<J: WindowName>(rt: &impl Abort, window: &mut Window<J>, item: &Reply) {
    let mut has_item = false;
    for _view in 0..MANY {
        has_item = has_item || !is_empty(window);
        if has_item {
            assert_seen(rt, window, VIEW, 1, *item);
        }
    }
}

// Publishes the rows of a commit, of which there is one.
fn publish<J: WindowName, R: Wait + Abort>(
    rt: &R,
    alloc: Global,
    publisher: &mut Publisher<J>,
    commit: &[Entry],
    row: Row,
) -> Told<J>
    requires { CanFollow J.opening (book_of J.rows publisher.old.phases) (stored_rows commit.now) }
    ensures { publisher.new ≡ record {
      phases = publisher.old.phases ++ stored_rows commit.now ∷ [];
      failed = false;
    } }
{
    let rows = rows_of(alloc, commit).expect(rt, "memory");
    assert_eq!(rt; rows.as_slice(), [row].as_slice());
    let Ok(told) = publisher.publish(rt, rows) else {
        panic!(rt; "the rows are refused");
    };
    told
}

// Publishes the row of the vase, tells one of two windows of it, and then publishes that of the bid
// and tells the same window.
fn show_commits<J: WindowName, R: Wait + Abort>(
    rt: &R,
    alloc: Global,
    log: PhaseLog,
    commits: &[Entry],
)
    requires log { log ≡ J.log }
    requires empty { J.rows ≡ [] }
    requires opening { J.opening ≡ record { users = 10; categories = 2 } }
    requires two { length commits.now ≡ 2 }
    requires rows { CanFollow J.opening [] (stored_rows commits.now) }
{
    let empty = OpeningBook::empty(OPENING);
    let Ok((mut publisher, windows)) = Publisher::<J>::new(rt, alloc, log, &empty, 2) else {
        panic!(rt; "no publisher");
    };
    let (first, last) = commits.split_at(1);
    let facts = vases(10, 1);
    let (mut one, mut other) = both(windows);
    assert_empty(rt, &mut one);
    assert_empty(rt, &mut other);
    let told = publish(rt, alloc, &mut publisher, first, item_row(facts));
    one.learn(told);
    let item = item_seen(&facts, None, 0, 1);
    assert_seen(rt, &mut one, VIEW, 1, item);
    assert_onward(rt, &mut other, &item);
    let told = publish(rt, alloc, &mut publisher, last, bid_row(0, 1, 50, 7));
    one.learn(told);
    let with_bid = item_seen(&facts, Some((50, 1)), 1, 1);
    assert_seen(rt, &mut one, VIEW, 2, with_bid);
    assert_seen(rt, &mut one, VIEW_OF_NOBODY, 2, NO_USER);
    publisher.end(rt);
}

// The commits of a run of one worker, who puts up a vase and bids on it.
fn two_commits<R: Threads + Wait + Sync + Abort>(rt: &R, alloc: Global) -> Vec<Entry>
    ensures two { vec_len result ≡ 2 }
    ensures rows { CanFollow (record { users = 10; categories = 2 }) [] (stored_rows result.items) }
{
    let script = [put_up(vases(10, 1)), bid(1, 50, 7)];
    let scripts = own_scripts(alloc, &[&script]).expect(rt, "memory");
    let book = OpeningBook::empty(OPENING);
    let Ok(outcome) = run(rt, alloc, &book, scripts, policy_of(64, 64), &FreeGate) else {
        panic!(rt; "the run has stopped");
    };
    let commits = outcome.history.to_entries(alloc).expect(rt, "memory");
    if commits.len() != 2 {
        panic!(rt; "not two commits");
    }
    commits
}

#[test]
fn windows_show_whole_phases_and_never_go_back(rt: HostRuntime) {
    let commits = two_commits(&rt, rt.alloc());
    show_commits::<Brand, HostRuntime>(&rt, rt.alloc(), PhaseLog::new(), &commits);
}

// Asserts what the window of an auction shows that was opened with this book, before anything is
// published.
fn show_opening<J: WindowName, R: Wait + Abort>(
    rt: &R,
    alloc: Global,
    log: PhaseLog,
    book: &OpeningBook,
)
    requires log { log ≡ J.log }
    requires opening { opening_of book.now ≡ J.opening }
    requires rows { rows_of_book book.now ≡ J.rows }
{
    let item = &item_seen(&vases(10, 2), Some((20, 1)), 1, 2);
    let Ok((publisher, mut windows)) = Publisher::<J>::new(rt, alloc, log, book, 1) else {
        panic!(rt; "no publisher");
    };
    for window in &mut windows {
        assert_seen(rt, window, VIEW, 0, *item);
    }
    publisher.end(rt);
}

#[test]
fn a_window_shows_the_opening_rows_before_any_publish(rt: HostRuntime) {
    let rows = vases_and_bid(rt.alloc()).expect(&rt, "memory");
    let book = OpeningBook::new(rt.alloc(), OPENING, rows).expect(&rt, "a book");
    show_opening::<Brand, HostRuntime>(&rt, rt.alloc(), PhaseLog::new(), &book);
}
