//! Parts of an auction that are shown to the same windows.
ghost use Rattle.std.specs.Prelude.{◌≡◌, []};
ghost use Rattle.item_shards.specs.OpeningBooks.{opening_of, rows_of_book};
ghost use Rattle.auction_run.specs.Boards.{IsUpToDate};

use crate::testing::{given_back, own_scripts, policy_of};
use crate::view_tests::assert_seen;
use auction_rows::{Facts, Reply, Request};
use auction_run::{Board, FreeGate, RunFault, WindowBoard, run_on_shown, run_shown};
use auction_window::{PhaseLog, Publisher, Window, WindowName};
use item_shards::OpeningBook;
use phase_floor::Joined;
use std::alloc::Global;
use std::marker::Brand;
use std::process::Abort;
use std::sync::Wait;
use std::thread::Threads;
use test_values::{LOOK, OPENING, VIEW, bid, item_seen, purchase, put_up, vases};

// The first part puts the vases up and bids on them, and splits them in its second phase.
fn first_part<R: Threads + Wait + Sync + Abort, B: Board>(
    rt: &R,
    alloc: Global,
    book: &OpeningBook,
    board: &mut B,
    facts: &Facts,
) -> Joined
    requires { B.has board.old (opening_of book.now) (rows_of_book book.now) [] }
    ensures { IsUpToDate B.has board.new result }
{
    let scripts: [&[Request]; 2] = [&[put_up(*facts), bid(1, 10, 1), bid(1, 20, 2)], &[LOOK]];
    let scripts = own_scripts(alloc, &scripts).expect(rt, "memory");
    let Ok(outcome) = run_shown(rt, alloc, book, scripts, policy_of(2, 2), &FreeGate, board) else {
        panic!(rt; "the first part has stopped");
    };
    assert_eq!(rt; outcome.state.phase(), 2);
    outcome.state
}

// The next one buys a vase and bids in one phase.
fn next_part<R: Threads + Wait + Sync + Abort, B: Board>(
    rt: &R,
    alloc: Global,
    state: Joined,
    board: &mut B,
) -> Joined
    requires { IsUpToDate B.has board.old state }
    ensures { IsUpToDate B.has board.new result }
{
    let scripts: [&[Request]; 2] = [&[purchase(4, 1, 9), VIEW], &[bid(2, 30, 3)]];
    let scripts = own_scripts(alloc, &scripts).expect(rt, "memory");
    let Ok(outcome) = run_on_shown(rt, alloc, state, scripts, policy_of(2, 2), &FreeGate, board)
    else {
        panic!(rt; "the next part has stopped");
    };
    assert_eq!(rt; outcome.state.phase(), 1);
    outcome.state
}

// One is refused for want of scripts: a view of the state that comes back shows this.
fn refused_part<R: Threads + Wait + Sync + Abort, B: Board>(
    rt: &R,
    alloc: Global,
    state: Joined,
    board: &mut B,
    seen: &Reply,
) -> Joined
    requires { IsUpToDate B.has board.old state }
    ensures { IsUpToDate B.has board.new result }
{
    let none = Vec::<Vec<Request>>::new(alloc);
    let refused = run_on_shown(rt, alloc, state, none, policy_of(2, 2), &FreeGate, board);
    let (back, fault) = given_back(rt, refused);
    assert_eq!(rt; fault, RunFault::Workers);
    assert_eq!(rt; back.view(&VIEW), Some(*seen));
    back
}

// The last phase is told to the second window: then both show it.
fn show_last<J: WindowName>(
    rt: &impl Abort,
    board: &mut WindowBoard<J>,
    windows: &mut [Window<J>; 2],
    seen: &Reply,
) {
    if let Some(told) = board.told.take() {
        windows[1].learn(told);
    }
    for window in windows {
        assert_seen(rt, window, VIEW, 4, *seen);
    }
}

// Shows the parts to one window that asks after each, and to one that is told of the last phase.
// The next part goes on once more from what the refused one gives back.
fn show_parts<J: WindowName, R: Threads + Wait + Sync + Abort>(
    rt: &R,
    alloc: Global,
    log: PhaseLog,
    book: &OpeningBook,
)
    requires log { log ≡ J.log }
    requires opening { opening_of book.now ≡ J.opening }
    requires rows { rows_of_book book.now ≡ J.rows }
{
    let Ok((publisher, mut made)) = Publisher::<J>::new(rt, alloc, log, book, 2) else {
        panic!(rt; "no publisher");
    };
    let mut board = WindowBoard::new(publisher);
    let mut windows = [made.remove(0), made.remove(0)];
    let facts = vases(10, 3);
    let state = first_part(rt, alloc, book, &mut board, &facts);
    let seen = item_seen(&facts, Some((20, 1)), 2, 3);
    assert_seen(rt, &mut windows[0], VIEW, 2, seen);
    let state = next_part(rt, alloc, state, &mut board);
    let seen = item_seen(&facts, Some((30, 2)), 3, 2);
    assert_seen(rt, &mut windows[0], VIEW, 3, seen);
    let state = refused_part(rt, alloc, state, &mut board, &seen);
    let _last = next_part(rt, alloc, state, &mut board);
    let seen = item_seen(&facts, Some((30, 2)), 4, 1);
    show_last(rt, &mut board, &mut windows, &seen);
    let WindowBoard { publisher, told: _ } = board;
    publisher.end(rt);
}

#[test]
fn windows_go_on_from_part_to_part(rt: HostRuntime) {
    let book = OpeningBook::empty(OPENING);
    show_parts::<Brand, HostRuntime>(&rt, rt.alloc(), PhaseLog::new(), &book);
}
