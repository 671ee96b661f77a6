//! How fast windows are, alone or beside a run, and how long a run takes that is published to them.
ghost use Rattle.std.specs.Prelude.{◌≡◌, ◌≤◌, []};
ghost use Rattle.auction_rows.specs.declared.limits.TheConstants.{MOST_WORKERS};
ghost use Rattle.item_shards.specs.OpeningBooks.{opening_of, rows_of_book};

use crate::watching::{OPENING, VIEW};
use anyhow::Result;
use auction_rows::{ItemId, Request};
use auction_run::{Board, FreeGate, NoBoard, Policy, WindowBoard, run_shown};
use auction_text::read_scripts;
use auction_window::{PhaseLog, Publisher, Window, WindowName};
use item_shards::OpeningBook;
use std::alloc::{AllocError, Global};
use std::marker::Brand;
use std::rt::Clock;
use std::sync::Wait;
use std::thread;
use std::thread::{JoinHandle, Threads};
use std::time::{Duration, Instant};

// The vase is there before the run, so that each bid is accepted.
const ROWS: &[u8] = b"0,+item,0,0,Vase,10,100,1\n";

const WORKERS: u32 = 4;

/// What is measured.
#[derive(Clone, Copy)]
pub struct WatchPlan {
    /// How many windows there are, each in a thread, 0 to 16.
    pub windows: u32,
    /// Thousands of views of each, unless the run ends before.
    pub views: u32,
    /// The bids of each worker of the run: 0 for none.
    pub bids: u32,
    ghost few: { windows ≤ MOST_WORKERS },
}

/// Measures a run of four workers who bid on the vase while windows view it; without bids, the
/// windows alone. It prints how long the run took, the views, and how long they took.
pub fn measure<R>(rt: &R, alloc: Global, plan: WatchPlan) -> Result<()>
where
    R: Threads + Wait + Sync + Clock + Print,
{
    let book = OpeningBook::new(alloc, OPENING, read_scripts(alloc, ROWS, 1)?.rows)?;
    if plan.windows == 0 {
        let spent = time_run(rt, alloc, &book, plan.bids, &mut NoBoard)?;
        println!(rt; "run {spent:?}, 0 views")?;
        return Ok(());
    }
    let watched = watch::<Brand, R>(rt, alloc, PhaseLog::new(), &book, plan)?;
    let Watched { run, views, spent } = watched;
    println!(rt; "run {run:?}, {views} views in {spent:?}")?;
    Ok(())
}

// How long a run takes that a board is told of, until what it leaves is freed.
fn time_run<R, B>(
    rt: &R,
    alloc: Global,
    book: &OpeningBook,
    bids: u32,
    board: &mut B,
) -> Result<Duration>
where
    R: Threads + Wait + Sync + Clock,
    B: Board,
    requires { B.has board.old (opening_of book.now) (rows_of_book book.now) [] }
{
    let scripts = scripts(alloc, bids)?;
    let policy = Policy::for_throughput(1);
    let begun = Instant::now(rt)?;
    run_shown(rt, alloc, book, scripts, policy, &FreeGate, board)?;
    Ok(begun.elapsed(rt)?)
}

// Bids of four users on the vase.
fn scripts(alloc: Global, bids: u32) -> Result<Vec<Vec<Request>>, AllocError> {
    let mut scripts = Vec::new(alloc);
    for bidder in 0..WORKERS {
        let bid = Request::StoreBid {
            bidder,
            item: ItemId {
                worker: 0,
                serial: 0,
            },
            amount: 10,
            time: 7,
        };
        scripts.push(vec![in alloc; bid; bids as usize]?)?;
    }
    Ok(scripts)
}

// A run with windows, and what they view.
struct Watched {
    run: Duration,
    views: u64,
    spent: Duration,
}

fn watch<J, R>(
    rt: &R,
    alloc: Global,
    log: PhaseLog,
    book: &OpeningBook,
    plan: WatchPlan,
) -> Result<Watched>
where
    J: WindowName + Send + Sync + 'static,
    R: Threads + Wait + Sync + Clock,
    requires log { log ≡ J.log }
    requires some { 1 ≤ plan.windows }
    requires opening { opening_of book.now ≡ J.opening }
    requires rows { rows_of_book book.now ≡ J.rows }
{
    let begun = Instant::now(rt)?;
    let (publisher, windows) = Publisher::<J>::new(rt, alloc, log, book, plan.windows)?;
    let watchers = start_all(rt, alloc, windows, u64::from(plan.views) * 1_000);
    let (run, views) = if plan.bids > 0 {
        let mut board = WindowBoard::new(publisher);
        let run = time_run(rt, alloc, book, plan.bids, &mut board);
        let WindowBoard { publisher, told: _ } = board;
        // Windows view no more.
        publisher.end(rt);
        let views = join_all(rt, watchers?);
        (run?, views)
    } else {
        let views = watchers.map(|watchers| join_all(rt, watchers));
        publisher.end(rt);
        (Duration::ZERO, views?)
    };
    let spent = begun.elapsed(rt)?;
    Ok(Watched { run, views, spent })
}

// A thread for each window, which views so often, unless the publisher ends before.
fn start_all<J: WindowName + Send + Sync + 'static, R: Threads>(
    rt: &R,
    alloc: Global,
    windows: Vec<Window<J>>,
    most: u64,
) -> Result<Vec<JoinHandle<u64>>, AllocError> {
    let mut watchers = Vec::with_capacity(alloc, windows.len())?;
    for window in windows {
        watchers.push(thread::spawn(rt, move || count_views(window, most))?)?;
    }
    Ok(watchers)
}

fn count_views<J: WindowName>(mut window: Window<J>, most: u64) -> u64 {
    for views in 0..most {
        if window.view(VIEW).is_err() {
            return views;
        }
    }
    most
}

// How many views there were, all together.
fn join_all<R: Threads>(rt: &R, watchers: Vec<JoinHandle<u64>>) -> u64 {
    let mut views = 0u64;
    for watcher in watchers {
        views = views.saturating_add(watcher.join(rt));
    }
    views
}
