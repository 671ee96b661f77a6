//! A run, and a thread that views it through a window.
ghost use Rattle.std.specs.Prelude.{◌≡◌};
ghost use Rattle.item_shards.specs.OpeningBooks.{opening_of, rows_of_book};

use anyhow::{Result, bail};
use auction_rows::{ItemId, Opening, Request};
use auction_run::{Gate, Policy, RunFault, WindowBoard, run_shown};
use auction_text::read_scripts;
use auction_window::{PhaseLog, Publisher, Seen, Window, WindowName};
use crossbeam_utils::Backoff;
use item_shards::OpeningBook;
use std::alloc::{AllocError, Global};
use std::marker::Brand;
use std::sync::atomic::{AtomicU64, Ordering};
use std::sync::{Arc, Wait};
use std::thread;
use std::thread::{JoinHandle, Threads};

// The scripts of docs/EXAMPLE.md, which take three phases. Here the second worker looks at user 0.
const SCRIPTS: &[u8] = b"\
0,item,0,0,Vase,10,100,1
1,viewuser,0
0,bid,0,0.0,10,1
1,viewuser,0
0,bid,1,0.0,20,2
1,bid,2,0.0,25,2
0,viewitem,0.0
0,bid,1,0.0,30,3
";

const PHASES: u64 = 3;

/// The auction before the run.
pub const OPENING: Opening = Opening {
    users: 10,
    categories: 2,
};

const POLICY: Policy = Policy {
    shards: 4,
    joined_quota: 2,
    split_quota: 3,
    threshold: 1,
    hot_max: 8,
};

/// What windows are asked: the vase.
pub const VIEW: Request = Request::ViewItem {
    item: ItemId {
        worker: 0,
        serial: 0,
    },
};

const MOST_TRIES: u64 = 1_000_000_000;

/// What a thread was shown of a run of the scripts, each time with more phases than before. In step
/// with it, the run begins no phase before the thread has viewed what the phases so far have left.
pub fn watched_run<R: Threads + Wait + Sync>(
    rt: &R,
    alloc: Global,
    in_step: bool,
) -> Result<Vec<Seen>> {
    let input = read_scripts(alloc, SCRIPTS, 2)?;
    let book = OpeningBook::new(alloc, OPENING, input.rows)?;
    let gate = Steps {
        in_step,
        views: AtomicU64::new(0),
    };
    let gate = Arc::new(alloc, gate)?;
    let own = Arc::try_clone(&gate)?;
    let run = Run {
        log: PhaseLog::new(),
        book,
        scripts: input.scripts,
    };
    perform::<Brand, R>(rt, alloc, run, &gate, own)
}

// What a run is made of: the list of phases that it will publish, the book that opens its auction,
// and its scripts.
struct Run {
    log: PhaseLog,
    book: OpeningBook,
    scripts: Vec<Vec<Request>>,
}

// A run with one window. The watcher has the gate as its own.
fn perform<J: WindowName + Send + Sync + 'static, R: Threads + Wait + Sync>(
    rt: &R,
    alloc: Global,
    run: Run,
    gate: &Steps,
    own: Arc<Steps, Global>,
) -> Result<Vec<Seen>>
    requires log { run.log ≡ J.log }
    requires opening { opening_of run.book ≡ J.opening }
    requires rows { rows_of_book run.book ≡ J.rows }
{
    let Run { log, book, scripts } = run;
    let (publisher, mut windows) = Publisher::<J>::new(rt, alloc, log, &book, 1)?;
    let window = windows.remove(0);
    let Ok(watcher) = thread::spawn(rt, move || watch(alloc, window, &own)) else {
        publisher.end(rt);
        bail!("the watcher was not started");
    };
    let mut board = WindowBoard::new(publisher);
    let performed = run_shown(rt, alloc, &book, scripts, POLICY, gate, &mut board);
    let WindowBoard { publisher, told: _ } = board;
    end_run(rt, publisher, watcher, performed.err())
}

// Ends the publisher of a run: what the watcher was shown, or the fault that the run has met.
fn end_run<J: WindowName, R: Threads + Wait>(
    rt: &R,
    publisher: Publisher<J>,
    watcher: JoinHandle<Result<Vec<Seen>, AllocError>>,
    fault: Option<RunFault>,
) -> Result<Vec<Seen>> {
    let Some(fault) = fault else {
        let shown = watcher.join(rt);
        publisher.end(rt);
        return Ok(shown?);
    };
    // A window answers no more once the publisher has ended: so the watcher stops.
    publisher.end(rt);
    let _shown = watcher.join(rt);
    Err(fault.into())
}

// Views until all phases are published, or the publisher has ended, and keeps each view that
// differs from the one before.
fn watch<J: WindowName>(
    alloc: Global,
    mut window: Window<J>,
    gate: &Steps,
) -> Result<Vec<Seen>, AllocError> {
    let mut shown: Vec<Seen> = Vec::new(alloc);
    let backoff = Backoff::new();
    for _try in 0..MOST_TRIES {
        let Ok(Some(seen)) = window.view(VIEW) else {
            break;
        };
        let phases = seen.phases;
        if differs(&shown, &seen) {
            if shown.push(seen).is_err() {
                // So that the run waits for no more views.
                gate.views.store(u64::MAX, Ordering::SeqCst);
                return Err(AllocError);
            }
            gate.views.store(shown.len() as u64, Ordering::SeqCst);
        }
        if phases == PHASES {
            break;
        }
        backoff.snooze();
    }
    Ok(shown)
}

// Whether a view is not the last of these.
fn differs(shown: &[Seen], seen: &Seen) -> bool {
    match shown.last() {
        Some(last) => last != seen,
        None => true,
    }
}

// Holds a phase back until there are more views than phases before it, where it is to keep in step.
#[derive(Drop)]
struct Steps {
    in_step: bool,
    views: AtomicU64,
}

impl Gate for Steps {
    fn arrive(&self, phase: u64, _worker: u32, _index: u32) {
        let backoff = Backoff::new();
        for _try in 0..MOST_TRIES {
            if !self.in_step || self.views.load(Ordering::SeqCst) > phase {
                return;
            }
            backoff.snooze();
        }
    }

    fn leave(&self, _phase: u64, _worker: u32, _index: u32) {}
}
