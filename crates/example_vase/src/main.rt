//! Two workers bid on one vase, which is hot in every second phase.
#![tactic(auto)]

use anyhow::Result;
use auction_rows::{ItemId, Opening, Request};
use auction_run::{FreeGate, Outcome, Policy, run};
use auction_text::read_scripts;
use item_shards::OpeningBook;
use std::alloc::{AllocError, Global};
use std::io;

const OPENING: Opening = Opening {
    users: 10,
    categories: 2,
};

// The vase is there before the run.
const ROWS: &[u8] = b"0,+item,0,0,Vase,10,100,1\n";

const VASE: ItemId = ItemId {
    worker: 0,
    serial: 0,
};

fn script(alloc: Global, bidder: u32) -> Result<Vec<Request>, AllocError> {
    let bid = Request::StoreBid {
        bidder,
        item: VASE,
        amount: 10,
        time: 5,
    };
    Ok(vec![in alloc; bid; 5_000]?)
}

// The bids of both workers.
fn scripts(alloc: Global) -> Result<Vec<Vec<Request>>, AllocError> {
    Ok(vec![in alloc; script(alloc, 1)?, script(alloc, 2)?]?)
}

fn main(rt: HostRuntime) -> Result<()> {
    let alloc = rt.alloc();
    let book = OpeningBook::new(alloc, OPENING, read_scripts(alloc, ROWS, 1)?.rows)?;
    let policy = Policy::for_throughput(2);
    let outcome = run(&rt, alloc, &book, scripts(alloc)?, policy, &FreeGate)?;
    print(&rt, &outcome)?;
    Ok(())
}

// Prints a hot object of each phase, and the vase after all phases.
fn print<R: Print>(rt: &R, outcome: &Outcome) -> io::Result<()> {
    for (phase, hot) in outcome.hot.iter().enumerate() {
        println!(rt; "phase {phase}: {:?}", hot.first())?;
    }
    match outcome.state.view(&Request::ViewItem { item: VASE }) {
        Some(seen) => println!(rt; "{seen:?}"),
        None => Ok(()),
    }
}
