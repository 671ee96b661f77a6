//! Two workers bid on a vase while a thread watches it through a window.
#![tactic(auto)]

mod measuring;
mod watching;

use crate::measuring::{WatchPlan, measure};
use crate::watching::watched_run;
use anyhow::{Result, bail};
use auction_rows::{MOST_WORKERS, Refusal, Reply};
use auction_window::Seen;
use clap::{ArgMatches, Command};
use program_options::{
    Description, FROM_ZERO, NumberRange, UsageFault, described_number, described_program,
    number_of, parse_words, program_words,
};
use std::alloc::{AllocError, Global};
use std::io;
use std::process::ExitCode;
use std::rt::{Clock, Env};
use std::sync::Wait;
use std::thread::Threads;

const FREE_RUNS: u32 = 20;

// What the program says of itself.
const DESCRIPTION: Description<'static> = Description {
    about: "Shows an auction to a thread through a window, while two workers bid on a vase.",
    usage: "example_watch [OPTIONS]",
    after: "\
With windows or bids, measures how fast windows are while four workers bid: on an idle machine.
Reads nothing. Writes a line per view to standard output, or what was measured.
Faults, this help and the version go to standard error.
Status: 0 all done, 1 words, help or a fault.",
};

const WINDOWS: NumberRange = NumberRange {
    least: 0,
    greatest: MOST_WORKERS as u32,
};

fn main(rt: HostRuntime) -> ExitCode {
    match perform(&rt) {
        Ok(status) => status,
        Err(fault) => {
            // What can't be written still has its status.
            let _ = eprintln!(rt; "{fault}");
            ExitCode::FAILURE
        }
    }
}

// Shows the auction, unless the program's words ask for something else.
fn perform<R>(rt: &R) -> Result<ExitCode>
where
    R: Env + Print + Eprint + Alloc<A = Global> + Threads + Wait + Sync + Clock,
{
    let alloc = rt.alloc();
    let words = program_words(rt)?;
    match parse_words(alloc, command(alloc)?, &words) {
        Ok(matches) => watch_as_asked(rt, alloc, plan_of(&matches))?,
        Err(UsageFault::Text(text)) => {
            eprint!(rt; "{text}")?;
            return Ok(ExitCode::FAILURE);
        }
        Err(fault) => return Err(fault.into()),
    }
    Ok(ExitCode::SUCCESS)
}

fn command<'a>(alloc: Global) -> Result<Command<'a>, AllocError> {
    let options = vec![in alloc;
        described_number(
            alloc,
            "windows",
            WINDOWS,
            "0",
            "Windows, each in a thread, 0 to 16"
        ),
        described_number(alloc, "views", FROM_ZERO, "0", VIEWS_HELP),
        described_number(
            alloc,
            "bids",
            FROM_ZERO,
            "0",
            "Bids of each worker, 0 to 1000000"
        ),
    ]?;
    described_program(alloc, "example_watch", DESCRIPTION).args(options)
}

const VIEWS_HELP: &str =
    "Thousands of views of each window, if the run does not end before, 0 to 1000000";

fn plan_of(matches: &ArgMatches<'_>) -> WatchPlan {
    WatchPlan {
        windows: number_of(matches, "windows", WINDOWS),
        views: number_of(matches, "views", FROM_ZERO),
        bids: number_of(matches, "bids", FROM_ZERO),
    }
}

// Measures, if there are windows or bids, and else shows the example.
fn watch_as_asked<R>(rt: &R, alloc: Global, plan: WatchPlan) -> Result<()>
where
    R: Threads + Wait + Sync + Clock + Print,
{
    if plan.windows > 0 || plan.bids > 0 {
        return measure(rt, alloc, plan);
    }
    watch(rt, alloc)
}

// Watches a run that waits for its watcher, and then runs that don't.
fn watch<R: Threads + Wait + Sync + Print>(rt: &R, alloc: Global) -> Result<()> {
    let shown = watched_run(rt, alloc, true)?;
    print_all(rt, &shown)?;
    watch_free_runs(rt, alloc, &shown)?;
    println!(rt; "{FREE_RUNS} runs with no gate: each view was one of these, and none went back")?;
    Ok(())
}

// Runs that do not wait for the watcher, whose views are some of these.
fn watch_free_runs<R: Threads + Wait + Sync>(rt: &R, alloc: Global, shown: &[Seen]) -> Result<()> {
    for _run in 0..FREE_RUNS {
        let some = watched_run(rt, alloc, false)?;
        if !go_through(&some, shown) {
            bail!("a watcher went back, or saw a part of a phase");
        }
    }
    Ok(())
}

fn print_all<R: Print>(rt: &R, shown: &[Seen]) -> io::Result<()> {
    for seen in shown {
        print_view(rt, seen)?;
    }
    Ok(())
}

fn print_view<R: Print>(rt: &R, seen: &Seen) -> io::Result<()> {
    let phases = seen.phases;
    match seen.reply {
        Reply::ItemSeen {
            highest: Some(highest),
            bidder: Some(bidder),
            bids,
            ..
        } => println!(rt; "phases={phases} bids={bids} highest={highest} bidder={bidder}"),
        Reply::Refused(Refusal::NoSuchItem) => println!(rt; "phases={phases} no vase"),
        _ => println!(rt; "phases={phases} a vase without a bid"),
    }
}

// Whether these are some of all views, in their order, and the last one.
fn go_through(some: &[Seen], all: &[Seen]) -> bool {
    let mut next = 0;
    for seen in some {
        let place = seen.phases as usize;
        if place < next || all.get(place).copied() != Some(*seen) {
            return false;
        }
        next = place.saturating_add(1);
    }
    next == all.len()
}
