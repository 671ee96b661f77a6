//! Users like pages: each worker performs its script of a load that is read first.
#![tactic(auto)]

mod likes;
mod load;

ghost use Rattle.std.specs.Prelude.{◌≡◌, IfOk, replicate};

use crate::likes::{LikeReply, LikeRequest, Likes, NONE, Tally};
use crate::load::read_scripts;
use anyhow::Result;
use clap::{ArgMatches, Command};
use program_options::{
    Description, FROM_ONE, FROM_ZERO, UsageFault, described_flag, described_number,
    described_program, flag_of, number_of, parse_words, program_words,
};
use split_engine::{History, Policy, check_scripts, run};
use std::alloc::{AllocError, Global};
use std::io;
use std::io::BufReader;
use std::process::ExitCode;
use std::rt::{Clock, Env};
use std::sync::Wait;
use std::thread::Threads;
use std::time::Instant;

const DESCRIPTION: Description<'static> = Description {
    about: "Users like pages, of which some are busy.",
    usage: "example_likes [OPTIONS] < INPUT",
    after: "\
Reads a request per line: WORKER,like,USER,PAGE,TIME or WORKER,view,USER,PAGE.
Users and pages are records, numbered from 0; a worker is a thread, 0 to 63.
Writes replies in the order in which they replay; with --time, how long the run took, and the sum of
each page's likes times its number.
Faults, this help and the version go to standard error.
Status: 0 all done, 1 options, help or a fault.",
};

fn main(rt: HostRuntime) -> ExitCode {
    match perform(&rt) {
        Ok(status) => status,
        Err(fault) => {
            // What can't be written still has its status.
            let _ = eprintln!(rt; "example_likes: {fault}");
            ExitCode::FAILURE
        }
    }
}

fn command<'a>(alloc: Global) -> Result<Command<'a>, AllocError> {
    let options = vec![in alloc;
        described_number(
            alloc,
            "records",
            FROM_ONE,
            "2000",
            "Users and pages, 1 to 1000000"
        ),
        described_number(alloc, "joined", FROM_ONE, "64", JOINED_HELP),
        described_number(alloc, "split", FROM_ZERO, "4096", SPLIT_HELP),
        described_number(alloc, "threshold", FROM_ZERO, "0", THRESHOLD_HELP),
        described_flag(alloc, "time", "Write how long the run took"),
    ]?;
    described_program(alloc, "example_likes", DESCRIPTION).args(options)
}

const JOINED_HELP: &str = "Requests per worker in a joined phase, 1 to 1000000";

const SPLIT_HELP: &str = "Requests per worker in a split phase, 0 to 1000000";

const THRESHOLD_HELP: &str =
    "Likes of a joined phase that make a record hot; 0: all records are, 0 to 1000000";

// Performs standard input, unless the program's words ask for something else.
fn perform<R>(rt: &R) -> Result<ExitCode>
where
    R: Env + Threads + Wait + Sync + Clock + Input + Print + Eprint + Alloc<A = Global>,
{
    let words = program_words(rt)?;
    match parse_words(rt.alloc(), command(rt.alloc())?, &words) {
        Ok(matches) => perform_input(rt, &matches)?,
        Err(UsageFault::Text(text)) => {
            eprint!(rt; "{text}")?;
            return Ok(ExitCode::FAILURE);
        }
        Err(fault) => return Err(fault.into()),
    }
    Ok(ExitCode::SUCCESS)
}

fn policy_of(matches: &ArgMatches<'_>) -> Policy {
    Policy {
        joined_quota: number_of(matches, "joined", FROM_ONE) as usize,
        split_quota: number_of(matches, "split", FROM_ZERO) as usize,
        rounds: usize::MAX,
        threshold: number_of(matches, "threshold", FROM_ZERO),
    }
}

fn perform_input<R>(rt: &R, matches: &ArgMatches<'_>) -> Result<()>
where
    R: Threads + Wait + Sync + Clock + Input + Print + Alloc<A = Global>,
{
    let alloc = rt.alloc();
    let scripts = read_scripts(alloc, BufReader::new(alloc, rt.reader())?)?;
    let records = number_of(matches, "records", FROM_ONE);
    let table = vec![in alloc; NONE; records as usize]?;
    check_scripts::<Likes>(&scripts, table.len())?;
    let begun = Instant::now(rt)?;
    let outcome = run::<Likes, R>(rt, alloc, table, &scripts, policy_of(matches))?;
    let spent = begun.elapsed(rt)?;
    if flag_of(matches, "time") {
        let requests = outcome.history.len();
        println!(rt;
            "{requests} requests: {spent:?}, sum {}",
            sum_of(&outcome.table)
        )?;
        return Ok(());
    }
    print_history(rt, &outcome.history)?;
    Ok(())
}

// The likes of each page times its number.
fn sum_of(table: &[Tally]) -> u64 {
    let mut sum: u64 = 0;
    for (number, page) in table.iter().enumerate() {
        sum = sum.wrapping_add(page.likes.wrapping_mul(number as u64));
    }
    sum
}

// The history in the order in which it replays.
fn print_history(rt: &impl Print, history: &History<LikeRequest, LikeReply>) -> io::Result<()> {
    for piece in history.pieces() {
        for entry in piece {
            println!(rt;
                "worker {}, request {}: {:?}",
                entry.worker, entry.index, entry.reply
            )?;
        }
    }
    Ok(())
}
