//! A ledger that is there after a restart: `example_ledger LOG < REQUESTS` performs requests, a line
//! each, on what the log leaves, and logs them before their replies are told.
#![tactic(auto)]

ghost use Rattle.std.specs.{List.{AllByRecursion}, Prelude.{◌<◌, ℕ}};
ghost use Rattle.split_engine.specs.Rules.{most_before};
ghost use Rattle.example_ledger.specs.Model.{Fits};

#[cfg(test)]
mod calls;
mod ledger;
#[cfg(test)]
mod tests;

use crate::ledger::{Ledger, LedgerRequest, read_request};
use anyhow::{Result, bail};
use application_log::{LoggedTable, open_log_file};
use part_log::NamedFile;
use split_engine::{Outcome, Policy, check_scripts, run};
use std::alloc::Global;
use std::fmt::Display;
use std::fs::File;
use std::io::{Eprint, Read};
use std::process::ExitCode;
use std::rt::{Env, Files};
use std::sync::Wait;
use std::thread::Threads;
use std::{env, io};

// A joined phase with a request and a split one with two, twice.
const POLICY: Policy = Policy {
    joined_quota: 1,
    split_quota: 2,
    rounds: 2,
    threshold: 1,
};

fn main(rt: HostRuntime) -> ExitCode {
    match perform(&rt) {
        Ok(status) => status,
        Err(why) => failed(&rt, why),
    }
}

// Tells why nothing more is done.
fn failed<E: Display + Drop>(rt: &impl Eprint, why: E) -> ExitCode {
    // What can't be written still has its status.
    let _ = eprintln!(rt; "example_ledger: {why}");
    ExitCode::FAILURE
}

// Opens the log that the program's words name, and serves standard input.
fn perform<R>(rt: &R) -> Result<ExitCode>
where
    R: Env
        + Files<File = File>
        + Threads
        + Wait
        + Sync
        + Input
        + Print
        + Eprint
        + Alloc<A = Global>,
{
    let alloc = rt.alloc();
    let words: Vec<String> = env::args(rt)?.collect(alloc)?;
    let Some(path) = words.get(1) else {
        bail!("no log is named");
    };
    let accounts = vec![in alloc; 0, 0, 0]?;
    match open_log_file::<Ledger, _>(rt, alloc, path.as_str(), accounts) {
        Ok(opened) => serve(rt, path.as_str(), opened)?,
        // This can't be told, since its line would stand in the log.
        Err(fault) if fault.is_of_errors() => return Ok(ExitCode::FAILURE),
        Err(fault) => return Ok(failed(rt, fault)),
    }
    Ok(ExitCode::SUCCESS)
}

// Performs the requests of standard input, and tells their replies once they are logged.
fn serve<R>(rt: &R, path: &str, opened: LoggedTable<Ledger, NamedFile<'_, R>>) -> Result<()>
where
    R: Files<File = File> + Threads + Wait + Sync + Input + Print + Alloc<A = Global>,
    requires { (n : ℕ) × (n < most_before) × AllByRecursion (Fits n) opened.table.items }
{
    let alloc = rt.alloc();
    let LoggedTable {
        table,
        mut log,
        cut,
    } = opened;
    println!(rt; "the log has {} lines", log.lines)?;
    if cut > 0 {
        println!(rt; "{cut} bytes of a cut line taken off the log, kept in {path}.cut")?;
    }
    let scripts = [read_requests(rt)?];
    check_scripts::<Ledger>(&scripts, table.len())?;
    let outcome = run::<Ledger, R>(rt, alloc, table, &scripts, POLICY)?;
    log.log_commits::<Ledger>(&outcome.history)?;
    tell(rt, &outcome)?;
    Ok(())
}

// The requests of standard input.
fn read_requests<R: Input + Alloc<A = Global>>(rt: &R) -> Result<Vec<LedgerRequest>> {
    let alloc = rt.alloc();
    let mut text = String::new(alloc);
    rt.reader().read_to_string(&mut text)?;
    let mut requests = Vec::new(alloc);
    for (index, line) in text.lines().enumerate() {
        let Some(request) = read_request(line) else {
            bail!("request {index}: neither add, take nor held");
        };
        requests.push(request)?;
    }
    Ok(requests)
}

// The replies of a run, and what the accounts hold after it.
fn tell(rt: &impl Print, outcome: &Outcome<Ledger>) -> io::Result<()> {
    for piece in outcome.history.pieces() {
        for entry in piece {
            println!(rt; "request {}: {:?}", entry.index, entry.reply)?;
        }
    }
    for (account, held) in outcome.table.iter().enumerate() {
        println!(rt; "account {account}: {held}")?;
    }
    Ok(())
}
