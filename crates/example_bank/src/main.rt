//! A bank: three workers perform requests over three accounts, each on a thread. A window shows an
//! account as the history is published, and a referee judges two histories.
#![tactic(auto)]

mod bank;
mod watching;

use crate::bank::BankRequest::{Balance, Close, Deposit, Transfer};
use crate::bank::{Account, Bank, BankReply};
use crate::watching::watch_history;
use anyhow::Result;
use application_check::{HistoryLine, check_history};
use application_window::OpeningTable;
use split_engine::{Outcome, Policy, check_scripts, run};
use std::alloc::Global;
use std::io;
use std::process::ExitCode;
use std::sync::Wait;
use std::thread::Threads;

const FULL: Account = Account {
    held: 100,
    is_open: true,
};

const EMPTY: Account = Account {
    held: 0,
    is_open: true,
};

const CLOSED: Account = Account {
    held: 50,
    is_open: false,
};

// A joined phase with a request of each script and a split one with two, twice.
const POLICY: Policy = Policy {
    joined_quota: 1,
    split_quota: 2,
    rounds: 2,
    threshold: 1,
};

fn main(rt: HostRuntime) -> Result<()> {
    show(&rt)
}

// Three scripts over three accounts.
fn show<R: Threads + Wait + Sync + Print + Alloc<A = Global>>(rt: &R) -> Result<()> {
    let alloc = rt.alloc();
    let accounts = vec![in alloc; FULL, EMPTY, CLOSED]?;
    let first = vec![in alloc;
        Deposit { to: 1, amount: 5 },
        Deposit { to: 1, amount: 2 },
        Transfer {
            from: 0,
            to: 1,
            amount: 30
        },
    ]?;
    let second = vec![in alloc;
        Balance { of: 1 },
        Deposit { to: 1, amount: 7 },
        Transfer {
            from: 1,
            to: 0,
            amount: 100
        },
    ]?;
    let third = vec![in alloc;
        Deposit { to: 2, amount: 1 },
        Deposit { to: 2, amount: 4 },
        Close { of: 1 },
    ]?;
    let scripts = [first, second, third];
    check_scripts::<Bank>(&scripts, accounts.len())?;
    let outcome = run::<Bank, R>(rt, alloc, accounts, &scripts, POLICY)?;
    print_outcome(rt, &outcome)?;
    let opening = OpeningTable {
        table: vec![in alloc; FULL, EMPTY, CLOSED]?,
        copy: vec![in alloc; FULL, EMPTY, CLOSED]?,
        acts: 1,
    };
    watch_history(rt, alloc, opening, outcome.history)?;
    judge_two(rt, alloc)
}

// The history in the order in which it replays, and what the accounts hold after it.
fn print_outcome(rt: &impl Print, outcome: &Outcome<Bank>) -> io::Result<()> {
    for piece in outcome.history.pieces() {
        for entry in piece {
            println!(rt;
                "worker {}, request {}: {:?}",
                entry.worker, entry.index, entry.reply
            )?;
        }
    }
    for (number, account) in outcome.table.iter().enumerate() {
        println!(rt; "account {number}: {}", account.held)?;
    }
    Ok(())
}

// Tells what the referee finds of two histories of one script over an empty account.
fn judge_two(rt: &impl Print, alloc: Global) -> Result<()> {
    let script = vec![in alloc; Deposit { to: 0, amount: 5 }, Balance { of: 0 }]?;
    let scripts = [script];
    let right = [line(0, BankReply::Done), line(1, BankReply::Holds(5))];
    let mut accounts = vec![in alloc; EMPTY]?;
    let verdict = check_history::<Bank>(alloc, &mut accounts, &scripts, &right);
    println!(rt; "right: {verdict:?}")?;
    let wrong = [line(1, BankReply::Holds(0)), line(0, BankReply::NotEnough)];
    let mut accounts = vec![in alloc; EMPTY]?;
    let verdict = check_history::<Bank>(alloc, &mut accounts, &scripts, &wrong);
    println!(rt; "wrong: {verdict:?}")?;
    Ok(())
}

// A line of worker 0.
fn line(index: u32, reply: BankReply) -> HistoryLine<BankReply> {
    HistoryLine {
        worker: 0,
        index,
        reply,
    }
}
