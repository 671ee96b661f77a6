//! A window on the bank: the history of a run is published piece by piece, and a thread watches.
ghost use Rattle.std.specs.Prelude.{◌≡◌};
ghost use Rattle.example_bank.specs.Model.{Fits};
ghost use Rattle.std.specs.List.{AllByRecursion};

use crate::bank::BankRequest::Balance;
use crate::bank::{Account, Bank, BankReply, BankRequest};
use anyhow::Result;
use application_window::{OpeningTable, PartLog, Publisher, Seen, Window, WindowName};
use split_engine::History;
use std::alloc::Global;
use std::io;
use std::marker::Brand;
use std::sync::Wait;
use std::thread::{self, Threads};

// So often the window looks before it gives up.
const MOST_LOOKS: u64 = 1_000_000_000;

/// Publishes a history that begins with these accounts, and prints what a window shows of account 1
/// after its first piece, and after all.
pub fn watch_history<R>(
    rt: &R,
    alloc: Global,
    opening: OpeningTable<Bank>,
    history: History<BankRequest, BankReply>,
) -> Result<()>
where
    R: Threads + Wait + Sync + Print,
    requires copy { opening.copy.items ≡ opening.table.items }
    requires fits { AllByRecursion (Fits opening.acts) opening.table.items }
{
    publish::<Brand, R>(rt, alloc, PartLog::new(), opening, history)
}

fn publish<J, R>(
    rt: &R,
    alloc: Global,
    log: PartLog<Bank>,
    opening: OpeningTable<Bank>,
    history: History<BankRequest, BankReply>,
) -> Result<()>
where
    J: WindowName<Account> + Send + Sync + 'static,
    R: Threads + Wait + Sync + Print,
    requires log { log ≡ J.log }
    requires opened { opening.table.items ≡ J.opened }
    requires copy { opening.copy.items ≡ opening.table.items }
    requires fits { AllByRecursion (Fits opening.acts) opening.table.items }
{
    let (mut publisher, mut windows) = Publisher::<Bank, J>::new(rt, alloc, log, opening, 1)?;
    let shown = show_in(rt, &mut publisher, windows.pop(), history);
    publisher.end(rt);
    shown
}

// Publishes the first piece of a history, and the others while a thread watches.
fn show_in<J, R>(
    rt: &R,
    publisher: &mut Publisher<Bank, J>,
    window: Option<Window<Bank, J>>,
    history: History<BankRequest, BankReply>,
) -> Result<()>
where
    J: WindowName<Account> + Send + Sync + 'static,
    R: Threads + Wait + Sync + Print,
{
    let Some(mut window) = window else {
        return Ok(());
    };
    let commits = history.len() as u64;
    let mut pieces = history.into_pieces().into_iter();
    if let Some(first) = pieces.next() {
        let told = publisher.publish(rt, first)?;
        window.learn(told);
    }
    print_seen(rt, "one piece", window.answer(Balance { of: 1 })?)?;
    let watcher = thread::spawn(rt, move || watch(window, commits))?;
    for piece in pieces {
        publisher.publish(rt, piece)?;
    }
    print_seen(rt, "all pieces", watcher.join(rt))?;
    Ok(())
}

// Looks until so many commits are published, or so often.
fn watch<J: WindowName<Account>>(
    mut window: Window<Bank, J>,
    commits: u64,
) -> Option<Seen<BankReply>> {
    for _look in 0..MOST_LOOKS {
        let seen = window.answer(Balance { of: 1 }).ok()??;
        if seen.commits == commits {
            return Some(seen);
        }
    }
    None
}

fn print_seen<R: Print>(rt: &R, when: &str, seen: Option<Seen<BankReply>>) -> io::Result<()> {
    match seen {
        Some(seen) => println!(rt; "{when}: {} commits, {:?}", seen.commits, seen.value),
        None => println!(rt; "{when}: nothing"),
    }
}
