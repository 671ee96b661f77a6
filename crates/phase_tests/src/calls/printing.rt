//! What is printed beside the answers of calls.
use phase_permits::{Kind, PermitFault, Stash};
use std::alloc::Global;
use std::fmt::Debug;
use worker_journals::{EntryRef, History, Journal};

/// Prints a call that gave so many, with what comes after the number.
pub(crate) fn print_count<R: Print>(rt: &R, call: &str, count: usize, unit: &str) {
    let _ = println!(rt; "{call}: {count}{unit}");
}

/// What a kind of phase is called.
pub(crate) fn kind_name<K: Kind>() -> &'static str {
    if K::IS_JOINED { "joined" } else { "split" }
}

/// Prints the answer of a request in a phase of this kind, before which so much of the quota was
/// left: whether it was performed or put off.
pub(crate) fn print_answer<A: Debug, R: Print>(
    rt: &R,
    kind: &str,
    index: u32,
    left: u32,
    answer: &Result<A, PermitFault>,
) -> bool {
    let _ = match answer {
        Ok(done) => println!(rt; "{kind} request {index}, {left} left: {done:?}"),
        Err(fault) => println!(rt; "{kind} request {index}, {left} left: {fault}"),
    };
    answer.is_ok()
}

/// Prints how many requests wait in each stash of a split phase.
pub(crate) fn print_waiting<R: Print>(rt: &R, stashes: &[Stash]) {
    for stash in stashes {
        print_count(rt, "split stash", stash.len(), " waiting");
    }
}

// Prints the place of a commit.
fn print_entry<R: Print>(rt: &R, entry: EntryRef) {
    let _ = println!(rt;
        "entry of phase {}: number={} worker={} request={}",
        entry.phase(),
        entry.number(),
        entry.worker(),
        entry.index()
    );
}

/// Prints the place of each commit.
pub(crate) fn print_history<R: Print>(rt: &R, history: &History) {
    for entry in history.iter() {
        print_entry(rt, entry);
    }
}

/// Prints the place of each commit of a worker.
pub(crate) fn print_journal<R: Print>(rt: &R, journal: &Journal) {
    for entry in journal.entries() {
        print_entry(rt, entry);
    }
}

/// Prints whether memory is there, by an allocation.
pub(crate) fn look_for_memory<R: Print>(rt: &R, alloc: Global) {
    let _ = match Vec::from_slice(alloc, b"there") {
        Ok(text) => println!(rt; "memory: {} bytes", text.len()),
        Err(_refused) => println!(rt; "memory: refused"),
    };
}
