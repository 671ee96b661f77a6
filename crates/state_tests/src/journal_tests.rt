//! Room that is refused, and the entries of several journals in one order.
ghost use Rattle.std.specs.Prelude.{◌≡◌, ◌<◌, ◌≤◌, vec_len};
ghost use Rattle.phase_laws.specs.Numbers.{last_by};
ghost use Rattle.worker_journals.specs.{Journals.{entry_number}, Merged.{AreByWorker}};

use auction_rows::{Entry, Request};
use std::alloc::Global;
use std::process::Abort;
use test_values::NO_USER;
use worker_journals::{History, Journal, merge_journals, numbers_come_after};

fn is_refused(alloc: Global, room: usize) -> bool {
    Journal::with_room(alloc, 7, 3, room).is_err()
}

#[test]
fn room_for_more_than_memory_is_refused(rt: HostRuntime) {
    let alloc = rt.alloc();
    let refused = [
        is_refused(alloc, usize::MAX),
        is_refused(alloc, usize::MAX / 10),
    ];
    assert_eq!(rt; refused, [true; 2]);
}

// A worker's commit of phase 7.
fn entry(worker: u32, number: u64) -> Entry {
    Entry {
        phase: 7,
        number,
        worker,
        index: 5,
        request: Request::ViewUser { user: worker },
        reply: NO_USER,
    }
}

// Adds that commit to the worker's journal.
fn commit(rt: &impl Abort, journal: &mut Journal, number: u64)
    requires after { last_by entry_number 0 journal.old.entries < number }
    ensures last { last_by entry_number 0 journal.new.entries ≡ number }
    ensures worker { journal.new.worker ≡ journal.old.worker }
{
    assert!(rt; journal.len() < journal.room());
    numbers_come_after();
    let user = journal.worker();
    journal.push(number, 5, Request::ViewUser { user }, NO_USER);
}

// The journals of three workers: some have a number of another, and the first has the greatest.
fn journals(rt: &impl Abort, alloc: Global) -> Vec<Journal>
    ensures by_worker { AreByWorker result.items }
    ensures few { vec_len result ≤ 3 }
{
    let mut first = Journal::with_room(alloc, 7, 0, 3).expect(rt, "memory");
    commit(rt, &mut first, 1);
    commit(rt, &mut first, 2);
    commit(rt, &mut first, 9);
    let mut second = Journal::with_room(alloc, 7, 1, 3).expect(rt, "memory");
    commit(rt, &mut second, 2);
    commit(rt, &mut second, 3);
    commit(rt, &mut second, 4);
    let mut third = Journal::with_room(alloc, 7, 2, 1).expect(rt, "memory");
    commit(rt, &mut third, 4);
    vec![in alloc; first, second, third].expect(rt, "memory")
}

// Asserts that these are their entries, by number and then worker.
fn assert_in_order(rt: &impl Abort, entries: &[Entry]) {
    let wanted = [
        entry(0, 1),
        entry(0, 2),
        entry(1, 2),
        entry(1, 3),
        entry(1, 4),
        entry(2, 4),
        entry(0, 9),
    ];
    assert_eq!(rt; entries == wanted.as_slice(), true);
}

#[test]
fn journals_are_merged_by_number_and_then_worker(rt: HostRuntime) {
    let alloc = rt.alloc();
    let merged = merge_journals(alloc, journals(&rt, alloc)).expect(&rt, "memory");
    assert_in_order(&rt, &merged);
    let mut history = History::new(alloc);
    history
        .add_phase(journals(&rt, alloc))
        .expect(&rt, "memory");
    let entries = history.to_entries(alloc).expect(&rt, "memory");
    assert_in_order(&rt, &entries);
    let mut last = 0;
    for entry in &history {
        last = entry.number();
    }
    assert_eq!(rt; last, 9);
}

#[test]
fn a_journal_gives_its_entries(rt: HostRuntime) {
    let mut journal = Journal::with_room(rt.alloc(), 7, 2, 1).expect(&rt, "memory");
    commit(&rt, &mut journal, 4);
    assert_eq!(rt; journal.worker(), 2);
    let mut entries = journal.entries();
    let first = entries.next().expect(&rt, "an entry").to_entry();
    assert!(rt; first == entry(2, 4));
    assert_eq!(rt; entries.next().is_none(), true);
}
