//! The commits of all phases that have closed.
ghost use Rattle.std.specs.{Iterator.{YieldsFirst, item_count}, List.{AllByRecursion}};
ghost use Rattle.std.specs.Option.{ForSome};
ghost use Rattle.std.specs.Prelude.{◌≡◌, ℕ, ◌+◌, ◌<◌, ◌^◌, ◌==◌, ◌≤◌, length, map, slice_get, vec_len, IfOk, OnOk, OnErr, IfSome};
ghost use Rattle.phase_laws.specs.Order.{part};
ghost use Rattle.worker_journals.specs.Histories.{ArePhase, no_history, with_phase};
ghost use Rattle.worker_journals.specs.Journals.{IsJournalOf, IsLawfulJournal, closed_journal, entry_worker};
ghost use Rattle.worker_journals.specs.Merged.{AreByWorker, entries_of, merged};
ghost use Rattle.worker_journals.specs.Rising.{EntriesRiseTo, HasPassed};
ghost use Rattle.worker_journals.specs.inner.Places.{first_entries};

use crate::entries::EntryRef;
use crate::journal::{Journal, SpareLists};
use crate::merge::{Merging, count_of};
use auction_rows::{Entry, MOST_WORKERS};
use request_scripts::SharedScripts;
use std::alloc::{AllocError, Global};
use std::marker::Model;

/// The commits of all phases that have closed: one phase after the other, in a phase by number, and
/// then by worker. Contracts see the entries of these commits, and the journals of the last phase.
///
/// A history keeps the journals of each phase as they were written: no entry is copied into it, and
/// the entries are merged while they are read.
#[derive(Drop)]
pub struct History {
    phases: Vec<Vec<Journal>>,
    len: usize,
}

impl Model for History {
    ghost use Rattle.worker_journals.specs.Histories.{HistoryView};
    ghost use Rattle.worker_journals.specs.inner.Phases.{IsHistory, journals_of, shown};

    ghost Value = { HistoryView };

    ghost view = { λ h. shown (journals_of h.phases.items) };

    ghost invariant = { λ h. IsHistory (journals_of h.phases.items) h.len };
}

impl History {
    /// No phase.
    pub fn new(alloc: Global) -> History
        ensures { result ≡ no_history }
    {
        History {
            phases: Vec::new(alloc),
            len: 0,
        }
    }

    /// Adds a phase at the end, by the journals of its at most 16 workers, in the order of these.
    /// Memory that they don't fill is given back. Where memory is refused, the history stays as it
    /// was; a count of entries past 64 bits is want of memory.
    pub fn add_phase(&mut self, journals: Vec<Journal>) -> Result<(), AllocError>
        requires few { vec_len journals ≤ MOST_WORKERS }
        requires by_worker { AreByWorker journals.items }
        ensures added { OnOk result (self.new ≡ with_phase self.old journals.items) }
        ensures lawful { OnOk result (AllByRecursion IsLawfulJournal journals.items) }
        ensures refused { OnErr result (self.new ≡ self.old) }
    {
        let mut lists = Vec::new(*self.phases.allocator());
        self.add_phase_on(journals, None, &mut lists)
    }

    /// As `add_phase`, and adds the memory of no entry to what is kept for other journals. If each
    /// entry's request is the one of its worker's script at its index, the scripts may be given:
    /// then the requests are read there from now on.
    pub fn add_phase_on(
        &mut self,
        journals: Vec<Journal>,
        scripts: Option<&SharedScripts>,
        kept: &mut Vec<SpareLists>,
    ) -> Result<(), AllocError>
        requires few { vec_len journals ≤ MOST_WORKERS }
        requires by_worker { AreByWorker journals.items }
        requires asked { ForSome scripts (λ scripts.
            AllByRecursion (IsJournalOf scripts.now) journals.items) }
        ensures added { OnOk result (self.new ≡ with_phase self.old journals.items) }
        ensures lawful { OnOk result (AllByRecursion IsLawfulJournal journals.items) }
        ensures refused { OnErr result (self.new ≡ self.old) }
    {
        let count = count_of(&journals).ok_or(AllocError)?;
        let len = self.len.checked_add(count).ok_or(AllocError)?;
        let mut journals = journals;
        close_all(&mut journals, scripts, kept)?;
        self.phases.push(journals)?;
        self.len = len;
        Ok(())
    }

    /// How many entries there are.
    pub fn len(&self) -> usize
        ensures { result ≡ length self.now.entries }
    {
        self.len
    }

    /// The history has as many entries as a `usize` counts. The call does nothing.
    #[inline(always)]
    pub fn fits(&self)
        ensures { length self.now.entries < 2 ^ 64 }
    {
        self.len();
    }

    /// Whether the history has no entry.
    pub fn is_empty(&self) -> bool
        ensures { result ≡ (length self.now.entries == 0) }
    {
        self.len == 0
    }

    /// The journals of the last phase, in the order of their workers: none before the first phase.
    pub fn last_phase(&self) -> &[Journal]
        ensures last { result.now ≡ self.now.last }
        ensures phase { ArePhase result.now }
    {
        match self.phases.last() {
            Some(journals) => journals.as_slice(),
            None => &[],
        }
    }

    /// The last worker with a journal, 0 if there is none: no entry is of a later worker.
    pub fn last_worker(&self) -> u32
        ensures { AllByRecursion (λ entry. entry.worker ≤ result) self.now.entries }
    {
        let mut last = 0;
        for journals in &self.phases {
            last = last_of_phase(journals.as_slice(), last);
        }
        last
    }

    /// The entries, one phase after the other, those of a phase by number, and those of one number
    /// by worker.
    pub fn iter(&self) -> Entries<'_>
        ensures { result ≡ self.now.entries }
    {
        Entries {
            phase: Merging::of(&[]),
            phases: &self.phases,
        }
    }

    /// The entries as one list, each made whole, in the order in which `iter` gives them.
    pub fn to_entries(&self, alloc: Global) -> Result<Vec<Entry>, AllocError>
        ensures { IfOk result (λ entries. entries.items ≡ self.now.entries) }
    {
        let mut entries = Vec::with_capacity(alloc, self.len)?;
        for entry in self {
            entry.push_to(&mut entries)?;
        }
        Ok(entries)
    }

    /// The entries of the last phase, by number, and those of one number by worker.
    pub fn last_entries(&self) -> Entries<'_>
        ensures { result ≡ merged self.now.last }
    {
        Entries {
            phase: Merging::of(self.last_phase()),
            phases: &[],
        }
    }

    /// A worker's entries, in the order in which it committed them.
    pub fn of_worker(&self, worker: u32) -> WorkerEntries<'_>
        ensures { result ≡ part entry_worker worker self.now.entries }
    {
        WorkerEntries {
            worker,
            here: &[],
            place: 0,
            phases: &self.phases,
        }
    }
}

impl<'a> IntoIterator for &'a History {
    type Item = EntryRef<'a>;

    type IntoIter = Entries<'a>;

    ghost into_iter_gives = { λ history left. left ≡ history.now.entries };

    fn into_iter(self) -> Entries<'a> {
        self.iter()
    }
}

/// The entries of a history that are left. It takes no memory.
#[derive(Drop)]
pub struct Entries<'a> {
    phase: Merging<'a>,
    phases: &'a [Vec<Journal>],
}

impl<'a> Model for Entries<'a> {
    ghost use Rattle.std.specs.{List.{AllByRecursion}, Prelude.{List, ◌++◌}};
    ghost use Rattle.auction_rows.specs.declared.rows.Entry.{Entry};
    ghost use Rattle.worker_journals.specs.Histories.{ArePhase};
    ghost use Rattle.worker_journals.specs.inner.Phases.{entries_in, journals_of};

    ghost Value = { List Entry };

    ghost view = { λ e. e.phase ++ entries_in (journals_of e.phases.now) };

    ghost invariant = { λ e. AllByRecursion ArePhase (journals_of e.phases.now) };
}

impl<'a> Iterator for Entries<'a> {
    type Item = EntryRef<'a>;

    ghost next_gives = { YieldsFirst (λ left. left) };

    ghost remaining = { item_count (λ left. left) };

    fn next(&mut self) -> Option<EntryRef<'a>> {
        while let Some((first, rest)) = self.phases.split_first() {
            if let Some(entry) = self.phase.next() {
                return Some(entry);
            }
            self.phase = Merging::of(first.as_slice());
            self.phases = rest;
        }
        self.phase.next()
    }
}

/// The entries of a worker that are left of a history. It takes no memory.
#[derive(Drop)]
pub struct WorkerEntries<'a> {
    worker: u32,
    // The first of these is the journal that is read; none is read if there are none.
    here: &'a [Journal],
    // The place of the next entry in the first journal.
    place: usize,
    // The phases after that of the first journal.
    phases: &'a [Vec<Journal>],
}

impl<'a> Model for WorkerEntries<'a> {
    ghost use Rattle.std.specs.Prelude.{List};
    ghost use Rattle.auction_rows.specs.declared.rows.Entry.{Entry};
    ghost use Rattle.worker_journals.specs.inner.{Phases.{journals_of}, Places.{own_left}};

    ghost Value = { List Entry };

    ghost view = { λ e. own_left e.worker e.here.now e.place (journals_of e.phases.now) };
}

impl WorkerEntries<'_> {
    /// Passes over journals as long as the next entry is the first of one whose indexes rise from
    /// this one on. It looks at no entry, and gives the index after the last one that it passed.
    pub fn pass_rising(&mut self, from: u64) -> u64
        ensures { HasPassed from self.old self.new result }
    {
        let mut next = from;
        while entry_of(self.here, self.place).is_none() {
            let Some((first, rest)) = self.phases.split_first() else {
                break;
            };
            let own = from_own(first.as_slice(), self.worker);
            let Some(after) = rising_from(own, next) else {
                break;
            };
            self.here = &[];
            self.place = 0;
            self.phases = rest;
            next = after;
        }
        next
    }
}

impl<'a> Iterator for WorkerEntries<'a> {
    type Item = EntryRef<'a>;

    ghost next_gives = { YieldsFirst (λ left. left) };

    ghost remaining = { item_count (λ left. left) };

    #[inline(always)]
    fn next(&mut self) -> Option<EntryRef<'a>> {
        'phases: loop {
            if let Some(entry) = entry_of(self.here, self.place) {
                self.place += 1;
                return Some(entry);
            }
            let Some((first, rest)) = self.phases.split_first() else {
                return None;
            };
            self.here = from_own(first.as_slice(), self.worker);
            self.place = 0;
            self.phases = rest;
        }
    }
}

// The entry at a place of the first journal, if there is one.
#[inline(always)]
fn entry_of(here: &[Journal], place: usize) -> Option<EntryRef<'_>>
    ensures entry { result ≡ slice_get (first_entries here.now) place }
    ensures next { IfSome result (λ _. place + 1 < 2 ^ 64) }
{
    let journal = here.first()?;
    if place < journal.len() {
        Some(journal.entry(place))
    } else {
        None
    }
}

// The index after the last one of the first journal, if its indexes rise from this one on.
fn rising_from(here: &[Journal], from: u64) -> Option<u64>
    ensures { IfSome result (EntriesRiseTo from (first_entries here.now)) }
{
    match here.first() {
        Some(journal) => journal.rising_from(from),
        None => Some(from),
    }
}

// The journals from a worker's own on: none if it has none.
#[inline(never)]
fn from_own(journals: &[Journal], worker: u32) -> &[Journal]
    ensures { first_entries result.now ≡ entries_of worker journals.now }
{
    for (place, journal) in journals.iter().enumerate() {
        if journal.worker() == worker {
            return &journals[place..];
        }
    }
    &[]
}

// The last of a worker and those of these journals.
fn last_of_phase(journals: &[Journal], before: u32) -> u32
    ensures { (worker : ℕ) → result ≤ worker →
        (before ≤ worker) × AllByRecursion (λ journal. journal.worker ≤ worker) journals.now }
{
    let mut last = before;
    for journal in journals {
        last = later(last, journal.worker());
    }
    last
}

// The later of two workers.
fn later(worker: u32, other: u32) -> u32
    ensures first { worker ≤ result }
    ensures second { other ≤ result }
{
    if worker < other { other } else { worker }
}

// Closes all journals, on scripts if there are any, and adds their memory of no entry to what is
// kept.
fn close_all(
    journals: &mut [Journal],
    scripts: Option<&SharedScripts>,
    kept: &mut Vec<SpareLists>,
) -> Result<(), AllocError>
    requires asked { ForSome scripts (λ scripts.
        AllByRecursion (IsJournalOf scripts.now) journals.old) }
    ensures { OnOk result (journals.new ≡ map closed_journal journals.old) }
{
    for journal in journals.iter_mut() {
        kept.push(close_one(journal, scripts)?)?;
    }
    Ok(())
}

// Closes a journal, on its worker's script if there are any.
fn close_one(
    journal: &mut Journal,
    scripts: Option<&SharedScripts>,
) -> Result<SpareLists, AllocError>
    requires asked { ForSome scripts (λ scripts. IsJournalOf scripts.now journal.old) }
    ensures { OnOk result (journal.new ≡ closed_journal journal.old) }
{
    let Some(scripts) = scripts else {
        return Ok(journal.close_kept());
    };
    let own = scripts.own(journal.worker())?;
    Ok(journal.close_on(own))
}
