//! The entries of a phase's journals, merged while they are read, or into a list, with the laws of
//! that order.
ghost use Rattle.std.specs.{Iterator.{YieldsFirst, item_count}, List.{AllByRecursion, flat_map}};
ghost use Rattle.std.specs.Prelude.{◌≡◌, ◌<◌, ℕ, None, length, map, slice_index_or, IfOk, OnOk, IfSome, OnSome, IfNone, IsPermutation, List, [], Contains};
ghost use Rattle.phase_laws.specs.{Numbers.{last_by}, Order.{IsAscending, part}};
ghost use Rattle.auction_rows.specs.declared.rows.Entry.{Entry};
ghost use Rattle.worker_journals.specs.Histories.{ArePhase};
ghost use Rattle.worker_journals.specs.Journals.{IsLawfulJournal, entry_number, entry_worker, JournalView, ComesAfter};
ghost use Rattle.worker_journals.specs.Merged.{AreByWorker, entries_of, entry_count, merged};
ghost use Rattle.worker_journals.specs.inner.Places.{IsLeastOf, first_number, lesser, number_at};

use crate::entries::EntryRef;
use crate::journal::Journal;
use auction_rows::{Entry, MOST_WORKERS};
use std::alloc::{AllocError, Global};
use std::marker::Model;

/// The entries of a phase's journals that are left, by number, and those of one number by worker.
/// It takes no memory.
#[derive(Drop)]
pub(crate) struct Merging<'a> {
    journals: &'a [Journal],
    // The place of each journal's next entry, and its number.
    places: [usize; MOST_WORKERS],
    numbers: [Option<u64>; MOST_WORKERS],
}

impl<'a> Model for Merging<'a> {
    ghost use Rattle.std.specs.Prelude.{List};
    ghost use Rattle.auction_rows.specs.declared.limits.TheConstants.{MOST_WORKERS};
    ghost use Rattle.auction_rows.specs.declared.rows.Entry.{Entry};
    ghost use Rattle.worker_journals.specs.{Merged.{merged}, inner.Places.{left_of, AreMerging}};

    ghost Value = { List Entry };

    ghost view = { λ m. merged (left_of m.journals.now m.places) };

    ghost invariant = { λ m. AreMerging MOST_WORKERS m.journals.now m.places m.numbers };
}

impl<'a> Merging<'a> {
    /// The merging of these journals before any entry is read.
    pub(crate) fn of(journals: &'a [Journal]) -> Merging<'a>
        requires { ArePhase journals.now }
        ensures { result ≡ merged journals.now }
    {
        let mut numbers = [None; MOST_WORKERS];
        for worker in 0..journals.len() {
            numbers[worker] = number_at(&journals[worker], 0);
        }
        Merging {
            journals,
            places: [0; MOST_WORKERS],
            numbers,
        }
    }
}

impl<'a> Iterator for Merging<'a> {
    type Item = EntryRef<'a>;

    ghost next_gives = { YieldsFirst (λ left. left) };

    ghost remaining = { item_count (λ left. left) };

    fn next(&mut self) -> Option<EntryRef<'a>> {
        let Some(worker) = least_of(&self.numbers[..self.journals.len()]) else {
            return None;
        };
        let place = self.places[worker];
        let journal = &self.journals[worker];
        let entry = journal.entry(place);
        self.places[worker] = place + 1;
        self.numbers[worker] = number_at(journal, place + 1);
        Some(entry)
    }
}

/// The entries of the journals of one phase as one list: by number, and those of one number by
/// worker.
pub fn merge_journals(alloc: Global, journals: Vec<Journal>) -> Result<Vec<Entry>, AllocError>
    requires by_worker { AreByWorker journals.items }
    ensures merged { IfOk result (λ entries. entries.items ≡ merged journals.items) }
    ensures ascending { IfOk result (λ entries.
        IsAscending entry_number entry_worker entries.items) }
    ensures parts { IfOk result (λ entries. (worker : ℕ) →
        part entry_worker worker entries.items ≡ entries_of worker journals.items) }
    ensures permutation { IfOk result (λ entries.
        IsPermutation (flat_map (λ journal. journal.entries) journals.items) entries.items) }
{
    // Past 64 bits there is no such room.
    let count = count_of(&journals).unwrap_or(usize::MAX);
    let mut entries = Vec::with_capacity(alloc, count)?;
    let mut places = vec![in alloc; 0; journals.len()]?;
    let mut numbers = first_numbers(alloc, &journals)?;
    while let Some(worker) = least_of(&numbers) {
        let place = places[worker];
        let journal = &journals[worker];
        journal.entry(place).push_to(&mut entries)?;
        places[worker] = place + 1;
        numbers[worker] = number_at(journal, place + 1);
    }
    Ok(entries)
}

// The number of each journal's first entry, if it has one.
fn first_numbers(alloc: Global, journals: &[Journal]) -> Result<Vec<Option<u64>>, AllocError>
    ensures numbers { IfOk result (λ numbers. numbers.items ≡ map first_number journals.now) }
    ensures lawful { OnOk result (AllByRecursion IsLawfulJournal journals.now) }
{
    let mut numbers = Vec::with_capacity(alloc, journals.len())?;
    for journal in journals {
        numbers.push_reserved(number_at(journal, 0));
    }
    Ok(numbers)
}

// The number of a journal's entry at a place, if there is one.
fn number_at(journal: &Journal, place: usize) -> Option<u64>
    ensures number { result ≡ number_at place journal.now }
    ensures lawful { IsLawfulJournal journal.now }
{
    if place >= journal.len() {
        return None;
    }
    Some(journal.entry(place).number())
}

// The place of the first of the least numbers, if there is a number.
fn least_of(numbers: &[Option<u64>]) -> Option<usize>
    ensures least { IfSome result (IsLeastOf numbers.now) }
    ensures none { IfNone result ((k : ℕ) → k < length numbers.now →
        slice_index_or numbers.now k None ≡ None) }
{
    let mut least: Option<(usize, u64)> = None;
    for (i, number) in numbers.iter().enumerate() {
        least = lesser(least, i, *number);
    }
    let (i, _number) = least?;
    Some(i)
}

// The least number so far, with one more number.
fn lesser(least: Option<(usize, u64)>, i: usize, number: Option<u64>) -> Option<(usize, u64)>
    ensures { result ≡ lesser least i number }
{
    match (least, number) {
        (_, None) => least,
        (None, Some(next)) => Some((i, next)),
        (Some((_, now)), Some(next)) => if next < now { Some((i, next)) } else { least },
    }
}

/// How many entries the journals have: None past 64 bits.
pub(crate) fn count_of(journals: &[Journal]) -> Option<usize>
    ensures count { IfSome result (λ count. count ≡ entry_count journals.now) }
    ensures lawful { OnSome result (AllByRecursion IsLawfulJournal journals.now) }
{
    let mut count: usize = 0;
    for journal in journals {
        count = count.checked_add(journal.len())?;
    }
    Some(count)
}

/// A worker's entries in journals that are in the order of their workers are those of its one
/// journal; a worker without a journal has none.
pub fn entries_by_worker()
    ensures own { (journals : List JournalView) (journal : JournalView) → AreByWorker journals →
        Contains journals journal → entries_of journal.worker journals ≡ journal.entries }
    ensures none { (worker : ℕ) (journals : List JournalView) →
        AllByRecursion (λ journal. journal.worker ≡ worker → ⊥) journals →
        entries_of worker journals ≡ [] }
{}

/// A number comes after entries if it is greater than the last one's, or than 0 if there is none.
pub fn numbers_come_after()
    ensures { (entries : List Entry) (number : ℕ) → last_by entry_number 0 entries < number →
        ComesAfter entries number }
{}

/// The merged entries of lawful journals, which are in the order of their workers, strictly ascend
/// by number and then worker; the part of each worker is its journal; and each entry of a journal
/// is there once.
pub fn journals_merge()
    ensures ascending { (journals : List JournalView) → AreByWorker journals →
        AllByRecursion IsLawfulJournal journals →
        IsAscending entry_number entry_worker (merged journals) }
    ensures parts { (journals : List JournalView) (worker : ℕ) → AreByWorker journals →
        AllByRecursion IsLawfulJournal journals →
        part entry_worker worker (merged journals) ≡ entries_of worker journals }
    ensures count { (journals : List JournalView) →
        length (merged journals) ≡ entry_count journals }
    ensures permutation { (journals : List JournalView) →
        IsPermutation (flat_map (λ journal. journal.entries) journals) (merged journals) }
{}
