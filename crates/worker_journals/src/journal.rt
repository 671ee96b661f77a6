//! What one worker commits in one phase.
ghost use Rattle.std.specs.{Iterator.{YieldsFirst, item_count}, List.{AllByRecursion}};
ghost use Rattle.std.specs.Prelude.{◌≡◌, ◌<◌, ◌≤◌, true, ◌+◌, ◌^◌, ◌==◌, Some, length, slice_get, IfOk, IfSome};
ghost use Rattle.worker_journals.specs.Journals.{IsLawfulJournal, IsOfScript, ComesAfter, closed_journal, empty_journal, with_commit};
ghost use Rattle.worker_journals.specs.Rising.{EntriesRiseTo};

use crate::entries::{Answer, EntryRef};
use crate::head_list::Heads;
use crate::sides::Sides;
use auction_rows::{Reply, Request};
use request_scripts::{KeptRequests, OwnScript};
use std::alloc::{AllocError, Global};
use std::marker::Model;

/// The commits of one worker in one phase, in the order of their numbers. Room for all of them is
/// asked for ahead. Contracts see the phase, the worker, the entries, and the room: for how many
/// entries in all a place was asked.
///
/// An entry is kept as a short head. What views show lies in lists of their own, and so do requests,
/// until the journal is closed on the script that they are of.
pub struct Journal {
    phase: u64,
    worker: u32,
    pub(crate) heads: Heads,
    pub(crate) sides: Sides,
    // Whether the indexes of the entries rise.
    is_rising: bool,
    // The index after the last one.
    next: u64,
}

// Not derived: a derived drop is made and proved anew in each crate that lets one go.
impl Drop for Journal {
    fn drop(self) {
        let Self {
            phase: _,
            worker: _,
            heads,
            sides,
            is_rising: _,
            next: _,
        } = self;
        drop(heads);
        drop(sides);
    }
}

/// Memory that a journal left, for what another one keeps beside the heads of its entries.
pub struct SpareLists {
    asked: KeptRequests,
    sides: Sides,
}

// Not derived: a derived drop is made and proved anew in each crate that lets one go.
impl Drop for SpareLists {
    fn drop(self) {
        let Self { asked, sides } = self;
        drop(asked);
        drop(sides);
    }
}

impl Model for SpareLists {
    ghost use Rattle.worker_journals.specs.inner.Sides.{SideLists};

    ghost Value = { SideLists };

    ghost view = { λ l. l.sides };
}

impl SpareLists {
    // No memory yet.
    fn none(alloc: Global) -> SpareLists {
        SpareLists {
            asked: KeptRequests::new(alloc),
            sides: Sides::none(alloc),
        }
    }

    // The list of requests, and what lies beside them.
    fn parts(self) -> (KeptRequests, Sides) {
        let Self { asked, sides } = self;
        (asked, sides)
    }
}

impl Model for Journal {
    ghost use Rattle.worker_journals.specs.{Journals.{JournalView}, inner.Entries.{shown, IsKept}};
    ghost use Rattle.worker_journals.specs.inner.HeadLists.{IsRising};

    ghost Value = { JournalView };

    ghost view = { λ j. shown j.phase j.worker j.heads.heads j.sides };

    ghost invariant = { λ j. IsKept j.phase j.worker j.heads.heads j.heads.room j.sides
        × IsRising j.is_rising j.heads.heads j.next };
}

impl Journal {
    /// An empty journal with room for so many entries: for their heads and, at most, what all may
    /// have beside them, of which memory is touched only as it is filled. It errs only for want of
    /// memory.
    pub fn with_room(
        alloc: Global,
        phase: u64,
        worker: u32,
        room: usize,
    ) -> Result<Journal, AllocError>
        ensures { IfOk result (λ journal. journal ≡ empty_journal phase worker room) }
    {
        Journal::in_lists(alloc, phase, worker, room, None)
    }

    /// As `with_room`, in memory that another journal left, if there is any.
    pub fn in_lists(
        alloc: Global,
        phase: u64,
        worker: u32,
        room: usize,
        lists: Option<SpareLists>,
    ) -> Result<Journal, AllocError>
        ensures { IfOk result (λ journal. journal ≡ empty_journal phase worker room) }
    {
        let (asked, sides) = lists.unwrap_or(SpareLists::none(alloc)).parts();
        Ok(Journal {
            phase,
            worker,
            heads: Heads::with_room(alloc, room, asked)?,
            sides: sides.emptied(room)?,
            is_rising: true,
            next: 0,
        })
    }

    /// Adds a commit of this worker in this phase, at a number greater than the last one's, if
    /// there is room. It takes no memory.
    pub fn push(&mut self, number: u64, index: u32, request: Request, reply: Reply)
        requires room { length self.old.entries < self.old.room }
        requires after { ComesAfter self.old.entries number }
        ensures pushed { self.new ≡ with_commit self.old number index request reply }
    {
        self.push_answer(number, index, &request, &Answer::of(&reply));
    }

    /// Adds a commit as `push` does, of which the request is lent and the reply told as an answer:
    /// no reply with room for ten bids is made of a store's.
    #[inline(always)]
    pub fn push_answer(&mut self, number: u64, index: u32, request: &Request, reply: &Answer<'_>)
        requires room { length self.old.entries < self.old.room }
        requires after { ComesAfter self.old.entries number }
        ensures pushed { self.new ≡ with_commit self.old number index request.now reply.now }
    {
        self.is_rising = still_rise(self.is_rising, self.next, index);
        self.next = u64::from(index) + 1;
        let short = self.sides.keep(reply);
        self.heads.push(number, index, request, short);
    }

    /// The index after the last one, if the indexes rise from this one on.
    pub(crate) fn rising_from(&self, from: u64) -> Option<u64>
        ensures { IfSome result (EntriesRiseTo from self.now.entries) }
    {
        match self.heads.first() {
            None => Some(from),
            Some(first) if self.is_rising && from <= u64::from(first.index) => Some(self.next),
            Some(_) => None,
        }
    }

    /// Closes the journal: there is no more room. The memory that no entry fills is given back, or
    /// to the caller for another journal.
    pub fn close_kept(&mut self) -> SpareLists
        ensures { self.new ≡ closed_journal self.old }
    {
        self.heads.shrink_to_fit();
        let sides = self.sides.close();
        SpareLists {
            asked: KeptRequests::new(sides.allocator()),
            sides,
        }
    }

    /// As `close_kept`, of entries whose requests are those of a script by their indexes: they are
    /// read there from now on, and the memory of their list is given too.
    pub fn close_on(&mut self, script: OwnScript) -> SpareLists
        requires { AllByRecursion (IsOfScript script) self.old.entries }
        ensures { self.new ≡ closed_journal self.old }
    {
        let sides = self.sides.close();
        SpareLists {
            asked: self.heads.close_on(sides.allocator(), script),
            sides,
        }
    }

    /// How many entries there are. They are lawful.
    #[inline(always)]
    pub fn len(&self) -> usize
        ensures len { result ≡ length self.now.entries }
        ensures lawful { IsLawfulJournal self.now }
        ensures fits { length self.now.entries < 2 ^ 64 }
    {
        self.heads.len()
    }

    /// Whether the journal has no entry.
    pub fn is_empty(&self) -> bool
        ensures { result ≡ (length self.now.entries == 0) }
    {
        self.heads.is_empty()
    }

    /// The entries, in the order of their numbers.
    pub fn entries(&self) -> JournalEntries<'_>
        ensures { result ≡ self.now.entries }
    {
        JournalEntries {
            journal: self,
            place: 0,
        }
    }

    /// The entry at a place from 0, where it lies. The place after it is a `usize` too.
    #[inline(always)]
    pub fn entry(&self, place: usize) -> EntryRef<'_>
        requires { place < length self.now.entries }
        ensures entry { slice_get self.now.entries place ≡ Some result }
        ensures next { place + 1 < 2 ^ 64 }
    {
        let len = self.len();
        prove!(place < len);
        EntryRef::of(self, place)
    }

    /// For how many entries in all there is a place.
    pub fn room(&self) -> usize
        ensures { result ≡ self.now.room }
    {
        self.sides.left() + self.heads.len()
    }

    /// The phase of these commits.
    #[inline(always)]
    pub fn phase(&self) -> u64
        ensures { result ≡ self.now.phase }
    {
        self.phase
    }

    /// The worker whose commits these are.
    #[inline(always)]
    pub fn worker(&self) -> u32
        ensures { result ≡ self.now.worker }
    {
        self.worker
    }
}

// Whether indexes rise with one more, if they are said to rise up to the next one.
#[inline(always)]
fn still_rise(said: bool, next: u64, index: u32) -> bool
    ensures { result ≡ true → (said ≡ true) × (next ≤ index) }
{
    said && next <= u64::from(index)
}

/// The entries of a journal that are left. It takes no memory.
#[derive(Drop)]
pub struct JournalEntries<'a> {
    journal: &'a Journal,
    // The place of the next entry.
    place: usize,
}

impl<'a> Model for JournalEntries<'a> {
    ghost use Rattle.std.specs.Prelude.{List, drop};
    ghost use Rattle.auction_rows.specs.declared.rows.Entry.{Entry};

    ghost Value = { List Entry };

    ghost view = { λ e. drop e.place e.journal.now.entries };
}

impl<'a> Iterator for JournalEntries<'a> {
    type Item = EntryRef<'a>;

    ghost next_gives = { YieldsFirst (λ left. left) };

    ghost remaining = { item_count (λ left. left) };

    #[inline(always)]
    fn next(&mut self) -> Option<EntryRef<'a>> {
        if self.place >= self.journal.len() {
            return None;
        }
        let entry = self.journal.entry(self.place);
        self.place += 1;
        Some(entry)
    }
}
