//! The memory that a phase leaves for the next.
ghost use Rattle.std.specs.{List.{AllByRecursion, IsDistinct}, Prelude.{◌≡◌, [], IfOk}};
ghost use Rattle.auction_rows.specs.Requests.{same_object};
ghost use Rattle.worker_journals.specs.Journals.{empty_journal};
ghost use Rattle.worker_slices.specs.Slicing.{hot_objects, slices_of, IsStocked};

use auction_rows::{Facts, Object};
use phase_permits::Slices;
use std::alloc::{AllocError, Global};
use worker_journals::{Journal, SpareLists};

/// Where journals and slices of a phase are made: in what those of a phase before left, and then in
/// new memory.
pub(crate) struct Memory {
    pub(crate) alloc: Global,
    pub(crate) lists: Vec<SpareLists>,
    /// Slices that were taken out.
    pub(crate) spent: Vec<Slices>,
}

// Not derived: a derived drop is made and proved anew in each crate that lets one go.
impl Drop for Memory {
    fn drop(self) {
        let Self {
            alloc: _,
            lists,
            spent,
        } = self;
        drop(lists);
        drop(spent);
    }
}

impl Memory {
    /// New memory alone.
    pub(crate) fn new(alloc: Global) -> Memory {
        Memory {
            alloc,
            lists: Vec::new(alloc),
            spent: Vec::new(alloc),
        }
    }

    /// An empty journal with room for so many entries.
    pub(crate) fn journal(
        &mut self,
        phase: u64,
        worker: u32,
        room: usize,
    ) -> Result<Journal, AllocError>
        ensures { IfOk result (λ journal. journal ≡ empty_journal phase worker room) }
    {
        Journal::in_lists(self.alloc, phase, worker, room, self.lists.pop())
    }

    /// An identity slice of each hot object. Where nothing is hot it takes no memory.
    pub(crate) fn slices(
        &mut self,
        stocks: &[(Object, Option<(Facts, u32)>)],
    ) -> Result<Slices, AllocError>
        requires distinct { IsDistinct same_object (hot_objects stocks.now) }
        requires stocked { AllByRecursion IsStocked stocks.now }
        ensures { IfOk result (λ slices. slices ≡ slices_of stocks.now []) }
    {
        if stocks.is_empty() {
            return Slices::new(self.alloc, stocks);
        }
        match self.spent.pop() {
            Some(spent) => spent.renewed(self.alloc, stocks),
            None => Slices::new(self.alloc, stocks),
        }
    }

    /// Keeps slices that were taken out, as far as there is room for them.
    pub(crate) fn keep(&mut self, slices: Slices) {
        if self.spent.len() < self.spent.capacity() {
            self.spent.push_reserved(slices);
        }
    }
}
