//! Texts: replies, histories, rows and reports, and what went before a part of a run.
//!
//! Lines of replies, histories and rows are put together in a block; a report is made in memory.
ghost use Rattle.std.specs.Prelude.{ℕ, ◌≡◌, ◌+◌, [], length, slice_index, slice_index_or, IfNone, IfSome};
ghost use Rattle.auction_text.specs.Moved.{CannotCount, IsPastCount, gone_by, moved};

use auction_rows::MOST_WORKERS;
use std::marker::Model;
use worker_journals::{EntryRef, Script};

pub mod output;
pub mod replies;
pub mod reply_order;
pub mod report;
pub mod rows;
pub mod text_blocks;

/// What went before a part of a run: how many phases, and how many requests of each worker.
#[derive(Drop)]
pub struct Before {
    phases: u64,
    requests: [u64; MOST_WORKERS],
}

impl Model for Before {
    ghost use Rattle.auction_text.specs.Moved.{BeforeView};

    ghost Value = { BeforeView };

    ghost view = { λ b. record { phases = b.phases; requests = b.requests } };
}

impl Before {
    /// Nothing: before the first part.
    pub fn none() -> Before
        ensures phases { result.phases ≡ 0 }
        ensures requests { (worker : ℕ) → slice_index result.requests worker ≡ 0 }
    {
        Before {
            phases: 0,
            requests: [0; MOST_WORKERS],
        }
    }

    /// What went before the next part, which these scripts add requests to: None if a count is past
    /// 64 bits, or there are too many workers.
    pub fn with_scripts(&self, scripts: &[Script]) -> Option<Before>
        ensures phases { IfSome result (λ next. next.phases ≡ self.now.phases) }
        ensures requests { IfSome result (λ next. (worker : ℕ) →
            slice_index next.requests worker ≡ slice_index self.now.requests worker
            + length (slice_index_or scripts.now worker [])) }
        ensures none { IfNone result (CannotCount self.now scripts.now) }
    {
        let mut requests = self.requests;
        for (worker, script) in scripts.iter().enumerate() {
            let count = requests.get(worker)?.checked_add(script.len() as u64)?;
            requests[worker] = count;
        }
        Some(Before {
            phases: self.phases,
            requests,
        })
    }

    /// What went before after so many phases more: None if their count is past 64 bits.
    pub fn with_phases(self, count: usize) -> Option<Before>
        ensures phases { IfSome result (λ next. next.phases ≡ self.phases + count) }
        ensures requests { IfSome result (λ next. (worker : ℕ) →
            slice_index next.requests worker ≡ slice_index self.requests worker) }
        ensures none { IfNone result (IsPastCount (self.phases + count)) }
    {
        let phases = self.phases.checked_add(count as u64)?;
        let requests = self.requests;
        Some(Before { phases, requests })
    }

    /// How many requests of a worker.
    pub fn requests_of(&self, worker: u32) -> u64
        ensures { result ≡ slice_index self.now.requests worker }
    {
        match self.requests.get(worker as usize) {
            Some(count) => *count,
            None => 0,
        }
    }

    /// The phase and the index of an entry in the whole: None if one is past 64 bits.
    pub(crate) fn place_of(&self, entry: &EntryRef<'_>) -> Option<(u64, u64)>
        ensures phase { IfSome result (λ place.
            place.0 ≡ (moved (gone_by self.now) entry.now).phase) }
        ensures index { IfSome result (λ place.
            place.1 ≡ (moved (gone_by self.now) entry.now).index) }
    {
        let phase = self.phases.checked_add(entry.phase())?;
        let gone = self.requests_of(entry.worker());
        let index = gone.checked_add(u64::from(entry.index()))?;
        Some((phase, index))
    }
}
