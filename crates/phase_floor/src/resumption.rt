//! How an auction is made, and how it is resumed from an opening book.
ghost use Rattle.std.specs.Prelude.{◌≡◌, ◌<◌, ◌≤◌, [], length, replicate, IfOk, ℕ, All};
ghost use Rattle.closing_laws.specs.Standing.{counters_at};
ghost use Rattle.auction_rows.specs.Book.{worker_of};
ghost use Rattle.item_shards.specs.OpeningBooks.{opening_of, rows_of_book};
ghost use Rattle.phase_transactions.specs.Workers.{no_counters};
ghost use Rattle.phase_floor.specs.{Resuming.{counters_in}, States.{StandsFor, IsBookOf}};

use crate::joined::Joined;
use crate::memory::Memory;
use auction_rows::{MOST_OF_A_WORKER, MOST_SHARDS, MOST_WORKERS, Opening};
use auction_shards::Shards;
use item_shards::OpeningBook;
use phase_permits::Counters;
use shard_boxes::Spare;
use std::alloc::{AllocError, Global};

impl Joined {
    /// An auction of 1 to 16 workers in which nothing is stored, over 1 to 64 shards. It fails for
    /// want of memory alone.
    pub fn new(
        alloc: Global,
        opening: Opening,
        workers: u32,
        shards: u32,
    ) -> Result<Joined, AllocError>
        requires workers { (0 < workers) × (workers ≤ MOST_WORKERS) }
        requires shards { (0 < shards) × (shards ≤ MOST_SHARDS) }
        ensures opening { IfOk result (λ joined. joined.opening ≡ opening) }
        ensures limit { IfOk result (λ joined. joined.limit ≡ MOST_OF_A_WORKER) }
        ensures phase { IfOk result (λ joined. joined.phase ≡ 0) }
        ensures shards { IfOk result (λ joined. length joined.shards ≡ shards) }
        ensures counters { IfOk result (λ joined. joined.counters ≡ replicate workers no_counters) }
        ensures stands { IfOk result (λ joined. StandsFor joined []) }
    {
        let counters = nothing_counted(alloc, workers)?;
        let shards = Shards::new(alloc, opening, shards)?;
        Ok(Joined {
            opening,
            limit: MOST_OF_A_WORKER,
            phase: 0,
            shards,
            spare: Spare::none(alloc),
            memory: Memory::new(alloc),
            counters,
        })
    }
}

// The counters of so many workers who have committed nothing.
pub(crate) fn nothing_counted(alloc: Global, workers: u32) -> Result<Vec<Counters>, AllocError>
    ensures { IfOk result (λ counters. counters.items ≡ replicate workers no_counters) }
{
    let mut counters = Vec::with_capacity(alloc, workers as usize)?;
    for _made in 0..workers {
        counters.push(Counters::default())?;
    }
    Ok(counters)
}

impl Joined {
    /// The auction of 1 to 16 workers, over 1 to 64 shards, that an opening book leaves, whose rows
    /// are only of these workers: each row was a commit of its worker. It fails only for want of
    /// memory, and leaves the book as it is.
    pub fn resume(
        alloc: Global,
        book: &OpeningBook,
        workers: u32,
        shards: u32,
    ) -> Result<Joined, AllocError>
        requires workers { (0 < workers) × (workers ≤ MOST_WORKERS) }
        requires shards { (0 < shards) × (shards ≤ MOST_SHARDS) }
        requires own { All (λ row. worker_of row < workers) (rows_of_book book.now) }
        ensures opening { IfOk result (λ joined. joined.opening ≡ opening_of book.now) }
        ensures limit { IfOk result (λ joined. joined.limit ≡ MOST_OF_A_WORKER) }
        ensures phase { IfOk result (λ joined. joined.phase ≡ 0) }
        ensures shards { IfOk result (λ joined. length joined.shards ≡ shards) }
        ensures workers { IfOk result (λ joined. length joined.counters ≡ workers) }
        ensures counters { IfOk result (λ joined. (w : ℕ) → w < workers →
            counters_at joined.counters w ≡ counters_in (rows_of_book book.now) w) }
        ensures stands { IfOk result (λ joined. StandsFor joined (rows_of_book book.now)) }
        ensures book { IfOk result (λ joined. IsBookOf joined (rows_of_book book.now)) }
    {
        let mut joined = Joined::new(alloc, book.opening(), workers, shards)?;
        for row in book.rows() {
            joined.add_row(row)?;
        }
        Ok(joined)
    }
}
