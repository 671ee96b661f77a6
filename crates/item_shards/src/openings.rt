//! The rows that an auction is opened with.
ghost use Rattle.std.specs.Prelude.{◌≡◌, ℕ, ◌<◌, ◌↔◌, [], ◌∷◌, ◌++◌, All, IsTrue, slice_index, IfSome, IfNone, OnSome, IfOk, OnOk, IsErrOf, IsOkUnless};
ghost use Rattle.auction_rows.{proofs.OneProof.{IsBook-prop}, specs.History.{IsBook}};
ghost use Rattle.auction_rows.specs.declared.limits.TheConstants.{MOST_WORKERS};
ghost use Rattle.item_shards.specs.{Counting.{worker_of}, Limits.{IsWithinLimits}};
ghost use Rattle.item_shards.specs.OpeningRows.{asked_by, IsTooLong, AreFewOfEach, rows_in};

use crate::serial::SerialAuction;
use auction_rows::{MOST_OF_A_WORKER, MOST_WORKERS, Opened, Opening, Row, row_of};
use std::alloc::{AllocError, AllocFailed, Global};
use thiserror::Error;

/// Why requests are not the rows of an auction.
#[derive(Clone, Copy, Debug, PartialEq, Eq, Drop, Error)]
pub enum ResumeFault {
    /// More than 1,000,000 requests are of one worker below 16.
    #[error("more than 1000000 requests for a worker")]
    TooLong,
    /// The request with this number, from 1, is a view, is refused at its place or is of no worker
    /// below 16.
    #[error("row {0}: refused")]
    BadRow(u32),
    /// No memory was left.
    #[error("no memory")]
    Memory,
}

impl From<AllocError> for ResumeFault {
    ghost use Rattle.item_shards.specs.declared.openings.ResumeFault.TheVariants.{Memory};

    ghost from_gives = { λ _ fault. fault ≡ Memory };

    fn from(_refused: AllocError) -> ResumeFault {
        ResumeFault::Memory
    }
}

impl<T: Drop> From<AllocFailed<T>> for ResumeFault {
    ghost use Rattle.item_shards.specs.declared.openings.ResumeFault.TheVariants.{Memory};

    ghost from_gives = { λ _ fault. fault ≡ Memory };

    fn from(_refused: AllocFailed<T>) -> ResumeFault {
        ResumeFault::Memory
    }
}

/// The rows that an auction is opened with, for the users and categories of an opening: a book of
/// it, of workers below 16, with at most 1,000,000 rows of each.
#[derive(Drop)]
pub struct OpeningBook {
    opening: Opening,
    // `None` has no rows, and takes no memory.
    rows: Option<Vec<Row>>,
    ghost is_book: { IsBook opening (rows_in rows) } by { IsBook-prop opening (rows_in rows) },
    ghost of_workers: { All (λ row. worker_of row < MOST_WORKERS) (rows_in rows) },
    ghost few: { AreFewOfEach (rows_in rows) },
    ghost within: { ∥ IsWithinLimits (rows_in rows) ∥₁ },
}

impl OpeningBook {
    ghost use Rattle.item_shards.specs.OpeningBooks.{opening_of, rows_of_book};
    ghost use Rattle.item_shards.specs.OpeningRows.{opening_rows, AreRows, IsFirstBad};
    ghost use Rattle.item_shards.specs.declared.openings.ResumeFault.TheVariants.{TooLong, BadRow, Memory};

    /// No rows. It takes no memory.
    pub fn empty(opening: Opening) -> OpeningBook
        ensures opening { opening_of result ≡ opening }
        ensures rows { rows_of_book result ≡ [] }
    {
        OpeningBook {
            opening,
            rows: None,
        }
    }

    /// The rows of requests that are handed in, each with the id that its worker's store gets at
    /// its place. It takes time in proportion to their number and, if there are any, to the users
    /// and categories. `TooLong` is looked at first; then, request by request, `BadRow` or
    /// `Memory`, whichever comes first. An error leaves no book.
    pub fn new(
        alloc: Global,
        opening: Opening,
        rows: Vec<Opened>,
    ) -> Result<OpeningBook, ResumeFault>
        ensures rows { IfOk result (λ book. rows_of_book book ≡ opening_rows opening rows.items) }
        ensures opening { IfOk result (λ book. opening_of book ≡ opening) }
        ensures accepted { OnOk result (AreRows opening rows.items) }
        ensures ok { AreRows opening rows.items → ¬ IsTooLong rows.items →
            IsOkUnless result Memory }
        ensures too_long { IsErrOf result TooLong ↔ IsTooLong rows.items }
        ensures bad_row { (n : ℕ) → IsErrOf result (BadRow n) → IsFirstBad opening rows.items n }
    {
        if is_too_long(&rows) {
            return Err(ResumeFault::TooLong);
        }
        if rows.is_empty() {
            return Ok(OpeningBook::empty(opening));
        }
        let mut auction = SerialAuction::new(alloc, opening)?;
        let mut book = Vec::new(alloc);
        for (index, opened) in rows.iter().enumerate() {
            match auction.add_opened(opened)? {
                Some(row) => book.push(row)?,
                None => return Err(ResumeFault::BadRow(index as u32 + 1)),
            }
        }
        Ok(OpeningBook {
            opening,
            rows: Some(book),
        })
    }

    /// How many users and categories the auction has.
    pub fn opening(&self) -> Opening
        ensures { result ≡ opening_of self.now }
    {
        self.opening
    }

    /// The rows, in commit order.
    pub fn rows(&self) -> &[Row]
        ensures rows { result.now ≡ rows_of_book self.now }
        ensures book { IsBook (opening_of self.now) (rows_of_book self.now) }
        ensures workers { All (λ row. worker_of row < MOST_WORKERS) (rows_of_book self.now) }
        ensures few { AreFewOfEach (rows_of_book self.now) }
        ensures limits { IsWithinLimits (rows_of_book self.now) }
    {
        match &self.rows {
            Some(rows) => rows,
            None => &[],
        }
    }
}

// How many requests are of each worker below 16.
fn asked_by_each(rows: &[Opened]) -> [u64; MOST_WORKERS]
    ensures { (worker : ℕ) → worker < MOST_WORKERS →
        slice_index result worker ≡ asked_by rows.now worker }
{
    let mut counts = [0; MOST_WORKERS];
    for opened in rows {
        if (opened.worker as usize) < MOST_WORKERS {
            counts[opened.worker as usize] += 1;
        }
    }
    counts
}

// Whether more than 1,000,000 requests are of one worker below 16.
fn is_too_long(rows: &[Opened]) -> bool
    ensures { IsTrue result ↔ IsTooLong rows.now }
{
    let counts = asked_by_each(rows);
    counts.iter().any(|asked| *asked > MOST_OF_A_WORKER)
}

impl SerialAuction {
    ghost use Rattle.auction_rows.specs.Book.{Book};
    ghost use Rattle.item_shards.specs.OpeningRows.{with_opened, IsRow};
    ghost use Rattle.item_shards.specs.Serial.{HoldsBook, IsNotFull, CanGrow, serial_opening};
    ghost use Rattle.item_shards.specs.OpeningBooks as opened;

    /// The auction that holds a book. It costs in proportion to the rows, the users and the
    /// categories, and errs if the auction can't be made or grow for want of memory.
    pub fn resume(alloc: Global, book: &OpeningBook) -> Result<SerialAuction, AllocError>
        ensures book { IfOk result (λ auction. HoldsBook auction (opened.rows_of_book book.now)) }
        ensures opening { IfOk result
            (λ auction. serial_opening auction ≡ opened.opening_of book.now) }
    {
        SerialAuction::of_book(alloc, book.opening(), book.rows())
    }

    // Adds the row of a request that is handed in, if it is one at its place.
    fn add_opened(&mut self, opened: &Opened) -> Result<Option<Row>, AllocError>
        requires { opened.now.worker < MOST_WORKERS → CanGrow self.old }
        ensures opening { serial_opening self.new ≡ serial_opening self.old }
        ensures bad { IfOk result (λ added. IfNone added ((book : Book) → HoldsBook self.old book →
            ¬ IsRow (serial_opening self.old) book opened.now)) }
        ensures row { IfOk result (λ added. IfSome added (λ row.
            (book : Book) → HoldsBook self.old book →
            IsRow (serial_opening self.old) book opened.now
            × (with_opened (serial_opening self.old) book opened.now ≡ book ++ row ∷ []))) }
        ensures book { IfOk result (λ added. OnSome added (
            (book : Book) → HoldsBook self.old book → IsNotFull book →
            HoldsBook self.new (with_opened (serial_opening self.old) book opened.now))) }
    {
        if opened.worker as usize >= MOST_WORKERS {
            return Ok(None);
        }
        let reply = self.perform(opened.worker, opened.request)?;
        Ok(row_of(opened.worker, opened.request, reply))
    }
}
