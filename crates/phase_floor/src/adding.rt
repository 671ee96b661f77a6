//! How a row is added to an auction between two phases. The auction keeps no rows: only an item
//! takes memory.
ghost use Rattle.std.specs.Prelude.{◌≡◌, ◌<◌, ◌≤◌, ◌++◌, ◌∷◌, [], ◌↔◌, None, Some, length, IfOk, OnOk, OnErr, IsErrOf, IsTrue, MatchOption, true, false};
ghost use Rattle.auction_rows.specs.{Book.{Book}, History.{GoOn}, Refusals.{refusal}};
ghost use Rattle.auction_rows.specs.{Replies.{answer, reply, row_of}, Requests.{is_view}};
ghost use Rattle.auction_rows.specs.{StoreReplies.{reply_of}, declared.replies.Refusal.{Refusal}};
ghost use Rattle.item_shards.specs.OpeningRows.{IsRow, with_opened};
ghost use Rattle.phase_permits.specs.Replying.{CountsOf};
ghost use Rattle.closing_laws.specs.Standing.{counters_at};
ghost use Rattle.phase_floor.specs.Adding.{HasBook, IsFull, IsOwn, IsSameAuction, IsStartOf, KeepsBooks, with_counted};
ghost use Rattle.phase_floor.specs.{Resuming.{with_row}, States.{IsBookOf, StandsFor}};
ghost use Rattle.phase_floor.specs.inner.Rows.{CanTake, HaveRoom};

use crate::joined::Joined;
use auction_rows::{
    Object, Opened, Refusal, Request, Row, StoreReply, is_view, item_of, number_refusal,
    row_of_store,
};
use item_shards::{StoreCounts, refusal_with};
use phase_permits::Counters;
use std::alloc::AllocError;
use thiserror::Error;

/// Why a row is not added.
#[derive(Clone, Copy, Debug, PartialEq, Eq, Drop, Error)]
pub enum AddFault {
    /// Its worker has as many commits as the state's limit.
    #[error("more requests than its worker may commit")]
    TooLong,
    /// Its request is refused at its place, for this reason.
    #[error("{text}", text = Refusal::text(*.0))]
    Refused(Refusal),
    /// Its request is a view or is of none of the auction's workers.
    #[error("not a store of a worker")]
    BadRow,
    /// No memory was left.
    #[error("no memory")]
    Memory,
}

impl From<AllocError> for AddFault {
    ghost use Rattle.phase_floor.specs.declared.adding.AddFault.TheVariants.{Memory};

    ghost from_gives = { λ _ fault. fault ≡ Memory };

    fn from(_refused: AllocError) -> AddFault {
        AddFault::Memory
    }
}

impl Joined {
    ghost use Rattle.phase_floor.specs.declared.adding.AddFault.TheVariants.{TooLong, Refused, BadRow};

    /// Adds the row of a request that is handed in, as a commit of its worker, and gives the row.
    /// Of two faults `TooLong` is told. After a fault the auction stands for the books that it
    /// stood for.
    pub fn add(&mut self, opened: &Opened) -> Result<Row, AddFault>
        requires { HasBook self.old }
        ensures row { IfOk result (λ row. (book : Book) → IsBookOf self.old book →
            IsRow self.old.opening book opened.now
            × (with_opened self.old.opening book opened.now ≡ book ++ row ∷ [])) }
        ensures book { OnOk result ((book : Book) → IsBookOf self.old book →
            IsBookOf self.new (with_opened self.old.opening book opened.now)) }
        ensures start { OnOk result ((book : Book) → IsStartOf self.old book →
            IsStartOf self.new (with_opened self.old.opening book opened.now)) }
        ensures counters { IfOk result (λ row.
            self.new.counters ≡ with_counted row self.old.counters) }
        ensures same { IsSameAuction self.old self.new }
        ensures kept { OnErr result (KeepsBooks self.old self.new) }
        ensures too_long { IsErrOf result TooLong ↔ IsFull self.old opened.now }
        ensures refused { (reason : Refusal) → IsErrOf result (Refused reason) →
            (book : Book) → IsBookOf self.old book → IsOwn self.old opened.now
            × (refusal self.old.opening book opened.now.request ≡ Some reason) }
        ensures bad_row { IsErrOf result BadRow → IsOwn self.old opened.now →
            is_view opened.now.request ≡ true }
    {
        if opened.worker >= self.workers() {
            return Err(AddFault::BadRow);
        }
        if self.is_full(opened.worker as usize) {
            return Err(AddFault::TooLong);
        }
        if let Some(reason) = self.refusal(&opened.request) {
            return Err(AddFault::Refused(reason));
        }
        let Some(row) = self.row_at(opened) else {
            return Err(AddFault::BadRow);
        };
        self.add_row(&row)?;
        Ok(row)
    }

    // Whether a worker may commit nothing more.
    fn is_full(&self, worker: usize) -> bool
        requires { worker < length self.now.counters }
        ensures { IsTrue result
            ↔ (self.now.limit ≤ (counters_at self.now.counters worker).commits) }
    {
        self.counters[worker].commits as u64 >= self.limit
    }

    // The row of a request that is not refused at its place: none of a view.
    fn row_at(&self, opened: &Opened) -> Option<Row>
        requires { IsOwn self.now opened.now }
        ensures { (book : Book) → StandsFor self.now book →
            refusal self.now.opening book opened.now.request ≡ None →
            result ≡ row_of opened.now.worker opened.now.request
            (reply self.now.opening book opened.now.worker opened.now.request) }
    {
        let Opened { worker, request } = *opened;
        let stored = answer_to_store(worker, &self.counters[worker as usize], &request)?;
        row_of_store(worker, request, stored)
    }

    // The first reason to refuse a request.
    fn refusal(&self, request: &Request) -> Option<Refusal>
        ensures { (book : Book) → StandsFor self.now book →
            result ≡ refusal self.now.opening book request.now }
    {
        if let Some(reason) = number_refusal(self.opening, *request) {
            return Some(reason);
        }
        let item = item_of(*request)?;
        refusal_with(&self.shard(Object::Item(item)).stock(item), request)
    }

    // Adds a row of one of its workers that goes on the rows stored.
    pub(crate) fn add_row(&mut self, row: &Row) -> Result<(), AllocError>
        requires { CanTake self.old row.now }
        ensures book { OnOk result ((book : Book) → IsBookOf self.old book →
            GoOn self.old.opening book (row.now ∷ []) →
            IsBookOf self.new (book ++ row.now ∷ [])) }
        ensures counters { OnOk result
            (self.new.counters ≡ with_counted row.now self.old.counters) }
        ensures same { IsSameAuction self.old self.new }
        ensures kept { OnErr result (KeepsBooks self.old self.new) }
    {
        self.shards.write(row)?;
        let worker = row.worker() as usize;
        count_row(&mut self.counters[worker], row);
        Ok(())
    }
}

// Counts a row, which was one commit.
fn count_row(counters: &mut Counters, row: &Row)
    requires { HaveRoom counters.old }
    ensures { counters.new ≡ with_row row.now counters.old }
{
    counters.commits += 1;
    match row {
        Row::Item(_) => counters.items += 1,
        Row::Bid(_) => counters.bids += 1,
        Row::Comment(_) => counters.comments += 1,
        Row::Buy(_) => counters.buys += 1,
    }
}

// The answer to a worker's store, by what it has stored: none to a view.
fn answer_to_store(worker: u32, counters: &Counters, request: &Request) -> Option<StoreReply>
    ensures { (book : Book) → CountsOf book worker counters.now →
        MatchOption result (is_view request.now ≡ true)
        (λ told. (is_view request.now ≡ false) × (reply_of told ≡ answer book worker request.now)) }
{
    if is_view(*request) {
        return None;
    }
    let stored = StoreCounts {
        items: counters.items,
        bids: counters.bids,
        comments: counters.comments,
        buys: counters.buys,
    };
    Some(stored.next_reply(worker, request))
}
