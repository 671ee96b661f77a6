//! The auction of one thread: every object in one shard.
ghost use Rattle.std.specs.Prelude.{◌≡◌, ◌+◌, ◌<◌, ◌++◌, ◌∷◌, [], false, IfOk, OnOk, OnErr, IfSome, IfNone, All, slice_get};
ghost use Rattle.auction_rows.specs.{Requests.{is_view}, StoreReplies.{reply_of}};
ghost use Rattle.auction_rows.specs.declared.requests.Object.{Object as Thing};
ghost use Rattle.item_shards.specs.{Answering.{bid_request}, ShardContents.{LiesIn}};

use crate::shard::Shard;
use crate::shard::items::refusal_with;
use auction_rows::{
    BidEntry, BidId, BuyId, CommentId, ItemId, MOST_WORKERS, Opening, Refusal, Reply, Request, Row,
    StoreReply, bidder_refusal, is_view, item_of, number_refusal, row_of_store,
};
use std::alloc::{AllocError, Global};

/// The auction of one thread, which 16 workers ask in turn. It answers by the records of one shard
/// and not by its rows: a request costs the same however many rows there are.
#[derive(Drop)]
pub struct SerialAuction {
    shard: Shard,
    stored: [StoreCounts; MOST_WORKERS],
    ghost has_all: { (object : Thing) → LiesIn shard object },
}

/// How many stores of each kind a worker has had accepted.
#[derive(Clone, Copy)]
pub struct StoreCounts {
    pub items: u32,
    pub bids: u32,
    pub comments: u32,
    pub buys: u32,
}

impl StoreCounts {
    ghost use Rattle.auction_rows.specs.{Book.{Book}, Replies.{answer}};
    ghost use Rattle.item_shards.specs.Counting.{counted, stored_by, AreFew};

    /// What the worker's next store is answered, if it is not refused: the next id of its kind.
    pub fn next_reply(self, worker: u32, request: &Request) -> StoreReply
        requires { is_view request.now ≡ false }
        ensures { (book : Book) → stored_by book worker ≡ self →
            reply_of result ≡ answer book worker request.now }
    {
        match *request {
            Request::StoreItem { .. } => StoreReply::ItemStored(ItemId {
                worker,
                serial: self.items,
            }),
            Request::StoreBid { .. } => StoreReply::BidStored(BidId {
                worker,
                serial: self.bids,
            }),
            Request::StoreComment { .. } => StoreReply::CommentStored(CommentId {
                worker,
                serial: self.comments,
            }),
            Request::BuyNow { .. } => StoreReply::Bought(BuyId {
                worker,
                serial: self.buys,
            }),
            _ => unreachable!(),
        }
    }

    // Counts one more store of the row's kind.
    fn count(&mut self, row: &Row)
        requires { AreFew self.old }
        ensures { self.new ≡ counted row.now self.old }
    {
        match row {
            Row::Item(_) => self.items += 1,
            Row::Bid(_) => self.bids += 1,
            Row::Comment(_) => self.comments += 1,
            Row::Buy(_) => self.buys += 1,
        }
    }
}

impl SerialAuction {
    ghost use Rattle.auction_rows.specs.{Book.{Book}, History.{IsBook}, Refusals.{refusal}};
    ghost use Rattle.auction_rows.specs.Replies.{reply, next};
    ghost use Rattle.item_shards.specs.{Counting.{worker_of}, Limits.{IsWithinLimits}};
    ghost use Rattle.item_shards.specs.Serial.{HoldsBook, IsNotFull, CanGrow, CanStore, CanFollow, CanAdd, HoldsFirst, serial_opening};

    /// An auction in which nothing is stored. It errs if the shard can't be made for want of
    /// memory.
    pub fn new(alloc: Global, opening: Opening) -> Result<SerialAuction, AllocError>
        ensures book { IfOk result (λ auction. HoldsBook auction []) }
        ensures opening { IfOk result (λ auction. serial_opening auction ≡ opening) }
    {
        let none = StoreCounts {
            items: 0,
            bids: 0,
            comments: 0,
            buys: 0,
        };
        Ok(SerialAuction {
            shard: Shard::new(alloc, 0, 1, opening)?,
            stored: [none; MOST_WORKERS],
        })
    }

    // The auction that holds a book of workers below 16.
    pub(crate) fn of_book(
        alloc: Global,
        opening: Opening,
        rows: &[Row],
    ) -> Result<SerialAuction, AllocError>
        requires book { IsBook opening rows.now }
        requires limits { IsWithinLimits rows.now }
        requires workers { All (λ row. worker_of row < MOST_WORKERS) rows.now }
        ensures book { IfOk result (λ auction. HoldsBook auction rows.now) }
        ensures opening { IfOk result (λ auction. serial_opening auction ≡ opening) }
    {
        let mut auction = SerialAuction::new(alloc, opening)?;
        auction.add_rows(rows)?;
        Ok(auction)
    }

    /// Stores rows that can follow a book which the auction holds. It costs in proportion to the
    /// rows. If the auction can't grow for want of memory, it holds that book with the first of the
    /// rows.
    pub fn add_rows(&mut self, rows: &[Row]) -> Result<(), AllocError>
        requires { CanAdd self.old rows.now }
        ensures book { OnOk result ((book : Book) → HoldsBook self.old book →
            CanFollow (serial_opening self.old) book rows.now →
            HoldsBook self.new (book ++ rows.now)) }
        ensures refused { OnErr result ((book : Book) → HoldsBook self.old book →
            CanFollow (serial_opening self.old) book rows.now → HoldsFirst self.new book rows.now) }
        ensures opening { serial_opening self.new ≡ serial_opening self.old }
    {
        for row in rows {
            self.store(row)?;
        }
        Ok(())
    }

    /// The reply to the request of a worker below 16. It changes nothing.
    pub fn reply_to(&self, worker: u32, request: Request) -> Reply
        requires { worker < MOST_WORKERS }
        ensures { (book : Book) → HoldsBook self.now book →
            result ≡ reply (serial_opening self.now) book worker request }
    {
        match request {
            Request::ViewItem { item } => self.shard.view_item(item),
            Request::ViewBids { item } => self.shard.view_bids(item),
            Request::ViewCategory { category } => self.shard.view_category(category),
            Request::ViewUser { user } => self.shard.view_user(user),
            _ => reply_of(self.reply_to_store(worker, &request)),
        }
    }

    fn refusal(&self, request: &Request) -> Option<Refusal>
        ensures { (book : Book) → HoldsBook self.now book →
            result ≡ refusal (serial_opening self.now) book request.now }
    {
        if let Some(reason) = number_refusal(self.shard.parts.opening, *request) {
            return Some(reason);
        }
        let item = item_of(*request)?;
        refusal_with(&self.shard.stock(item), request)
    }

    // The reply to the store of a worker below 16.
    fn reply_to_store(&self, worker: u32, request: &Request) -> StoreReply
        requires worker { worker < MOST_WORKERS }
        requires store { is_view request.now ≡ false }
        ensures { (book : Book) → HoldsBook self.now book →
            reply_of result ≡ reply (serial_opening self.now) book worker request.now }
    {
        if let Some(reason) = self.refusal(request) {
            return StoreReply::Refused(reason);
        }
        let stored = self.stored[worker as usize];
        stored.next_reply(worker, request)
    }

    // Stores a row. Without memory the auction holds the books that it held.
    fn store(&mut self, row: &Row) -> Result<(), AllocError>
        requires { CanStore self.old row.now }
        ensures stored { OnOk result ((book : Book) → HoldsBook self.old book → IsNotFull book →
            HoldsBook self.new (book ++ row.now ∷ [])) }
        ensures refused { OnErr result (
            (book : Book) → HoldsBook self.old book → HoldsBook self.new book) }
        ensures opening { serial_opening self.new ≡ serial_opening self.old }
    {
        self.shard.write(row)?;
        let worker = row.worker() as usize;
        let mut counts = self.stored[worker];
        counts.count(row);
        self.stored[worker] = counts;
        Ok(())
    }

    // Commits a bid by one look-up of its item, and gives the reply. It takes no memory.
    fn perform_bid(&mut self, item: ItemId, bid: BidEntry) -> StoreReply
        requires worker { bid.id.worker < MOST_WORKERS }
        requires id { IfSome (slice_get self.old.stored bid.id.worker)
            (λ counts. bid.id.serial ≡ counts.bids) }
        requires room { CanGrow self.old }
        ensures reply { (book : Book) → HoldsBook self.old book → reply_of result
            ≡ reply (serial_opening self.old) book bid.id.worker (bid_request item bid) }
        ensures book { (book : Book) → HoldsBook self.old book → IsNotFull book →
            HoldsBook self.new
            (next (serial_opening self.old) book bid.id.worker (bid_request item bid)) }
        ensures opening { serial_opening self.new ≡ serial_opening self.old }
    {
        if let Some(reason) = bidder_refusal(self.shard.parts.opening, bid.bidder) {
            return StoreReply::Refused(reason);
        }
        if let Some(reason) = self.shard.try_bid(item, bid) {
            return StoreReply::Refused(reason);
        }
        let worker = bid.id.worker as usize;
        let mut counts = self.stored[worker];
        counts.bids += 1;
        self.stored[worker] = counts;
        StoreReply::BidStored(bid.id)
    }

    /// Commits the store of a worker below 16 as `perform` does, with its reply in few bytes. A
    /// view has none of these, and changes nothing.
    pub fn perform_store(
        &mut self,
        worker: u32,
        request: &Request,
    ) -> Result<Option<StoreReply>, AllocError>
        requires worker { worker < MOST_WORKERS }
        requires room { CanGrow self.old }
        ensures reply { IfOk result (λ performed. IfSome performed (λ answered.
            (book : Book) → HoldsBook self.old book →
            reply_of answered ≡ reply (serial_opening self.old) book worker request.now)) }
        ensures view { IfOk result (λ performed. IfNone performed (self.new ≡ self.old)) }
        ensures book { OnOk result ((book : Book) → HoldsBook self.old book → IsNotFull book →
            HoldsBook self.new (next (serial_opening self.old) book worker request.now)) }
        ensures refused { OnErr result (
            (book : Book) → HoldsBook self.old book → HoldsBook self.new book) }
        ensures opening { serial_opening self.new ≡ serial_opening self.old }
    {
        if let Request::StoreBid {
            bidder,
            item,
            amount,
            time,
        } = *request
        {
            let serial = self.stored[worker as usize].bids;
            let id = BidId { worker, serial };
            let bid = BidEntry {
                amount,
                time,
                id,
                bidder,
            };
            return Ok(Some(self.perform_bid(item, bid)));
        }
        if is_view(*request) {
            return Ok(None);
        }
        let reply = self.reply_to_store(worker, request);
        if let Some(row) = row_of_store(worker, *request, reply) {
            self.store(&row)?;
        }
        Ok(Some(reply))
    }

    /// Commits the request of a worker below 16, if the auction has fewer than 16,000,000 rows.
    /// Without memory the auction holds the books that it held.
    pub fn perform(&mut self, worker: u32, request: Request) -> Result<Reply, AllocError>
        requires worker { worker < MOST_WORKERS }
        requires room { CanGrow self.old }
        ensures reply { IfOk result (λ answered. (book : Book) → HoldsBook self.old book →
            answered ≡ reply (serial_opening self.old) book worker request) }
        ensures book { OnOk result ((book : Book) → HoldsBook self.old book → IsNotFull book →
            HoldsBook self.new (next (serial_opening self.old) book worker request)) }
        ensures refused { OnErr result (
            (book : Book) → HoldsBook self.old book → HoldsBook self.new book) }
        ensures opening { serial_opening self.new ≡ serial_opening self.old }
    {
        match self.perform_store(worker, &request)? {
            Some(reply) => Ok(reply_of(reply)),
            None => Ok(self.reply_to(worker, request)),
        }
    }
}

// A reply to a store, as a reply.
fn reply_of(reply: StoreReply) -> Reply
    ensures { result ≡ reply_of reply }
{
    match reply {
        StoreReply::ItemStored(id) => Reply::ItemStored(id),
        StoreReply::BidStored(id) => Reply::BidStored(id),
        StoreReply::CommentStored(id) => Reply::CommentStored(id),
        StoreReply::Bought(id) => Reply::Bought(id),
        StoreReply::Refused(reason) => Reply::Refused(reason),
    }
}
