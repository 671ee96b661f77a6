//! Rows, and what an auction opens with.
ghost use Rattle.std.specs.Prelude.{◌≡◌};
ghost use Rattle.auction_rows.specs.declared.rows.Row.TheVariants.{Item, Bid};

use crate::requests::FIRST;
use auction_rows::{BidId, BidRow, Facts, ItemRow, Opened, Request, Row};

/// The row of the first item, put up at time 1.
pub fn item_row(facts: Facts) -> Row
    ensures { result ≡ Item (record { id = FIRST; facts = facts; time = 1 }) }
{
    Row::Item(ItemRow {
        id: FIRST,
        facts,
        time: 1,
    })
}

/// The row of a worker's first bid, on the first item.
pub fn bid_row(worker: u32, bidder: u32, amount: u64, time: u64) -> Row
    ensures { result ≡ Bid (record {
      id = record { worker = worker; serial = 0 };
      item = FIRST;
      bidder = bidder;
      amount = amount;
      time = time;
    }) }
{
    Row::Bid(BidRow {
        id: BidId { worker, serial: 0 },
        item: FIRST,
        bidder,
        amount,
        time,
    })
}

/// A store of a worker as one of the rows with which an auction opens.
pub fn opened(worker: u32, request: Request) -> Opened
    ensures { result ≡ record { worker = worker; request = request } }
{
    Opened { worker, request }
}
