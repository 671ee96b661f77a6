//! What is made of a list of entries: the rows that they add, and what they make hot.
use crate::testing::bid_on;
use auction_rows::{Entry, ItemId, Object, Refusal, Reply, Request, Stars};
use auction_run::choose_hot;
use auction_window::rows_of;
use std::alloc::Global;
use std::process::Abort;
use test_values::{
    FIRST, LOOK, UNRATED, bid_row, bid_stored, comment, comment_stored, item_row, put_up, vases,
};

// An entry of worker 0: of its phase, number and index nothing is made.
fn entry(request: Request, reply: Reply) -> Entry {
    Entry {
        phase: 0,
        number: 1,
        worker: 0,
        index: 0,
        request,
        reply,
    }
}

fn bid_entry(item: u32, serial: u32) -> Entry {
    entry(bid_on(item, 1, 10), bid_stored(0, serial))
}

fn comment_entry(serial: u32) -> Entry {
    let request = comment(0, 3, Stars { value: 5 });
    entry(request, comment_stored(0, serial))
}

#[test]
fn accepted_stores_add_rows(rt: HostRuntime) {
    let facts = &vases(10, 1);
    let refused = Reply::Refused(Refusal::BelowStart);
    let entries = [
        entry(put_up(*facts), Reply::ItemStored(FIRST)),
        entry(bid_on(0, 1, 9), refused),
        entry(LOOK, UNRATED),
        bid_entry(0, 0),
    ];
    let rows = rows_of(rt.alloc(), &entries).expect(&rt, "memory");
    let wanted = [item_row(*facts), bid_row(0, 1, 10, 1)];
    assert_eq!(rt; rows.as_slice(), wanted.as_slice());
}

const USER: Object = Object::User(3);

const SECOND: ItemId = ItemId {
    worker: 0,
    serial: 1,
};

// Asserts what becomes hot of three comments about user 3, two bids each on two items, and refused
// bids on a third.
fn assert_hot(rt: &impl Abort, alloc: Global, hot_max: u32, wanted: &[Object]) {
    let refused = Reply::Refused(Refusal::BelowStart);
    let refused = &entry(bid_on(2, 1, 9), refused);
    let entries = [
        comment_entry(0),
        bid_entry(1, 0),
        *refused,
        bid_entry(0, 1),
        comment_entry(1),
        *refused,
        bid_entry(0, 2),
        bid_entry(1, 3),
        comment_entry(2),
    ];
    let hot = choose_hot(alloc, &entries, 2, hot_max).expect(rt, "memory");
    assert_eq!(rt; hot.as_slice(), wanted);
}

#[test]
fn the_most_written_are_hot(rt: HostRuntime) {
    let (first, second) = (Object::Item(FIRST), Object::Item(SECOND));
    assert_hot(&rt, rt.alloc(), 2, &[USER, first]);
    assert_hot(&rt, rt.alloc(), 64, &[USER, first, second]);
    assert_hot(&rt, rt.alloc(), 0, &[]);
}
