//! Rows that are added to an auction one after the other.
use auction_rows::{Refusal, Request};
use phase_floor::{AddFault, Joined};
use test_values::{OPENING, VIEW, bid, bid_row, item_seen, opened, put_up, vases};

#[test]
fn added_rows_are_shown(rt: HostRuntime) {
    let mut state = Joined::new(rt.alloc(), OPENING, 2, 4).expect(&rt, "memory");
    let facts = vases(10, 1);
    let Ok(_row) = state.add(&opened(0, put_up(facts))) else {
        panic!(rt; "the item is not added");
    };
    let added = state.add(&opened(1, bid(3, 20, 5)));
    assert_eq!(rt; added, Ok(bid_row(1, 3, 20, 5)));
    let seen = item_seen(&facts, Some((20, 3)), 1, 1);
    assert_eq!(rt; state.view(&VIEW), Some(seen));
}

#[test]
fn what_is_no_row_is_not_added(rt: HostRuntime) {
    let item = put_up(vases(10, 1));
    for (worker, request, fault) in [
        (1, bid(3, 20, 5), AddFault::Refused(Refusal::NoSuchItem)),
        (1, bid(10, 20, 5), AddFault::Refused(Refusal::NoSuchUser)),
        (1, VIEW, AddFault::Refused(Refusal::NoSuchItem)),
        (1, Request::ViewUser { user: 3 }, AddFault::BadRow),
        (2, item, AddFault::BadRow),
    ] {
        let mut state = Joined::new(rt.alloc(), OPENING, 2, 4).expect(&rt, "memory");
        assert_eq!(rt; state.add(&opened(worker, request)), Err(fault));
    }
}
