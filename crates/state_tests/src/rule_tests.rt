//! Of `auction_rows`: in which shard an object lies. What requests touch and write, and why they are
//! refused, stands in tests/worked.
use auction_rows::{ItemId, Object, shard_of};

#[test]
fn objects_lie_by_their_numbers(rt: HostRuntime) {
    let last = ItemId {
        worker: u32::MAX,
        serial: u32::MAX,
    };
    let third = ItemId {
        worker: 3,
        serial: 2,
    };
    for (object, shard) in [
        (Object::Item(third), 1),
        (Object::Item(last), 2),
        (Object::User(6), 2),
        (Object::Category(5), 1),
    ] {
        assert_eq!(rt; shard_of(object, 4), shard);
    }
}
