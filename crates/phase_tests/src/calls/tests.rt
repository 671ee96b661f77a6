//! The calls, and what came of them where memory was there. What each prints stands in
//! `tests/library_calls.txt`.
use crate::calls::first_requests::{store, view};
use crate::calls::phases::phases_by_hand;
use crate::calls::printing::{print_count, print_history};
use crate::testing::four;
use auction_rows::Reply;
use std::marker::Brand;
use std::test::Fail;
use test_values::{FIRST, NO_USER, VIEW, item_seen, vases};
use worker_journals::History;

#[test]
fn first_store(rt: HostRuntime) -> Result<(), Fail> {
    let shards = four(rt.alloc())?;
    print_count(&rt, "first_store ready", shards.len(), " shards");
    let answer = store::<Brand, HostRuntime>(&rt, rt.alloc(), shards)?;
    assert_eq!(rt; answer, (Reply::ItemStored(FIRST), 1));
    Ok(())
}

#[test]
fn first_view(rt: HostRuntime) -> Result<(), Fail> {
    let shards = four(rt.alloc())?;
    print_count(&rt, "first_view ready", shards.len(), " shards");
    let answer = view::<Brand, HostRuntime>(&rt, rt.alloc(), shards)?;
    assert_eq!(rt; answer, (NO_USER, 1));
    Ok(())
}

#[test]
fn phases(rt: HostRuntime) -> Result<(), Fail> {
    let mut history = History::new(rt.alloc());
    let ended = phases_by_hand(&rt, rt.alloc(), &mut history);
    print_history(&rt, &history);
    let shown = ended?.view(&VIEW);
    let wanted = item_seen(&vases(10, 2), Some((30, 2)), 2, 2);
    assert_eq!(rt; (shown, history.len()), (Some(wanted), 6));
    Ok(())
}
