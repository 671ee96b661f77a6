//! The fault of a run whose scripts, rows or policy are none that it takes, and of two the first.
use crate::testing::{policy_of, views_of};
use auction_run::{FreeGate, Policy, RunFault, run};
use item_shards::OpeningBook;
use test_values::{OPENING, opened, put_up, vases};

#[test]
fn the_first_thing_wrong_is_the_fault(rt: HostRuntime) {
    let book = OpeningBook::empty(OPENING);
    let good = policy_of(2, 2);
    let no_shards = Policy { shards: 0, ..good };
    let too_many_shards = Policy { shards: 65, ..good };
    let too_much_hot = Policy {
        hot_max: 65,
        ..good
    };
    for (workers, views, policy, fault) in [
        (0, 1, good, RunFault::Workers),
        (17, 1, good, RunFault::Workers),
        (0, 1, no_shards, RunFault::Workers),
        (17, 1, no_shards, RunFault::Workers),
        (1, 1, no_shards, RunFault::Shards),
        (1, 1, too_many_shards, RunFault::Shards),
        (1, 1, too_much_hot, RunFault::Quota),
        (1, 1_000_001, good, RunFault::TooLong),
    ] {
        let scripts = views_of(&rt, rt.alloc(), workers, views);
        let got = run(&rt, rt.alloc(), &book, scripts, policy, &FreeGate).err();
        assert_eq!(rt; (workers, views, got), (workers, views, Some(fault)));
    }
}

#[test]
fn a_row_of_a_worker_without_a_script_is_refused(rt: HostRuntime) {
    let rows = vec![in rt.alloc(); opened(1, put_up(vases(10, 1)))].expect(&rt, "memory");
    let book = OpeningBook::new(rt.alloc(), OPENING, rows).expect(&rt, "a book");
    let scripts = views_of(&rt, rt.alloc(), 1, 1);
    let got = run(&rt, rt.alloc(), &book, scripts, policy_of(2, 2), &FreeGate).err();
    assert_eq!(rt; got, Some(RunFault::Workers));
}

#[test]
fn policies_for_throughput_are_taken(rt: HostRuntime) {
    let book = OpeningBook::empty(OPENING);
    for (workers, shards) in [(1, 4), (2, 8), (16, 64)] {
        let policy = Policy::for_throughput(workers);
        let scripts = views_of(&rt, rt.alloc(), workers as usize, 65);
        let done = run(&rt, rt.alloc(), &book, scripts, policy, &FreeGate).expect(&rt, "a run");
        let got = (policy.shards, done.hot.len(), done.history.len());
        assert_eq!(rt; got, (shards, 2, 65 * workers as usize));
    }
}

#[test]
fn policies_for_throughput_have_shards_for_1_to_16_workers(rt: HostRuntime) {
    for (workers, shards) in [(0, 4), (17, 64), (u32::MAX, 64)] {
        assert_eq!(rt; Policy::for_throughput(workers).shards, shards);
    }
}
