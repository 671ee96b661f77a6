//! What a board is given after it has refused a phase: nothing.
use crate::testing::{Refusing, own_scripts, policy_of};
use auction_run::{FreeGate, RunFault, run_shown};
use item_shards::OpeningBook;
use test_values::{LOOK, OPENING, VIEW, bid, put_up, vases};

// In the run's second phase the vase is hot, and the view of it is put off to the third.
#[test]
fn a_board_that_refuses_is_called_no_more(rt: HostRuntime) {
    let store = put_up(vases(10, 1));
    let first = [store, bid(0, 10, 1), bid(1, 20, 2), VIEW, bid(1, 30, 3)];
    let second = [LOOK, LOOK, bid(2, 25, 2)];
    let scripts = own_scripts(rt.alloc(), &[&first, &second]).expect(&rt, "memory");
    let book = OpeningBook::empty(OPENING);
    let mut board = Refusing { taken: 1, calls: 0 };
    let outcome = run_shown(
        &rt,
        rt.alloc(),
        &book,
        scripts,
        policy_of(2, 3),
        &FreeGate,
        &mut board,
    );
    assert_eq!(rt; (outcome.err(), board.calls), (Some(RunFault::Memory), 2));
}
