//! Calls of the library that take memory, each with its answer printed: parts of an auction, a
//! publisher and its window. `tests/library_calls.py` runs these tests by name, with each
//! allocation refused in turn. What they answer stands in `tests/library_calls.txt`.
ghost use Rattle.std.specs.Prelude.{◌≡◌, ◌<◌, ◌++◌, ◌∷◌, [], IfOk, false};
ghost use Rattle.item_shards.specs.{OpeningBooks.{opening_of}, Serial.{CanFollow}};
ghost use Rattle.phase_boards.specs.Boards.{book_of};

use crate::testing::{own_scripts, policy_of, vases_and_bid};
use auction_rows::{Reply, Request, Row};
use auction_run::{FreeGate, RunFault, Stopped, run_on};
use auction_window::{PhaseLog, Publisher, Window, WindowName};
use item_shards::OpeningBook;
use phase_floor::Joined;
use std::alloc::Global;
use std::marker::Brand;
use std::process::Abort;
use std::sync::Wait;
use std::test::Fail;
use std::thread::Threads;
use test_values::{LOOK, OPENING, VIEW, bid, only, print_view, purchase, put_up, vases};

// Goes on twice from an auction that has no rows: the state after both parts. In the first the
// vases are split.
fn two_parts<R: Threads + Wait + Sync + Print + Abort>(
    rt: &R,
    alloc: Global,
) -> Result<Joined, Fail> {
    let first: [&[Request]; 2] = [
        &[put_up(vases(10, 3)), bid(1, 10, 1), bid(1, 20, 2)],
        &[LOOK],
    ];
    let first = own_scripts(alloc, &first)?;
    let second: [&[Request]; 2] = [&[purchase(4, 1, 9)], &[bid(2, 30, 3)]];
    let second = own_scripts(alloc, &second)?;
    let state = Joined::new(alloc, OPENING, 2, 4)?;
    let _ = println!(rt; "parts ready: {} workers", state.workers());
    let state = perform(rt, alloc, state, first, "first part")?;
    perform(rt, alloc, state, second, "second part")
}

// Performs one part, and prints how many entries it has and what its state shows.
fn perform<R: Threads + Wait + Sync + Print + Abort>(
    rt: &R,
    alloc: Global,
    state: Joined,
    scripts: Vec<Vec<Request>>,
    name: &str,
) -> Result<Joined, Fail> {
    match run_on(rt, alloc, state, scripts, policy_of(2, 2), &FreeGate) {
        Ok(outcome) => {
            let _ = println!(rt; "{name}: {} entries", outcome.history.len());
            let state = &outcome.state;
            print_view(rt, state.phase(), state.view(&VIEW));
            Ok(outcome.state)
        }
        Err(stopped) => Err(Fail::new(fault_of(&stopped))),
    }
}

fn fault_of(stopped: &Stopped) -> RunFault {
    match stopped {
        Stopped::Refused(_state, fault) => *fault,
        Stopped::Failed(fault) => *fault,
    }
}

// What a view shows last, of how many phases, and whether none is answered once the publisher has
// ended.
type Ended = (Option<Reply>, u64, bool);

// Makes a publisher, and publishes twice: the row of the vases and then that of a bid.
fn two_publishes<R: Wait + Print + Abort>(rt: &R, alloc: Global) -> Result<Ended, Fail> {
    let book = OpeningBook::new(alloc, OPENING, vases_and_bid(alloc)?)?;
    let _ = println!(rt; "windows ready: rows");
    show_rows::<Brand, R>(rt, alloc, PhaseLog::new(), &book)
}

// Begins without a row, publishes those of the book, shows them in the one window, and ends the
// publisher.
fn show_rows<J: WindowName, R: Wait + Print>(
    rt: &R,
    alloc: Global,
    log: PhaseLog,
    book: &OpeningBook,
) -> Result<Ended, Fail>
    requires log { log ≡ J.log }
    requires empty { J.rows ≡ [] }
    requires opening { opening_of book.now ≡ J.opening }
{
    let empty = OpeningBook::empty(book.opening());
    let (mut publisher, windows) = match Publisher::<J>::new(rt, alloc, log, &empty, 1) {
        Ok(made) => made,
        Err(fault) => return Err(Fail::new(fault)),
    };
    let _ = println!(rt; "publisher: {} window", windows.len());
    let mut window = only(windows);
    look(rt, &mut window);
    let shown = publish_all(rt, alloc, &mut publisher, &mut window, book);
    publisher.agrees(&window);
    let phases = publisher.phases();
    publisher.end(rt);
    Ok((shown?, phases, window.view(VIEW).is_err()))
}

// Publishes the first row, and then those after it.
fn publish_all<J: WindowName, R: Wait + Print>(
    rt: &R,
    alloc: Global,
    publisher: &mut Publisher<J>,
    window: &mut Window<J>,
    book: &OpeningBook,
) -> Result<Option<Reply>, Fail>
    requires nothing { publisher.old ≡ record { phases = []; failed = false } }
    requires empty { J.rows ≡ [] }
    requires opening { opening_of book.now ≡ J.opening }
{
    let rows = book.rows();
    if rows.is_empty() {
        return Err(Fail::new("no rows"));
    }
    let (first, last) = rows.split_at(1);
    publish(rt, alloc, publisher, window, first)?;
    publish(rt, alloc, publisher, window, last)
}

// What a view shows once rows were published, before the window is told of them. Where memory is
// refused nothing can be published from then on.
fn publish<J: WindowName, R: Wait + Print>(
    rt: &R,
    alloc: Global,
    publisher: &mut Publisher<J>,
    window: &mut Window<J>,
    rows: &[Row],
) -> Result<Option<Reply>, Fail>
    requires rows { CanFollow J.opening (book_of J.rows publisher.old.phases) rows.now }
    ensures { IfOk result (λ _. publisher.new ≡ record { phases = publisher.old.phases ++ rows.now ∷ []; failed = false }) }
{
    let own = Vec::from_slice(alloc, rows)?;
    let again = Vec::from_slice(alloc, rows)?;
    let _ = println!(rt; "rows: {}", own.len());
    match publisher.publish(rt, own) {
        Ok(told) => {
            let _ = println!(rt; "publish: done");
            let shown = look(rt, window);
            window.learn(told);
            Ok(shown)
        }
        Err(refused) => {
            let _ = println!(rt; "publish: {refused}");
            look(rt, window);
            match publisher.publish(rt, again) {
                Ok(_told) => Err(Fail::new("published after a refusal")),
                Err(refused) => Err(Fail::new(refused)),
            }
        }
    }
}

fn look<J: WindowName, R: Print>(rt: &R, window: &mut Window<J>) -> Option<Reply> {
    let seen = window.view(VIEW).ok()??;
    print_view(rt, seen.phases, Some(seen.reply));
    Some(seen.reply)
}

mod tests {
    use super::{two_parts, two_publishes};
    use std::test::Fail;
    use test_values::{VIEW, item_seen, vases};

    #[test]
    fn windows(rt: HostRuntime) -> Result<(), Fail> {
        let ended = two_publishes(&rt, rt.alloc())?;
        let wanted = item_seen(&vases(10, 2), Some((20, 1)), 1, 2);
        assert_eq!(rt; ended, (Some(wanted), 2, true));
        Ok(())
    }

    #[test]
    fn parts(rt: HostRuntime) -> Result<(), Fail> {
        let shown = two_parts(&rt, rt.alloc())?.view(&VIEW);
        let wanted = item_seen(&vases(10, 3), Some((30, 2)), 3, 2);
        assert_eq!(rt; shown, Some(wanted));
        Ok(())
    }
}
