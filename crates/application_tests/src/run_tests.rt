//! Runs: which requests are put off, and what the counters show. The replies were worked out by
//! hand.
use crate::counters::CounterRequest::{Add, Least, Read, Unknown};
use crate::counters::{CounterReply, CounterRequest, Counters};
use split_engine::{
    History, Outcome, Policy, ScriptFault, check_scripts, run, runs_replay_as_one,
    split_phases_replay,
};
use std::alloc::{AllocError, Global};
use std::process::Abort;
use std::test::Fail;

// A commit without its request.
type Told = (u32, u32, CounterReply);

fn told(
    alloc: Global,
    history: &History<CounterRequest, CounterReply>,
) -> Result<Vec<Told>, AllocError> {
    let mut all = Vec::with_capacity(alloc, history.len())?;
    for piece in history.pieces() {
        for entry in piece {
            all.push((entry.worker, entry.index, entry.reply))?;
        }
    }
    Ok(all)
}

// Asserts the commits of a run, and what its counters show then.
fn assert_left(
    rt: &impl Abort,
    alloc: Global,
    outcome: &Outcome<Counters>,
    commits: &[Told],
    table: &[u64],
) -> Result<(), AllocError> {
    assert_eq!(rt; told(alloc, &outcome.history)?.as_slice(), commits);
    assert_eq!(rt; outcome.table.as_slice(), table);
    Ok(())
}

fn policy(rounds: usize, threshold: u32) -> Policy {
    Policy {
        joined_quota: 1,
        split_quota: 2,
        rounds,
        threshold,
    }
}

// Two counters are hot in the first split phase: what names another one, or reads, is put off.
#[test]
fn three_workers_share_counters(rt: HostRuntime) -> Result<(), Fail> {
    let alloc = rt.alloc();
    split_phases_replay::<Counters>();
    let first = vec![in alloc;
        Add { to: (0, 1), by: 5 },
        Add { to: (0, 2), by: 1 },
        Read { counter: 0 },
        Add { to: (3, 3), by: 2 },
    ]?;
    let second = vec![in alloc;
        Add { to: (0, 1), by: 7 },
        Read { counter: 1 },
        Add { to: (0, 1), by: 10 },
    ]?;
    let third = vec![in alloc; Read { counter: 0 }, Add { to: (1, 0), by: 3 }]?;
    let scripts = [first, second, third];
    let counters = vec![in alloc; 0u64, 0u64, 0u64, 0u64]?;
    let outcome = run::<Counters, HostRuntime>(&rt, alloc, counters, &scripts, policy(2, 2))?;
    let wanted = [
        (0, 0, CounterReply::Added),
        (1, 0, CounterReply::Added),
        (2, 0, CounterReply::Shows(12)),
        (1, 2, CounterReply::Added),
        (2, 1, CounterReply::Added),
        (0, 1, CounterReply::Added),
        (0, 2, CounterReply::Shows(26)),
        (0, 3, CounterReply::Added),
        (1, 1, CounterReply::Shows(25)),
    ];
    assert_left(&rt, alloc, &outcome, &wanted, &[26, 25, 1, 4])?;
    Ok(())
}

// With no round, or with nothing hot, scripts are performed one after the other, or by turns.
#[test]
fn nothing_is_split(rt: HostRuntime) -> Result<(), Fail> {
    let alloc = rt.alloc();
    for (rounds, threshold, reads) in [(0, 1, [2, 4]), (1, u32::MAX, [1, 4])] {
        let add = Add { to: (0, 1), by: 1 };
        let first = vec![in alloc; add, add]?;
        let second = vec![in alloc; Read { counter: 0 }, add, Read { counter: 1 }]?;
        let scripts = [first, second];
        let counters = vec![in alloc; 0u64, 1u64]?;
        let outcome = run::<Counters, HostRuntime>(
            &rt,
            alloc,
            counters,
            &scripts,
            policy(rounds, threshold),
        )?;
        let mut shown = Vec::new(alloc);
        for (_, _, reply) in told(alloc, &outcome.history)? {
            if let CounterReply::Shows(count) = reply {
                shown.push(count)?;
            }
        }
        assert_eq!(rt; shown.as_slice(), reads.as_slice(), "after {rounds} rounds");
        assert_eq!(rt;
            outcome.table.as_slice(),
            [3, 4].as_slice(),
            "after {rounds} rounds"
        );
    }
    Ok(())
}

// A run goes on from the table that another has left.
#[test]
fn a_run_goes_on(rt: HostRuntime) -> Result<(), Fail> {
    let alloc = rt.alloc();
    runs_replay_as_one::<Counters>();
    let first = vec![in alloc; Add { to: (0, 1), by: 5 }, Read { counter: 1 }]?;
    let second = vec![in alloc; Add { to: (0, 0), by: 2 }]?;
    let counters = vec![in alloc; 0u64, 3u64]?;
    let outcome = run::<Counters, HostRuntime>(
        &rt,
        alloc,
        counters,
        &[first, second],
        policy(1, 1),
    )?;
    let wanted = [
        (0, 0, CounterReply::Added),
        (1, 0, CounterReply::Added),
        (0, 1, CounterReply::Shows(8)),
    ];
    assert_left(&rt, alloc, &outcome, &wanted, &[9, 8])?;
    let first = vec![in alloc; Read { counter: 0 }, Add { to: (1, 1), by: 1 }]?;
    let second = vec![in alloc; Add { to: (0, 1), by: 10 }]?;
    let outcome = run::<Counters, HostRuntime>(
        &rt,
        alloc,
        outcome.table,
        &[first, second],
        policy(1, 1),
    )?;
    let wanted = [
        (0, 0, CounterReply::Shows(9)),
        (1, 0, CounterReply::Added),
        (0, 1, CounterReply::Added),
    ];
    assert_left(&rt, alloc, &outcome, &wanted, &[19, 20])?;
    Ok(())
}

// The least of two counters, each of which is named twice.
fn least(one: u32, other: u32) -> CounterRequest {
    Least {
        first: one,
        second: other,
        third: one,
        fourth: other,
    }
}

// Requests that name four counters, and one that names none.
#[test]
fn four_counters_and_none(rt: HostRuntime) -> Result<(), Fail> {
    let alloc = rt.alloc();
    let all = Least {
        first: 3,
        second: 1,
        third: 2,
        fourth: 0,
    };
    let scripts = [vec![in alloc; all, Unknown, Add { to: (0, 1), by: 9 }, all]?];
    let counters = vec![in alloc; 7u64, 4u64, 5u64, 6u64]?;
    let outcome = run::<Counters, HostRuntime>(&rt, alloc, counters, &scripts, policy(0, 1))?;
    let wanted = [
        (0, 0, CounterReply::Shows(4)),
        (0, 1, CounterReply::Refused),
        (0, 2, CounterReply::Added),
        (0, 3, CounterReply::Shows(5)),
    ];
    assert_left(&rt, alloc, &outcome, &wanted, &[16, 13, 5, 6])?;
    Ok(())
}

#[test]
fn nobody_asks(rt: HostRuntime) -> Result<(), Fail> {
    let alloc = rt.alloc();
    let counters = vec![in alloc; 7u64]?;
    let outcome = run::<Counters, HostRuntime>(&rt, alloc, counters, &[], policy(2, 1))?;
    assert_eq!(rt; outcome.history.len(), 0);
    let scripts = [Vec::new(alloc), Vec::new(alloc)];
    let counters = vec![in alloc; 7u64]?;
    let outcome = run::<Counters, HostRuntime>(&rt, alloc, counters, &scripts, policy(2, 1))?;
    assert_eq!(rt; outcome.history.len(), 0);
    assert_eq!(rt; outcome.table.as_slice(), [7].as_slice());
    Ok(())
}

#[test]
fn scripts_over_two_counters(rt: HostRuntime) -> Result<(), Fail> {
    let alloc = rt.alloc();
    let both = Add { to: (0, 1), by: 1 };
    let cases = [
        (Read { counter: 1 }, Ok(())),
        (
            Read { counter: 2 },
            Err(ScriptFault::NoSuchKey {
                worker: 1,
                index: 1,
            }),
        ),
        (
            Add { to: (0, 2), by: 1 },
            Err(ScriptFault::NoSuchKey {
                worker: 1,
                index: 1,
            }),
        ),
        (least(1, 0), Ok(())),
        (
            least(1, 2),
            Err(ScriptFault::NoSuchKey {
                worker: 1,
                index: 1,
            }),
        ),
        (Unknown, Ok(())),
    ];
    for (number, (request, wanted)) in cases.iter().enumerate() {
        let scripts = [vec![in alloc; both]?, vec![in alloc; both, *request, both]?];
        assert_eq!(rt;
            check_scripts::<Counters>(&scripts, 2),
            *wanted,
            "case {number}"
        );
    }
    Ok(())
}
