//! A run with two rounds on two threads, and the referee. What they answer stands in
//! `tests/library_calls.txt`.
use crate::counters::CounterRequest::{Add, Read};
use crate::counters::{CounterReply, Counters};
use crate::referee_tests::line;
use application_check::check_history;
use split_engine::{Policy, run};
use std::test::Fail;

const POLICY: Policy = Policy {
    joined_quota: 1,
    split_quota: 1,
    rounds: 2,
    threshold: 1,
};

#[test]
fn application(rt: HostRuntime) -> Result<(), Fail> {
    let alloc = rt.alloc();
    let add = Add { to: (0, 1), by: 1 };
    let scripts = [
        vec![in alloc; add, add, Read { counter: 0 }]?,
        vec![in alloc; add, Read { counter: 1 }]?,
    ];
    let counters = vec![in alloc; 0u64, 0u64]?;
    let _ = println!(rt; "application ready: {} scripts", scripts.len());
    match run::<Counters, HostRuntime>(&rt, alloc, counters, &scripts, POLICY) {
        Ok(outcome) => {
            let _ = println!(rt; "application run: {} entries", outcome.history.len());
            assert_eq!(rt; outcome.table.as_slice(), [3, 3].as_slice());
            Ok(())
        }
        Err(fault) => Err(Fail::new(fault)),
    }
}

#[test]
fn lines(rt: HostRuntime) -> Result<(), Fail> {
    let alloc = rt.alloc();
    let add = Add { to: (0, 1), by: 1 };
    let scripts = [vec![in alloc; add, Read { counter: 0 }]?];
    let mut counters = vec![in alloc; 0u64, 0u64]?;
    let told = [
        line(0, 0, CounterReply::Added),
        line(0, 1, CounterReply::Shows(1)),
    ];
    let _ = println!(rt; "lines ready: {} lines", told.len());
    match check_history::<Counters>(alloc, &mut counters, &scripts, &told) {
        Ok(()) => {
            let _ = println!(rt; "lines judged: a history");
            Ok(())
        }
        Err(fault) => Err(Fail::new(fault)),
    }
}
