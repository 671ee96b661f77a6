//! Counts before a part that are too great.
use crate::testing::add_commit;
use auction_rows::{Refusal, Reply};
use auction_text::{Before, WriteFault, write_history_on};
use std::alloc::Global;
use std::process::Abort;
use test_values::VIEW;
use worker_journals::{History, Script};

// The scripts of one worker more than there may be.
fn seventeen(rt: &impl Abort, alloc: Global) -> Vec<Script> {
    let mut scripts = Vec::new(alloc);
    for _ in 0..17 {
        let script = Script::of(alloc, &[VIEW]).expect(rt, "memory");
        scripts.push(script).expect(rt, "memory");
    }
    scripts
}

#[test]
fn a_count_past_64_bits_is_refused(rt: HostRuntime) {
    let alloc = rt.alloc();
    let most = Before::none()
        .with_phases(usize::MAX)
        .expect(&rt, "64 bits");
    let mut history = History::new(alloc);
    for phase in 0..2 {
        add_commit(&rt, &mut history, phase, 0, Reply::Refused(Refusal::Closed));
    }
    let mut text = Vec::new(alloc);
    let written = write_history_on(&mut text, &history, &most);
    assert_eq!(rt; written, Err(WriteFault::Write));
    assert_eq!(rt; most.with_phases(1).is_none(), true);
    let scripts = seventeen(&rt, alloc);
    let none = Before::none();
    assert_eq!(rt; none.with_scripts(scripts.as_slice()).is_none(), true);
}
