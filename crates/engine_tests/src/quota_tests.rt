//! In which phase the requests of a script are performed, and how many phases there are.
use crate::testing::{policy_of, run_of};
use auction_run::FreeGate;
use std::process::Abort;
use test_values::LOOK;
use worker_journals::History;

// Asserts the phase of each request of a script, all of which were performed in their order.
fn assert_phases(rt: &impl Abort, history: &History, phases: &[u64]) {
    assert_eq!(rt; history.len(), phases.len());
    let mut next = 0u32;
    for entry in history.iter() {
        assert_eq!(rt; entry.index(), next);
        let phase = phases.get(next as usize).copied();
        assert_eq!(rt; Some(entry.phase()), phase);
        next = next.saturating_add(1);
    }
}

// So many views are performed in these phases, and this one would be the next.
#[test]
fn quotas_say_in_which_phase_a_request_is_performed(rt: HostRuntime) {
    let alloc = rt.alloc();
    let none: &[u64] = &[];
    for (phases, next) in [(none, 0), (&[0, 0, 1, 1, 1, 2, 2, 3, 3, 3, 4, 4], 5)] {
        let script = vec![in alloc; LOOK; phases.len()].expect(&rt, "memory");
        let outcome = run_of(&rt, alloc, &[script.as_slice()], policy_of(2, 3), &FreeGate);
        assert_phases(&rt, &outcome.history, phases);
        let ended = (outcome.state.phase(), outcome.hot.len() as u64);
        assert_eq!(rt; ended, (next, next));
    }
}
