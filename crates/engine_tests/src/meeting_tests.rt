//! Two workers who meet at a gate in each phase: they run at one time, and no lock is held from
//! one's `arrive` to its `leave`.
use crate::testing::{policy_of, run_of};
use auction_rows::Request;
use auction_run::Gate;
use std::sync::atomic::{AtomicU64, Ordering};
use test_values::LOOK;

// What a worker does in a phase.
#[derive(Clone, Copy)]
enum Step {
    Arrives,
    Leaves,
}

// In each of two phases each of two workers, as it arrives, waits for a step of the other. There is
// a flag for each worker and phase.
#[derive(Drop)]
struct Meeting {
    awaited: [Step; 2],
    arrived: AtomicU64,
    left: AtomicU64,
    seen: AtomicU64,
}

// The flag of a worker in a phase, and all flags for one that is not watched.
fn flag(phase: u64, worker: u32) -> u64 {
    if phase >= 2 || worker >= 2 {
        return u64::MAX;
    }
    1 << (phase * 2 + worker as u64)
}

const EACH_IN_EACH_PHASE: u64 = 0b1111;

const MOST_TURNS: u64 = 1_000_000_000;

fn is_raised(flags: &AtomicU64, flag: u64) -> bool {
    for _turn in 0..MOST_TURNS {
        if flags.load(Ordering::SeqCst) & flag != 0 {
            return true;
        }
    }
    false
}

impl Gate for Meeting {
    fn arrive(&self, phase: u64, worker: u32, _index: u32) {
        let (own, other) = (flag(phase, worker), flag(phase, worker ^ 1));
        self.arrived.fetch_or(own, Ordering::SeqCst);
        let [first, second] = self.awaited;
        let flags = match if worker == 0 { first } else { second } {
            Step::Arrives => &self.arrived,
            Step::Leaves => &self.left,
        };
        if is_raised(flags, other) {
            self.seen.fetch_or(own, Ordering::SeqCst);
        }
    }

    fn leave(&self, phase: u64, worker: u32, _index: u32) {
        self.left.fetch_or(flag(phase, worker), Ordering::SeqCst);
    }
}

#[test]
fn workers_meet_in_each_phase(rt: HostRuntime) {
    for awaited in [
        [Step::Arrives, Step::Arrives],
        [Step::Leaves, Step::Arrives],
        [Step::Arrives, Step::Leaves],
    ] {
        let gate = Meeting {
            awaited,
            arrived: AtomicU64::new(0),
            left: AtomicU64::new(0),
            seen: AtomicU64::new(0),
        };
        let scripts: [&[Request]; 2] = [&[LOOK, LOOK], &[LOOK, LOOK]];
        run_of(&rt, rt.alloc(), &scripts, policy_of(1, 1), &gate);
        assert_eq!(rt; gate.seen.load(Ordering::SeqCst), EACH_IN_EACH_PHASE);
    }
}
