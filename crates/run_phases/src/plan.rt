//! What a phase of a run is performed by: how the run goes on with its scripts in it.
ghost use Rattle.std.specs.Prelude.{◌≡◌, ◌<◌, ◌^◌};
ghost use Rattle.run_laws.specs.Run.{first_index};

use crate::phase::Workload;
use auction_rows::Policy;
use phase_workers::Round;
use worker_journals::SharedScripts;

/// A phase of a run: how the scripts are divided, and the round that goes on with each.
#[derive(Drop)]
pub(crate) struct PhasePlan<'a, G> {
    pub(crate) policy: Policy,
    pub(crate) scripts: &'a SharedScripts,
    // It goes on at the first index that reaches the phase.
    pub(crate) round: Round<'a, G>,
    ghost same: { round.scripts.now ≡ scripts.now },
}

impl<'a, G> PhasePlan<'a, G> {
    ghost use Rattle.run_phases.specs.inner.Plans.{IsPlanOf};

    /// The plan of a phase.
    pub(crate) fn new(work: &Workload<'a, G>, phase: u64) -> PhasePlan<'a, G>
        requires { phase < 2 ^ 31 }
        ensures scripts { result.round.scripts.now ≡ work.entry.now.scripts.now }
        ensures policy { result.policy ≡ work.entry.now.policy }
        ensures plan { IsPlanOf result phase }
    {
        let round = Round {
            scripts: work.scripts.as_slice(),
            first: first_index(work.policy, phase),
            phase,
            gate: work.gate,
        };
        PhasePlan {
            policy: work.policy,
            scripts: work.scripts,
            round,
        }
    }
}

// The first index that reaches a phase: each two phases before it took both quotas.
fn first_index(policy: Policy, phase: u64) -> u64
    requires { phase < 2 ^ 31 }
    ensures { result ≡ first_index policy phase }
{
    let joined = u64::from(policy.joined_quota);
    let split = u64::from(policy.split_quota);
    let before = phase / 2 * (joined + split);
    if phase % 2 == 0 {
        return before;
    }
    before + joined
}
